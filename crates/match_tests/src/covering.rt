// That a match is the cubes that people expect of it.
use crate::holding::typed;
use crate::network::Few;
use cube_core::cubes;
use nv_base::Field;
use pkt_core::Packet;
use std::test::Fail;

#[test]
fn a_match_is_a_list_of_cubes(rt: HostRuntime) -> Result<(), Fail> {
    for (text, count) in [
        ("0", 0),
        ("ip4", 1),
        ("ip", 2),
        ("tcp.dst != 80", 16),
        ("tcp.dst < 80", 2),
        ("tcp.src != 1 && tcp.dst != 1", 256),
        ("ip4.src == $s1 && inport == @g1", 1),
        ("ip4.src == 10.0.0.0/8 && ip4.src == 11.0.0.0/8", 0),
    ] {
        let list = cubes(rt.alloc(), &typed(rt.alloc(), text)?, &Few)?;
        assert_eq!(rt; list.len(), count, "{text}");
    }
    Ok(())
}

#[test]
fn a_cube_covers_its_corner(rt: HostRuntime) -> Result<(), Fail> {
    let list = cubes(rt.alloc(), &typed(rt.alloc(), "tcp.dst == 80")?, &Few)?;
    assert_eq!(rt; list.len(), 1);
    let corner = list[0].corner();
    assert_eq!(rt; corner.get(Field::TcpDst), 80);
    assert!(rt; list[0].covers(&corner));
    assert!(rt; !list[0].covers(&Packet::zero()));
    Ok(())
}
