//! Neighbours: a packet tells of one, and one is asked for.
ghost use Rattle.std.specs.Prelude.{◌≡◌, OnOk};
ghost use Rattle.tr_pipe.specs.Learning.{resolved, with_sender};

use ct_core::Neighbour;
use ct_state::Work;
use nv_base::{Field, Ip4, Mac, ObjId, OutOfMemory};
use pkt_core::Packet;

/// Notes who sent an ARP packet as a neighbour of the port that it came in by.
pub(crate) fn put_arp(packet: &Packet, work: &mut Work) -> Result<(), OutOfMemory>
    ensures ok { OnOk result (work.new.state ≡ with_sender packet.now work.old.state) }
    ensures back { work.new.back ≡ work.old.back }
{
    work.learn(Neighbour {
        port: ObjId(packet.get(Field::Inport) as u32),
        addr: Ip4(packet.get(Field::ArpSpa) as u32),
        mac: Mac(packet.get(Field::ArpSha) as u64),
    })
}

/// Makes a packet one for the MAC that the port which it goes out by knows of the address in `reg0`.
pub(crate) fn get_arp(packet: &mut Packet, work: &Work)
    ensures { packet.new ≡ resolved work.now.state.nbrs packet.old }
{
    let port = ObjId(packet.get(Field::Outport) as u32);
    let addr = Ip4(packet.get(Field::Reg0) as u32);
    packet.set(Field::EthDst, u128::from(work.mac_of(port, addr).0));
}
