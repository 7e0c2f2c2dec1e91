// What no clause says: that the definitions are those of the texts that people write, that a call can succeed,
// and each generic impl at a concrete type.
use nv_base::{
    BadText, Field, Ip4, Items, Kept, Mac, Name, ObjId, OutOfMemory, Prefix, Prerequisite, Printed,
    field_of, put_dec, put_field, put_hex, put_ip4, put_mac, put_prefix, read_ip4, read_mac,
    read_number, read_prefix,
};
use std::alloc::Global;
use std::test::Fail;

// A network's address that is no multiple of its size.
const NET: Prefix = Prefix {
    base: Ip4(0x0A00_0001),
    len: 8,
};

#[test]
fn texts_of_macs_are_read(rt: HostRuntime) {
    assert!(rt; read_mac(b"0A:00:00:00:00:fF") == Ok(Mac(0x0A00_0000_00FF)));
    assert!(rt; read_mac(b"0a-00-00-00-00-ff") == Err(BadText));
}

#[test]
fn texts_of_addresses_are_read(rt: HostRuntime) {
    assert!(rt; read_ip4(b"192.0.2.1") == Ok(Ip4(0xC000_0201)));
    assert!(rt; read_ip4(b"192.0.2.01") == Err(BadText));
    assert!(rt; read_ip4(b"192.0.2.256") == Err(BadText));
    assert!(rt; read_ip4(b"192.0.2") == Err(BadText));
}

#[test]
fn texts_of_networks_are_read(rt: HostRuntime) {
    assert!(rt; read_prefix(b"10.0.0.1/8") == Ok(NET));
    assert!(rt; read_prefix(b"10.0.0.1/33") == Err(BadText));
}

#[test]
fn texts_of_numbers_are_read(rt: HostRuntime) {
    assert!(rt; read_number(b"340282366920938463463374607431768211455") == Ok(u128::MAX));
    assert!(rt; read_number(b"340282366920938463463374607431768211456") == Err(BadText));
    assert!(rt; read_number(b"0xDeadBeef") == Ok(0xDEAD_BEEF));
    assert!(rt; read_number(b"0x") == Err(BadText));
}

fn put_addresses(out: &mut Vec<u8>) -> Result<(), OutOfMemory> {
    put_mac(out, Mac(0x0A00_0000_00FF))?;
    out.push(b' ')?;
    put_ip4(out, Ip4(0xC000_0201))?;
    out.push(b' ')?;
    put_prefix(out, NET)
}

fn put_numbers(out: &mut Vec<u8>) -> Result<(), OutOfMemory> {
    out.push(b' ')?;
    put_dec(out, 4096)?;
    out.push(b' ')?;
    put_hex(out, 4096)
}

#[test]
fn values_are_written(rt: HostRuntime) -> Result<(), Fail> {
    let mut out = Vec::new(rt.alloc());
    put_addresses(&mut out)?;
    put_numbers(&mut out)?;
    assert!(rt; out.as_slice() == b"0a:00:00:00:00:ff 192.0.2.1 10.0.0.1/8 4096 0x1000".as_slice());
    Ok(())
}

#[test]
fn fields_are_found_by_their_names(rt: HostRuntime) {
    assert!(rt; field_of(b"tcp.flags") == Some(Field::TcpFlags));
    assert!(rt; field_of(b"ct_mark.blocked") == Some(Field::CtMarkBlocked));
    assert!(rt; field_of(b"ip6.src").is_none());
    assert!(rt; field_of(b"").is_none());
}

#[test]
fn fields_have_the_numbers_and_widths_of_the_table(rt: HostRuntime) {
    assert!(rt; Field::all()[0] == Field::Inport && Field::all()[35] == Field::Reg6);
    assert!(rt; Field::Reg6.number() == 36 && Field::Reg6.width() == 48);
    assert!(rt; Field::TcpFlags.width() == 12);
}

#[test]
fn fields_are_printed_and_needed_as_in_the_table(rt: HostRuntime) {
    assert!(rt; Field::TcpFlags.printed() == Printed::Hexadecimal);
    assert!(rt; Field::QuoteSport.prerequisite() == Prerequisite::IcmpError);
    assert!(rt; Field::QuoteDport.is_header() && !Field::CtState.is_header());
}

#[test]
fn a_field_is_written_by_its_name(rt: HostRuntime) -> Result<(), Fail> {
    let mut out = Vec::new(rt.alloc());
    put_field(&mut out, Field::Icmp4Type)?;
    assert!(rt; out.as_slice() == b"icmp4.type".as_slice());
    Ok(())
}

fn is_copied<T: Kept + Drop>(value: &T, rt: &HostRuntime) -> bool {
    match value.copy(rt.alloc()) {
        Ok(copied) => copied == *value,
        Err(_) => false,
    }
}

#[test]
fn plain_values_are_copied(rt: HostRuntime) {
    assert!(rt; is_copied(&Field::Icmp4Type, &rt));
    assert!(rt; is_copied(&(1u32, Mac(2), Ip4(3)), &rt));
}

fn two_numbers(alloc: Global) -> Result<Items<Option<ObjId>>, OutOfMemory> {
    let mut items = Items::new(alloc);
    items.push(Some(ObjId(7)))?;
    items.push(None)?;
    Ok(items)
}

#[test]
fn lists_are_copied(rt: HostRuntime) -> Result<(), Fail> {
    let items = two_numbers(rt.alloc())?;
    assert!(rt; items.as_slice().len() == 2);
    assert!(rt; is_copied(&items, &rt));
    assert!(rt; items.into_items().len() == 2);
    Ok(())
}

#[test]
fn names_are_copied(rt: HostRuntime) -> Result<(), Fail> {
    let name = Name::from_slice(rt.alloc(), b"lsp1")?;
    assert!(rt; name.as_slice() == b"lsp1".as_slice());
    assert!(rt; is_copied(&(name, true), &rt));
    Ok(())
}
