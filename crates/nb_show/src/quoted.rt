//! Lists of words in quotation marks, as ovn-nbctl(8) shows them.
use crate::objects::put_comma;
use nb_records::{Addr, Guard, Member};
use nb_text::{Word, put_each};
use nv_base::{OutOfMemory, Prefix, put_mac, put_prefix};

/// What stands in quotation marks in a list.
pub(crate) trait Quoted: Sized {
    /// Appends its text.
    fn put_text(&self, out: &mut Vec<u8>) -> Result<(), OutOfMemory>;
}

impl Quoted for Addr {
    fn put_text(&self, out: &mut Vec<u8>) -> Result<(), OutOfMemory> {
        match self {
            Addr::Unknown => Ok(out.extend_from_slice(b"unknown")?),
            Addr::Router => Ok(out.extend_from_slice(b"router")?),
            Addr::Host { mac, ips } => {
                put_mac(out, *mac)?;
                put_each(out, ips.as_slice())
            }
        }
    }
}

impl Quoted for Guard {
    fn put_text(&self, out: &mut Vec<u8>) -> Result<(), OutOfMemory> {
        put_mac(out, self.mac)?;
        put_each(out, self.nets.as_slice())
    }
}

impl Quoted for Member {
    fn put_text(&self, out: &mut Vec<u8>) -> Result<(), OutOfMemory> {
        self.put(out)
    }
}

impl Quoted for Prefix {
    fn put_text(&self, out: &mut Vec<u8>) -> Result<(), OutOfMemory> {
        Ok(put_prefix(out, *self)?)
    }
}

fn put_quoted<Q: Quoted>(out: &mut Vec<u8>, item: &Q) -> Result<(), OutOfMemory> {
    out.push(b'"')?;
    item.put_text(out)?;
    out.push(b'"')?;
    Ok(())
}

/// Appends the line of a list that has any items: what it is, and the items in brackets.
pub(crate) fn put_list<Q: Quoted>(
    out: &mut Vec<u8>,
    label: &[u8],
    items: &[Q],
) -> Result<(), OutOfMemory> {
    if items.is_empty() {
        return Ok(());
    }
    out.extend_from_slice(label)?;
    out.extend_from_slice(b": [")?;
    put_items(out, items)?;
    out.extend_from_slice(b"]\n")?;
    Ok(())
}

fn put_items<Q: Quoted>(out: &mut Vec<u8>, items: &[Q]) -> Result<(), OutOfMemory> {
    let mut is_first = true;
    for item in items {
        put_comma(out, is_first)?;
        put_quoted(out, item)?;
        is_first = false;
    }
    Ok(())
}
