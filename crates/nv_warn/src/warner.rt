//! Warnings, each once.
use crate::acls::{Bare, bare_owner, unnamed};
use crate::lines::{Line, Lines};
use crate::names::{Named, names_in};
use crate::ports::{PortWarning, port_warning};
use crate::told::{Matter, Told, is_told};
use crate::words::{name_after, word_of};
use nb_records::{Acl, Port};
use nb_store::Records;
use nv_base::{ObjId, OutOfMemory, put_dec};
use nv_excerpt::{Span, put_excerpt};
use std::alloc::Global;

/// What is known of a script that is run, line by line: which lines made what, and which warnings were told.
#[derive(Drop)]
pub struct Warner<'s> {
    name: &'s [u8],
    lines: Lines<'s>,
    told: Vec<Told>,
    is_changed: bool,
}

impl<'s> Warner<'s> {
    /// Before the first line of a script of this name.
    pub fn new(alloc: Global, name: &'s [u8]) -> Self {
        Warner {
            name,
            lines: Lines::new(alloc),
            told: Vec::new(alloc),
            is_changed: false,
        }
    }

    /// Notes a line that was done, before which the next object would have had the number `next`. The records are those after it. After
    /// `OutOfMemory` the line may be noted or not.
    pub fn note(
        &mut self,
        alloc: Global,
        next: u32,
        records: &Records,
        line: Line<'s>,
    ) -> Result<(), OutOfMemory> {
        self.is_changed = true;
        self.lines.note(alloc, next, records, line)
    }

    /// Appends what there is to warn of the network that was not told before (not from OVN): the name of the script, the number of a
    /// line, and what of it does nothing as it stands; then the line, a caret under the place, and what to do. After `OutOfMemory` some
    /// of it may be appended.
    pub fn put_warnings(
        &mut self,
        alloc: Global,
        out: &mut Vec<u8>,
        records: &Records,
    ) -> Result<(), OutOfMemory> {
        if self.is_changed {
            self.put_ports(alloc, out, records)?;
            self.put_acls(alloc, out, records)?;
        }
        self.is_changed = false;
        Ok(())
    }

    // Whether the warning was not told before; from now on it was.
    fn is_new(&mut self, object: ObjId, matter: Matter) -> Result<bool, OutOfMemory> {
        if is_told(&self.told, object, matter) {
            return Ok(false);
        }
        self.told.push(Told { object, matter })?;
        Ok(true)
    }

    fn put_ports(
        &mut self,
        alloc: Global,
        out: &mut Vec<u8>,
        records: &Records,
    ) -> Result<(), OutOfMemory> {
        let mut last = None;
        for _ in 0..records.ports().count() {
            let Some(port) = records.ports().after(last) else {
                break;
            };
            if let Some(warning) = port_warning(records, port) {
                self.put_port(alloc, out, port, warning)?;
            }
            last = Some(port.id);
        }
        Ok(())
    }

    fn put_port(
        &mut self,
        alloc: Global,
        out: &mut Vec<u8>,
        port: &Port,
        warning: &PortWarning,
    ) -> Result<(), OutOfMemory> {
        if !self.is_new(port.id, warning.matter)? {
            return Ok(());
        }
        let Some(line) = self.lines.that_set(port.id, warning.command) else {
            return Ok(());
        };
        let name = port.name.as_slice();
        let mark = word_of(alloc, line.bytes, warning.command, name, warning.word)?;
        self.put_heading(out, line)?;
        out.extend_from_slice(b"port ")?;
        out.extend_from_slice(name)?;
        out.extend_from_slice(warning.says.as_bytes())?;
        put_rest(out, line, mark, warning.hint)
    }

    fn put_acls(
        &mut self,
        alloc: Global,
        out: &mut Vec<u8>,
        records: &Records,
    ) -> Result<(), OutOfMemory> {
        let mut last = None;
        for _ in 0..records.acls().count() {
            let Some(acl) = records.acls().after(last) else {
                break;
            };
            self.put_acl(alloc, out, records, acl)?;
            last = Some(acl.id);
        }
        Ok(())
    }

    fn put_acl(
        &mut self,
        alloc: Global,
        out: &mut Vec<u8>,
        records: &Records,
        acl: &Acl,
    ) -> Result<(), OutOfMemory> {
        let Some(line) = self.lines.that_made(acl.id) else {
            return Ok(());
        };
        if let Some(owner) = bare_owner(records, acl) {
            self.put_bare(alloc, out, line, acl, owner)?;
        }
        self.put_names(alloc, out, records, line, acl)
    }

    // Warns of an owner without ports, once for all of its ACLs.
    fn put_bare(
        &mut self,
        alloc: Global,
        out: &mut Vec<u8>,
        line: Line<'s>,
        acl: &Acl,
        owner: Bare,
    ) -> Result<(), OutOfMemory> {
        if !self.is_new(acl.owner, Matter::NoPorts)? {
            return Ok(());
        }
        let name = owner.name.as_slice();
        self.put_heading(out, line)?;
        out.extend_from_slice(owner.kind.as_bytes())?;
        out.extend_from_slice(name)?;
        out.extend_from_slice(b" has no ports, so no packet comes to its ACLs")?;
        put_rest(out, line, owner_mark(alloc, line, name)?, owner.hint)
    }

    // Warns of the names in the match of an ACL that nothing has.
    fn put_names(
        &mut self,
        alloc: Global,
        out: &mut Vec<u8>,
        records: &Records,
        line: Line<'s>,
        acl: &Acl,
    ) -> Result<(), OutOfMemory> {
        if is_told(&self.told, acl.id, Matter::Names) {
            return Ok(());
        }
        let mut some_told = false;
        let names = names_in(alloc, &acl.matching)?;
        for named in &names {
            if !named.is_there(alloc, records)? {
                self.put_unnamed(out, line, named)?;
                some_told = true;
            }
        }
        if some_told {
            self.told.push(Told {
                object: acl.id,
                matter: Matter::Names,
            })?;
        }
        Ok(())
    }

    fn put_unnamed(
        &self,
        out: &mut Vec<u8>,
        line: Line<'s>,
        named: &Named,
    ) -> Result<(), OutOfMemory> {
        let (says, hint) = unnamed(named);
        let name = named.name().as_slice();
        self.put_heading(out, line)?;
        out.extend_from_slice(says.as_bytes())?;
        out.extend_from_slice(name)?;
        out.extend_from_slice(b", which the match names")?;
        put_rest(out, line, name_after(line.bytes, named.sign(), name), hint)
    }

    // Where the line stands that is warned of.
    fn put_heading(&self, out: &mut Vec<u8>, line: Line<'s>) -> Result<(), OutOfMemory> {
        out.extend_from_slice(self.name)?;
        out.push(b':')?;
        put_dec(out, u128::from(line.number))?;
        out.extend_from_slice(b": warning: ")?;
        Ok(())
    }
}

// The name of the owner in the line of an ACL.
fn owner_mark(alloc: Global, line: Line, name: &[u8]) -> Result<Option<Span>, OutOfMemory> {
    word_of(alloc, line.bytes, b"acl-add", name, b"")
}

// The line, with a caret under the place, and the hint.
fn put_rest(
    out: &mut Vec<u8>,
    line: Line,
    mark: Option<Span>,
    hint: &str,
) -> Result<(), OutOfMemory> {
    out.push(b'\n')?;
    put_excerpt(out, line.bytes, mark)?;
    out.extend_from_slice(b"    hint: ")?;
    out.extend_from_slice(hint.as_bytes())?;
    out.push(b'\n')?;
    Ok(())
}
