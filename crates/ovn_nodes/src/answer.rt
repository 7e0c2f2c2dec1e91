use crate::grouped::{Grouped, Regrouped};
use crate::joined::{Joined, Told};
use crate::kept::Doubled;
use crate::led::Led;
use crate::script::{Fault, read_asked, read_delta, read_key};
use inc_group::Members;
use inc_table::{Change, Delta, NodeState, Owned, Report};
use nv_base::{OutOfMemory, put_dec};
use std::alloc::Global;

/// How many entries are written one by one.
const WRITTEN: usize = 8;

/// Two nodes that double: one that makes all anew at a delta of more than 2 keys, and one at a delta of more than 1,024. And one that
/// joins, one that groups, and one that keeps first members.
#[derive(Drop)]
pub(crate) struct Nodes {
    few: Doubled<2>,
    many: Doubled<1024>,
    join: Joined,
    group: Grouped,
    first: Led,
}

impl Nodes {
    pub(crate) fn new(alloc: Global) -> Self {
        Nodes {
            few: Doubled::new(alloc, 0),
            many: Doubled::new(alloc, 0),
            join: Joined::new(alloc, 0),
            group: Grouped::new(alloc, 0),
            first: Led::new(alloc, 0),
        }
    }

    /// Appends the answer to a line.
    pub(crate) fn put_answer(
        &mut self,
        alloc: Global,
        out: &mut Vec<u8>,
        line: &[u8],
    ) -> Result<(), OutOfMemory> {
        let mut words = Vec::new(alloc);
        for word in line.split(|byte| *byte == b' ') {
            words.push(word)?;
        }
        let words = words.as_slice();
        let answered = if words.len() < 2 {
            Err(Fault::Word(1))
        } else if words[0] == b"map2".as_slice() {
            answer(alloc, out, &mut self.few, &words[1..])
        } else if words[0] == b"map1024".as_slice() {
            answer(alloc, out, &mut self.many, &words[1..])
        } else if words[0] == b"join".as_slice() {
            answer_join(alloc, out, &mut self.join, &words[1..])
        } else if words[0] == b"group".as_slice() {
            answer_group(alloc, out, &mut self.group, &words[1..])
        } else if words[0] == b"first".as_slice() {
            answer_first(alloc, out, &mut self.first, &words[1..])
        } else {
            Err(Fault::Word(1))
        };
        match answered {
            Ok(()) => {}
            Err(fault) => put_fault(out, fault)?,
        }
        out.push(b'\n')?;
        Ok(())
    }
}

// Does what the words after the node's name say, and appends what came of it.
fn answer<const FALL: usize>(
    alloc: Global,
    out: &mut Vec<u8>,
    doubled: &mut Doubled<FALL>,
    words: &[&[u8]],
) -> Result<(), Fault> {
    if words.is_empty() {
        return Err(Fault::Word(2));
    }
    let command = words[0];
    if command == b"change".as_slice() {
        let delta = read_delta(alloc, &words[1..], 3)?;
        put_report(out, &doubled.change(delta)?)?;
    } else if command == b"start".as_slice() {
        *doubled = Doubled::new(alloc, read_refused(&words[1..])?);
        put_text(out, b"started")?;
    } else if words.len() > 1 {
        return Err(Fault::Word(3));
    } else if command == b"rebuild".as_slice() {
        put_report(out, &doubled.rebuild()?)?;
    } else if command == b"settle".as_slice() {
        put_count(out, b"made ", doubled.settle()?)?;
    } else if command == b"table".as_slice() {
        put_table(out, doubled.node.table())?;
    } else if command == b"state".as_slice() {
        put_state(out, doubled.node.state())?;
    } else {
        return Err(Fault::Word(2));
    }
    Ok(())
}

// The same, of the node that joins.
fn answer_join(
    alloc: Global,
    out: &mut Vec<u8>,
    joined: &mut Joined,
    words: &[&[u8]],
) -> Result<(), Fault> {
    if words.is_empty() {
        return Err(Fault::Word(2));
    }
    let command = words[0];
    if command == b"left".as_slice() {
        let delta = read_delta(alloc, &words[1..], 3)?;
        put_told(out, &joined.change_left(delta)?)?;
    } else if command == b"right".as_slice() {
        let delta = read_delta(alloc, &words[1..], 3)?;
        put_told(out, &joined.change_right(delta)?)?;
    } else if command == b"start".as_slice() {
        *joined = Joined::new(alloc, read_refused(&words[1..])?);
        put_text(out, b"started")?;
    } else if words.len() > 1 {
        return Err(Fault::Word(3));
    } else {
        return ask_join(out, joined, command);
    }
    Ok(())
}

// Does what a command of one word says, of the node that joins.
fn ask_join(out: &mut Vec<u8>, joined: &mut Joined, command: &[u8]) -> Result<(), Fault> {
    if command == b"rebuild".as_slice() {
        joined.rebuild()?;
        put_text(out, b"joined anew")?;
    } else if command == b"settle".as_slice() {
        put_count(out, b"made ", joined.settle()?)?;
    } else if command == b"table".as_slice() {
        put_joined(out, joined.node.table())?;
    } else if command == b"state".as_slice() {
        put_state(out, joined.node.state())?;
    } else {
        return Err(Fault::Word(2));
    }
    Ok(())
}

// The same, of the node that groups.
fn answer_group(
    alloc: Global,
    out: &mut Vec<u8>,
    grouped: &mut Grouped,
    words: &[&[u8]],
) -> Result<(), Fault> {
    if words.is_empty() {
        return Err(Fault::Word(2));
    }
    let command = words[0];
    if command == b"change".as_slice() {
        let delta = read_delta(alloc, &words[1..], 3)?;
        put_regrouped(out, &grouped.change(delta)?)?;
    } else if command == b"start".as_slice() {
        *grouped = Grouped::new(alloc, read_refused(&words[1..])?);
        put_text(out, b"started")?;
    } else if words.len() > 1 {
        return Err(Fault::Word(3));
    } else {
        return ask_group(out, grouped, command);
    }
    Ok(())
}

// The same, of the node that keeps first members.
fn answer_first(
    alloc: Global,
    out: &mut Vec<u8>,
    led: &mut Led,
    words: &[&[u8]],
) -> Result<(), Fault> {
    if words.is_empty() {
        return Err(Fault::Word(2));
    }
    let command = words[0];
    if command == b"feed".as_slice() {
        let (asked, keys) = read_asked(alloc, &words[1..], 3)?;
        put_led(out, &led.feed(alloc, &asked, &keys)?)?;
    } else if command == b"start".as_slice() {
        *led = Led::new(alloc, read_refused(&words[1..])?);
        put_text(out, b"started")?;
    } else if words.len() > 1 {
        return Err(Fault::Word(3));
    } else {
        return ask_first(out, led, command);
    }
    Ok(())
}

// Does what a command of one word says, of the node that keeps first members.
fn ask_first(out: &mut Vec<u8>, led: &mut Led, command: &[u8]) -> Result<(), Fault> {
    if command == b"rebuild".as_slice() {
        led.rebuild()?;
        put_text(out, b"looked up anew")?;
    } else if command == b"settle".as_slice() {
        put_count(out, b"made ", led.settle()?)?;
    } else if command == b"table".as_slice() {
        put_firsts(out, led.node.table())?;
    } else if command == b"state".as_slice() {
        put_state(out, led.node.state())?;
    } else {
        return Err(Fault::Word(2));
    }
    Ok(())
}

// Does what a command of one word says, of the node that groups.
fn ask_group(out: &mut Vec<u8>, grouped: &mut Grouped, command: &[u8]) -> Result<(), Fault> {
    if command == b"rebuild".as_slice() {
        grouped.rebuild()?;
        put_text(out, b"grouped anew")?;
    } else if command == b"settle".as_slice() {
        put_count(out, b"made ", grouped.settle()?)?;
    } else if command == b"table".as_slice() {
        put_groups(out, grouped.node.table())?;
    } else if command == b"state".as_slice() {
        put_state(out, grouped.node.state())?;
    } else {
        return Err(Fault::Word(2));
    }
    Ok(())
}

// The number of the call that is to be refused memory, or 0 where there is no word.
fn read_refused(words: &[&[u8]]) -> Result<u64, Fault> {
    if words.is_empty() {
        return Ok(0);
    }
    if words.len() > 1 {
        return Err(Fault::Word(4));
    }
    Ok(u64::from(read_key(words[0]).ok_or(Fault::Word(3))?))
}

fn put_text(out: &mut Vec<u8>, text: &[u8]) -> Result<(), OutOfMemory> {
    out.extend_from_slice(text)?;
    Ok(())
}

fn put_count(out: &mut Vec<u8>, text: &[u8], count: u64) -> Result<(), OutOfMemory> {
    out.extend_from_slice(text)?;
    put_dec(out, u128::from(count))
}

fn put_report(out: &mut Vec<u8>, report: &Report<u32, u64>) -> Result<(), OutOfMemory> {
    put_count(out, b"made ", report.made)?;
    if report.fell_back {
        out.extend_from_slice(b", all anew")?;
    }
    out.extend_from_slice(b"; changed")?;
    let changes = report.changed.as_slice();
    if changes.len() > WRITTEN {
        return put_count(out, b" keys: ", changes.len() as u64);
    }
    for entry in changes {
        put_change(out, entry)?;
    }
    Ok(())
}

fn put_change(out: &mut Vec<u8>, entry: &(u32, Change<u64>)) -> Result<(), OutOfMemory> {
    match &entry.1 {
        Change::Put(value) => put_entry(out, entry.0, *value),
        Change::Gone => put_count(out, b" -", u64::from(entry.0)),
    }
}

fn put_entry(out: &mut Vec<u8>, key: u32, value: u64) -> Result<(), OutOfMemory> {
    put_count(out, b" ", u64::from(key))?;
    put_count(out, b"=", value)
}

// The entries, or the first ones and how many there are.
fn put_table(out: &mut Vec<u8>, table: &Owned<u32, u64>) -> Result<(), OutOfMemory> {
    put_count(out, b"entries: ", table.len() as u64)?;
    for (key, value) in table.iter().take(WRITTEN) {
        put_entry(out, *key, *value)?;
    }
    if table.len() > WRITTEN {
        out.extend_from_slice(b" ..")?;
    }
    Ok(())
}

// What changed in a table of joined entries.
fn put_told(out: &mut Vec<u8>, told: &Told) -> Result<(), OutOfMemory> {
    out.extend_from_slice(b"changed")?;
    let changes = told.as_slice();
    if changes.len() > WRITTEN {
        return put_count(out, b" keys: ", changes.len() as u64);
    }
    for (key, change) in changes {
        match change {
            Change::Put(entry) => put_pair(out, *key, entry)?,
            Change::Gone => put_count(out, b" -", u64::from(*key))?,
        }
    }
    Ok(())
}

// A key with its left value, and with the right value that this names, or `-`.
fn put_pair(out: &mut Vec<u8>, key: u32, entry: &(u32, Option<u32>)) -> Result<(), OutOfMemory> {
    put_entry(out, key, u64::from(entry.0))?;
    match entry.1 {
        None => put_text(out, b":-"),
        Some(right) => put_count(out, b":", u64::from(right)),
    }
}

// The joined entries, or the first ones and how many there are.
fn put_joined(
    out: &mut Vec<u8>,
    table: &Owned<u32, (u32, Option<u32>)>,
) -> Result<(), OutOfMemory> {
    put_count(out, b"entries: ", table.len() as u64)?;
    for (key, entry) in table.iter().take(WRITTEN) {
        put_pair(out, *key, entry)?;
    }
    if table.len() > WRITTEN {
        out.extend_from_slice(b" ..")?;
    }
    Ok(())
}

// What changed in a table of groups.
fn put_regrouped(out: &mut Vec<u8>, told: &Regrouped) -> Result<(), OutOfMemory> {
    out.extend_from_slice(b"changed")?;
    let changes = told.as_slice();
    if changes.len() > WRITTEN {
        return put_count(out, b" groups: ", changes.len() as u64);
    }
    for (group, change) in changes {
        match change {
            Change::Put(members) => put_members(out, *group, members)?,
            Change::Gone => put_count(out, b" -", u64::from(*group))?,
        }
    }
    Ok(())
}

// A group with its members, or with the first ones.
fn put_members(
    out: &mut Vec<u8>,
    group: u32,
    members: &Members<u32, u32>,
) -> Result<(), OutOfMemory> {
    put_count(out, b" ", u64::from(group))?;
    put_text(out, b":")?;
    let members = members.as_slice();
    for (place, member) in members.iter().take(WRITTEN).enumerate() {
        if place > 0 {
            put_text(out, b",")?;
        }
        put_count(out, b"", u64::from(member.0))?;
        put_count(out, b"=", u64::from(member.1))?;
    }
    if members.len() > WRITTEN {
        put_text(out, b",..")?;
    }
    Ok(())
}

// The groups, or the first ones and how many there are.
fn put_groups(out: &mut Vec<u8>, table: &Owned<u32, Members<u32, u32>>) -> Result<(), OutOfMemory> {
    put_count(out, b"groups: ", table.len() as u64)?;
    for (group, members) in table.iter().take(WRITTEN) {
        put_members(out, *group, members)?;
    }
    if table.len() > WRITTEN {
        out.extend_from_slice(b" ..")?;
    }
    Ok(())
}

// A group with its first member.
fn put_first(out: &mut Vec<u8>, group: u32, member: u32) -> Result<(), OutOfMemory> {
    put_count(out, b" ", u64::from(group))?;
    put_count(out, b":", u64::from(member))
}

// What changed in a table of first members.
fn put_led(out: &mut Vec<u8>, told: &Delta<u32, u32>) -> Result<(), OutOfMemory> {
    out.extend_from_slice(b"changed")?;
    let changes = told.as_slice();
    if changes.len() > WRITTEN {
        return put_count(out, b" groups: ", changes.len() as u64);
    }
    for (group, change) in changes {
        match change {
            Change::Put(member) => put_first(out, *group, *member)?,
            Change::Gone => put_count(out, b" -", u64::from(*group))?,
        }
    }
    Ok(())
}

// The groups with their first members, or the first ones and how many there are.
fn put_firsts(out: &mut Vec<u8>, table: &Owned<u32, u32>) -> Result<(), OutOfMemory> {
    put_count(out, b"groups: ", table.len() as u64)?;
    for (group, member) in table.iter().take(WRITTEN) {
        put_first(out, *group, *member)?;
    }
    if table.len() > WRITTEN {
        out.extend_from_slice(b" ..")?;
    }
    Ok(())
}

fn put_state(out: &mut Vec<u8>, state: NodeState) -> Result<(), OutOfMemory> {
    match state {
        NodeState::Fresh => put_text(out, b"fresh"),
        NodeState::Stale => put_text(out, b"stale"),
    }
}

fn put_fault(out: &mut Vec<u8>, fault: Fault) -> Result<(), OutOfMemory> {
    match fault {
        Fault::Word(place) => put_count(out, b"refused: word ", place as u64),
        Fault::Order(place) => put_count(out, b"refused: order of word ", place as u64),
        Fault::Unchanged => put_text(out, b"refused: unchanged"),
        Fault::Stale => put_text(out, b"refused: stale"),
        Fault::Memory => put_text(out, b"out of memory"),
    }
}
