ghost use Rattle.std.specs.Prelude.{◌≡◌, ◌++◌, OnOk, OnErr};
ghost use Rattle.nv_base.specs.Growth.{GrowsAtEnd};
ghost use Rattle.nb_text.specs.Commands.{script};
ghost use Rattle.nb_dump.specs.Dump.{dump};
ghost use Rattle.nb_dump.specs.Edits.{dump_edits};

use crate::parts::{Part, put_part};
use nb_store::Records;
use nv_base::OutOfMemory;

// All the commands.
fn put_commands(out: &mut Vec<u8>, records: &Records) -> Result<(), OutOfMemory>
    ensures ok { OnOk result (out.new.items ≡ out.old.items ++ script (dump_edits records.now)) }
    ensures err { OnErr result (GrowsAtEnd out.old.items out.new.items) }
{
    put_part(out, records, Part::Objects)?;
    put_part(out, records, Part::Members)?;
    put_part(out, records, Part::SwitchLbs)?;
    put_part(out, records, Part::RouterLbs)?;
    Ok(())
}

/// Appends the network as a script: the line `# nb-dump 1`, then by rising number the commands that make each object, and at the
/// end those that put ports into groups and attach load balancers (not from OVN; the commands are those of ovn-nbctl(8)). After
/// `OutOfMemory` the bytes before are first, and a part of the script may follow.
pub fn put_dump(out: &mut Vec<u8>, records: &Records) -> Result<(), OutOfMemory>
    ensures ok { OnOk result (out.new.items ≡ out.old.items ++ dump records.now) }
    ensures err { OnErr result (GrowsAtEnd out.old.items out.new.items) }
{
    out.extend_from_slice(b"# nb-dump 1\n")?;
    put_commands(out, records)?;
    Ok(())
}
