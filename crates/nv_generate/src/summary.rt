ghost use Rattle.std.specs.Prelude.{◌≡◌, ◌++◌, ◌≤◌, OnOk};
ghost use Rattle.nv_generate.specs.Generated.{most_ports, summary, switch_count};

use crate::line::put_with_number;
use nv_base::{OutOfMemory, put_dec};

/// How many switches the generated network of so many ports has (not from OVN).
pub fn switch_count(ports: u16) -> u16
    requires { ports ≤ most_ports }
    ensures { result ≡ switch_count ports }
{
    (ports + 99) / 100
}

/// Appends what is said of the generated network of so many ports, which has so many rows (not from OVN). After `OutOfMemory` nothing
/// is said of what is written.
pub fn put_summary(ports: u16, rows: usize, out: &mut Vec<u8>) -> Result<(), OutOfMemory>
    requires { ports ≤ most_ports }
    ensures { OnOk result (out.new.items ≡ out.old.items ++ summary ports rows) }
{
    put_with_number(out, b"generated switches=", switch_count(ports))?;
    put_with_number(out, b" ports=", ports)?;
    out.extend_from_slice(b" rows=")?;
    put_dec(out, rows as u128)?;
    out.push(b'\n')?;
    Ok(())
}
