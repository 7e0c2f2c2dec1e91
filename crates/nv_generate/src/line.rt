ghost use Rattle.std.specs.Prelude.{◌≡◌, ◌++◌, ◌+◌, ◌<◌, ◌^◌, OnOk};
ghost use Rattle.nv_base.specs.Mac.{mac_text};
ghost use Rattle.nv_generate.specs.Generated.{address_text, line_text, numbered};
ghost use Rattle.nv_generate.specs.declared.line.Line.TheVariants.{RouterPort, Uplink, Acl, Host};

use nv_base::{Mac, OutOfMemory, put_dec, put_mac};

// How many hosts a switch has.
const HOSTS: u16 = 100;

// The MAC of the first host, and that of the router's port to the first switch.
const FIRST_HOST: u64 = 0x0200_0000_0000;

const FIRST_ROUTER_PORT: u64 = 0x0201_0000_0000;

/// A line of the generated network (not from OVN). Switches and hosts are numbered from 0.
#[derive(Clone, Copy)]
pub enum Line {
    /// The router is added.
    Router,
    /// A switch is added.
    Switch(u16),
    /// The router's port to a switch is added.
    RouterPort(u16),
    /// A switch's port to the router is added.
    Uplink(u16),
    /// The ACL of a switch is added.
    Acl(u16),
    /// The port of a host is added.
    Host(u16),
}

impl Line {
    /// Appends the line's text, without a newline. After `OutOfMemory` nothing is said of what is written.
    pub fn put(self, out: &mut Vec<u8>) -> Result<(), OutOfMemory>
        ensures { OnOk result (out.new.items ≡ out.old.items ++ line_text self) }
    {
        match self {
            Line::Router => Ok(out.extend_from_slice(b"lr-add gr")?),
            Line::Switch(switch) => put_with_number(out, b"ls-add g", switch),
            Line::RouterPort(switch) => put_router_port(out, switch),
            Line::Uplink(switch) => put_uplink(out, switch),
            Line::Acl(switch) => put_acl(out, switch),
            Line::Host(host) => put_host(out, host),
        }
    }
}

fn put_router_port(out: &mut Vec<u8>, switch: u16) -> Result<(), OutOfMemory>
    ensures { OnOk result (out.new.items ≡ out.old.items ++ line_text (RouterPort switch)) }
{
    put_with_number(out, b"lrp-add gr r", switch)?;
    out.push(b' ')?;
    put_numbered_mac(out, FIRST_ROUTER_PORT, switch)?;
    out.push(b' ')?;
    put_address(out, switch, 1)?;
    out.extend_from_slice(b"/24")?;
    Ok(())
}

fn put_uplink(out: &mut Vec<u8>, switch: u16) -> Result<(), OutOfMemory>
    ensures { OnOk result (out.new.items ≡ out.old.items ++ line_text (Uplink switch)) }
{
    put_with_number(out, b"lsp-add g", switch)?;
    put_with_number(out, b" s", switch)?;
    put_with_number(out, b" -- lsp-set-type s", switch)?;
    put_with_number(out, b" router -- lsp-set-addresses s", switch)?;
    put_with_number(out, b" router -- lsp-set-options s", switch)?;
    put_with_number(out, b" router-port=r", switch)?;
    Ok(())
}

fn put_acl(out: &mut Vec<u8>, switch: u16) -> Result<(), OutOfMemory>
    ensures { OnOk result (out.new.items ≡ out.old.items ++ line_text (Acl switch)) }
{
    put_with_number(out, b"acl-add g", switch)?;
    out.extend_from_slice(b" to-lport 1000 'ip4 && tcp.dst == 22' drop")?;
    Ok(())
}

fn put_host(out: &mut Vec<u8>, host: u16) -> Result<(), OutOfMemory>
    ensures { OnOk result (out.new.items ≡ out.old.items ++ line_text (Host host)) }
{
    let (switch, place) = (host / HOSTS, host % HOSTS + 2);
    put_with_number(out, b"lsp-add g", switch)?;
    put_with_number(out, b" p", host)?;
    put_with_number(out, b" -- lsp-set-addresses p", host)?;
    out.extend_from_slice(b" '")?;
    put_numbered_mac(out, FIRST_HOST, host)?;
    out.push(b' ')?;
    put_address(out, switch, place)?;
    out.push(b'\'')?;
    Ok(())
}

fn put_address(out: &mut Vec<u8>, switch: u16, place: u16) -> Result<(), OutOfMemory>
    ensures { OnOk result (out.new.items ≡ out.old.items ++ address_text switch place) }
{
    put_with_number(out, b"10.1.", switch)?;
    put_with_number(out, b".", place)
}

// Appends the MAC of this number after the first.
fn put_numbered_mac(out: &mut Vec<u8>, first: u64, number: u16) -> Result<(), OutOfMemory>
    requires { first < 2 ^ 47 }
    ensures { OnOk result (out.new.items ≡ out.old.items ++ mac_text (first + number)) }
{
    put_mac(out, Mac(first + u64::from(number)))
}

/// Appends a text, and a number in decimal.
pub(crate) fn put_with_number(
    out: &mut Vec<u8>,
    text: &[u8],
    number: u16,
) -> Result<(), OutOfMemory>
    ensures { OnOk result (out.new.items ≡ out.old.items ++ numbered text.now number) }
{
    out.extend_from_slice(text)?;
    put_dec(out, u128::from(number))
}
