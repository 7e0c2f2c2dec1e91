//! How the words of commands are written.
ghost use Rattle.std.specs.Prelude.{◌≡◌, [], ◌++◌, codes, decimal, OnOk, OnErr};
ghost use Rattle.nv_base.specs.Growth.{GrowsAtEnd};
ghost use Rattle.nv_base.specs.Ip4.{ip4_text};
ghost use Rattle.nv_base.specs.Mac.{mac_text};
ghost use Rattle.nv_base.specs.Prefix.{prefix_text};
ghost use Rattle.nb_records.specs.Refusal.{spaced};
ghost use Rattle.nb_text.specs.Words.{in_quotes, each_spaced, mac_with, net_text, service_text, backends_text, nat_kind_text, proto_text, way_text, verdict_text};

use nb_records::{Addr, Backend, Guard, Member, NatKind, Proto, Verdict, Way};
use nv_base::{Ip4, Mac, OutOfMemory, Prefix, put_dec, put_ip4, put_mac, put_prefix};

/// What is written as a word of its own, of which a command may have many.
pub trait Word: Sized {
    ghost use Rattle.std.specs.Prelude.{◌≡◌, ◌++◌, ℕ, List, OnOk, OnErr};
    ghost use Rattle.nv_base.specs.Growth.{GrowsAtEnd};

    /// Its text.
    ghost text: { Self → List ℕ };

    /// Appends its text. After `OutOfMemory` more bytes may follow what was there.
    fn put(&self, out: &mut Vec<u8>) -> Result<(), OutOfMemory>
        ensures ok { OnOk result (out.new.items ≡ out.old.items ++ text self.now) }
        ensures err { OnErr result (GrowsAtEnd out.old.items out.new.items) };
}

/// Appends a word, after a space. After `OutOfMemory` more bytes may follow what was there.
pub fn put_word(out: &mut Vec<u8>, word: &[u8]) -> Result<(), OutOfMemory>
    ensures ok { OnOk result (out.new.items ≡ out.old.items ++ spaced word.now) }
    ensures err { OnErr result (GrowsAtEnd out.old.items out.new.items) }
{
    out.push(b' ')?;
    out.extend_from_slice(word)?;
    Ok(())
}

/// Appends each of these as a word, after a space. After `OutOfMemory` more bytes may follow what was there.
pub fn put_each<W: Word>(out: &mut Vec<u8>, words: &[W]) -> Result<(), OutOfMemory>
    ensures ok { OnOk result (out.new.items ≡ out.old.items ++ each_spaced W.text words.now) }
    ensures err { OnErr result (GrowsAtEnd out.old.items out.new.items) }
{
    for word in words {
        put_after_space(out, word)?;
    }
    Ok(())
}

// Appends a word of its own, after a space.
fn put_after_space<W: Word>(out: &mut Vec<u8>, word: &W) -> Result<(), OutOfMemory>
    ensures ok { OnOk result (out.new.items ≡ out.old.items ++ spaced (W.text word.now)) }
    ensures err { OnErr result (GrowsAtEnd out.old.items out.new.items) }
{
    out.push(b' ')?;
    word.put(out)?;
    Ok(())
}

// A MAC alone or, in quotes, with what goes with it.
fn put_mac_with<W: Word>(out: &mut Vec<u8>, mac: Mac, words: &[W]) -> Result<(), OutOfMemory>
    ensures ok { OnOk result (out.new.items ≡ out.old.items ++ mac_with W.text mac words.now) }
    ensures err { OnErr result (GrowsAtEnd out.old.items out.new.items) }
{
    if words.is_empty() {
        put_mac(out, mac)
    } else {
        put_quoted_mac(out, mac, words)
    }
}

fn put_quoted_mac<W: Word>(out: &mut Vec<u8>, mac: Mac, words: &[W]) -> Result<(), OutOfMemory>
    ensures ok { OnOk result (out.new.items ≡ out.old.items ++ in_quotes (mac_text mac ++ each_spaced W.text words.now)) }
    ensures err { OnErr result (GrowsAtEnd out.old.items out.new.items) }
{
    out.push(b'\'')?;
    put_mac(out, mac)?;
    put_each(out, words)?;
    out.push(b'\'')?;
    Ok(())
}

impl Word for Ip4 {
    ghost text = { ip4_text };

    fn put(&self, out: &mut Vec<u8>) -> Result<(), OutOfMemory> {
        put_ip4(out, *self)
    }
}

impl Word for Prefix {
    ghost text = { net_text };

    fn put(&self, out: &mut Vec<u8>) -> Result<(), OutOfMemory> {
        if self.len == 32 {
            put_ip4(out, self.base)
        } else {
            put_prefix(out, *self)
        }
    }
}

impl Word for Addr {
    ghost use Rattle.nb_text.specs.Words.{addr_text};

    ghost text = { addr_text };

    fn put(&self, out: &mut Vec<u8>) -> Result<(), OutOfMemory> {
        match self {
            Addr::Unknown => Ok(out.extend_from_slice(b"unknown")?),
            Addr::Router => Ok(out.extend_from_slice(b"router")?),
            Addr::Host { mac, ips } => put_mac_with(out, *mac, ips.as_slice()),
        }
    }
}

impl Word for Guard {
    ghost use Rattle.nb_text.specs.Words.{guard_text};

    ghost text = { guard_text };

    fn put(&self, out: &mut Vec<u8>) -> Result<(), OutOfMemory> {
        put_mac_with(out, self.mac, self.nets.as_slice())
    }
}

impl Word for Member {
    ghost use Rattle.nb_text.specs.Words.{member_text};

    ghost text = { member_text };

    fn put(&self, out: &mut Vec<u8>) -> Result<(), OutOfMemory> {
        match self {
            Member::Mac(mac) => put_mac(out, *mac),
            Member::Net(net) => net.put(out),
        }
    }
}

/// Appends networks with their lengths, each after a space. After `OutOfMemory` more bytes may follow what was there.
pub fn put_networks(out: &mut Vec<u8>, nets: &[Prefix]) -> Result<(), OutOfMemory>
    ensures ok { OnOk result (out.new.items ≡ out.old.items ++ each_spaced prefix_text nets.now) }
    ensures err { OnErr result (GrowsAtEnd out.old.items out.new.items) }
{
    for net in nets {
        put_network(out, *net)?;
    }
    Ok(())
}

/// Appends a network with its length, after a space. After `OutOfMemory` more bytes may follow what was there.
pub fn put_network(out: &mut Vec<u8>, net: Prefix) -> Result<(), OutOfMemory>
    ensures ok { OnOk result (out.new.items ≡ out.old.items ++ spaced (prefix_text net)) }
    ensures err { OnErr result (GrowsAtEnd out.old.items out.new.items) }
{
    out.push(b' ')?;
    put_prefix(out, net)?;
    Ok(())
}

/// Appends a MAC, after a space. After `OutOfMemory` more bytes may follow what was there.
pub fn put_mac_word(out: &mut Vec<u8>, mac: Mac) -> Result<(), OutOfMemory>
    ensures ok { OnOk result (out.new.items ≡ out.old.items ++ spaced (mac_text mac)) }
    ensures err { OnErr result (GrowsAtEnd out.old.items out.new.items) }
{
    out.push(b' ')?;
    put_mac(out, mac)?;
    Ok(())
}

/// Appends an address, after a space. After `OutOfMemory` more bytes may follow what was there.
pub fn put_ip4_word(out: &mut Vec<u8>, addr: Ip4) -> Result<(), OutOfMemory>
    ensures ok { OnOk result (out.new.items ≡ out.old.items ++ spaced (ip4_text addr)) }
    ensures err { OnErr result (GrowsAtEnd out.old.items out.new.items) }
{
    put_after_space(out, &addr)
}

/// Appends a prefix, as an address where its length is 32, after a space. After `OutOfMemory` more bytes may follow what was
/// there.
pub fn put_net_word(out: &mut Vec<u8>, net: Prefix) -> Result<(), OutOfMemory>
    ensures ok { OnOk result (out.new.items ≡ out.old.items ++ spaced (net_text net)) }
    ensures err { OnErr result (GrowsAtEnd out.old.items out.new.items) }
{
    put_after_space(out, &net)
}

/// Appends an address, and a port where there is one. After `OutOfMemory` more bytes may follow what was there.
pub fn put_service(out: &mut Vec<u8>, addr: Ip4, port: Option<u16>) -> Result<(), OutOfMemory>
    ensures ok { OnOk result (out.new.items ≡ out.old.items ++ service_text addr port) }
    ensures err { OnErr result (GrowsAtEnd out.old.items out.new.items) }
{
    put_ip4(out, addr)?;
    match port {
        Some(port) => put_service_port(out, port),
        None => Ok(()),
    }
}

fn put_service_port(out: &mut Vec<u8>, port: u16) -> Result<(), OutOfMemory>
    ensures ok { OnOk result (out.new.items ≡ out.old.items ++ codes ":" ++ decimal port) }
    ensures err { OnErr result (GrowsAtEnd out.old.items out.new.items) }
{
    out.push(b':')?;
    put_dec(out, u128::from(port))?;
    Ok(())
}

/// Appends backends with commas between. After `OutOfMemory` more bytes may follow what was there.
pub fn put_backends(out: &mut Vec<u8>, backends: &[Backend]) -> Result<(), OutOfMemory>
    ensures ok { OnOk result (out.new.items ≡ out.old.items ++ backends_text [] backends.now) }
    ensures err { OnErr result (GrowsAtEnd out.old.items out.new.items) }
{
    let mut front = b"".as_slice();
    for backend in backends {
        out.extend_from_slice(front)?;
        put_service(out, backend.addr, backend.port)?;
        front = b",".as_slice();
    }
    Ok(())
}

/// The word for the type of a NAT rule.
pub fn nat_kind_text(kind: NatKind) -> &'static str
    ensures { result.now ≡ nat_kind_text kind }
{
    match kind {
        NatKind::Snat => "snat",
        NatKind::Dnat => "dnat",
        NatKind::DnatAndSnat => "dnat_and_snat",
    }
}

/// The word for a protocol.
pub fn proto_text(proto: Proto) -> &'static str
    ensures { result.now ≡ proto_text proto }
{
    match proto {
        Proto::Tcp => "tcp",
        Proto::Udp => "udp",
    }
}

/// The word for the direction of an ACL.
pub fn way_text(way: Way) -> &'static str
    ensures { result.now ≡ way_text way }
{
    match way {
        Way::From => "from-lport",
        Way::To => "to-lport",
    }
}

/// The word for the verdict of an ACL.
pub fn verdict_text(verdict: Verdict) -> &'static str
    ensures { result.now ≡ verdict_text verdict }
{
    match verdict {
        Verdict::Allow => "allow",
        Verdict::AllowRelated => "allow-related",
        Verdict::AllowStateless => "allow-stateless",
        Verdict::Drop => "drop",
        Verdict::Reject => "reject",
    }
}
