//! The keywords that words may be.
ghost use Rattle.std.specs.Prelude.{◌≡◌};
ghost use Rattle.nb_read.specs.Keywords.{way_of, verdict_of, proto_of, nat_kind_of, port_kind_of, state_of};

use nb_records::{NatKind, PortKind, Proto, Verdict, Way};

/// The direction of an ACL by its keyword (ovn-nbctl(8), `acl-add`).
pub fn way_of(text: &[u8]) -> Option<Way>
    ensures { result ≡ way_of text.now }
{
    if text == b"from-lport".as_slice() {
        Some(Way::From)
    } else if text == b"to-lport".as_slice() {
        Some(Way::To)
    } else {
        None
    }
}

/// The verdict of an ACL by its keyword (ovn-nbctl(8), `acl-add`).
pub fn verdict_of(text: &[u8]) -> Option<Verdict>
    ensures { result ≡ verdict_of text.now }
{
    if text == b"allow".as_slice() {
        Some(Verdict::Allow)
    } else if text == b"allow-related".as_slice() {
        Some(Verdict::AllowRelated)
    } else if text == b"allow-stateless".as_slice() {
        Some(Verdict::AllowStateless)
    } else if text == b"drop".as_slice() {
        Some(Verdict::Drop)
    } else if text == b"reject".as_slice() {
        Some(Verdict::Reject)
    } else {
        None
    }
}

/// The protocol of a load balancer by its keyword (ovn-nbctl(8), `lb-add`).
pub fn proto_of(text: &[u8]) -> Option<Proto>
    ensures { result ≡ proto_of text.now }
{
    if text == b"tcp".as_slice() {
        Some(Proto::Tcp)
    } else if text == b"udp".as_slice() {
        Some(Proto::Udp)
    } else {
        None
    }
}

/// The type of a NAT rule by its keyword (ovn-nbctl(8), `lr-nat-add`).
pub fn nat_kind_of(text: &[u8]) -> Option<NatKind>
    ensures { result ≡ nat_kind_of text.now }
{
    if text == b"snat".as_slice() {
        Some(NatKind::Snat)
    } else if text == b"dnat".as_slice() {
        Some(NatKind::Dnat)
    } else if text == b"dnat_and_snat".as_slice() {
        Some(NatKind::DnatAndSnat)
    } else {
        None
    }
}

pub(crate) fn port_kind_of(text: &[u8]) -> Option<PortKind>
    ensures { result ≡ port_kind_of text.now }
{
    if text == b"".as_slice() {
        Some(PortKind::Host)
    } else if text == b"router".as_slice() {
        Some(PortKind::Router)
    } else {
        None
    }
}

/// Whether a port is to be enabled, by its keyword (ovn-nbctl(8), `lsp-set-enabled`).
pub fn state_of(text: &[u8]) -> Option<bool>
    ensures { result ≡ state_of text.now }
{
    if text == b"enabled".as_slice() {
        Some(true)
    } else if text == b"disabled".as_slice() {
        Some(false)
    } else {
        None
    }
}
