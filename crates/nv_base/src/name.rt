ghost use Rattle.std.specs.Prelude.{◌≡◌, ℕ, List, IfOk};
ghost use Rattle.std.specs.List.{list_all};
ghost use Rattle.nv_base.specs.Name.{is_name_byte, is_object_name, is_quotable};

use crate::OutOfMemory;
use std::alloc::Global;
use std::cmp::Ordering;
use std::marker::Model;

/// The name of the multicast group of all ports of a switch (ovn-northd(8)).
pub const FLOOD_GROUP: &[u8; 9] = b"_MC_flood";

/// The name of the multicast group of its ports for unknown addresses (ovn-northd(8)).
pub const UNKNOWN_GROUP: &[u8; 11] = b"_MC_unknown";

/// The name of an object. A clause sees its bytes.
#[derive(Drop)]
pub struct Name(Vec<u8>);

impl Model for Name {
    ghost Value = { List ℕ };

    ghost view = { λ n. n.0.items };
}

impl Name {
    /// The name that these bytes spell. Where memory runs out the answer is `OutOfMemory`.
    pub fn from_slice(alloc: Global, bytes: &[u8]) -> Result<Self, OutOfMemory>
        ensures { IfOk result (λ name. name ≡ bytes.now) }
    {
        Ok(Name(Vec::from_slice(alloc, bytes)?))
    }

    /// The bytes of the name.
    pub fn as_slice(&self) -> &[u8]
        ensures { result.now ≡ self.now }
    {
        self.0.as_slice()
    }

    /// The bytes of the name, as a `Vec`.
    pub fn into_items(self) -> Vec<u8>
        ensures { result.items ≡ self }
    {
        self.0
    }
}

impl PartialEq for Name {
    ghost use Rattle.std.specs.Prelude.{◌==◌};
    ghost use Rattle.std.specs.Cmp.Lexicographic.{pointwise, lists_per};
    ghost use Rattle.std.specs.Cmp.{partial_equiv_from_equiv, nat_eq_equiv};

    ghost eq = { λ a b. pointwise ◌==◌ a b };

    ghost laws = { lists_per (partial_equiv_from_equiv nat_eq_equiv) };

    fn eq(&self, other: &Self) -> bool {
        self.0 == other.0
    }
}

impl Eq for Name {
    ghost use Rattle.std.specs.Cmp.Lexicographic.{lists_equiv};
    ghost use Rattle.std.specs.Cmp.{nat_eq_equiv};

    ghost laws = { lists_equiv nat_eq_equiv };
}

impl Ord for Name {
    ghost use Rattle.std.specs.Cmp.{nat_cmp_total};
    ghost use Rattle.std.specs.Cmp.Lexicographic.{slice_cmp, lists_total};
    ghost use Rattle.std.specs.Cmp.Rules.{comparing};
    ghost use Rattle.std.specs.Ordering.{nat_cmp};
    ghost use Rattle.std.proofs.Common.{rules};

    ghost cmp = { slice_cmp nat_cmp };

    ghost total = { lists_total nat_cmp_total };

    ghost matches_partial_cmp = { Prim.search (comparing, rules) };

    ghost matches_eq = { Prim.search (comparing, rules) };

    fn cmp(&self, other: &Self) -> Ordering {
        self.0.cmp(&other.0)
    }
}

impl PartialOrd for Name {
    ghost use Rattle.std.specs.Cmp.{partial_order_from_own_ties};
    ghost use Rattle.std.specs.Cmp.Lexicographic.{slice_cmp};
    ghost use Rattle.std.specs.Cmp.Rules.{comparing};
    ghost use Rattle.std.specs.Ordering.{nat_cmp, as_partial_cmp};
    ghost use Rattle.std.proofs.Common.{rules};

    ghost partial_cmp = { as_partial_cmp (slice_cmp nat_cmp) };

    ghost laws = { partial_order_from_own_ties (Prim.search (comparing, rules)) (Prim.search (comparing, rules)) };

    fn partial_cmp(&self, other: &Self) -> Option<Ordering> {
        Some(self.cmp(other))
    }
}

/// Whether these bytes may name a port, a datapath or a load balancer: 1 to 127 printable ASCII bytes without
/// space, quotation mark and backslash, which begin neither with `-` nor with `_MC_` (not from OVN).
pub fn is_object_name(bytes: &[u8]) -> bool
    ensures { result ≡ is_object_name bytes.now }
{
    !bytes.is_empty()
        && bytes.len() <= 127
        && all_name_bytes(bytes)
        && !bytes.starts_with(b"-")
        && !bytes.starts_with(b"_MC_")
}

/// Whether a string of a match or of an action may hold the name: that of a port or of a multicast group (the groups of
/// ovn-northd(8), 'Logical Switch Datapaths').
pub fn is_quotable(name: &[u8]) -> bool
    ensures { result ≡ is_quotable name.now }
{
    is_object_name(name) || name == FLOOD_GROUP.as_slice() || name == UNKNOWN_GROUP.as_slice()
}

fn all_name_bytes(bytes: &[u8]) -> bool
    ensures { result ≡ list_all is_name_byte bytes.now }
{
    bytes.iter().all(|byte| is_name_byte(*byte))
}

fn is_name_byte(byte: u8) -> bool
    ensures { result ≡ is_name_byte byte }
{
    byte.is_ascii_graphic() && !matches!(byte, b'\'' | b'"' | b'\\')
}
