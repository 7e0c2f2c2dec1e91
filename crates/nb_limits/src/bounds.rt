//! How much of each kind there may be (not from OVN).
ghost use Rattle.std.specs.Prelude.{◌≡◌};
ghost use Rattle.nb_model.specs.Amounts.{bound};

use nb_records::Kind;

/// How much of a kind there may be.
pub(crate) fn bound(kind: Kind) -> u32
    ensures { result ≡ bound kind }
{
    match kind {
        Kind::Vip | Kind::Backend => 64,
        Kind::Router => 256,
        Kind::Switch | Kind::Lb => 1024,
        Kind::RouterPort => 2048,
        Kind::Network | Kind::Route | Kind::Nat | Kind::Set | Kind::Binding => 4096,
        Kind::Port | Kind::Acl | Kind::VipDatapath => 16_384,
        Kind::Address | Kind::Security => 32_768,
        Kind::AclSwitch => 65_536,
        Kind::Neighbour | Kind::Member => 262_144,
        Kind::MatchText => 67_108_864,
    }
}
