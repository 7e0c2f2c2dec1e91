ghost use Rattle.std.specs.Prelude.{◌≡◌, map};
ghost use Rattle.expr_core.specs.Tests.{tests, prerequisite_tests};

use crate::{Bits, Pred};
use nv_base::{Field, Prerequisite};

/// A part of a field, and the number that it is tested for.
#[derive(Clone, Copy)]
pub struct Test {
    /// The field.
    pub field: Field,
    /// Which bits of it.
    pub bits: Bits,
    /// The number.
    pub number: u128,
}

macro_rules! test {
    ($field:ident, $bits:expr, $number:expr) => {
        Test {
            field: Field::$field,
            bits: $bits,
            number: $number,
        }
    };
}

impl Pred {
    /// What it means: it holds where one of these tests does.
    pub fn tests(self) -> &'static [Test]
        ensures { result.now ≡ tests self }
    {
        match self {
            Pred::EthMcast => &[test!(EthDst, Bits::Bit(40), 1)],
            Pred::EthBcast => &[test!(EthDst, Bits::Whole, 0xffff_ffff_ffff)],
            Pred::Ip4 => &[test!(EthType, Bits::Whole, 0x800)],
            Pred::Arp => &[test!(EthType, Bits::Whole, 0x806)],
            Pred::Ip6 => &[test!(EthType, Bits::Whole, 0x86dd)],
            Pred::Ip => &[
                test!(EthType, Bits::Whole, 0x800),
                test!(EthType, Bits::Whole, 0x86dd),
            ],
            Pred::Tcp => &[test!(IpProto, Bits::Whole, 6)],
            Pred::Udp => &[test!(IpProto, Bits::Whole, 17)],
            Pred::Icmp4 | Pred::Icmp => &[test!(IpProto, Bits::Whole, 1)],
            Pred::Ip4Mcast => &[test!(Ip4Dst, Bits::Range(28, 31), 0xe)],
            Pred::CtNew => &[test!(CtState, Bits::Bit(0), 1)],
            Pred::CtEst => &[test!(CtState, Bits::Bit(1), 1)],
            Pred::CtRel => &[test!(CtState, Bits::Bit(2), 1)],
            Pred::CtRpl => &[test!(CtState, Bits::Bit(3), 1)],
            Pred::CtInv => &[test!(CtState, Bits::Bit(4), 1)],
            Pred::CtTrk => &[test!(CtState, Bits::Bit(5), 1)],
        }
    }
}

/// What a prerequisite means: a packet meets it where of each of these lists one test holds.
pub fn prerequisite_tests(needed: Prerequisite) -> &'static [&'static [Test]]
    ensures { map (λ alternatives. alternatives.now) result.now ≡ prerequisite_tests needed }
{
    match needed {
        Prerequisite::Nothing => &[],
        Prerequisite::Ip4 => &[&[test!(EthType, Bits::Whole, 0x800)]],
        Prerequisite::Arp => &[&[test!(EthType, Bits::Whole, 0x806)]],
        Prerequisite::Tcp => &[
            &[test!(EthType, Bits::Whole, 0x800)],
            &[test!(IpProto, Bits::Whole, 6)],
        ],
        Prerequisite::Udp => &[
            &[test!(EthType, Bits::Whole, 0x800)],
            &[test!(IpProto, Bits::Whole, 17)],
        ],
        Prerequisite::Icmp4 => &[
            &[test!(EthType, Bits::Whole, 0x800)],
            &[test!(IpProto, Bits::Whole, 1)],
        ],
        Prerequisite::IcmpError => &[
            &[test!(EthType, Bits::Whole, 0x800)],
            &[test!(IpProto, Bits::Whole, 1)],
            &[
                test!(Icmp4Type, Bits::Whole, 3),
                test!(Icmp4Type, Bits::Whole, 11),
            ],
        ],
    }
}
