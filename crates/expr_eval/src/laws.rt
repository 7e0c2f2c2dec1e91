//! Laws of the meaning.
ghost use Rattle.std.specs.Prelude.{◌≡◌, ◌&&◌, false};
ghost use Rattle.std.specs.List.{list_any, list_all};
ghost use Rattle.nv_base.specs.declared.field.Prerequisite.{Prerequisite};
ghost use Rattle.nv_base.specs.declared.field.Prerequisite.TheVariants as needs;
ghost use Rattle.expr_core.specs.Tests.{prerequisite_tests};
ghost use Rattle.pkt_core.specs.Packet.{Values};
ghost use Rattle.pkt_core.specs.Prerequisite.{meets};
ghost use Rattle.expr_core.specs.Formula.{Formula};
ghost use Rattle.expr_core.specs.Lookup.{Lookup};
ghost use Rattle.expr_core.specs.declared.predicate.Pred.TheVariants as pred;
ghost use Rattle.expr_core.specs.declared.typed.TypedAtom.{TypedAtom};
ghost use Rattle.expr_core.specs.declared.typed.TypedAtom.TheVariants.{Holds};
ghost use Rattle.expr_eval.specs.MatchMeaning.{passes, atom_holds, holds, negation_holds};

/// A predicate that names what a field needs to be there holds of exactly the packets that meet it.
pub fn predicates_are_prerequisites()
    ensures ip4 { (net : Lookup) (packet : Values) → atom_holds net packet (Holds pred.Ip4) ≡ meets packet needs.Ip4 }
    ensures arp { (net : Lookup) (packet : Values) → atom_holds net packet (Holds pred.Arp) ≡ meets packet needs.Arp }
    ensures tcp { (net : Lookup) (packet : Values) → atom_holds net packet (Holds pred.Tcp) ≡ meets packet needs.Tcp }
    ensures udp { (net : Lookup) (packet : Values) → atom_holds net packet (Holds pred.Udp) ≡ meets packet needs.Udp }
    ensures icmp4 { (net : Lookup) (packet : Values) → atom_holds net packet (Holds pred.Icmp4) ≡ meets packet needs.Icmp4 }
{}

/// A packet meets a prerequisite where of each list of its tests one passes.
pub fn prerequisites_are_tests()
    ensures { (packet : Values) (needed : Prerequisite) → meets packet needed ≡ list_all (list_any (passes packet)) (prerequisite_tests needed) }
{}

/// No match holds of a packet together with its negation. Of a packet without a field that is asked for, neither may.
pub fn a_match_excludes_its_negation()
    ensures { (net : Lookup) (packet : Values) (f : Formula TypedAtom) → (holds net packet f && negation_holds net packet f) ≡ false }
{}
