//! Laws of microflows.
ghost use Rattle.std.specs.Prelude.{◌≡◌, true, List, Some, None, Ok, All};
ghost use Rattle.std.specs.List.{find};
ghost use Rattle.nv_base.specs.declared.field.Field.{Field};
ghost use Rattle.nv_base.specs.declared.field.Field.TheVariants.{Inport};
ghost use Rattle.nv_base.specs.declared.field.Prerequisite.TheVariants as needs;
ghost use Rattle.nv_base.specs.declared.object.ObjId.{ObjId};
ghost use Rattle.expr_core.specs.Formula.{Formula};
ghost use Rattle.expr_core.specs.Lookup.{Lookup};
ghost use Rattle.expr_core.specs.TypeRules.{is_quote};
ghost use Rattle.expr_core.specs.WellTyped.{IsTyped};
ghost use Rattle.expr_core.specs.declared.role.Role.TheVariants as role;
ghost use Rattle.expr_core.specs.declared.typed.TypedAtom.{TypedAtom};
ghost use Rattle.pkt_core.specs.Packet.{value, with_value};
ghost use Rattle.pkt_core.specs.Prerequisite.{meets};
ghost use Rattle.expr_eval.specs.MatchMeaning.{holds};
ghost use Rattle.pkt_micro.specs.Microflow.{is_of, number_of, said, microflow};
ghost use Rattle.pkt_micro.specs.declared.equality.Equality.{Equality};
ghost use Rattle.pkt_micro.specs.declared.microflow.Micro.{Micro};

/// The packet of a microflow has each number that is said, whatever the order, and zero for a field of which nothing is
/// said.
pub fn a_packet_has_what_is_said()
    ensures said { (t : Formula TypedAtom) (m : Micro) (es : List Equality) → said t ≡ Some es → microflow t ≡ Ok m → All (λ e. value m.packet e.field ≡ number_of e.value) es }
    ensures unsaid { (t : Formula TypedAtom) (m : Micro) (es : List Equality) (field : Field) → said t ≡ Some es → microflow t ≡ Ok m → find (is_of field) es ≡ None → value m.packet field ≡ 0 }
{}

/// The match of a microflow holds of its packet, once its `inport` has the number of the port of that name; where it says
/// a quote, the packet must be an ICMP error.
pub fn a_microflow_holds_of_its_packet()
    ensures { (net : Lookup) (t : Formula TypedAtom) (m : Micro) (es : List Equality) (port : ObjId) → IsTyped role.Micro t → said t ≡ Some es → microflow t ≡ Ok m → net.port m.inport ≡ Some port
        → All (λ e. is_quote e.field ≡ true → meets (with_value m.packet Inport port.0) needs.IcmpError ≡ true) es
        → holds net (with_value m.packet Inport port.0) t ≡ true }
{}
