//! A law of walks, whatever their parts are.
ghost use Rattle.std.specs.Prelude.{ℕ};
ghost use Rattle.nv_base.specs.declared.object.ObjId.{ObjId};
ghost use Rattle.pkt_core.specs.Packet.{Values, IsPacket};
ghost use Rattle.nb_model.specs.Network.{Network};
ghost use Rattle.net_meaning.specs.Walk.{Parts, walk};
ghost use Rattle.net_walks.specs.Alike.{Agree, ArePackets, IsPort, SameParts};

/// A kind of the states that packets leave.
pub trait States {
    /// The state is of the kind.
    ghost holds: { Self → Type 0 };
}

/// Walks over parts that make the same of each packet, from each state of a kind, are alike, whatever the parts tell on the way; and from a
/// state of the kind they leave another one.
pub fn walks_over_like_parts_are_alike<N, M, S: States>()
    ensures { (net : Network) → ArePackets net → (ps : Parts N S) (qs : Parts M S) → SameParts net S.holds ps qs
        → (hops : ℕ) (port : ObjId) (packet : Values) (state : S) → IsPort net port → IsPacket packet → S.holds state
        → Agree S.holds (walk net ps hops port packet state) (walk net qs hops port packet state) }
{}
