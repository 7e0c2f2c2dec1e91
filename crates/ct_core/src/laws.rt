//! Laws of looking up and of the changes.
ghost use Rattle.std.specs.Prelude.{◌≡◌, ℕ, ◌<◌, Bool, List, None, Some, false, true, length};
ghost use Rattle.std.specs.List.{list_any};
ghost use Rattle.nv_base.specs.declared.ip4.Ip4.{Ip4};
ghost use Rattle.nv_base.specs.declared.object.ObjId.{ObjId};
ghost use Rattle.pkt_core.specs.Packet.{Values};
ghost use Rattle.pkt_core.specs.Prerequisite.{is_icmp_error};
ghost use Rattle.ct_core.specs.declared.entry.Entry.{Entry};
ghost use Rattle.ct_core.specs.declared.look.Look.TheVariants.{Found};
ghost use Rattle.ct_core.specs.declared.look.Side.{Side};
ghost use Rattle.ct_core.specs.declared.neighbour.Neighbour.{Neighbour};
ghost use Rattle.ct_core.specs.declared.zone.Zone.{Zone};
ghost use Rattle.ct_core.specs.Changes.{AreConnections, IsEntry, connection_limit, marked, recorded, without_zone};
ghost use Rattle.ct_core.specs.Entry.{has};
ghost use Rattle.ct_core.specs.Look.{Finds, blocked_at, look, place_of, sought};
ghost use Rattle.ct_core.specs.Neighbours.{AreNeighbours, IsNeighbour, is_known, is_of, learnt, mac_of, neighbour_limit, neighbour_of, without_port};

/// What is found is the first entry of the zone that has the tuple in that direction, and its mark.
pub fn entries_found_are_there()
    ensures { (conns : List Entry) (zone : Zone) (packet : Values) (place : ℕ) (side : Side) (related blocked : Bool)
        → look conns zone packet ≡ Found place side related blocked → Finds conns zone (sought packet) place side × (related ≡ is_icmp_error packet) × (blocked ≡ blocked_at conns place) }
{}

/// Where nothing is found, no entry of the zone has the tuple in either direction.
pub fn entries_not_found_are_not_there()
    ensures { (conns : List Entry) (zone : Zone) (packet : Values) → place_of (look conns zone packet) ≡ None
        → (side : Side) → list_any (has side zone (sought packet)) conns ≡ false }
{}

/// The changes leave connections, and an entry is refused at the bound alone.
pub fn changes_keep_connections()
    ensures recorded { (e : Entry) (old new : List Entry) → AreConnections old → IsEntry e → recorded e old ≡ Some new → AreConnections new }
    ensures refused { (e : Entry) (old : List Entry) → AreConnections old → recorded e old ≡ None → length old ≡ connection_limit }
    ensures marked { (place : ℕ) (blocked : Bool) (old : List Entry) → AreConnections old → AreConnections (marked place blocked old) }
    ensures without { (zone : Zone) (old : List Entry) → AreConnections old → AreConnections (without_zone zone old) }
{}

/// Learning leaves neighbours, and so does forgetting what a port knows.
pub fn learning_keeps_neighbours()
    ensures learnt { (n : Neighbour) (old : List Neighbour) → AreNeighbours old → IsNeighbour n → AreNeighbours (learnt n old) }
    ensures without { (port : ObjId) (old : List Neighbour) → AreNeighbours old → AreNeighbours (without_port port old) }
{}

/// What is learnt is known after, where there is room for it or something was known. Of other addresses, and by other ports, the
/// same is known as before.
pub fn what_is_learnt_is_known()
    ensures learnt { (n : Neighbour) (old : List Neighbour) → length old < neighbour_limit → neighbour_of (learnt n old) n.port n.addr ≡ Some n }
    ensures mac { (n : Neighbour) (old : List Neighbour) → length old < neighbour_limit → mac_of (learnt n old) n.port n.addr ≡ n.mac }
    ensures again { (n : Neighbour) (old : List Neighbour) → is_known n.port n.addr old ≡ true → neighbour_of (learnt n old) n.port n.addr ≡ Some n }
    ensures others { (n : Neighbour) (old : List Neighbour) (port : ObjId) (addr : Ip4) → is_of port addr n ≡ false
        → neighbour_of (learnt n old) port addr ≡ neighbour_of old port addr }
{}
