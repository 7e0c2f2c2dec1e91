//! The laws of groups: any number of deltas add up, and inputs have one table.
ghost use Rattle.std.specs.Prelude.{◌≡◌, List};
ghost use Rattle.nv_map.specs.Map.{KeysRise, value_at};
ghost use Rattle.inc_table.specs.declared.delta.Change.{Change};
ghost use Rattle.inc_table.specs.Delta.{after_all};
ghost use Rattle.inc_group.specs.Group.{FollowsDeltas, Grouping, IsGrouped};

use crate::Groups;

/// After any deltas the inputs have all of them applied, and the table has the groups of the inputs.
pub fn groups_follow_any_deltas<G: Groups>()
    ensures table { (deltas : List (List (G.Key × Change G.Value))) (old new : Grouping G.Key G.Value G.Group G) → FollowsDeltas G.Key.cmp G.Group.cmp G.groups_of deltas old new → IsGrouped G.Group.cmp G.groups_of old.inputs old.table → IsGrouped G.Group.cmp G.groups_of new.inputs new.table }
    ensures inputs { (deltas : List (List (G.Key × Change G.Value))) (old new : Grouping G.Key G.Value G.Group G) → FollowsDeltas G.Key.cmp G.Group.cmp G.groups_of deltas old new → (key : G.Key) → value_at G.Key.cmp key new.inputs ≡ after_all G.Key.cmp key deltas (value_at G.Key.cmp key old.inputs) }
{}

/// Inputs have one table of groups. So what a node has after a delta is what it would have if it had grouped all anew.
pub fn inputs_have_one_table_of_groups<G: Groups>()
    ensures { (inputs : List (G.Key × G.Value)) (one other : List (G.Group × List (G.Key × G.Value))) → IsGrouped G.Group.cmp G.groups_of inputs one → IsGrouped G.Group.cmp G.groups_of inputs other → one ≡ other }
{}
