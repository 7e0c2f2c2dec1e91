//! The laws of first members: any number of deltas add up, and inputs have one table.
ghost use Rattle.std.specs.Prelude.{◌≡◌, List};
ghost use Rattle.nv_map.specs.Map.{value_at};
ghost use Rattle.inc_table.specs.declared.delta.Change.{Change};
ghost use Rattle.inc_table.specs.Delta.{after_all};
ghost use Rattle.inc_first.specs.First.{HasFirsts, Leading, LeadsAfter};

use inc_group::Groups;

/// After any deltas the inputs have all of them applied, and the table has the first members of the inputs.
pub fn firsts_follow_any_deltas<G: Groups>()
    ensures table { (deltas : List (List (G.Key × Change G.Value))) (old new : Leading G.Key G.Value G.Group G) → LeadsAfter G.Key.cmp G.Group.cmp G.groups_of deltas old new → HasFirsts G.Group.cmp G.groups_of old.inputs old.table → HasFirsts G.Group.cmp G.groups_of new.inputs new.table }
    ensures inputs { (deltas : List (List (G.Key × Change G.Value))) (old new : Leading G.Key G.Value G.Group G) → LeadsAfter G.Key.cmp G.Group.cmp G.groups_of deltas old new → (key : G.Key) → value_at G.Key.cmp key new.inputs ≡ after_all G.Key.cmp key deltas (value_at G.Key.cmp key old.inputs) }
{}

/// Inputs have one table of first members. So what a node has after a delta is what it would have if all were looked for anew.
pub fn inputs_have_one_table_of_firsts<G: Groups>()
    ensures { (inputs : List (G.Key × G.Value)) (one other : List (G.Group × G.Key)) → HasFirsts G.Group.cmp G.groups_of inputs one → HasFirsts G.Group.cmp G.groups_of inputs other → one ≡ other }
{}
