//! The law of joins: any number of deltas add up.
ghost use Rattle.std.specs.Prelude.{◌≡◌, List};
ghost use Rattle.nv_map.specs.Map.{value_at};
ghost use Rattle.inc_table.specs.Delta.{after_all};
ghost use Rattle.inc_join.specs.Join.{FollowsSides, Joining, SideDelta, joined, left_deltas, right_deltas};

use crate::Link;

/// After any deltas of either side the inputs have all of them applied, and the table is the join of the inputs.
pub fn joins_follow_any_deltas<L: Link>()
    ensures table { (deltas : List (SideDelta L.LeftKey L.Left L.RightKey L.Right)) (old new : Joining L.LeftKey L.Left L.RightKey L.Right L) → FollowsSides L.LeftKey.cmp L.RightKey.cmp L.link_of deltas old new → old.table ≡ joined L.RightKey.cmp L.link_of old.left old.right → new.table ≡ joined L.RightKey.cmp L.link_of new.left new.right }
    ensures left { (deltas : List (SideDelta L.LeftKey L.Left L.RightKey L.Right)) (old new : Joining L.LeftKey L.Left L.RightKey L.Right L) → FollowsSides L.LeftKey.cmp L.RightKey.cmp L.link_of deltas old new → (key : L.LeftKey) → value_at L.LeftKey.cmp key new.left ≡ after_all L.LeftKey.cmp key (left_deltas deltas) (value_at L.LeftKey.cmp key old.left) }
    ensures right { (deltas : List (SideDelta L.LeftKey L.Left L.RightKey L.Right)) (old new : Joining L.LeftKey L.Left L.RightKey L.Right L) → FollowsSides L.LeftKey.cmp L.RightKey.cmp L.link_of deltas old new → (key : L.RightKey) → value_at L.RightKey.cmp key new.right ≡ after_all L.RightKey.cmp key (right_deltas deltas) (value_at L.RightKey.cmp key old.right) }
{}
