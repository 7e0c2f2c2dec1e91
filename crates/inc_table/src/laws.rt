//! Laws of deltas: what tells the changes of one table is a delta of a table that follows it, and any number of deltas add up.
ghost use Rattle.std.specs.Prelude.{◌≡◌, List, true};
ghost use Rattle.nv_map.specs.Map.{KeysRise, value_at};
ghost use Rattle.inc_table.specs.declared.delta.Change.{Change};
ghost use Rattle.inc_table.specs.Delta.{IsApplied, IsDifference, after_all, alters_each};
ghost use Rattle.inc_table.specs.Node.{Follows, Node, outputs_of};

use crate::Maker;
use nv_base::Kept;

/// Entries whose keys rise, and that have the same value at each key, are one list. So a table that is told by the value at each key
/// is told whole.
pub fn lists_of_the_same_values_are_one<K: Kept + Ord, V>()
    ensures { (one other : List (K × V)) → KeysRise K.cmp one → KeysRise K.cmp other → ((key : K) → value_at K.cmp key one ≡ value_at K.cmp key other) → one ≡ other }
{}

/// What tells the difference of two tables leads from the one to the other, and each of its changes changes something. So a node may
/// hand it on to one whose inputs are that table.
pub fn differences_are_deltas_of_the_table<K: Kept + Ord, V: Kept>()
    ensures applied { (old new : List (K × V)) (delta : List (K × Change V)) → IsDifference K.cmp V.eq old new delta → IsApplied K.cmp delta old new }
    ensures alters { (old new : List (K × V)) (delta : List (K × Change V)) → KeysRise K.cmp delta → IsDifference K.cmp V.eq old new delta → alters_each K.cmp V.eq delta old ≡ true }
{}

/// After any deltas the inputs have all of them applied, and the table is that of the inputs.
pub fn tables_follow_any_deltas<M: Maker>()
    ensures table { (deltas : List (List (M.Key × Change M.Input))) (old new : Node M.Key M.Input M.Out M) → Follows M.Key.cmp M.out_of deltas old new → old.table ≡ outputs_of M.out_of old.inputs → new.table ≡ outputs_of M.out_of new.inputs }
    ensures inputs { (deltas : List (List (M.Key × Change M.Input))) (old new : Node M.Key M.Input M.Out M) → Follows M.Key.cmp M.out_of deltas old new → (key : M.Key) → value_at M.Key.cmp key new.inputs ≡ after_all M.Key.cmp key deltas (value_at M.Key.cmp key old.inputs) }
{}
