//! Laws of the units of a network.
ghost use Rattle.std.specs.Prelude.{◌≡◌, ◌↔◌, List, replicate};
ghost use Rattle.std.specs.List.{AllPairs, Contains};
ghost use Rattle.nv_map.specs.Map.{KeysRise, value_at};
ghost use Rattle.nb_model.specs.Network.{Network};
ghost use Rattle.nb_model.specs.Sound.{IsSound};
ghost use Rattle.inc_table.specs.declared.delta.Change.{Change};
ghost use Rattle.inc_table.specs.Delta.{IsDifference};
ghost use Rattle.inc_table.specs.Node.{made_by};
ghost use Rattle.sb_model.specs.declared.row.Row.{Row};
ghost use Rattle.lr_units.specs.Network.{rows_of_units};
ghost use Rattle.net_units.specs.Build.{rows_by_kind, rows_of_kinds};
ghost use Rattle.net_units.specs.Counts.{changed, makes};
ghost use Rattle.net_units.specs.Keys.{AllKeysStandOnce, KeysStandOnce};
ghost use Rattle.net_units.specs.OneUnit.{AllRowsOfOneUnit, ShareNoRow};

use nv_base::Kept;

/// The rows of a network by the kinds of its units are its rows object by object, and no others.
pub fn rows_by_kind_are_those_of_the_units()
    ensures { (net : Network) (row : Row) → (Contains (rows_by_kind net) row) ↔ (Contains (rows_of_units net) row) }
{}

/// No two units of one kind of a sound network have one key.
pub fn keys_of_units_stand_once()
    ensures { (net : Network) → IsSound net → AllKeysStandOnce net }
{}

/// No row of a sound network is of two units: neither of two of one kind, nor of two kinds.
pub fn rows_are_of_one_unit()
    ensures within { (net : Network) → IsSound net → AllRowsOfOneUnit net }
    ensures between { (net : Network) → IsSound net → AllPairs ShareNoRow (rows_of_kinds net) }
{}

/// What a node makes of the difference of two lists of units, in which no key stands twice, is what is counted of these. The count is
/// the same of lists in any other order.
pub fn differences_make_what_is_counted<K: Kept + Ord, I: PartialEq>()
    ensures made { (old new : List (K × I)) (delta : List (K × Change I)) → KeysStandOnce K.cmp old → KeysStandOnce K.cmp new → KeysRise K.cmp delta
        → IsDifference K.cmp I.eq old new delta → made_by 1024 delta new ≡ makes K.cmp I.eq old new }
    ensures alike { (old old' new new' : List (K × I)) → KeysStandOnce K.cmp old → KeysStandOnce K.cmp old' → KeysStandOnce K.cmp new → KeysStandOnce K.cmp new'
        → ((key : K) → value_at K.cmp key old ≡ value_at K.cmp key old') → ((key : K) → value_at K.cmp key new ≡ value_at K.cmp key new')
        → makes K.cmp I.eq old new ≡ makes K.cmp I.eq old' new' }
{}

/// Where a sound network stays as it is no unit of any kind is made.
pub fn no_change_makes_no_unit()
    ensures { (net : Network) → IsSound net → changed net net ≡ replicate 20 0 }
{}
