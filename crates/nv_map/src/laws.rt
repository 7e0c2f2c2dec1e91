//! Laws of the changes: what undoes one, and which entries there are after it.
ghost use Rattle.std.specs.Prelude.{◌≡◌, ◌⊎◌, ◌↔◌, List, None, Some, true, false, IsSome};
ghost use Rattle.std.specs.List.{Contains};
ghost use Rattle.std.specs.Ordering.{is_lt, is_gt};
ghost use Rattle.nv_map.specs.Map.{KeysRise, value_at, entry_at, with_entry, without_key, with_value, entry_after};

use nv_base::Kept;

/// An entry that was taken and is put back leaves the map as it was.
pub fn taken_entries_are_put_back<K: Ord, V>()
    ensures { (k : K) (e : K × V) (l : List (K × V)) → KeysRise K.cmp l → entry_at K.cmp k l ≡ Some e → with_entry K.cmp e (without_key K.cmp k l) ≡ l }
{}

/// An entry that was put is the one that is taken, and then the map is as it was.
pub fn put_entries_are_taken_back<K: Ord, V>()
    ensures entry { (e : K × V) (l : List (K × V)) → value_at K.cmp e.0 l ≡ None → entry_at K.cmp e.0 (with_entry K.cmp e l) ≡ Some e }
    ensures entries { (e : K × V) (l : List (K × V)) → value_at K.cmp e.0 l ≡ None → without_key K.cmp e.0 (with_entry K.cmp e l) ≡ l }
{}

/// A value that was exchanged for another one, and is exchanged back, leaves the map as it was.
pub fn exchanged_values_are_exchanged_back<K: Ord, V>()
    ensures { (k : K) (v w : V) (l : List (K × V)) → value_at K.cmp k l ≡ Some w → with_value K.cmp k w (with_value K.cmp k v l) ≡ l }
{}

/// An entry is there exactly where its value is at its key.
pub fn entries_are_values_at_keys<K: Ord + Kept, V>()
    ensures { (k : K) (v : V) (l : List (K × V)) → KeysRise K.cmp l → Contains l (k, v) ↔ (value_at K.cmp k l ≡ Some v) }
{}

/// The entries after a change are those before it, but for the one of its key.
pub fn changes_keep_the_other_entries<K: Ord + Kept, V>()
    ensures put { (e : K × V) (l : List (K × V)) (x : K × V) → KeysRise K.cmp l → value_at K.cmp e.0 l ≡ None → Contains (with_entry K.cmp e l) x ↔ ((x ≡ e) ⊎ Contains l x) }
    ensures taken { (k : K) (l : List (K × V)) (x : K × V) → KeysRise K.cmp l → Contains (without_key K.cmp k l) x ↔ (Contains l x × (x.0 ≡ k → ⊥)) }
    ensures exchanged { (k : K) (v : V) (l : List (K × V)) (x : K × V) → KeysRise K.cmp l → IsSome (value_at K.cmp k l) → Contains (with_value K.cmp k v l) x ↔ ((x ≡ (k, v)) ⊎ (Contains l x × (x.0 ≡ k → ⊥))) }
{}

/// The entry after a key is there and above it, and none that is above it is below that one; where there is none, none is above.
pub fn the_entry_after_a_key_is_the_least_above<K: Ord, V>()
    ensures there { (k : K) (e : K × V) (l : List (K × V)) → KeysRise K.cmp l → entry_after K.cmp (Some k) l ≡ Some e → Contains l e × (is_lt (K.cmp k e.0) ≡ true) }
    ensures least { (k : K) (e y : K × V) (l : List (K × V)) → KeysRise K.cmp l → entry_after K.cmp (Some k) l ≡ Some e → Contains l y → is_lt (K.cmp k y.0) ≡ true → is_gt (K.cmp e.0 y.0) ≡ false }
    ensures none { (k : K) (y : K × V) (l : List (K × V)) → entry_after K.cmp (Some k) l ≡ None → Contains l y → is_lt (K.cmp k y.0) ≡ false }
{}
