//! Laws of the edits of a table: what undoes one, what is found after it, and what it adds up to.
ghost use Rattle.std.specs.Prelude.{◌≡◌, ◌+◌, ◌<◌, ◌≤◌, ◌==◌, ◌⊎◌, ◌↔◌, ℕ, Bool, List, [], ◌∷◌, ◌++◌, Option, None, Some, true, false, cond, find, length, sum_by};
ghost use Rattle.std.specs.List.{AllByRecursion, Contains};
ghost use Rattle.nv_base.specs.declared.object.ObjId.{ObjId};
ghost use Rattle.nv_table.specs.Table.{NumbersRise, has_number, record_of, with_record, without_number, with_exchanged};

use crate::Record;

/// Numbers rise after each edit.
pub fn numbers_rise_after_edits<R: Record>()
    ensures put { (r : R) (l : List R) → NumbersRise R.number l → record_of R.number (R.number r) l ≡ None → NumbersRise R.number (with_record R.number r l) }
    ensures taken { (n : ObjId) (l : List R) → NumbersRise R.number l → NumbersRise R.number (without_number R.number n l) }
    ensures exchanged { (r : R) (l : List R) → NumbersRise R.number l → NumbersRise R.number (with_exchanged R.number r l) }
{}

/// A record that was taken and is put back leaves the table as it was.
pub fn taken_records_are_put_back<R: Record>()
    ensures { (n : ObjId) (r : R) (l : List R) → NumbersRise R.number l → record_of R.number n l ≡ Some r → with_record R.number r (without_number R.number n l) ≡ l }
{}

/// A record that was put is the one that is taken, and then the table is as it was.
pub fn put_records_are_taken_back<R: Record>()
    ensures record { (r : R) (l : List R) → record_of R.number (R.number r) l ≡ None → record_of R.number (R.number r) (with_record R.number r l) ≡ Some r }
    ensures records { (r : R) (l : List R) → record_of R.number (R.number r) l ≡ None → without_number R.number (R.number r) (with_record R.number r l) ≡ l }
{}

/// A record that was exchanged for another one, and is exchanged back, leaves the table as it was.
pub fn exchanged_records_are_exchanged_back<R: Record>()
    ensures record { (r : R) (l : List R) → NumbersRise R.number l → record_of R.number (R.number r) (with_exchanged R.number r l) ≡ Some r }
    ensures records { (r old : R) (l : List R) → NumbersRise R.number l → record_of R.number (R.number r) l ≡ Some old → with_exchanged R.number old (with_exchanged R.number r l) ≡ l }
{}

/// A record is found by its own number, and by no other.
pub fn found_records_have_the_number<R: Record>()
    ensures own { (r : R) (l : List R) → NumbersRise R.number l → Contains l r → record_of R.number (R.number r) l ≡ Some r }
    ensures number { (n : ObjId) (r : R) (l : List R) → record_of R.number n l ≡ Some r → n ≡ R.number r }
{}

/// What is found by a test is a record that passes, the one of the least number, and where none is found none passes.
pub fn the_record_found_is_the_least<R: Record>()
    ensures there { (p : R → Bool) (r : R) (l : List R) → find p l ≡ Some r → Contains l r × (p r ≡ true) }
    ensures least { (p : R → Bool) (r x : R) (l : List R) → NumbersRise R.number l → find p l ≡ Some r → Contains l x → p x ≡ true → (R.number r).0 ≤ (R.number x).0 }
    ensures none { (p : R → Bool) (x : R) (l : List R) → find p l ≡ None → Contains l x → p x ≡ false }
{}

/// The record of a number after an edit: that of the edit at its number, and the one before the edit at any other.
pub fn edits_keep_the_records_of_other_numbers<R: Record>()
    ensures put { (n : ObjId) (r : R) (l : List R) → record_of R.number (R.number r) l ≡ None → record_of R.number n (with_record R.number r l) ≡ cond (has_number R.number n r) (Some r) (record_of R.number n l) }
    ensures taken { (n m : ObjId) (l : List R) → NumbersRise R.number l → record_of R.number n (without_number R.number m l) ≡ cond (n.0 == m.0) None (record_of R.number n l) }
{}

/// A record whose number is above all others goes last.
pub fn records_of_new_numbers_go_last<R: Record>()
    ensures { (r : R) (l : List R) → AllByRecursion (λ x. (R.number x).0 < (R.number r).0) l → with_record R.number r l ≡ l ++ r ∷ [] }
{}

/// The records after an edit are those before it, but for the one that was put or taken.
pub fn edits_keep_the_other_records<R: Record>()
    ensures put { (r : R) (l : List R) (x : R) → Contains (with_record R.number r l) x ↔ ((x ≡ r) ⊎ Contains l x) }
    ensures taken { (n : ObjId) (l : List R) (x : R) → Contains (without_number R.number n l) x ↔ (Contains l x × (n ≡ R.number x → ⊥)) }
{}

/// A record that is put counts once, and so does one that is taken.
pub fn edits_count_the_record<R: Record>()
    ensures put { (r : R) (l : List R) → length (with_record R.number r l) ≡ length l + 1 }
    ensures put_sum { (f : R → ℕ) (r : R) (l : List R) → sum_by f (with_record R.number r l) ≡ sum_by f l + f r }
    ensures taken { (n : ObjId) (r : R) (l : List R) → NumbersRise R.number l → record_of R.number n l ≡ Some r → length (without_number R.number n l) + 1 ≡ length l }
    ensures taken_sum { (f : R → ℕ) (n : ObjId) (r : R) (l : List R) → NumbersRise R.number l → record_of R.number n l ≡ Some r → sum_by f (without_number R.number n l) + f r ≡ sum_by f l }
{}
