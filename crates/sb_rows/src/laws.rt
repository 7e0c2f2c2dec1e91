//! Laws of rows in row order.
ghost use Rattle.std.specs.Prelude.{◌≡◌, List, [], Contains, ◌↔◌};
ghost use Rattle.sb_model.specs.declared.row.Row.{Row};
ghost use Rattle.sb_rows.specs.Row.{IsInRowOrder, AreApart, put_rows};

/// Two lists of rows are one where they have the same rows, are in row order, and in neither two rows agree in datapath,
/// stage, priority, hint and match.
pub fn rows_are_told_by_their_members()
    ensures { (xs ys : List Row) → IsInRowOrder xs → AreApart xs → IsInRowOrder ys → AreApart ys
        → ((r : Row) → Contains xs r ↔ Contains ys r) → xs ≡ ys }
{}

/// Rows that are put one by one are in row order and are the rows that were put, and no two agree in datapath, stage,
/// priority, hint and match where none of these did.
pub fn rows_that_are_put_are_in_order()
    ensures ordered { (rows : List Row) → IsInRowOrder (put_rows [] rows) }
    ensures members { (rows : List Row) (r : Row) → Contains (put_rows [] rows) r ↔ Contains rows r }
    ensures apart { (rows : List Row) → AreApart rows → AreApart (put_rows [] rows) }
{}
