//! What changes make of a table's rows.
ghost use Rattle.std.specs.Prelude.{◌≡◌, ◌↔◌, List, None};
ghost use Rattle.sqrows.specs.Rows.{Row};
ghost use Rattle.sqdiff.specs.Changes.{Change, Rise, rowids, AreChanges};
ghost use Rattle.sqdiff.specs.Made.{AreMade, Make};

/// The changes between two tables are the only list of changes that makes the new rows of the old ones (own): one by
/// rowid, each of which the old rows can take. It makes no other rows of them.
pub fn changes_make_the_new_rows()
    ensures make { (old new : List Row) (cs : List Change) → Rise None (rowids old) → Rise None (rowids new)
        → AreChanges old new cs ↔ Make old new cs }
    ensures one { (old new : List Row) (cs other : List Change) → AreChanges old new cs → AreChanges old new other
        → cs ≡ other }
    ensures rows { (old new rows : List Row) (cs : List Change) → Rise None (rowids old) → Rise None (rowids new)
        → AreChanges old new cs → AreMade old cs rows ↔ (rows ≡ new) }
{}
