//! What changes by key make of a table's rows.
ghost use Rattle.std.specs.Prelude.{◌≡◌, ◌↔◌, List, None};
ghost use Rattle.sqrows.specs.Rows.{Row};
ghost use Rattle.sqdiff.specs.Changes.{Change};
ghost use Rattle.sqkeydiff.specs.declared.key.KeyOrder.{KeyOrder};
ghost use Rattle.sqkeydiff.specs.KeyChanges.{keys_of, Ascend, AreKeyChanges};
ghost use Rattle.sqkeydiff.specs.Made.{AreMade, Make};

/// The changes between two tables are the only list of changes that makes the new rows of the old ones (own): a list in
/// the order of the keys, of changes that the old rows can take. It makes no other rows of them.
pub fn changes_make_the_new_rows()
    ensures make { (by : KeyOrder) (old new : List Row) (cs : List Change) → Ascend by.order None (keys_of by.width old)
        → Ascend by.order None (keys_of by.width new) → AreKeyChanges by old new cs ↔ Make by old new cs }
    ensures one { (by : KeyOrder) (old new : List Row) (cs other : List Change) → AreKeyChanges by old new cs
        → AreKeyChanges by old new other → cs ≡ other }
    ensures rows { (by : KeyOrder) (old new rows : List Row) (cs : List Change)
        → Ascend by.order None (keys_of by.width old) → Ascend by.order None (keys_of by.width new)
        → AreKeyChanges by old new cs → AreMade by old cs rows ↔ (rows ≡ new) }
{}
