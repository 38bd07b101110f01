//! The items of a schema that an index is judged by (fileformat2, 2.6).
ghost use Rattle.std.specs.Prelude.{◌≡◌, ◌≢◌, ◌<◌, ◌&&◌, ℕ, MatchBool, MatchOption, map, length, slice_get, Some, pos};
ghost use Rattle.std.specs.Str.{str_eq_ignore_ascii_case};
ghost use Rattle.sqschema.specs.Items.{Item as SpecItem, seen};
ghost use Rattle.sqschema.specs.Rules.{is_table, is_index};
ghost use Rattle.sqcontents.specs.Contents.{IsRooted, IsTableOf};
ghost use Rattle.sqcontents.specs.internal.Judging.{IsWithin};

use sqschema::Item;

/// Whether an item is an index.
pub(crate) fn is_index(item: &Item) -> bool
    ensures { result ≡ is_index (seen item.now) }
{
    item.kind.as_slice() == b"index".as_slice()
}

/// Whether an item is a table with a tree.
pub(crate) fn is_rooted(item: &Item) -> bool
    ensures { MatchBool result (IsRooted (seen item.now)) (¬ IsRooted (seen item.now)) }
{
    item.root != 0 && item.kind.as_slice() == b"table".as_slice()
}

/// Whether an item is a table of this name.
fn is_table_named(item: &Item, name: &[u8]) -> bool
    ensures { result ≡ (is_table (seen item.now) && str_eq_ignore_ascii_case name.now item.now.name.items) }
{
    item.kind.as_slice() == b"table".as_slice() && name.eq_ignore_ascii_case(item.name.as_slice())
}

/// An item of the schema.
pub(crate) fn item_at(items: &[Item], i: usize) -> &Item
    requires { i < length items.now }
    ensures { slice_get (map seen items.now) i ≡ Some (seen result.now) }
{
    &items[i]
}

/// The table of an index.
pub(crate) fn table_of<'a>(items: &'a [Item], index: &Item) -> Option<&'a Item>
    ensures { MatchOption result ((y : SpecItem) → ¬ IsTableOf (map seen items.now) (seen index.now) y)
        (λ y. IsTableOf (map seen items.now) (seen index.now) (seen y.now)) }
{
    'items: for i in 0..items.len() {
        let item = item_at(items, i);
        if is_table_named(item, &index.table) {
            return Some(item);
        }
    }
    None
}

/// The page that an item names as its root, of so many.
pub(crate) fn root_in(item: &Item, count: u32) -> Option<u32>
    ensures { MatchOption result ((r : ℕ) → IsWithin count r → item.now.root ≢ pos r)
        (λ r. item.now.root ≡ pos r) }
{
    let root = item.root;
    if 1 <= root && root <= i64::from(count) {
        Some(root as u32)
    } else {
        None
    }
}
