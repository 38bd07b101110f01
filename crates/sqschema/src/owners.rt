//! The rules on the names of a schema (fileformat2, 2.6).
ghost use Rattle.std.specs.Prelude.{◌≡◌, ◌||◌, ◌&&◌, ℕ, List, IfOk, IfErr, OnOk, true, false, map};
ghost use Rattle.std.specs.Str.{bytes_eq};
ghost use Rattle.sqval.specs.Database.{Database};
ghost use Rattle.sqschema.specs.Items.{Item as SpecItem, seen};
ghost use Rattle.sqschema.specs.Rules.{is_named_once, is_owned};
ghost use Rattle.sqschema.specs.internal.Judging.{AllAt, Tells, key_of, holds, may_own, HoldsOwners};

use crate::alone::item_at;
use crate::error::{SchemaError, at_row, no_memory};
use crate::fault::SchemaFault;
use crate::item::Item;
use crate::names::Names;
use std::alloc::{AllocError, Global};

/// Judges that no name is there twice. Refused by NameTwice and NoMemory.
pub(crate) fn judge_names(alloc: Global, items: &[Item]) -> Result<(), SchemaError>
    ensures ok { OnOk result (AllAt (λ i x. is_named_once (map seen items.now) i x ≡ true) (map seen items.now)) }
    ensures err { IfErr result (λ e. (d : Database) → Tells d (map seen items.now) e) }
{
    let mut names = Names::new(alloc);
    'items: for i in 0..items.len() {
        let item = item_at(items, i);
        let Ok(fresh) = names.add(item.space(), &item.name) else {
            return Err(no_memory());
        };
        if !fresh {
            return Err(at_row(i, SchemaFault::NameTwice));
        }
    }
    Ok(())
}

/// Adds the name of an item that others may name as their table's: of a table, and where `views` holds of a view.
fn add_owner(names: &mut Names, views: bool, item: &Item) -> Result<(), AllocError>
    ensures { OnOk result ((key : List ℕ) → holds names.new key
        ≡ (holds names.old key || (may_own views (seen item.now) && bytes_eq key (key_of 0 item.now.name.items)))) }
{
    if item.is_table() || (views && item.is_view()) {
        names.add(0, &item.name)?;
    }
    Ok(())
}

/// The names that others may name as their table's.
fn owners(alloc: Global, views: bool, items: &[Item]) -> Result<Names, AllocError>
    ensures { IfOk result (HoldsOwners views (map seen items.now)) }
{
    let mut names = Names::new(alloc);
    'items: for i in 0..items.len() {
        add_owner(&mut names, views, item_at(items, i))?;
    }
    Ok(names)
}

/// Whether an item names as its table itself, where it is a table or a view, or else one that is there.
fn is_owned(item: &Item, tables: &Names, all: &Names) -> Result<bool, AllocError>
    ensures { IfOk result (λ owned. (xs : List SpecItem) → HoldsOwners false xs tables.now
        → HoldsOwners true xs all.now → owned ≡ is_owned xs (seen item.now)) }
{
    if item.is_table() || item.is_view() {
        return Ok(
            item.table
                .as_slice()
                .eq_ignore_ascii_case(item.name.as_slice()),
        );
    }
    if item.is_trigger() {
        all.has(0, &item.table)
    } else {
        tables.has(0, &item.table)
    }
}

/// Judges that each item names a table of its own that is there. Refused by TableName and NoMemory.
pub(crate) fn judge_owners(alloc: Global, items: &[Item]) -> Result<(), SchemaError>
    ensures ok { OnOk result (AllAt (λ i x. is_owned (map seen items.now) x ≡ true) (map seen items.now)) }
    ensures err { IfErr result (λ e. (d : Database) → Tells d (map seen items.now) e) }
{
    let Ok(tables) = owners(alloc, false, items) else {
        return Err(no_memory());
    };
    let Ok(all) = owners(alloc, true, items) else {
        return Err(no_memory());
    };
    'items: for i in 0..items.len() {
        let Ok(owned) = is_owned(item_at(items, i), &tables, &all) else {
            return Err(no_memory());
        };
        if !owned {
            return Err(at_row(i, SchemaFault::TableName));
        }
    }
    Ok(())
}
