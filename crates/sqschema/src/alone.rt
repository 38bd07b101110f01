//! The rules that each row of the schema follows by itself (fileformat2, 2.6).
ghost use Rattle.std.specs.Prelude.{◌≡◌, ◌<◌, ℕ, List, IfErr, OnOk, Some, map, length, slice_get};
ghost use Rattle.sqval.specs.Database.{Database};
ghost use Rattle.sqschema.specs.Items.{Item as SpecItem, seen};
ghost use Rattle.sqschema.specs.Rules.{is_table, is_index, is_view, is_trigger, is_typed, begins, is_made};
ghost use Rattle.sqschema.specs.Rules.{has_text, makes_virtual, is_treeless, is_rooted, space_of};
ghost use Rattle.sqschema.specs.Schema.{ItemRefused};
ghost use Rattle.sqschema.specs.internal.Judging.{AllAt, IsSoundAlone, Tells};
ghost use Rattle.std.specs.Prelude.{option_map};

use crate::error::{SchemaError, at_row};
use crate::fault::SchemaFault;
use crate::item::Item;

/// Whether a text begins with this word, where ASCII's small letters are its capitals.
fn begins(sql: &[u8], word: &[u8]) -> bool
    ensures { result ≡ begins sql.now word.now }
{
    let end = word.len().min(sql.len());
    sql[..end].eq_ignore_ascii_case(word)
}

/// Whether the text makes an object; none is there only for an index that a constraint made.
fn has_text(automatic: bool, sql: &Option<Vec<u8>>) -> bool
    ensures { result ≡ has_text automatic (option_map (λ t. t.items) sql.now) }
{
    match sql {
        Some(sql) => begins(sql.as_slice(), b"create "),
        None => automatic,
    }
}

/// Whether the text makes a virtual table.
fn makes_virtual(sql: &Option<Vec<u8>>) -> bool
    ensures { result ≡ makes_virtual (option_map (λ t. t.items) sql.now) }
{
    match sql {
        Some(sql) => begins(sql.as_slice(), b"create virtual "),
        None => false,
    }
}

impl Item {
    /// Whether it is a table.
    pub(crate) fn is_table(&self) -> bool
        ensures { result ≡ is_table (seen self.now) }
    {
        self.kind.as_slice() == b"table".as_slice()
    }

    /// Whether it is an index.
    pub(crate) fn is_index(&self) -> bool
        ensures { result ≡ is_index (seen self.now) }
    {
        self.kind.as_slice() == b"index".as_slice()
    }

    /// Whether it is a view.
    pub(crate) fn is_view(&self) -> bool
        ensures { result ≡ is_view (seen self.now) }
    {
        self.kind.as_slice() == b"view".as_slice()
    }

    /// Whether it is a trigger.
    pub(crate) fn is_trigger(&self) -> bool
        ensures { result ≡ is_trigger (seen self.now) }
    {
        self.kind.as_slice() == b"trigger".as_slice()
    }

    /// Whether it is one of these.
    fn is_typed(&self) -> bool
        ensures { result ≡ is_typed (seen self.now) }
    {
        self.is_table() || self.is_index() || self.is_view() || self.is_trigger()
    }

    /// The number of the space of its name.
    pub(crate) fn space(&self) -> u8
        ensures { result ≡ space_of (seen self.now) }
    {
        if self.is_trigger() { 1 } else { 0 }
    }

    /// Whether it has the text that makes it, or none where a constraint does.
    fn is_made(&self) -> bool
        ensures { result ≡ is_made (seen self.now) }
    {
        let automatic = self.is_index() && begins(&self.name, b"sqlite_autoindex_");
        has_text(automatic, &self.sql)
    }

    /// Whether it has no tree.
    fn is_treeless(&self) -> bool
        ensures { result ≡ is_treeless (seen self.now) }
    {
        self.is_view() || self.is_trigger() || (self.is_table() && makes_virtual(&self.sql))
    }

    /// Whether its root is 0 just where it has no tree.
    fn is_rooted(&self) -> bool
        ensures { result ≡ is_rooted (seen self.now) }
    {
        if self.is_treeless() {
            self.root == 0
        } else {
            self.root != 0
        }
    }

    /// Judges an item by itself. Refused by RowForm, ObjectType, CreateText and RootNumber, the first that applies.
    fn judge_alone(&self) -> Result<(), SchemaFault>
        ensures ok { OnOk result (IsSoundAlone (seen self.now)) }
        ensures err { IfErr result (λ fault. (d : Database) (xs : List SpecItem) (i : ℕ)
            → ItemRefused d xs i (seen self.now) fault) }
    {
        if !self.formed {
            return Err(SchemaFault::RowForm);
        }
        if !self.is_typed() {
            return Err(SchemaFault::ObjectType);
        }
        if !self.is_made() {
            return Err(SchemaFault::CreateText);
        }
        if !self.is_rooted() {
            return Err(SchemaFault::RootNumber);
        }
        Ok(())
    }
}

/// An item of the schema.
pub(crate) fn item_at(items: &[Item], i: usize) -> &Item
    requires { i < length items.now }
    ensures { slice_get (map seen items.now) i ≡ Some (seen result.now) }
{
    &items[i]
}

/// Judges each item by itself.
pub(crate) fn judge_each(items: &[Item]) -> Result<(), SchemaError>
    ensures ok { OnOk result (AllAt (λ i x. IsSoundAlone x) (map seen items.now)) }
    ensures err { IfErr result (λ e. (d : Database) → Tells d (map seen items.now) e) }
{
    'items: for i in 0..items.len() {
        match item_at(items, i).judge_alone() {
            Ok(()) => {}
            Err(fault) => return Err(at_row(i, fault)),
        }
    }
    Ok(())
}
