//! What a deep check doesn't judge of a database that it finds sound (own).
ghost use Rattle.std.specs.Prelude.{◌≡◌, ◌++◌, ◌<◌, IfOk, OnOk, Some, length, map, slice_get};
ghost use Rattle.sqschema.specs.Items.{seen};
ghost use Rattle.sqdeepjudge.specs.NotJudged.{AreNotJudged, kind_of, numbered, of_index, of_table, objects_of, one};
ghost use Rattle.sqdeepjudge.specs.NotJudged.{lacks, parts_of, things_of};

use crate::words::{Words, words_of};
use sqschema::{Item, Schema};
use std::alloc::{AllocError, Global};

/// What isn't judged.
#[derive(Clone, Copy, Debug)]
pub enum Kind {
    Index,
    Table,
    Check,
    ForeignKey,
    View,
    Trigger,
    VirtualTable,
}

impl Kind {
    ghost use Rattle.std.specs.Prelude.{◌≡◌};
    ghost use Rattle.sqdeepjudge.specs.NotJudged.{counts, is_same, number_of};

    /// Its number, from 1 (own).
    pub fn number(self) -> u8
        ensures { result ≡ number_of self }
    {
        match self {
            Kind::Index => 1,
            Kind::Table => 2,
            Kind::Check => 3,
            Kind::ForeignKey => 4,
            Kind::View => 5,
            Kind::Trigger => 6,
            Kind::VirtualTable => 7,
        }
    }

    /// Whether it has to be judged where all is to be: anything but the body of a view or of a trigger.
    fn counts(self) -> bool
        ensures { result ≡ counts self }
    {
        !matches!(self, Kind::View | Kind::Trigger)
    }

    /// Whether it is another one.
    fn is(self, other: Kind) -> bool
        ensures { result ≡ is_same self other }
    {
        self.number() == other.number()
    }
}

/// Why it isn't.
#[derive(Clone, Copy, Debug)]
pub enum Why {
    /// The entries of an index aren't judged.
    Entries,
    /// It isn't judged which rows the WHERE of an index selects.
    Where,
    /// The rows of a table aren't judged.
    Rows,
    /// The text of a table isn't understood, so that its tree may be of either kind.
    Tree,
    /// A thing of this kind never is.
    Never,
}

/// One thing that isn't judged.
#[derive(Clone, Copy, Debug)]
pub struct NotJudged {
    pub kind: Kind,
    pub why: Why,
    /// The row of the object in the schema, from 0; of a CHECK or a foreign key that of its table.
    pub row: usize,
    /// Of a CHECK or a foreign key: which one of its table, from 0. Otherwise 0.
    pub number: usize,
}

/// The rows of a schema of the tables whose texts aren't understood, of the indexes that aren't judged, and of the
/// tables whose rows aren't.
#[derive(Clone, Copy)]
struct Found<'a> {
    asides: &'a [usize],
    indexes: &'a [usize],
    tables: &'a [usize],
}

/// What an object is.
pub(crate) fn kind_of(item: &Item) -> Kind
    ensures { result ≡ kind_of (seen item.now) }
{
    if item.kind.as_slice() == b"index".as_slice() {
        Kind::Index
    } else if item.kind.as_slice() == b"view".as_slice() {
        Kind::View
    } else if item.kind.as_slice() == b"trigger".as_slice() {
        Kind::Trigger
    } else if item.root == 0 {
        Kind::VirtualTable
    } else {
        Kind::Table
    }
}

/// How many of these are of a kind.
pub fn things_of(all: &[NotJudged], kind: Kind) -> usize
    ensures { result ≡ things_of kind all.now }
{
    all.iter().filter(|it| kind.is(it.kind)).count()
}

/// Whether one of these has to be judged where all is to be.
pub fn lacks(all: &[NotJudged]) -> bool
    ensures { result ≡ lacks all.now }
{
    all.iter().any(|it| it.kind.counts())
}

/// How many objects of a kind a schema has: no CHECK and no foreign key.
pub fn objects_of(schema: &Schema, kind: Kind) -> usize
    ensures { result ≡ objects_of kind schema.now }
{
    let items = schema.items.as_slice();
    items.iter().filter(|item| kind.is(kind_of(item))).count()
}

/// Adds one thing of an object.
fn add_one(all: &mut Vec<NotJudged>, kind: Kind, why: Why, row: usize) -> Result<(), AllocError>
    ensures { OnOk result (all.new.items ≡ all.old.items ++ one kind why row) }
{
    let number = 0;
    all.push(NotJudged {
        kind,
        why,
        row,
        number,
    })?;
    Ok(())
}

/// Adds so many clauses of a table.
fn add_clauses(
    all: &mut Vec<NotJudged>,
    kind: Kind,
    row: usize,
    count: usize,
) -> Result<(), AllocError>
    ensures { OnOk result (all.new.items ≡ all.old.items ++ numbered kind row count) }
{
    'clauses: for number in 0..count {
        let why = Why::Never;
        all.push(NotJudged {
            kind,
            why,
            row,
            number,
        })?;
    }
    Ok(())
}

/// Adds an index, where its entries aren't judged, or not which rows it has.
fn add_index(
    all: &mut Vec<NotJudged>,
    unjudged: bool,
    row: usize,
    words: Words,
) -> Result<(), AllocError>
    ensures { OnOk result (all.new.items ≡ all.old.items ++ of_index unjudged row words) }
{
    if unjudged {
        add_one(all, Kind::Index, Why::Entries, row)
    } else if words.wheres == 0 {
        Ok(())
    } else {
        add_one(all, Kind::Index, Why::Where, row)
    }
}

/// Adds a table, where its rows aren't judged, or not its tree, and its clauses.
fn add_table(
    all: &mut Vec<NotJudged>,
    unjudged: bool,
    aside: bool,
    row: usize,
    words: Words,
) -> Result<(), AllocError>
    ensures { OnOk result (all.new.items ≡ all.old.items ++ of_table unjudged aside row words) }
{
    if unjudged {
        add_one(all, Kind::Table, Why::Rows, row)?;
    } else if aside {
        add_one(all, Kind::Table, Why::Tree, row)?;
    }
    add_clauses(all, Kind::Check, row, words.checks)?;
    add_clauses(all, Kind::ForeignKey, row, words.references)
}

/// Adds what isn't judged of an object of a kind, in a row of a schema of which these objects aren't.
fn add_parts(
    all: &mut Vec<NotJudged>,
    kind: Kind,
    found: Found<'_>,
    row: usize,
    words: Words,
) -> Result<(), AllocError>
    ensures { OnOk result (all.new.items ≡ all.old.items ++ parts_of kind found.entry.asides.now
        found.entry.indexes.now found.entry.tables.now row words) }
{
    match kind {
        Kind::Index => add_index(all, found.indexes.contains(&row), row, words),
        Kind::Table => {
            let aside = found.asides.contains(&row);
            add_table(all, found.tables.contains(&row), aside, row, words)
        }
        _ => add_one(all, kind, Why::Never, row),
    }
}

/// The object in a row of a schema.
fn item_at(items: &[Item], row: usize) -> &Item
    requires { row < length items.now }
    ensures { slice_get (map seen items.now) row ≡ Some (seen result.now) }
{
    &items[row]
}

/// What isn't judged of a schema of which these indexes and these tables aren't, in the order of its rows.
pub(crate) fn not_judged(
    alloc: Global,
    schema: &Schema,
    indexes: &[usize],
    tables: &[usize],
) -> Result<Vec<NotJudged>, AllocError>
    ensures { IfOk result (λ all. AreNotJudged schema.now indexes.now tables.now all.items) }
{
    let asides = schema.asides.as_slice();
    let found = Found {
        asides,
        indexes,
        tables,
    };
    let mut all = Vec::new(alloc);
    'objects: for row in 0..schema.items.len() {
        let item = item_at(&schema.items, row);
        let words = words_of(alloc, item)?;
        add_parts(&mut all, kind_of(item), found, row, words)?;
    }
    Ok(all)
}
