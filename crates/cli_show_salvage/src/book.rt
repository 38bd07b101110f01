//! What was written so far, as far as what comes behind depends on it.
use cli_row_text::Style;
use sqdeep::Encoding;
use sqtables::Object;
use std::alloc::{AllocError, Global};
use std::collections::HashSet;

/// What was written so far.
#[derive(Drop)]
pub(crate) struct Book {
    pub(crate) alloc: Global,
    /// The rowids of the rows that the table has.
    pub(crate) rowids: HashSet<i64>,
    /// How many columns for values the table of lost rows has.
    pub(crate) width: usize,
    /// The objects of the schema.
    pub(crate) objects: Vec<Object>,
}

/// What becomes of the rows of a tree.
#[derive(Clone, Copy)]
pub(crate) enum Going<'a> {
    /// They are the schema's: their objects are kept.
    Schema,
    /// They are a table's.
    Table(Style<'a>),
    /// No table is known.
    Lost,
}

/// Where the rows of a tree go, or those of leaves that none reaches.
#[derive(Clone, Copy)]
pub(crate) struct Target<'a> {
    /// The name of the table of lost rows.
    pub(crate) lost: &'a [u8],
    /// The root of the tree. None where none reaches the leaf.
    pub(crate) root: Option<u32>,
    /// Whether it is the tree of a table with rowids. That of one WITHOUT ROWID has the pages of an index.
    pub(crate) table: bool,
    pub(crate) going: Going<'a>,
    /// Whether the place of each row is written.
    pub(crate) places: bool,
    /// That of the database's texts.
    pub(crate) encoding: Encoding,
}

/// Which tables are written: SQLite's own, or the user's.
#[derive(Clone, Copy)]
pub(crate) struct Turn<'a> {
    pub(crate) objects: &'a [Object],
    /// The name of the table of lost rows.
    pub(crate) lost: &'a [u8],
    /// Whether the place of each row is written.
    pub(crate) places: bool,
    /// That of the database's texts.
    pub(crate) encoding: Encoding,
    pub(crate) own: bool,
}

impl Book {
    ghost use Rattle.std.specs.Prelude.{◌≡◌, ◌++◌, ◌∷◌, [], OnOk};
    ghost use Rattle.cli_show_salvage.specs.Books.{Adds, IsEmptied, has_rowid};

    /// Nothing was.
    pub(crate) fn new(alloc: Global) -> Book
        ensures width { result.width ≡ 0 }
        ensures objects { result.objects.items ≡ [] }
    {
        Book {
            alloc,
            rowids: HashSet::new(alloc),
            width: 0,
            objects: Vec::new(alloc),
        }
    }

    /// Whether the table has a row of this rowid.
    pub(crate) fn has(&self, id: i64) -> bool
        ensures { result ≡ has_rowid self.now id }
    {
        self.rowids.contains(&id)
    }

    /// The table has one.
    pub(crate) fn add(&mut self, id: i64) -> Result<(), AllocError>
        ensures { OnOk result (Adds id self.old self.new) }
    {
        match self.rowids.insert(id) {
            Ok(_) => Ok(()),
            Err(_) => Err(AllocError),
        }
    }

    /// Begins with a table that has no row.
    pub(crate) fn empty(&mut self)
        ensures { IsEmptied self.old self.new }
    {
        self.rowids = HashSet::new(self.alloc);
    }

    /// Keeps an object of the schema.
    pub(crate) fn keep(&mut self, object: Object) -> Result<(), AllocError>
        ensures objects { OnOk result (self.new.objects.items ≡ self.old.objects.items ++ object ∷ []) }
        ensures same { (self.new.rowids ≡ self.old.rowids) × (self.new.width ≡ self.old.width) }
    {
        match self.objects.push(object) {
            Ok(()) => Ok(()),
            Err(_) => Err(AllocError),
        }
    }
}
