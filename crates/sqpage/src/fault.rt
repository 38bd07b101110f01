//! What can be wrong with a database file (own).
ghost use Rattle.std.specs.Prelude.{◌≡◌};
ghost use Rattle.sqpage.specs.Faults.{number_of, name_of};

use thiserror::Error;

/// What can be wrong with a page of a database file, or with reading it.
#[derive(Clone, Copy, Debug, PartialEq, Eq, Error)]
pub enum Fault {
    /// The first 16 bytes aren't those of a database, or there is no page. At page 1.
    #[error("the header doesn't begin with the magic text")]
    Magic,
    /// The header names no power of two from 512 to 65536, or another size than the source's pages have. At page 1.
    #[error("the page size isn't one that a database can have, or not that of the source")]
    PageSize,
    /// The bytes 21 to 23 of the header aren't 64, 32 and 32. At page 1.
    #[error("a payload fraction of the header isn't 64, 32, 32")]
    Fraction,
    /// The header leaves fewer than 480 bytes of a page to be used. At page 1.
    #[error("fewer than 480 bytes of a page are usable")]
    Reserved,
    /// The header names a largest root page. At page 1.
    #[error("the database is one of auto-vacuum")]
    AutoVacuum,
    /// The type byte is that of no b-tree page, or of a table's in an index, or of an index's in a table.
    #[error("the page isn't a b-tree page, or not of its tree's kind")]
    Kind,
    /// The pointers to the cells, the start of the cells or a cell leave the usable part, or a cell begins before that
    /// start.
    #[error("a cell or the pointers to the cells leave the usable part of the page")]
    CellOutside,
    /// A byte is in two of the cells and freeblocks, or the pointers end behind the start of the cells.
    #[error("two cells or freeblocks share a byte, or the cell pointers reach into the content")]
    Overlap,
    /// A freeblock has fewer than 4 bytes, lies outside the content, or doesn't stand behind the one before.
    #[error("a freeblock stands where none can")]
    Freeblock,
    /// The bytes in no cell and no freeblock aren't as many as the page's header says, or that is above 60.
    #[error("the count of fragmented bytes is wrong")]
    Fragments,
    /// An overflow chain names page 0 too early, or its cell needs more pages than there are. At the page that holds
    /// the number.
    #[error("an overflow chain ends too early")]
    ChainCut,
    /// The last page that an overflow chain needs names one more. At that last page.
    #[error("an overflow chain goes on past its payload")]
    ChainLong,
    /// Two places name the page.
    #[error("the page is named twice")]
    PageTwice,
    /// A place names page 0 or one above the last, where it is to name one. At the page that it stands in.
    #[error("a number that isn't a page's stands where a page is named")]
    PageOutside,
    /// No place names the page.
    #[error("nothing names the page")]
    PageUnused,
    /// A key of a table isn't above the one before, or leaves the bounds that the pages above set.
    #[error("keys don't rise, or leave their bounds")]
    KeyOrder,
    /// The page is on a level above 20, the root being on 1, or it is a leaf on another level than the tree's first.
    #[error("the page's level is above 20, or leaves stand on two levels")]
    Depth,
    /// A trunk names more leaves than it can hold; or at page 1, the freelist isn't as long as the header says.
    #[error("a freelist trunk names too many leaves, or the freelist isn't as long as the header says")]
    FreeCount,
    /// The page could not be read.
    #[error("the page could not be read")]
    Source,
    /// There was no memory.
    #[error("out of memory")]
    NoMemory,
    /// A row of the schema's tree is no record of at most 1,073,741,824 bytes and five columns at least, of which the
    /// fourth is null or a number from 0.
    #[error("a row of the schema table is unsound")]
    SchemaRecord,
    /// An entry of the pointer map doesn't say what its page is named as, or which page names it; or at page 1, the
    /// largest root that the header names isn't the largest one.
    #[error("a pointer map doesn't say what names a page, or the header doesn't name the largest root")]
    PointerMap,
}

impl Fault {
    /// The fault's number, from 1 to 22.
    pub fn number(&self) -> u8
        ensures { result ≡ number_of self.now }
    {
        match self {
            Fault::Magic => 1,
            Fault::PageSize => 2,
            Fault::Fraction => 3,
            Fault::Reserved => 4,
            Fault::AutoVacuum => 5,
            Fault::Kind => 6,
            Fault::CellOutside => 7,
            Fault::Overlap => 8,
            Fault::Freeblock => 9,
            Fault::Fragments => 10,
            Fault::ChainCut => 11,
            Fault::ChainLong => 12,
            Fault::PageTwice => 13,
            Fault::PageOutside => 14,
            Fault::PageUnused => 15,
            Fault::KeyOrder => 16,
            Fault::Depth => 17,
            Fault::FreeCount => 18,
            Fault::Source => 19,
            Fault::NoMemory => 20,
            Fault::SchemaRecord => 21,
            Fault::PointerMap => 22,
        }
    }

    /// The fault's name, as reports print it.
    pub fn name(&self) -> &'static str
        ensures { result.now ≡ name_of self.now }
    {
        match self {
            Fault::Magic => "Magic",
            Fault::PageSize => "PageSize",
            Fault::Fraction => "Fraction",
            Fault::Reserved => "Reserved",
            Fault::AutoVacuum => "AutoVacuum",
            Fault::Kind => "Kind",
            Fault::CellOutside => "CellOutside",
            Fault::Overlap => "Overlap",
            Fault::Freeblock => "Freeblock",
            Fault::Fragments => "Fragments",
            Fault::ChainCut => "ChainCut",
            Fault::ChainLong => "ChainLong",
            Fault::PageTwice => "PageTwice",
            Fault::PageOutside => "PageOutside",
            Fault::PageUnused => "PageUnused",
            Fault::KeyOrder => "KeyOrder",
            Fault::Depth => "Depth",
            Fault::FreeCount => "FreeCount",
            Fault::Source => "Source",
            Fault::NoMemory => "NoMemory",
            Fault::SchemaRecord => "SchemaRecord",
            Fault::PointerMap => "PointerMap",
        }
    }
}

/// A fault, and the page at which it stands.
#[derive(Clone, Copy, Debug, PartialEq, Eq, Error)]
#[error("page {page}: {fault}")]
pub struct CheckError {
    /// The page's number, from 1.
    pub page: u32,
    /// What is wrong there.
    pub fault: Fault,
}
