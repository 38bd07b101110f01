//! What can be wrong inside a well-formed database (own).
ghost use Rattle.std.specs.Prelude.{◌≡◌};
ghost use Rattle.sqdeep.specs.Faults.{number_of, name_of};

use sqpage::CheckError;
use thiserror::Error;

/// What can be wrong with the header, a page or a cell of a well-formed database.
#[derive(Clone, Copy, Debug, PartialEq, Eq, Error)]
pub enum InnerFault {
    /// The write version or the read version of the header isn't 1 or 2. At page 1.
    #[error("the header names no version that there is")]
    Version,
    /// The schema's format isn't one from 1 to 4, nor 0 in a database without a schema. At page 1.
    #[error("the header names no format of the schema that there is")]
    SchemaFormat,
    /// The encoding of texts isn't one from 1 to 3, nor 0 in a database without a schema. At page 1.
    #[error("the header names no encoding of texts that there is")]
    TextEncoding,
    /// A page of a tree has no cell, and isn't the root of an empty tree.
    #[error("a page of a tree has no cell")]
    EmptyPage,
    /// A freeblock begins at the start of the content, or fewer than 4 bytes behind the end of the one before.
    #[error("a freeblock stands where no cell is before it")]
    FreeblockGap,
    /// With pointer maps, the root of a tree stands behind a page that is none. At that root.
    #[error("a root stands behind a page that is none, in a database with pointer maps")]
    RootBehind,
    /// A cell begins fewer than 4 bytes before the end of the usable part of its page.
    #[error("a cell has fewer than 4 bytes of its page")]
    ShortCell,
    /// The payload of a cell is longer than 1,073,741,824 bytes (own). It isn't read.
    #[error("a payload is longer than 1 GiB")]
    TooLong,
    /// The payload of a cell is no record.
    #[error("a payload is no record")]
    NotRecord,
}

impl InnerFault {
    /// The fault's number, from 30 to 35, and from 40 to 42 for one of a cell.
    pub fn number(&self) -> u8
        ensures { result ≡ number_of self.now }
    {
        match self {
            InnerFault::Version => 30,
            InnerFault::SchemaFormat => 31,
            InnerFault::TextEncoding => 32,
            InnerFault::EmptyPage => 33,
            InnerFault::FreeblockGap => 34,
            InnerFault::RootBehind => 35,
            InnerFault::ShortCell => 40,
            InnerFault::TooLong => 41,
            InnerFault::NotRecord => 42,
        }
    }

    /// The fault's name, as reports print it.
    pub fn name(&self) -> &'static str
        ensures { result.now ≡ name_of self.now }
    {
        match self {
            InnerFault::Version => "Version",
            InnerFault::SchemaFormat => "SchemaFormat",
            InnerFault::TextEncoding => "TextEncoding",
            InnerFault::EmptyPage => "EmptyPage",
            InnerFault::FreeblockGap => "FreeblockGap",
            InnerFault::RootBehind => "RootBehind",
            InnerFault::ShortCell => "ShortCell",
            InnerFault::TooLong => "TooLong",
            InnerFault::NotRecord => "NotRecord",
        }
    }
}

/// A fault, and where it stands.
#[derive(Clone, Copy, Debug, PartialEq, Eq, Error)]
#[error("page {page}: {fault}")]
pub struct InnerError {
    /// What is wrong.
    pub fault: InnerFault,
    /// The page's number, from 1.
    pub page: u32,
    /// The cell's index in the page, from 0, where it is a fault of a cell.
    pub cell: Option<usize>,
}

/// Why a database isn't sound.
#[derive(Clone, Copy, Debug, PartialEq, Eq, Error)]
pub enum DeepError {
    /// It isn't well formed, a page could not be read, or memory ran out.
    #[error("{0}")]
    Check(CheckError),
    /// It is well formed, but not sound inside.
    #[error("{0}")]
    Inner(InnerError),
}
