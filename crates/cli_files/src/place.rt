//! The path of a file, and why it couldn't be read.
ghost use Rattle.std.specs.Prelude.{◌≡◌, string_bytes};
ghost use Rattle.cli_files.specs.Files.{path_of};

use cli_facts::{Notes, Quoted};
use sqpage::SourceError;
use std::cell::RefCell;
use std::io::{self, Write};

/// The path of a file, and what the system said where a read of it failed last.
#[derive(Drop)]
pub struct Place {
    path: String,
    failure: RefCell<Option<io::Error>>,
}

impl Place {
    pub(crate) fn new(path: String) -> Place
        ensures { path_of result ≡ string_bytes path }
    {
        Place {
            path,
            failure: RefCell::new(None),
        }
    }

    pub fn as_str(&self) -> &str
        ensures { result.now ≡ path_of self.now }
    {
        self.path.as_str()
    }

    /// The path as it is written in a note.
    pub fn quoted(&self) -> Quoted<'_>
        ensures { result.0.now ≡ path_of self.now }
    {
        Quoted(self.as_str())
    }

    /// Keeps why a read of the file failed.
    pub(crate) fn failed(&self, error: io::Error) -> SourceError {
        let _ = self.failure.try_replace(Some(error));
        SourceError
    }

    /// Says why a read of the file failed, if one did.
    pub(crate) fn tell<E: Write>(&self, notes: &mut Notes<'_, E>) {
        let Ok(failure) = self.failure.try_borrow() else {
            return;
        };
        if let Some(error) = &*failure {
            notes.blame(self.path.as_str(), error);
        }
    }
}
