//! The pages of a database, written one after the other (own).
ghost use Rattle.std.specs.Prelude.{◌≡◌, ◌≢◌, Err, IfErr, OnErr, OnOk};
ghost use Rattle.std.specs.List.{concat};
ghost use Rattle.std.specs.Io.KnownBytes.{Appends, append_known};
ghost use Rattle.sqview.specs.LogView.{pages_of};
ghost use Rattle.sqview.specs.Shapes.{shape_of};
ghost use Rattle.sqview.specs.declared.copying.CopyError.TheVariants.{Unread, Unwritten, NoMemory};

use crate::file_bytes::FileBytes;
use crate::view::View;
use sqpage::{PageSource, SourceError};
use std::alloc::{AllocError, Global};
use std::io;
use std::io::Write;
use thiserror::Error;

/// Why a copy isn't whole.
#[derive(Debug, Drop, Error)]
pub enum CopyError {
    /// A page could not be read.
    #[error("a page could not be read")]
    Unread,
    /// It could not be written.
    #[error("{0}")]
    Unwritten(io::Error),
    /// No memory.
    #[error("no memory")]
    NoMemory,
}

impl From<SourceError> for CopyError {
    ghost from_gives = { λ _ e. e ≡ Unread };

    fn from(_unread: SourceError) -> CopyError {
        CopyError::Unread
    }
}

impl From<AllocError> for CopyError {
    ghost from_gives = { λ _ e. e ≡ NoMemory };

    fn from(_refused: AllocError) -> CopyError {
        CopyError::NoMemory
    }
}

impl From<io::Error> for CopyError {
    ghost from_gives = { λ error e. e ≡ Unwritten error };

    fn from(error: io::Error) -> CopyError {
        CopyError::Unwritten(error)
    }
}

/// The most bytes that are written at once.
const RUN: usize = 524_288;

/// Adds a page to those that aren't written yet, and writes these before where they would be too many.
fn add<W: Write>(run: &mut Vec<u8>, page: &[u8], out: &mut W) -> Result<(), CopyError>
    ensures added { OnOk result (Appends (append_known (W.contents out.old) run.old.items)
        (append_known (W.contents out.new) run.new.items) page.now) }
    ensures unread { IfErr result (λ e. e ≢ Unread) }
{
    if run.len().saturating_add(page.len()) > RUN {
        out.write_all(run)?;
        run.clear();
    }
    run.extend_from_slice(page)?;
    Ok(())
}

/// Writes the pages of a view, from the first to the last, and nothing else: up to 524,288 bytes at once, of which a
/// copy is kept, and a flush at the end. Refused by Unread where a page can't be read, by Unwritten, and by NoMemory;
/// some of the pages may then be written.
pub fn copy<F: FileBytes, W: Write>(
    alloc: Global,
    view: &mut View<F>,
    out: &mut W,
) -> Result<(), CopyError>
    ensures copied { F.reads_right view.old.db × F.reads_right view.old.log → OnOk result
        (Appends (W.contents out.old) (W.contents out.new) (concat (pages_of F.bytes view.old))) }
    ensures unread { F.gives_bytes view.old.db × F.gives_bytes view.old.log → IfErr result (λ e. e ≢ Unread) }
    ensures still_right { F.reads_right view.old.db × F.reads_right view.old.log
        → F.reads_right view.new.db × F.reads_right view.new.log }
    ensures still_gives { F.gives_bytes view.old.db × F.gives_bytes view.old.log
        → F.gives_bytes view.new.db × F.gives_bytes view.new.log }
    ensures same { shape_of F.bytes view.new ≡ shape_of F.bytes view.old }
{
    let mut page = vec![in alloc; 0u8; view.page_size().get() as usize]?;
    let mut run = Vec::with_capacity(alloc, RUN)?;
    for before in 0..view.count() {
        view.read(before + 1, &mut page)?;
        add(&mut run, &page, out)?;
    }
    out.write_all(&run)?;
    out.flush()?;
    Ok(())
}
