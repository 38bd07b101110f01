//! A file of which it is counted how much is read.
ghost use Rattle.std.specs.Prelude.{◌≡◌, IfOk};
ghost use Rattle.sqview.specs.Ahead.{IsUnread};

use cli_files::Count;
use cli_show::Contents;
use sqpage::SourceError;
use sqview::{FileBytes, ReadAhead};
use std::alloc::{AllocError, Global};

/// A file's bytes. Who counts, if one does, is told how many were asked for by each read that was answered.
pub struct Metered<'a, F, M> {
    file: F,
    meter: Option<&'a M>,
}

impl<F: Drop, M> Drop for Metered<'_, F, M> {
    fn drop(self) {
        let Metered { file, meter: _ } = self;
        drop(file);
    }
}

impl<'a, F, M> Metered<'a, F, M> {
    pub fn new(file: F, meter: Option<&'a M>) -> Metered<'a, F, M>
        ensures { result.file ≡ file }
    {
        Metered { file, meter }
    }

    /// The file, of which nothing is counted any more.
    pub fn into_file(self) -> F
        ensures { result ≡ self.entry.file }
    {
        let Metered { file, meter: _ } = self;
        file
    }
}

impl<'a, F: FileBytes + Drop, M> Metered<'a, F, M> {
    /// The same file, of which up to so many bytes are read at once. What is asked for is counted.
    pub fn ahead(
        self,
        alloc: Global,
        most: usize,
    ) -> Result<Metered<'a, ReadAhead<F>, M>, AllocError>
        ensures ahead { IfOk result (λ metered. IsUnread self.entry.file most metered.file) }
        ensures meter { IfOk result (λ metered. metered.meter ≡ self.entry.meter) }
    {
        let Metered { file, meter } = self;
        let file = ReadAhead::new(alloc, file, most)?;
        Ok(Metered { file, meter })
    }
}

impl<F: FileBytes, M: Count> FileBytes for Metered<'_, F, M> {
    ghost bytes = { λ metered. F.bytes metered.file };

    ghost reads_right = { λ metered. F.reads_right metered.file };

    ghost gives_bytes = { λ metered. F.gives_bytes metered.file };

    ghost right = { λ metered gives. F.right metered.file gives };

    fn len(&self) -> u64 {
        self.file.len()
    }

    fn read_at(&mut self, at: u64, out: &mut [u8]) -> Result<(), SourceError> {
        self.file.read_at(at, out)?;
        if let Some(meter) = self.meter {
            meter.count(out.len() as u64);
        }
        Ok(())
    }
}

/// A database file and its logs, of which it is counted what is read of any.
pub fn all_metered<'a, F, M>(files: Contents<F>, meter: &'a M) -> Contents<Metered<'a, F, M>>
    ensures db { result.db.file ≡ files.db }
    ensures wal { result.wal.file ≡ files.wal }
    ensures journal { result.journal.file ≡ files.journal }
{
    let Contents { db, wal, journal } = files;
    Contents {
        db: Metered::new(db, Some(meter)),
        wal: Metered::new(wal, Some(meter)),
        journal: Metered::new(journal, Some(meter)),
    }
}

/// A database file, of which it is counted what is read from now on, if somebody counts, and its logs.
pub(crate) fn db_metered<'a, F: FileBytes, M: Count>(
    files: Contents<F>,
    meter: Option<&'a M>,
) -> Contents<Metered<'a, F, M>>
    ensures db { result.db.file ≡ files.db }
    ensures wal { result.wal.file ≡ files.wal }
    ensures journal { result.journal.file ≡ files.journal }
{
    let Contents { db, wal, journal } = files;
    if let Some(meter) = meter {
        meter.begin(db.len());
    }
    Contents {
        db: Metered::new(db, meter),
        wal: Metered::new(wal, None),
        journal: Metered::new(journal, None),
    }
}

/// Two files of which up to so many bytes are read at once.
pub fn both_ahead<'a, F: FileBytes + Drop, M>(
    alloc: Global,
    first: Metered<'a, F, M>,
    second: Metered<'a, F, M>,
    most: usize,
) -> Result<(Metered<'a, ReadAhead<F>, M>, Metered<'a, ReadAhead<F>, M>), AllocError>
    ensures first { IfOk result (λ both. IsUnread first.entry.file most both.0.file) }
    ensures second { IfOk result (λ both. IsUnread second.entry.file most both.1.file) }
    ensures meters { IfOk result (λ both. (both.0.meter ≡ first.entry.meter)
        × (both.1.meter ≡ second.entry.meter)) }
{
    let first = first.ahead(alloc, most)?;
    match second.ahead(alloc, most) {
        Ok(second) => Ok((first, second)),
        Err(error) => Err(error),
    }
}

/// A database file and its journal of which up to so many bytes are read at once, and the write-ahead log.
pub fn all_ahead<'a, F: FileBytes + Drop, M>(
    alloc: Global,
    files: Contents<Metered<'a, F, M>>,
    most: usize,
) -> Result<Contents<Metered<'a, ReadAhead<F>, M>>, AllocError>
    ensures db { IfOk result (λ ahead. IsUnread files.entry.db.file most ahead.db.file) }
    ensures wal { IfOk result (λ ahead. IsUnread files.entry.wal.file 0 ahead.wal.file) }
    ensures journal { IfOk result (λ ahead. IsUnread files.entry.journal.file most ahead.journal.file) }
    ensures meters { IfOk result (λ ahead. (ahead.db.meter ≡ files.entry.db.meter)
        × (ahead.wal.meter ≡ files.entry.wal.meter) × (ahead.journal.meter ≡ files.entry.journal.meter)) }
{
    let Contents { db, wal, journal } = files;
    let (db, journal) = both_ahead(alloc, db, journal, most)?;
    match wal.ahead(alloc, 0) {
        Ok(wal) => Ok(Contents { db, wal, journal }),
        Err(error) => Err(error),
    }
}
