//! The database that a file and the log beside it show, as a source of pages.
ghost use Rattle.std.specs.Prelude.{◌≡◌, ◌<◌, ◌≤◌, length, take, IsOk, OnOk};
ghost use Rattle.sqval.specs.Database.{page};
ghost use Rattle.sqpage.specs.Freelist.{IsPage};
ghost use Rattle.sqview.specs.Laid.{part_or_zeros, place_of, laid};
ghost use Rattle.sqview.specs.LogView.{pages_of};
ghost use Rattle.sqview.specs.Shapes.{shape_of};

mod at_commit;
mod opening;
mod origin;

use crate::file_bytes::FileBytes;
use crate::place_table::Places;
pub use at_commit::front_is_shown;
pub use origin::Origin;
use sqpage::{PageSource, SourceError};
use sqval::PageSize;

/// The pages of a database file as the log beside it has them. Each is read where it lies. Beside a log that counts
/// some bytes are kept for each of its frames or records that name a page, whatever number of pages it claims.
#[derive(Drop)]
pub struct View<F> {
    db: F,
    /// The log that counts, or one of which nothing is read.
    log: F,
    page_size: PageSize,
    count: u32,
    /// The frame of the log at which the view stands, or 0.
    front: u32,
    /// By page: where its bytes begin in the log. 0, or none, where the file's count.
    places: Places,
}

impl<F> View<F> {
    /// The frame of the write-ahead log at which the view stands, the last one that counts; 0 where none does.
    pub fn front(&self) -> u32
        ensures { result ≡ self.now.front }
    {
        self.front
    }

    /// The database file (own).
    pub fn file(&self) -> &F
        ensures { result.now ≡ self.now.db }
    {
        &self.db
    }

    /// The log that counts, or one of which nothing is read (own).
    pub fn log(&self) -> &F
        ensures { result.now ≡ self.now.log }
    {
        &self.log
    }

    /// How many pages have a place: all where a log counts, otherwise none (own).
    pub fn place_count(&self) -> usize
        ensures { result ≡ length self.now.places.items }
    {
        self.places.len()
    }

    /// Where page `p` begins in the log, in bytes; 0 where the file's counts (own).
    pub fn place(&self, p: u32) -> u64
        requires { 0 < p }
        ensures { result ≡ place_of self.now.places.items p }
    {
        self.places.get(p)
    }

    /// The places of all pages, the first one first (own).
    pub fn copy_places(&self, out: &mut [u64])
        requires { length out.old ≡ length self.now.places.items }
        ensures { out.new ≡ self.now.places.items }
    {
        self.places.copy_to(out);
    }

    /// Leaves the first pages alone (own).
    pub fn shorten(&mut self, count: u32)
        requires { count ≤ self.old.count }
        ensures count { self.new.count ≡ count }
        ensures sizes { (self.new.page_size ≡ self.old.page_size) × (self.new.front ≡ self.old.front) }
        ensures places { self.new.places.items ≡ take count self.old.places.items }
        ensures files { (self.new.db ≡ self.old.db) × (self.new.log ≡ self.old.log) }
    {
        self.count = count;
        self.places.shorten(count);
    }
}

impl<F: FileBytes> View<F> {
    /// Reads page `p`, from 1, to `out`, which has the size of a page, and changes nothing of the view but the state of
    /// its files. Refused as the source's `page` is.
    pub fn read(&mut self, p: u32, out: &mut [u8]) -> Result<(), SourceError>
        requires { IsPage (pages_of F.bytes self.old) p × (length out.old ≡ self.old.page_size) }
        ensures read { F.reads_right self.old.db × F.reads_right self.old.log
            → OnOk result (out.new ≡ page (pages_of F.bytes self.old) p) }
        ensures never_fails { F.gives_bytes self.old.db × F.gives_bytes self.old.log → IsOk result }
        ensures still_right { F.reads_right self.old.db × F.reads_right self.old.log
            → F.reads_right self.new.db × F.reads_right self.new.log }
        ensures still_gives { F.gives_bytes self.old.db × F.gives_bytes self.old.log
            → F.gives_bytes self.new.db × F.gives_bytes self.new.log }
        ensures same { shape_of F.bytes self.new ≡ shape_of F.bytes self.old }
    {
        let size = u64::from(self.page_size.get());
        let at = self.place(p);
        if at == 0 {
            return self.db.read_at(u64::from(p - 1) * size, out);
        }
        self.log.read_at(at, out)
    }

    /// Reads the log that counts from a place on, in bytes, with zeros past its end, and changes nothing of the view
    /// but the state of its files (own). Refused as `read_at` of the log is.
    pub fn read_log(&mut self, from: u64, out: &mut [u8]) -> Result<(), SourceError>
        ensures read { F.reads_right self.old.db × F.reads_right self.old.log
            → OnOk result (out.new ≡ part_or_zeros (length out.old) from (F.bytes self.old.log)) }
        ensures never_fails { F.gives_bytes self.old.db × F.gives_bytes self.old.log → IsOk result }
        ensures still_right { F.reads_right self.old.db × F.reads_right self.old.log
            → F.reads_right self.new.db × F.reads_right self.new.log }
        ensures still_gives { F.gives_bytes self.old.db × F.gives_bytes self.old.log
            → F.gives_bytes self.new.db × F.gives_bytes self.new.log }
        ensures same { shape_of F.bytes self.new ≡ shape_of F.bytes self.old }
    {
        self.log.read_at(from, out)
    }
}

impl<F: FileBytes> PageSource for View<F> {
    ghost pages = { λ v. laid v.page_size v.count (F.bytes v.db) (F.bytes v.log) v.places.items };

    ghost size = { λ v. v.page_size };

    ghost reads_right = { λ v. F.reads_right v.db × F.reads_right v.log };

    ghost gives_pages = { λ v. F.gives_bytes v.db × F.gives_bytes v.log };

    ghost right = { λ v gives. (F.right v.db gives.0, F.right v.log gives.1) };

    fn page_size(&self) -> PageSize {
        self.page_size
    }

    fn count(&self) -> u32 {
        self.count
    }

    fn page(&mut self, p: u32, out: &mut [u8]) -> Result<(), SourceError> {
        self.read(p, out)
    }
}
