//! The pages of the database that files show.
ghost use Rattle.std.specs.Prelude.{◌≡◌, ◌≢◌, ◌⊎◌, ◌<◌, ◌≤◌, length, IfOk, IfErr};
ghost use Rattle.sqval.specs.Database.{page};
ghost use Rattle.sqview.specs.Laid.{laid, part_or_zeros, place_of};
ghost use Rattle.sqview.specs.LogView.{ReadsFrom, ViewRefused, pages_of};
ghost use Rattle.sqview.specs.internal.LogView.{IsShown};
ghost use Rattle.sqpast.specs.Files.{PastAnswer};
ghost use Rattle.sqrescue_c.specs.Recoveries.{RefusesAsRecovery, RefusesAsRecoveryAt};
ghost use Rattle.sqrescue_c.specs.Views.{HasSize, IsOpened, IsRefused, OpenRefused, IsOpenedAt, AtRefusedBy};

use crate::refusals::{ask, ask_at};
use crate::status::{Status, past_status, view_number};
use sqpage::PageSource;
use sqpast::{PastError, past};
use sqview::{FileBytes, View, ViewError};
use std::alloc::Global;

/// A database file and the logs beside it, in bytes that the caller keeps. A missing file has none.
#[repr(C)]
#[derive(Clone, Copy)]
pub struct Files<'a> {
    /// The database.
    pub db: &'a [u8],
    /// Its write-ahead log.
    pub wal: &'a [u8],
    /// Its rollback journal.
    pub journal: &'a [u8],
}

/// The database that files show, in bytes and places that the caller keeps.
#[repr(C)]
#[derive(Clone, Copy)]
pub struct Handle<'a> {
    /// The database file.
    pub db: &'a [u8],
    /// The log that counts, or bytes of which none is read.
    pub log: &'a [u8],
    /// By page, from 1: where its bytes begin in the log; 0, or none, where the file's count.
    pub places: &'a [u64],
    /// In bytes.
    pub page_size: u32,
    /// How many pages there are.
    pub pages: u32,
}

/// The view of files.
pub(crate) fn view_of<'a>(alloc: Global, files: &Files<'a>) -> Result<View<&'a [u8]>, ViewError>
    ensures shown { IfOk result (λ view.
        IsShown (λ file. file.now) files.now.db.now files.now.wal.now files.now.journal.now view) }
    ensures reads { IfOk result (λ view.
        ReadsFrom files.now.db.now files.now.wal.now files.now.journal.now view.db.now view.log.now) }
    ensures refused { IfErr result (ViewRefused files.now.db.now files.now.wal.now files.now.journal.now) }
{
    View::new(alloc, files.db, files.wal, files.journal)
}

/// The page size, in bytes, and the number of pages of the database that files show. Answers Done, or TwoLogs,
/// LogVersion, PageSizesDiffer or SuperJournal, TooLarge or NotADatabase, in this order, as a recovery does, or
/// NoMemory in place of any but LogVersion and SuperJournal, and then leaves both as they are (fileformat2, 3 and 4.5).
#[unsafe(no_mangle)]
pub extern "C" fn sqr_size(
    alloc: Global,
    files: &Files<'_>,
    page_size: &mut u32,
    pages: &mut u32,
) -> u32
    ensures size { result ≡ 0
        → HasSize files.now.db.now files.now.wal.now files.now.journal.now page_size.new pages.new }
    ensures refused { result ≢ 0 → result < 14
        → IsRefused files.now.db.now files.now.wal.now files.now.journal.now result }
    ensures recovery { RefusesAsRecovery files.now.db.now files.now.wal.now files.now.journal.now result }
    ensures size_kept { result ≢ 0 → page_size.new ≡ page_size.old }
    ensures pages_kept { result ≢ 0 → pages.new ≡ pages.old }
{
    if let Err(status) = ask(alloc, files) {
        return status.number();
    }
    match view_of(alloc, files) {
        Ok(view) => {
            *page_size = view.page_size().get();
            *pages = view.count();
            Status::Done.number()
        }
        Err(error) => view_number(error),
    }
}

/// Hands a view over to a caller. Refused by NoRoom where there are fewer places than the view has.
pub(crate) fn hand_over<'a>(
    view: &View<&'a [u8]>,
    places: &'a mut [u64],
    out: &mut Handle<'a>,
) -> Result<(), Status>
    ensures sizes { IfOk result (λ _. (out.new.page_size ≡ view.now.page_size)
        × (out.new.pages ≡ length (pages_of (λ file. file.now) view.now))) }
    ensures bytes { IfOk result (λ _. (out.new.db.now ≡ view.now.db.now) × (out.new.log.now ≡ view.now.log.now)) }
    ensures places { IfOk result (λ _. (out.new.places.now ≡ view.now.places.items)
        × (length view.now.places.items ≤ length places.old)) }
    ensures crowded { IfErr result (λ e. (e ≡ Status.NoRoom)
        × (length places.old < length view.now.places.items)) }
    ensures kept { IfErr result (λ _. out.new ≡ out.old) }
{
    let count = view.place_count();
    if count > places.len() {
        return Err(Status::NoRoom);
    }
    let (kept, _) = places.split_at_mut(count);
    view.copy_places(kept);
    *out = Handle {
        db: *view.file(),
        log: *view.log(),
        places: kept,
        page_size: view.page_size().get(),
        pages: view.count(),
    };
    Ok(())
}

/// Opens the database that files show. The places are the handle's from then on: one for each page where a log
/// counts, otherwise none. Answers as `sqr_size` does, or NoRoom where there are fewer places, and then leaves the
/// handle and the places as they are (fileformat2, 3 and 4.5).
#[unsafe(no_mangle)]
pub extern "C" fn sqr_open<'a>(
    alloc: Global,
    files: &Files<'a>,
    places: &'a mut [u64],
    out: &mut Handle<'a>,
) -> u32
    ensures opened { result ≡ 0 → IsOpened files.now.db.now files.now.wal.now files.now.journal.now
        out.new.page_size out.new.pages out.new.db.now out.new.log.now out.new.places.now }
    ensures refused { result ≢ 0 → result < 14
        → OpenRefused files.now.db.now files.now.wal.now files.now.journal.now (length places.old) result }
    ensures recovery { RefusesAsRecovery files.now.db.now files.now.wal.now files.now.journal.now result }
    ensures room { result ≡ 0 → length out.new.places.now ≤ length places.old }
    ensures kept { result ≢ 0 → out.new ≡ out.old }
{
    if let Err(status) = ask(alloc, files) {
        return status.number();
    }
    let view = match view_of(alloc, files) {
        Ok(view) => view,
        Err(error) => return view_number(error),
    };
    match hand_over(&view, places, out) {
        Ok(()) => Status::Done.number(),
        Err(status) => status.number(),
    }
}

/// The view of files at a commit frame, or at 0.
fn view_at<'a>(alloc: Global, files: &Files<'a>, frame: u32) -> Result<View<&'a [u8]>, PastError>
    ensures answer { PastAnswer (λ file. file.now) frame
        files.now.db.now files.now.wal.now files.now.journal.now result }
    ensures reads { IfOk result (λ view. (view.db.now ≡ files.now.db.now) × (view.log.now ≡ files.now.wal.now)) }
{
    past(alloc, files.db, files.wal, files.journal, frame)
}

/// Opens the database that files had at a commit frame of their write-ahead log, whatever a checkpoint copied since; at
/// frame 0 the one before the first commit, also beside a hot journal. The places are the handle's from then on: one
/// for each page, none at frame 0. Answers Done, or TwoLogs, LogVersion, PageSizesDiffer, TooLarge, NoSuchCommit,
/// TooLarge of that database, CommitOverwritten if a later checkpoint may have changed it, NotADatabase at frame 0,
/// also if the file names another page size than its log, or NoRoom where there are fewer places; or NoMemory in place
/// of any but LogVersion; and then leaves the handle and the places as they are (fileformat2, 4.5).
#[unsafe(no_mangle)]
pub extern "C" fn sqr_open_at<'a>(
    alloc: Global,
    files: &Files<'a>,
    frame: u32,
    places: &'a mut [u64],
    out: &mut Handle<'a>,
) -> u32
    ensures opened { result ≡ 0 → IsOpenedAt frame files.now.db.now files.now.wal.now files.now.journal.now
        out.new.page_size out.new.pages out.new.db.now out.new.log.now out.new.places.now }
    ensures refused { result ≢ 0 → (result < 14) ⊎ (result ≡ 30)
        → AtRefusedBy frame files.now.db.now files.now.wal.now files.now.journal.now (length places.old) result }
    ensures recovery { RefusesAsRecoveryAt frame
        files.now.db.now files.now.wal.now files.now.journal.now result }
    ensures room { result ≡ 0 → length out.new.places.now ≤ length places.old }
    ensures kept { result ≢ 0 → out.new ≡ out.old }
{
    if let Err(status) = ask_at(alloc, files, frame) {
        return status.number();
    }
    let view = match view_at(alloc, files, frame) {
        Ok(view) => view,
        Err(error) => return past_status(error).number(),
    };
    match hand_over(&view, places, out) {
        Ok(()) => Status::Done.number(),
        Err(status) => status.number(),
    }
}

/// Where a page begins in the log, in bytes; 0 where the file's counts.
pub(crate) fn place(places: &[u64], page: u32) -> u64
    requires { 1 ≤ page }
    ensures { result ≡ place_of places.now page }
{
    places.get(page as usize - 1).copied().unwrap_or(0)
}

/// Copies the bytes of a file from a place on, with zeros past its end.
fn copy_part(file: &[u8], at: u64, out: &mut [u8])
    ensures { out.new ≡ part_or_zeros (length out.old) at file.now }
{
    let mut source = file;
    match source.read_at(at, out) {
        Ok(()) | Err(_) => (),
    }
}

/// Writes a page, from 1, to a buffer that is as long as a page. Answers Done, or NoSuchPage or WrongSize, in this
/// order, and then leaves the buffer as it is. Any numbers in the handle are taken; what lies past the end of its
/// bytes is zeros, and a page without a place is the file's (own).
#[unsafe(no_mangle)]
pub extern "C" fn sqr_page(handle: &Handle<'_>, p: u32, out: &mut [u8]) -> u32
    ensures content { result ≡ 0 → out.new ≡ page (laid handle.now.page_size handle.now.pages
        handle.now.db.now handle.now.log.now handle.now.places.now) p }
    ensures there { 1 ≤ p → p ≤ handle.now.pages → length out.old ≡ handle.now.page_size → result ≡ 0 }
    ensures outside { (p ≡ 0) ⊎ (handle.now.pages < p) → result ≡ 7 }
    ensures size { 1 ≤ p → p ≤ handle.now.pages → length out.old ≢ handle.now.page_size → result ≡ 8 }
    ensures kept { result ≢ 0 → out.new ≡ out.old }
{
    if p == 0 || p > handle.pages {
        return Status::NoSuchPage.number();
    }
    if out.len() != handle.page_size as usize {
        return Status::WrongSize.number();
    }
    let at = place(handle.places, p);
    if at == 0 {
        copy_part(
            handle.db,
            u64::from(p - 1) * u64::from(handle.page_size),
            out,
        );
    } else {
        copy_part(handle.log, at, out);
    }
    Status::Done.number()
}
