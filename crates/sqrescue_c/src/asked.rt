//! What is asked for by flags.
ghost use Rattle.std.specs.Prelude.{◌≡◌, ◌≤◌, ◌↔◌, IsTrue, IfOk, IfErr};
ghost use Rattle.sqview.specs.LogView.{pages_of};
ghost use Rattle.sqrescue_c.specs.Asked.{is_set, is_at, is_complete, limits_of, maps_of, AreAskedFlags, AreDeepFlags};
ghost use Rattle.sqrescue_c.specs.Asked.{AreAskedCounts, ShowsAsked, ShowsWhole, AskedRefused};
ghost use Rattle.sqrescue_c.specs.internal.Missing.{AreMissing};
ghost use Rattle.sqpast.specs.Used.{AreCounts, IsUsedPart};
ghost use Rattle.sqview.specs.declared.view_error.ViewError.TheVariants.{NoMemory};

use crate::view::Files;
use sqcheck::Options;
use sqpast::{Counts, PastError, leave_used, past_within};
use sqval::Limits;
use sqview::{FileBytes, View, ViewError};
use std::alloc::Global;

/// The database at a commit frame, or at 0, and not at the front.
pub(crate) const AT: u32 = 4;

/// The greatest limits, and not the usual ones.
const LARGE: u32 = 8;

/// With pointer maps, where there are some.
const POINTER_MAPS: u32 = 16;

/// The flags are the bits below this one, except two of another call and the next one.
const FLAGS_END: u32 = 128;

/// All is to be judged: a flag of deep checks alone.
const COMPLETE: u32 = 32;

/// What is answered where a flag isn't known.
pub(crate) const UNKNOWN_OPTIONS: u32 = 24;

/// Whether a flag, a power of two, is set.
fn is_set(flags: u32, flag: u32) -> bool
    requires { 1 ≤ flag }
    ensures { result ≡ is_set flags flag }
{
    flags / flag % 2 == 1
}

/// Whether all flags are known: those three, and one that is for calls by path and means nothing here.
pub(crate) fn are_known(flags: u32) -> bool
    ensures { IsTrue result ↔ AreAskedFlags flags }
{
    flags < FLAGS_END && flags % AT == 0 && flags / COMPLETE % 2 == 0
}

/// Whether there are no flags but those and the one of deep checks.
pub(crate) fn are_known_deep(flags: u32) -> bool
    ensures { IsTrue result ↔ AreDeepFlags flags }
{
    flags < FLAGS_END && flags % AT == 0
}

/// Whether all is to be judged.
pub(crate) fn is_complete(flags: u32) -> bool
    ensures { result ≡ is_complete flags }
{
    is_set(flags, COMPLETE)
}

/// The limits that are asked for.
fn limits_of(flags: u32) -> Limits
    ensures { result ≡ limits_of flags }
{
    if is_set(flags, LARGE) {
        Limits::LARGE
    } else {
        Limits::USUAL
    }
}

/// Whether pointer maps are asked for.
pub(crate) fn options_of(flags: u32) -> Options
    ensures { result.pointer_maps ≡ maps_of flags }
{
    Options {
        pointer_maps: is_set(flags, POINTER_MAPS),
    }
}

/// The view that is asked for, with all its pages.
fn whole_asked<'a>(
    alloc: Global,
    files: &Files<'a>,
    flags: u32,
    frame: u32,
) -> Result<View<&'a [u8]>, PastError>
    ensures shown { IfOk result (λ view. ShowsWhole flags frame view.page_size
        files.now.db.now files.now.wal.now files.now.journal.now (pages_of (λ file. file.now) view)) }
    ensures missing { IfOk result (AreMissing flags frame files.now.wal.now files.now.journal.now) }
    ensures refused { IfErr result (AskedRefused flags frame files.now.db.now files.now.wal.now files.now.journal.now) }
{
    let limits = limits_of(flags);
    if is_set(flags, AT) {
        past_within(alloc, limits, files.db, files.wal, files.journal, frame)
    } else {
        Ok(View::new_within(alloc, limits, files.db, files.wal, files.journal)?)
    }
}

/// A view of the pages that SQLite uses, and how many there were.
#[derive(Drop)]
pub struct Used<F> {
    pub view: View<F>,
    pub counts: Counts,
}

/// Leaves of a view the pages that SQLite uses.
fn used_of<F: FileBytes + Drop>(alloc: Global, whole: View<F>) -> Result<Used<F>, ViewError>
    ensures used { F.gives_bytes whole.db × F.gives_bytes whole.log
        → IfOk result (λ used. IsUsedPart F.bytes whole used.view) }
    ensures counts { F.gives_bytes whole.db × F.gives_bytes whole.log
        → IfOk result (λ used. AreCounts (pages_of F.bytes whole) used.counts) }
    ensures refused { F.gives_bytes whole.db × F.gives_bytes whole.log → IfErr result (λ error. error ≡ NoMemory) }
{
    let mut view = whole;
    match leave_used(alloc, &mut view) {
        Ok(counts) => Ok(Used { view, counts }),
        Err(error) => Err(error),
    }
}

/// The view that is asked for, of the pages that SQLite uses; and how many there were.
pub(crate) fn used_asked<'a>(
    alloc: Global,
    files: &Files<'a>,
    flags: u32,
    frame: u32,
) -> Result<Used<&'a [u8]>, PastError>
    ensures shown { IfOk result (λ used. ShowsAsked flags frame used.view.page_size
        files.now.db.now files.now.wal.now files.now.journal.now (pages_of (λ file. file.now) used.view)) }
    ensures missing { IfOk result (λ used. AreMissing flags frame files.now.wal.now files.now.journal.now used.view) }
    ensures counts { IfOk result (λ used. AreAskedCounts flags frame
        files.now.db.now files.now.wal.now files.now.journal.now used.counts) }
    ensures refused { IfErr result (AskedRefused flags frame files.now.db.now files.now.wal.now files.now.journal.now) }
{
    match whole_asked(alloc, files, flags, frame) {
        Ok(whole) => match used_of(alloc, whole) {
            Ok(used) => Ok(used),
            Err(error) => Err(PastError::Refused(error)),
        },
        Err(error) => Err(error),
    }
}

/// The view alone, as `used_asked` gives it.
pub(crate) fn view_asked<'a>(
    alloc: Global,
    files: &Files<'a>,
    flags: u32,
    frame: u32,
) -> Result<View<&'a [u8]>, PastError>
    ensures shown { IfOk result (λ view. ShowsAsked flags frame view.page_size
        files.now.db.now files.now.wal.now files.now.journal.now (pages_of (λ file. file.now) view)) }
    ensures missing { IfOk result (AreMissing flags frame files.now.wal.now files.now.journal.now) }
    ensures refused { IfErr result (AskedRefused flags frame files.now.db.now files.now.wal.now files.now.journal.now) }
{
    match used_asked(alloc, files, flags, frame) {
        Ok(used) => {
            let Used { view, counts: _ } = used;
            Ok(view)
        }
        Err(error) => Err(error),
    }
}
