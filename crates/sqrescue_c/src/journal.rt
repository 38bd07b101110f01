//! What a rollback journal says.
ghost use Rattle.std.specs.Prelude.{◌≡◌, ◌≢◌, ◌⊎◌, ◌<◌, ◌≤◌, ℕ, suc, List, length, get_or, IfOk, IfErr};
ghost use Rattle.sqjournal.specs.Took.{Took, Says, Refuses};
ghost use Rattle.sqjournal.specs.declared.reading.Record.{Record as Entry};
ghost use Rattle.sqjournal.specs.declared.replay.Stop.{Stop as End};
ghost use Rattle.sqrescue_c.specs.Journals.{IsReplayed, BeginsWithRecords, JournalRefused, AreRecordsOf};
ghost use Rattle.sqrescue_c.specs.internal.Journals.{IsRecordAt};
ghost use Rattle.sqrescue_c.specs.Statuses.{journal_why};

use crate::status::{Status, journal_number};
use sqjournal::{JournalError, Replay, Why};
use std::alloc::Global;

/// A record that counts: the page that it holds, and where the page's bytes begin in the journal, in bytes.
#[repr(C)]
#[derive(Clone, Copy)]
pub struct Record {
    pub at: u64,
    pub page: u32,
}

/// What a journal says as a whole.
#[repr(C)]
#[derive(Clone, Copy)]
pub struct JournalReport {
    /// How many records count, in all segments.
    pub records: u64,
    /// Where the next header or record would begin, in bytes.
    pub stop: u64,
    /// Why it ends there: from End, 1, to Sum, 5, in the order of sqjournal's `Why`.
    pub why: u32,
    /// In bytes, as the sector; both 0, and so the pages, where the journal isn't hot.
    pub page_size: u32,
    pub sector: u32,
    /// How many pages the database had before the transaction.
    pub pages: u32,
}

/// The replay of a whole journal.
fn replay_of(alloc: Global, journal: &[u8]) -> Result<Replay, JournalError>
    ensures took { IfOk result (Took journal.now) }
    ensures refused { IfErr result (Refuses journal.now) }
{
    let mut replay = Replay::new(alloc);
    replay.feed(journal)?;
    Ok(replay)
}

/// The number of the reason why a journal ends.
fn why_number(why: Why) -> u32
    ensures { result ≡ journal_why why }
{
    match why {
        Why::End => 1,
        Why::Header => 2,
        Why::Short => 3,
        Why::PageZero => 4,
        Why::Sum => 5,
    }
}

/// What the replay says of the journal.
fn report_of(replay: &Replay) -> JournalReport
    ensures { (b : List ℕ) → Took b replay.now → IsReplayed b result }
{
    let stop = replay.stop();
    let report = JournalReport {
        records: replay.count() as u64,
        stop: stop.at,
        why: why_number(stop.why),
        page_size: 0,
        sector: 0,
        pages: 0,
    };
    match replay.first() {
        Some(header) => JournalReport {
            page_size: header.page_size.get(),
            sector: header.sector,
            pages: header.first_size,
            ..report
        },
        None => report,
    }
}

/// Record i, from 1; of page 0 where there is none.
fn record_at(replay: &Replay, i: usize) -> Record
    requires { 1 ≤ i }
    ensures { (b : List ℕ) (es : List Entry) (stop : End) → Took b replay.now → Says b es stop
        → IsRecordAt es i result }
{
    match replay.entry(i) {
        Some(record) => Record {
            at: record.at,
            page: record.page,
        },
        None => Record { at: 0, page: 0 },
    }
}

/// Writes the first records to the front of an array, so many.
fn copy_records(replay: &Replay, count: usize, records: &mut [Record])
    requires { count ≤ length records.old }
    ensures { (b : List ℕ) (es : List Entry) (stop : End) → Took b replay.now → Says b es stop
        → AreRecordsOf es count records.new }
{
    for i in 0..count {
        records[i] = record_at(replay, i + 1);
    }
}

/// The records of a rollback journal that count, the first one first, and where it ends. Answers Done, or NoRoom where
/// there are more records than the array has places, and then leaves the array as it is; otherwise TooLarge, Magic or
/// PageSize, in this order, or NoMemory in place of any, and then leaves both as they are (fileformat2, 3; ends are
/// own).
#[unsafe(no_mangle)]
pub extern "C" fn sqr_journal_scan(
    alloc: Global,
    journal: &[u8],
    records: &mut [Record],
    out: &mut JournalReport,
) -> u32
    ensures scanned { (result ≡ 0) ⊎ (result ≡ 9) → IsReplayed journal.now out.new }
    ensures records { result ≡ 0 → BeginsWithRecords journal.now out.new.records records.new }
    ensures crowded { result ≡ 9 → length records.old < out.new.records }
    ensures refused { result ≢ 0 → result ≢ 9 → JournalRefused journal.now result }
    ensures records_kept { result ≢ 0 → records.new ≡ records.old }
    ensures out_kept { result ≢ 0 → result ≢ 9 → out.new ≡ out.old }
{
    let replay = match replay_of(alloc, journal) {
        Ok(replay) => replay,
        Err(error) => return journal_number(&error),
    };
    *out = report_of(&replay);
    let count = replay.count();
    if count > records.len() {
        return Status::NoRoom.number();
    }
    copy_records(&replay, count, records);
    Status::Done.number()
}
