//! A write-ahead log or a journal.
ghost use Rattle.std.specs.Prelude.{◌≡◌, ◌∷◌, ℕ, List, OnOk, map};
ghost use Rattle.std.specs.Io.KnownBytes.{Appends};
ghost use Rattle.sqwal.specs.Took.{TookWithin};
ghost use Rattle.sqjournal.specs.Took.{Took, Says};
ghost use Rattle.sqjournal.specs.declared.reading.Record.{Record};
ghost use Rattle.sqjournal.specs.declared.replay.Stop.{Stop as RecordStop};
ghost use Rattle.cli_text.specs.Facts.{fact_text, object_text};
ghost use Rattle.cli_text.specs.Logs.{Journal, Log, ShowsJournal, ShowsLog, commit_text, commits_lines};
ghost use Rattle.cli_text.specs.Logs.{commits_text, cut_text, frame_text, frames_text, front_text, journal_start_text};
ghost use Rattle.cli_text.specs.Logs.{hot_text, journal_stop_text, journal_text, kind_text};
ghost use Rattle.cli_text.specs.internal.Logs.{log_of};
ghost use Rattle.cli_text.specs.Logs.{log_start_text, log_text};
ghost use Rattle.cli_text.specs.Logs.{record_text, records_text, size_at};

use crate::fact::{Fact, number, write_facts};
use crate::verdicts::write_none;
use crate::words::{record_stop_name, stop_name};
use cli_words::Style;
use sqjournal::{JournalHeader, Record, Replay};
use sqwal::{Entry, Front, Scan, Stop, WalHeader};
use std::io::{self, Write};

/// What a scan answers of its log.
#[derive(Clone, Copy)]
pub(crate) struct Shown<'a> {
    pub header: Option<WalHeader>,
    pub entries: &'a [Entry],
    pub front: Front,
    pub stop: Stop,
}

/// What a scan answers of its log.
pub(crate) fn shown_by(scan: &Scan) -> Shown<'_>
    ensures { (most : ℕ) (b : List ℕ) → TookWithin most b scan.entry.now → ShowsLog most b (log_of result) }
{
    Shown {
        header: scan.header(),
        entries: scan.entries(),
        front: scan.committed(),
        stop: scan.stop(),
    }
}

/// The facts of a log's header.
fn write_log_start<W: Write>(
    out: &mut W,
    style: Style,
    kind: &str,
    facts: &[Fact<'_>; 3],
) -> io::Result<()>
    ensures { OnOk result (Appends (W.contents out.old) (W.contents out.new)
        (object_text style (kind_text style kind.now ∷ map (fact_text style) facts.now))) }
{
    let [first, second, third] = *facts;
    match style {
        Style::Lines => {
            write!(out, "{kind} ")?;
            write_facts(out, style, facts)
        }
        Style::Json => write_facts(out, style, &[Fact::Text("log", kind), first, second, third]),
    }
}

/// A log's front and where it stops.
fn write_front<W: Write>(out: &mut W, style: Style, front: Front, stop: Stop) -> io::Result<()>
    ensures { OnOk result (Appends (W.contents out.old) (W.contents out.new) (front_text style front stop)) }
{
    let facts = [
        number("front", front.frames),
        number("size", front.size),
        Fact::Text("stop", stop_name(stop.why)),
        number("at", stop.frame),
    ];
    write_facts(out, style, &facts)
}

/// That a write-ahead log is shorter than its header.
fn write_cut<W: Write>(out: &mut W, style: Style) -> io::Result<()>
    ensures { OnOk result (Appends (W.contents out.old) (W.contents out.new) (cut_text style)) }
{
    write_facts(out, style, &[Fact::Text("wal", "cut")])
}

/// A write-ahead log's header.
fn write_wal_header<W: Write>(out: &mut W, style: Style, header: &WalHeader) -> io::Result<()>
    ensures { OnOk result (Appends (W.contents out.old) (W.contents out.new) (log_start_text style header.now)) }
{
    let facts = [
        number("pagesize", header.page_size.get()),
        number("sequence", header.sequence),
        Fact::Salts("salts", header.salt1, header.salt2),
    ];
    write_log_start(out, style, "wal", &facts)
}

/// A valid frame by its number, from 1.
fn write_frame<W: Write>(out: &mut W, style: Style, i: u64, entry: Entry) -> io::Result<()>
    ensures { OnOk result (Appends (W.contents out.old) (W.contents out.new) (frame_text style i entry)) }
{
    let facts = [
        Fact::Number("frame", i),
        number("page", entry.page),
        number("size", entry.size),
    ];
    write_facts(out, style, &facts)
}

/// The valid frames by their numbers, from 1.
fn write_frames<W: Write>(out: &mut W, style: Style, entries: &[Entry]) -> io::Result<()>
    ensures { OnOk result (Appends (W.contents out.old) (W.contents out.new) (frames_text style entries.now)) }
{
    for (i, entry) in entries.iter().enumerate() {
        write_frame(out, style, i as u64 + 1, *entry)?;
    }
    Ok(())
}

/// What is printed of a log.
fn write_shown<W: Write>(out: &mut W, style: Style, log: &Shown<'_>) -> io::Result<()>
    ensures { OnOk result (Appends (W.contents out.old) (W.contents out.new) (log_text style (log_of log.now))) }
{
    let Some(header) = log.header else {
        return write_cut(out, style);
    };
    write_wal_header(out, style, &header)?;
    write_frames(out, style, log.entries)?;
    write_front(out, style, log.front, log.stop)
}

/// A write-ahead log's header, each valid frame, and its front and where it stops. An error of the writer.
pub fn write_log<W: Write>(out: &mut W, style: Style, scan: &Scan) -> io::Result<()>
    ensures { (most : ℕ) (b : List ℕ) → TookWithin most b scan.now → (log : Log) × ShowsLog most b log
        × OnOk result (Appends (W.contents out.old) (W.contents out.new) (log_text style log)) }
{
    write_shown(out, style, &shown_by(scan))
}

/// The size of the database at a frame, in pages; 0 where there is no such frame.
pub(crate) fn size_at(entries: &[Entry], frame: u32) -> u32
    ensures { result ≡ size_at entries.now frame }
{
    match frame.checked_sub(1) {
        Some(before) => match entries.get(before as usize) {
            Some(entry) => entry.size,
            None => 0,
        },
        None => 0,
    }
}

/// A commit by its number, from 1: its last frame, and the last frame before it.
fn write_commit<W: Write>(
    out: &mut W,
    style: Style,
    entries: &[Entry],
    i: u64,
    before: u32,
    frame: u32,
) -> io::Result<()>
    ensures { OnOk result (Appends (W.contents out.old) (W.contents out.new)
        (commit_text style entries.now i before frame)) }
{
    let facts = [
        Fact::Number("commit", i),
        number("frame", frame),
        number("pages", frame.saturating_sub(before)),
        number("size", size_at(entries, frame)),
    ];
    write_facts(out, style, &facts)
}

/// The commits by their numbers, from 1.
fn write_commit_lines<W: Write>(
    out: &mut W,
    style: Style,
    entries: &[Entry],
    commits: &[u32],
) -> io::Result<()>
    ensures { OnOk result (Appends (W.contents out.old) (W.contents out.new)
        (commits_lines style entries.now commits.now)) }
{
    let mut before = 0;
    for (i, frame) in commits.iter().enumerate() {
        write_commit(out, style, entries, i as u64 + 1, before, *frame)?;
        before = *frame;
    }
    Ok(())
}

/// What is printed of the commits of a log.
fn write_shown_commits<W: Write>(
    out: &mut W,
    style: Style,
    log: &Shown<'_>,
    commits: &[u32],
) -> io::Result<()>
    ensures { OnOk result (Appends (W.contents out.old) (W.contents out.new)
        (commits_text style (log_of log.now) commits.now)) }
{
    let Some(_) = log.header else {
        return write_cut(out, style);
    };
    write_commit_lines(out, style, log.entries, commits)?;
    write_front(out, style, log.front, log.stop)
}

/// Each commit of a log, by its last frame: how many frames it has, and the size of the database there; and the log's
/// front and where it stops. An error of the writer.
pub fn write_commits<W: Write>(
    out: &mut W,
    style: Style,
    scan: &Scan,
    commits: &[u32],
) -> io::Result<()>
    ensures { (most : ℕ) (b : List ℕ) → TookWithin most b scan.now → (log : Log) × ShowsLog most b log
        × OnOk result (Appends (W.contents out.old) (W.contents out.new) (commits_text style log commits.now)) }
{
    write_shown_commits(out, style, &shown_by(scan), commits)
}

/// The first header of a hot journal.
fn write_journal_header<W: Write>(
    out: &mut W,
    style: Style,
    header: &JournalHeader,
) -> io::Result<()>
    ensures { OnOk result (Appends (W.contents out.old) (W.contents out.new) (journal_start_text style header.now)) }
{
    let facts = [
        number("pagesize", header.page_size.get()),
        number("sector", header.sector),
        number("first", header.first_size),
    ];
    write_log_start(out, style, "journal", &facts)
}

/// A record of a journal by its number, from 1.
fn write_entry<W: Write>(out: &mut W, style: Style, i: u64, entry: Record) -> io::Result<()>
    ensures { OnOk result (Appends (W.contents out.old) (W.contents out.new) (record_text style i entry)) }
{
    let facts = [
        Fact::Number("record", i),
        number("page", entry.page),
        number("at", entry.at),
    ];
    write_facts(out, style, &facts)
}

/// Each record of a journal by its number, from 1.
fn write_entries<W: Write>(out: &mut W, style: Style, replay: &Replay) -> io::Result<()>
    ensures { (b : List ℕ) (records : List Record) (stop : RecordStop) → Took b replay.now
        → Says b records stop
        → OnOk result (Appends (W.contents out.old) (W.contents out.new) (records_text style records)) }
{
    for i in 0..replay.count() {
        let Some(entry) = replay.entry(i + 1) else {
            break;
        };
        write_entry(out, style, i as u64 + 1, entry)?;
    }
    Ok(())
}

/// Where a journal stops.
fn write_stop<W: Write>(out: &mut W, style: Style, stop: sqjournal::Stop) -> io::Result<()>
    ensures { OnOk result (Appends (W.contents out.old) (W.contents out.new) (journal_stop_text style stop)) }
{
    let facts = [
        Fact::Text("stop", record_stop_name(stop.why)),
        number("at", stop.at),
    ];
    write_facts(out, style, &facts)
}

/// A hot journal: its header, its records, and where it stops.
fn write_hot<W: Write>(
    out: &mut W,
    style: Style,
    header: &JournalHeader,
    replay: &Replay,
    stop: sqjournal::Stop,
) -> io::Result<()>
    ensures { (b : List ℕ) (records : List Record) → Took b replay.now → Says b records stop
        → OnOk result (Appends (W.contents out.old) (W.contents out.new) (hot_text style header.now records stop)) }
{
    write_journal_header(out, style, header)?;
    write_entries(out, style, replay)?;
    write_stop(out, style, stop)
}

/// A hot journal's header, each record, and where it stops. An error of the writer.
pub fn write_journal<W: Write>(out: &mut W, style: Style, replay: &Replay) -> io::Result<()>
    ensures { (b : List ℕ) → Took b replay.now → (journal : Journal) × ShowsJournal b journal
        × OnOk result (Appends (W.contents out.old) (W.contents out.new) (journal_text style journal)) }
{
    let stop = replay.stop();
    match replay.first() {
        Some(header) => write_hot(out, style, &header, replay, stop),
        None => write_none(out, style, "log"),
    }
}
