//! The facts of a report, as JSON that stands in its page.
ghost use Rattle.std.specs.Prelude.{◌≡◌, ◌++◌, ℕ, List, OnOk, Option};
ghost use Rattle.std.specs.Io.KnownBytes.{Appends};
ghost use Rattle.sqwal.specs.Took.{TookWithin};
ghost use Rattle.sqjournal.specs.Took.{Took};
ghost use Rattle.sqjournal.specs.Journal.{IsFirst};
ghost use Rattle.sqjournal.specs.declared.header.JournalHeader.{JournalHeader};
ghost use Rattle.cli_text.specs.Facts.{separator};
ghost use Rattle.cli_text.specs.Logs.{Journal, Log, ShowsJournal, ShowsLog};
ghost use Rattle.cli_text.specs.internal.Logs.{log_of};
ghost use Rattle.cli_text.specs.Reports.{comma, commits_entries, first_pages, hex_name, journal_object, line_comma};
ghost use Rattle.cli_text.specs.Reports.{number_of_kind, number_of_use, page_of_use, run_end, run_text, slots_behind};
ghost use Rattle.cli_text.specs.Reports.{span_text, tree_start, tree_text, wal_object, wal_start};

use crate::hex_lines::write_hex;
use crate::logs::{Shown, shown_by, size_at};
use crate::words::{record_stop_name, stop_name};
use sqcheck::Role;
use sqjournal::Replay;
use sqpage::{Fault, Kind};
use sqwal::{Entry, Scan};
use std::io::{self, Write};

/// A tree of a database, and how many pages it and its overflow chains have.
#[derive(Clone, Copy, Debug, PartialEq, Eq)]
pub struct Tree {
    pub root: u32,
    pub is_index: bool,
    pub pages: u32,
}

/// The number of a kind of b-tree page in a report.
fn number_of(kind: Kind) -> u8
    ensures { result ≡ number_of_kind kind }
{
    match kind {
        Kind::TableLeaf => 0,
        Kind::TableInterior => 1,
        Kind::IndexLeaf => 2,
        Kind::IndexInterior => 3,
    }
}

/// The number of a role in a report, and the page that it is of, 0 for none.
fn numbers_of(role: Role) -> (u8, u32)
    ensures number { result.0 ≡ number_of_use role }
    ensures page { result.1 ≡ page_of_use role }
{
    match role {
        Role::Btree { kind, root } => (number_of(kind), root),
        Role::Overflow { owner } => (4, owner),
        Role::FreeTrunk => (5, 0),
        Role::FreeLeaf => (6, 0),
        Role::Unused => (7, 0),
        Role::PointerMap => (8, 0),
        Role::LockByte => (9, 0),
    }
}

/// What stands before an element of a list, each on a line.
fn write_comma<W: Write>(out: &mut W, is_first: bool) -> io::Result<()>
    ensures { OnOk result (Appends (W.contents out.old) (W.contents out.new) (separator line_comma is_first)) }
{
    if is_first {
        return Ok(());
    }
    out.write_all(b",\n")
}

/// A name, of which there may be none, in hex.
fn write_name<W: Write>(out: &mut W, name: Option<&str>) -> io::Result<()>
    ensures { OnOk result (Appends (W.contents out.old) (W.contents out.new) (hex_name name.entry)) }
{
    match name {
        Some(name) => write_hex(out, name.as_bytes()),
        None => Ok(()),
    }
}

/// The front of a tree's object.
fn write_tree_start<W: Write>(out: &mut W, tree: Tree) -> io::Result<()>
    ensures { OnOk result (Appends (W.contents out.old) (W.contents out.new) (tree_start tree)) }
{
    let root = tree.root;
    if tree.is_index {
        write!(out, "{{\"root\":{root},\"kind\":\"index\",\"named\":\"")
    } else {
        write!(out, "{{\"root\":{root},\"kind\":\"table\",\"named\":\"")
    }
}

/// A tree as an element of a list; its name, of which there may be none, in hex. An error of the writer.
pub fn write_tree<W: Write>(
    out: &mut W,
    is_first: bool,
    tree: Tree,
    name: Option<&str>,
) -> io::Result<()>
    ensures { OnOk result (Appends (W.contents out.old) (W.contents out.new)
        (tree_text is_first tree (hex_name name.entry))) }
{
    write_comma(out, is_first)?;
    write_tree_start(out, tree)?;
    write_name(out, name)?;
    let pages = tree.pages;
    write!(out, "\",\"pages\":{pages}}}")
}

/// The end of a run: its fault, if there is one.
fn write_run_end<W: Write>(out: &mut W, fault: Option<Fault>) -> io::Result<()>
    ensures { OnOk result (Appends (W.contents out.old) (W.contents out.new) (run_end fault)) }
{
    let Some(fault) = fault else {
        return out.write_all(b"]");
    };
    let (number, name) = (fault.number(), fault.name());
    write!(out, ",\"{number} {name}\"]")
}

/// So many pages of one use, from this one on, as an element of a list that begins with page 1. An error of the writer.
pub fn write_run<W: Write>(
    out: &mut W,
    first: u32,
    count: u32,
    role: Role,
    fault: Option<Fault>,
) -> io::Result<()>
    ensures { OnOk result (Appends (W.contents out.old) (W.contents out.new) (run_text first count role fault)) }
{
    let (number, of) = numbers_of(role);
    write_comma(out, first == 1)?;
    write!(out, "[{first},{count},{number},{of}")?;
    write_run_end(out, fault)
}

/// A commit: its last frame, how many frames it has, and how many pages the database has there.
fn write_span<W: Write>(
    out: &mut W,
    is_first: bool,
    entries: &[Entry],
    before: u32,
    frame: u32,
) -> io::Result<()>
    ensures { OnOk result (Appends (W.contents out.old) (W.contents out.new)
        (separator comma is_first ++ span_text entries.now before frame)) }
{
    let (count, size) = (frame.saturating_sub(before), size_at(entries, frame));
    if is_first {
        write!(out, "[{frame},{count},{size}]")
    } else {
        write!(out, ",[{frame},{count},{size}]")
    }
}

/// The commits of a log.
fn write_commits<W: Write>(out: &mut W, entries: &[Entry], commits: &[u32]) -> io::Result<()>
    ensures { OnOk result (Appends (W.contents out.old) (W.contents out.new)
        (commits_entries entries.now commits.now)) }
{
    let mut before = 0;
    for (i, frame) in commits.iter().enumerate() {
        write_span(out, i == 0, entries, before, *frame)?;
        before = *frame;
    }
    Ok(())
}

/// How many whole frames stand behind a log's front, and how many bytes are over, in a log of this length.
fn behind(log: &Shown<'_>, length: u64) -> (u64, u64)
    ensures { result ≡ slots_behind (log_of log.now) length }
{
    let bytes = length.saturating_sub(log.front.end.max(32));
    match log.header {
        Some(header) => {
            let frame = u64::from(header.page_size.get()) + 24;
            (bytes / frame, bytes % frame)
        }
        None => (0, length),
    }
}

/// The front of a write-ahead log's object.
fn write_wal_start<W: Write>(out: &mut W, log: &Shown<'_>) -> io::Result<()>
    ensures { OnOk result (Appends (W.contents out.old) (W.contents out.new) (wal_start (log_of log.now))) }
{
    let (frames, size) = (log.front.frames, log.front.size);
    let (why, at) = (stop_name(log.stop.why), log.stop.frame);
    write!(
        out,
        "{{\"log\":\"wal\",\"front\":{frames},\"size\":{size},\"stop\":\"{why}\",\"at\":{at},\"commits\":["
    )
}

/// What is told of a log, with these commits, of this length in bytes.
fn write_shown<W: Write>(
    out: &mut W,
    log: &Shown<'_>,
    commits: &[u32],
    length: u64,
) -> io::Result<()>
    ensures { OnOk result (Appends (W.contents out.old) (W.contents out.new)
        (wal_object (log_of log.now) commits.now length)) }
{
    let (count, over) = behind(log, length);
    write_wal_start(out, log)?;
    write_commits(out, log.entries, commits)?;
    write!(out, "],\"behind frames\":{count},\"bytes over\":{over}}}")
}

/// The facts of a write-ahead log with these commits, of this length in bytes, as an object. An error of the writer.
pub fn write_wal_object<W: Write>(
    out: &mut W,
    scan: &Scan,
    commits: &[u32],
    length: u64,
) -> io::Result<()>
    ensures { (most : ℕ) (b : List ℕ) → TookWithin most b scan.now → (log : Log) × ShowsLog most b log
        × OnOk result (Appends (W.contents out.old) (W.contents out.new) (wal_object log commits.now length)) }
{
    write_shown(out, &shown_by(scan), commits, length)
}

/// The size of the database before the transaction, in pages; 0 where no journal is hot.
fn first_size(replay: &Replay) -> u32
    ensures { (b : List ℕ) → Took b replay.now → (first : Option JournalHeader) × IsFirst b first
        × (result ≡ first_pages first) }
{
    match replay.first() {
        Some(header) => header.first_size,
        None => 0,
    }
}

/// The facts of a hot journal, as an object. An error of the writer.
pub fn write_journal_object<W: Write>(out: &mut W, replay: &Replay) -> io::Result<()>
    ensures { (b : List ℕ) → Took b replay.now → (journal : Journal) × ShowsJournal b journal
        × OnOk result (Appends (W.contents out.old) (W.contents out.new) (journal_object journal)) }
{
    let first = first_size(replay);
    let (records, stop) = (replay.count(), replay.stop());
    let (why, at) = (record_stop_name(stop.why), stop.at);
    write!(
        out,
        "{{\"log\":\"journal\",\"records\":{records},\"first\":{first},\"stop\":\"{why}\",\"at\":{at}}}"
    )
}
