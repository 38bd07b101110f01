//! A trace is read and played, on records written by hand as docs/TRACE.md has them.
use crate::checks::{add, done, holds, present, same};
use crashdisk::File;
use rig_play::{
    Epoch, Holds, Kind, Meta, Name, PlayError, Player, Record, Subject, Trace, TraceError,
};
use std::process::Abort;

/// A record's kind, file, answer, place, and bytes or a length.
type Put<'a> = (u32, u32, u64, u64, &'a [u8]);

/// Appends a record.
fn put<R: Abort>(rt: &R, out: &mut Vec<u8>, record: Put<'_>) {
    let (kind, file, answer, place, bytes) = record;
    for number in [kind, file, 1, 7] {
        add(rt, out, &number.to_le_bytes());
    }
    for number in [answer, place, bytes.len() as u64] {
        add(rt, out, &number.to_le_bytes());
    }
    add(rt, out, bytes);
}

/// A trace of these records.
fn trace_of<R: AllocGlobal + Abort>(rt: &R, records: &[Put<'_>]) -> Vec<u8> {
    let mut out = done(rt, b"SQCRTR1\n".to_vec(rt.alloc()));
    for record in records {
        put(rt, &mut out, *record);
    }
    out
}

/// A file of four bytes, a journal that is made, written, synced and taken away, a sync of the folder, and a mark.
static SAMPLE: [Put<'static>; 9] = [
    (1, 0, 0, 0, b"abcd"),
    (2, 2, 3, 1, b""),
    (4, 2, 3, 0, b"old"),
    (6, 2, 0, 0, b""),
    (4, 0, 2, 1, b"BC"),
    (5, 0, 0, 3, b""),
    (7, 2, 0, 0, b""),
    (10, 4, 0, 0, b"commit"),
    (9, 3, 0, 0, b""),
];

/// The trace that these bytes are, which is to have so many records.
fn read<R: AllocGlobal + Abort>(rt: &R, bytes: &[u8], count: usize) -> Trace {
    let trace = done(rt, Trace::read(rt.alloc(), bytes));
    same(rt, trace.records.len(), count);
    trace
}

/// A record by its place, from 0.
fn record<R: Abort>(rt: &R, trace: &Trace, i: usize) -> Record {
    match trace.records.get(i) {
        Some(record) => *record,
        None => panic!(rt; "no record {i}"),
    }
}

/// A record is to be a write of `BC` at 1.
fn is_write<R: Abort>(rt: &R, record: Record, bytes: &[u8]) {
    same(
        rt,
        (record.kind, record.subject),
        (Kind::Write, Subject::Db),
    );
    same(rt, (record.making, record.thread, record.place), (1, 7, 1));
    same(rt, record.bytes(bytes), b"BC".as_slice());
    same(rt, (record.carried(), record.has_failed()), (2, false));
}

#[test]
fn a_trace(rt: HostRuntime) {
    let mut bytes = trace_of(&rt, &SAMPLE);
    let end = bytes.len();
    let trace = read(&rt, &bytes, 9);
    same(&rt, trace.end, end);
    is_write(&rt, record(&rt, &trace, 4), &bytes);
    same(&rt, record(&rt, &trace, 8).subject, Subject::Folder);
    holds(&rt, !Subject::Folder.is_file());
    put(&rt, &mut bytes, (4, 0, 2, 1, b"BC"));
    bytes.truncate(end + 41);
    same(&rt, read(&rt, &bytes, 9).end, end);
}

/// These bytes are to be refused as a trace.
fn refuses<R: AllocGlobal + Abort>(rt: &R, bytes: &[u8], error: TraceError) {
    holds(rt, Trace::read(rt.alloc(), bytes).err() == Some(error));
}

#[test]
fn no_traces(rt: HostRuntime) {
    refuses(&rt, b"SQCRTR2\n", TraceError::NotATrace);
    let mut bytes = trace_of(&rt, &SAMPLE);
    let end = bytes.len();
    put(&rt, &mut bytes, (13, 0, 0, 0, b""));
    refuses(&rt, &bytes, TraceError::Damaged(end));
    bytes.truncate(end);
    put(&rt, &mut bytes, (4, 3, 0, 0, b""));
    refuses(&rt, &bytes, TraceError::Damaged(end));
}

/// Plays the records of a trace from one to before another, each by its place from 0.
fn play<R: Abort>(
    rt: &R,
    player: &mut Player,
    bytes: &[u8],
    trace: &Trace,
    places: (usize, usize),
) {
    match trace.records.get(places.0..places.1) {
        Some(records) => done(rt, player.play_all(bytes, records)),
        None => holds(rt, false),
    }
}

/// The last file under a name is to have these bytes; there is to be one.
fn ends_with<R: AllocGlobal + Abort>(rt: &R, name: &Name, bytes: &[u8]) {
    match name.files().last() {
        Some(disk) => same(rt, present(rt, disk, File::Db).as_slice(), bytes),
        None => holds(rt, false),
    }
}

/// Whether the last file under a name is gone, whether a crash may leave none, and how many files there are.
fn state_of(name: &Name) -> (bool, bool, usize) {
    (name.is_gone(), name.maybe_none(), name.files().len())
}

/// The names of a player are to be in these states, and the log to have no file.
fn is_in<R: Abort>(rt: &R, player: &Player, db: (bool, bool, usize), journal: (bool, bool, usize)) {
    same(rt, state_of(player.db()), db);
    same(rt, state_of(player.journal()), journal);
    holds(rt, player.wal().files().is_empty());
}

/// The last files of a player are to have these bytes.
fn ends_in<R: AllocGlobal + Abort>(rt: &R, player: &Player, db: &[u8], journal: &[u8]) {
    ends_with(rt, player.db(), db);
    ends_with(rt, player.journal(), journal);
}

/// A record is to be none that a player takes.
fn is_not_held<R: Abort>(rt: &R, player: &mut Player, bytes: &[u8], record: Record) {
    same(rt, player.play(bytes, &record), Err(PlayError::NotHeld));
}

// Before the folder is synced a crash may leave the journal or none, and afterwards none.
#[test]
fn a_player(rt: HostRuntime) {
    let mut bytes = trace_of(&rt, &SAMPLE);
    put(&rt, &mut bytes, (11, 0, 1, 0, b""));
    let trace = read(&rt, &bytes, 10);
    let mut player = Player::new(rt.alloc(), 512, false, Meta::Parts);
    play(&rt, &mut player, &bytes, &trace, (0, 8));
    ends_in(&rt, &player, b"aBC", b"old");
    is_in(&rt, &player, (false, false, 1), (true, true, 1));
    holds(&rt, !player.tears());
    play(&rt, &mut player, &bytes, &trace, (8, 9));
    same(&rt, player.db().files().len(), 1);
    holds(&rt, player.journal().files().is_empty());
    is_not_held(&rt, &mut player, &bytes, record(&rt, &trace, 9));
}

/// A file of four bytes that is cut to one and written behind it, a log that is made, a journal that is made and taken
/// away, and a sync of the file.
static CUTS: [Put<'static>; 8] = [
    (1, 0, 0, 0, b"abcd"),
    (5, 0, 0, 1, b""),
    (4, 0, 1, 2, b"C"),
    (2, 1, 3, 1, b""),
    (2, 2, 4, 1, b""),
    (7, 2, 0, 0, b""),
    (6, 0, 0, 0, b""),
    (5, 0, 0, 8, b""),
];

/// File i of a name, of which there are so many, is to have these bytes, so many that are durable, and so many in all.
fn file_is<R: AllocGlobal + Abort>(
    rt: &R,
    name: &Name,
    place: (usize, usize),
    bytes: &[u8],
    lengths: (u64, u64),
) {
    let (i, count) = place;
    same(rt, name.files().len(), count);
    match name.files().get(i) {
        Some(disk) => {
            same(rt, present(rt, disk, File::Db).as_slice(), bytes);
            same(rt, disk.lengths(File::Db), lengths);
        }
        None => holds(rt, false),
    }
}

/// A player is to have these epochs behind it, and this one.
fn is_at<R: Abort>(rt: &R, player: &Player, earlier: &[Epoch], epoch: Epoch) {
    same(rt, player.earlier(), earlier);
    same(rt, player.epoch(), epoch);
}

/// The journal is to have one file, which a crash may leave missing.
fn has_journal<R: Abort>(rt: &R, player: &Player) {
    same(rt, player.journal().files().len(), 1);
    holds(rt, player.journal().maybe_none());
}

// The file that was not cut stays until it is synced, and one that grows is changed in parts.
#[test]
fn whole_truncations(rt: HostRuntime) {
    let bytes = trace_of(&rt, &CUTS);
    let trace = read(&rt, &bytes, 8);
    let mut player = Player::new(rt.alloc(), 512, false, Meta::Whole);
    play(&rt, &mut player, &bytes, &trace, (0, 6));
    file_is(&rt, player.db(), (0, 2), b"abcd", (4, 4));
    file_is(&rt, player.db(), (1, 2), b"a\0C", (1, 3));
    holds(&rt, player.earlier().is_empty());
    same(&rt, player.epoch().db, Holds::Any);
    play(&rt, &mut player, &bytes, &trace, (6, 8));
    ends_with(&rt, player.db(), b"a\0C\0\0\0\0\0");
    same(&rt, player.db().files().len(), 1);
    has_journal(&rt, &player);
}

/// An epoch by its file of each name, in the order of a database, a log and a journal.
const fn epoch(db: Holds, wal: Holds, journal: Holds) -> Epoch {
    Epoch { db, wal, journal }
}

// Each change of a name or a length begins an epoch, and a sync of a file ends those before it.
#[test]
fn epochs(rt: HostRuntime) {
    let bytes = trace_of(&rt, &CUTS);
    let trace = read(&rt, &bytes, 8);
    let mut player = Player::new(rt.alloc(), 512, false, Meta::Ordered);
    play(&rt, &mut player, &bytes, &trace, (0, 6));
    let (none, first, second) = (Holds::Nothing, Holds::File(0), Holds::File(1));
    let earlier = [
        epoch(first, none, none),
        epoch(second, none, none),
        epoch(second, first, none),
        epoch(second, first, first),
    ];
    is_at(&rt, &player, &earlier, epoch(second, first, none));
    play(&rt, &mut player, &bytes, &trace, (6, 7));
    same(&rt, player.db().files().len(), 1);
    holds(&rt, player.earlier().is_empty());
    same(&rt, player.epoch().db, first);
    same(&rt, player.epoch().wal, first);
}
