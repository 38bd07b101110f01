//! A recorded run: what it committed, and what is known to be durable (own).
ghost use Rattle.std.specs.Prelude.{◌≡◌, ◌<◌, ◌^◌, length, IsTrue, OnOk, IfOk, IfErr, MatchResult, cond};
ghost use Rattle.crashdisk.specs.Solid.{is_sector_size};
ghost use Rattle.rig_play.specs.Plays.{files_of};
ghost use Rattle.sqcrash.specs.Runs.{size_of};
ghost use Rattle.sqcrash.specs.Refusals.{IsOfMemory, IsUnplayed, PlayRefused};

use crate::outcome::{Refusal, more};
use crate::plan::CommitsAt;
use crate::promise::{Mark, Promise};
use crate::watched::Watched;
use rig_images::Image;
use rig_judge::{Judgment, Snapshot, fault_in_files, files_show, judge_files, judge_scanned};
use rig_missing::{Change, Missing, Playing, SectorSize, change_of, file_in, missing_calls};
use rig_play::{Kind, Meta, Player, Record, Subject};
use sqpage::CheckError;
use sqwal::Scan;
use std::alloc::Global;

/// How many bytes of a record stand in front of those that it carries.
const HEAD_LEN: usize = 40;

/// The size of a sector, where it is to be told which calls aren't down.
fn size_if(why: bool, sector: usize) -> Option<SectorSize>
    requires { IsTrue (is_sector_size sector) }
    ensures { size_of result ≡ cond why (Some sector) None }
{
    if why {
        Some(SectorSize::new(sector))
    } else {
        None
    }
}

/// A record of this number that carries these bytes, and before which its file was so long.
fn playing_of(number: u64, bytes: &[u8], was: u64) -> Playing
    requires { was < 2 ^ 63 }
    ensures number { result.number ≡ number }
    ensures count { result.count ≡ length bytes.now }
    ensures was { result.was ≡ was }
{
    Playing {
        number,
        count: bytes.len() as u64,
        was,
    }
}

/// A run that is being played.
#[derive(Drop)]
pub struct Run {
    alloc: Global,
    promise: Promise,
    taken_at: CommitsAt,
    /// Of the commits at marks those that aren't shown yet, the next one last.
    waiting: Vec<Snapshot>,
    /// The files and the commits.
    watched: Watched,
    /// The thread that made each commit.
    makers: Vec<u32>,
    /// The number of the last commit that is known to be durable.
    known: usize,
    /// How many records were played.
    played: u64,
    /// The size of a sector, where it is to be told which calls aren't down in an image.
    why: Option<SectorSize>,
    /// Then the calls that changed a file.
    kept: Vec<Change>,
    /// The size of a sector, where images with something wrong are shrunk first.
    shrinks: Option<SectorSize>,
}

impl Run {
    ghost use Rattle.std.specs.Prelude.{map};
    ghost use Rattle.rig_play.specs.Trace.{bytes_of};
    ghost use Rattle.rig_judge.specs.Shown.{commit_of};
    ghost use Rattle.rig_judge.specs.Judged.{IsFilesJudgment};
    ghost use Rattle.sqcrash.specs.Promises.{IsSpokenOf};
    ghost use Rattle.sqcrash.specs.Surveys.{IsScanOf};
    ghost use Rattle.sqcrash.specs.Runs.{run_of, no_run, with_marked, Notes, Takes, TakesWaiting};
    ghost use Rattle.sqcrash.specs.Runs.{Begins, Goes, Calls, Marks, PlaysOne, Explains, with_why, with_change};
    ghost use Rattle.sqcrash.specs.Goings.{GoesKept, GoesPlain};
    ghost use Rattle.rig_images.specs.Left.{IsPresent};
    ghost use Rattle.rig_missing.specs.Changes.{ChangeAnswer};
    ghost use Rattle.rig_missing.specs.Missing.{file_in};
    ghost use Rattle.rig_play.specs.Plays.{Step};
    ghost use Rattle.sqcrash.specs.Snapshots.{NotesImage, NotesFault, IsFaultIn, ShowsLastOf, TakesLastOf};

    /// Nothing is played yet. The disks have sectors of this size, a power of two from 512 to 65536 bytes, and tear or
    /// not; metadata becomes durable so.
    pub fn new(alloc: Global, promise: Promise, sector: usize, tears: bool, meta: Meta) -> Run
        requires { IsTrue (is_sector_size sector) }
        ensures { run_of result ≡ no_run promise sector tears meta }
    {
        Run {
            alloc,
            promise,
            taken_at: CommitsAt::Calls,
            waiting: Vec::new(alloc),
            watched: Watched::new(alloc, sector, tears, meta),
            makers: Vec::new(alloc),
            known: 0,
            played: 0,
            why: None,
            kept: Vec::new(alloc),
            shrinks: None,
        }
    }

    /// It is to be told, or not, which calls aren't down, and images are shrunk first, or aren't, by sectors of this
    /// size.
    pub fn explain(&mut self, why: bool, shrinks: bool, sector: usize)
        requires { IsTrue (is_sector_size sector) }
        ensures { run_of self.new ≡ with_why why shrinks sector (run_of self.old) }
    {
        self.why = size_if(why, sector);
        self.shrinks = size_if(shrinks, sector);
    }

    /// The size of a sector, where images with something wrong are shrunk first.
    pub fn shrinks(&self) -> Option<SectorSize>
        ensures { size_of result ≡ (run_of self.now).shrinks }
    {
        self.shrinks
    }

    /// How many records were played.
    pub fn played(&self) -> u64
        ensures { result ≡ (run_of self.now).played }
    {
        self.played
    }

    /// The calls that aren't down in an image, where these are to be told.
    pub fn missing(&self, image: &Image) -> Result<Vec<Missing>, Refusal>
        ensures { MatchResult result (λ found. Explains (run_of self.now) image.now found.items) IsOfMemory }
    {
        match self.why {
            Some(size) => Ok(missing_calls(self.alloc, size, &self.kept, image)?),
            None => Ok(Vec::new(self.alloc)),
        }
    }

    /// The commits are these, the oldest first, each as soon as the present files show it.
    pub fn wait_for(&mut self, mut commits: Vec<Snapshot>)
        ensures { run_of self.new ≡ with_marked (run_of self.old) (map commit_of commits.items) }
    {
        commits.reverse();
        self.taken_at = CommitsAt::Marks;
        self.waiting = commits;
    }

    /// How many commits there are.
    pub fn commits(&self) -> usize
        ensures { result ≡ length (run_of self.now).commits }
    {
        self.watched.history().len()
    }

    /// The commits, the oldest first.
    pub fn into_commits(self) -> Vec<Snapshot>
        ensures { map commit_of result.items ≡ (run_of self).commits }
    {
        self.watched.into_commits()
    }

    /// Where its memory comes from.
    pub fn alloc(&self) -> Global {
        self.alloc
    }

    /// What a crash may leave of the files.
    pub fn player(&self) -> &Player
        ensures { files_of result.now ≡ (run_of self.now).files }
    {
        self.watched.player()
    }

    /// The number of the last commit that is known to be durable, counted from 0.
    pub fn known(&self) -> usize
        ensures { result ≡ (run_of self.now).known }
    {
        self.known
    }

    /// The judgment of what a crash left.
    pub fn judge(&self, image: &Image) -> Result<Judgment, Refusal>
        ensures { MatchResult result (IsFilesJudgment (run_of self.now).commits (run_of self.now).known
            image.now.db.items image.now.wal.items image.now.journal.items) IsOfMemory }
    {
        let (db, wal, journal) = (&image.db, &image.wal, &image.journal);
        let history = self.watched.history();
        Ok(judge_files(self.alloc, history, self.known, db, wal, journal)?)
    }

    /// The same where the log's scan is there, or isn't.
    pub fn judge_scanned(&self, image: &Image, scan: &Option<Scan>) -> Result<Judgment, Refusal>
        ensures judged { IsScanOf image.now scan.now → IfOk result (IsFilesJudgment (run_of self.now).commits
            (run_of self.now).known image.now.db.items image.now.wal.items image.now.journal.items) }
        ensures memory { IfErr result IsOfMemory }
    {
        let Some(scan) = scan else {
            return self.judge(image);
        };
        let (db, wal, journal) = (&image.db, &image.wal, &image.journal);
        let history = self.watched.history();
        Ok(judge_scanned(history, self.known, db, wal, journal, scan)?)
    }

    /// Looks at the present files.
    fn look(&mut self) -> Result<(), Refusal>
        ensures present { OnOk result (IsPresent (run_of self.old).files self.new.watched.present) }
        ensures same { OnOk result (run_of self.new ≡ run_of self.old) }
        ensures waiting { self.new.waiting.items ≡ self.old.waiting.items }
        ensures memory { IfErr result IsOfMemory }
    {
        self.watched.look()
    }

    /// Takes the database that the present files show, as they were looked at, where it isn't the last commit's.
    /// Answers whether it did.
    fn note_present(&mut self, thread: u32) -> Result<bool, Refusal>
        ensures noted { IfOk result
            (NotesImage self.old.watched.present thread (run_of self.old) (run_of self.new)) }
        ensures present { OnOk result (self.new.watched.present ≡ self.old.watched.present) }
        ensures memory { IfErr result IsOfMemory }
    {
        let taken = self.watched.note()?;
        if taken {
            self.makers.push(thread)?;
        }
        Ok(taken)
    }

    /// Takes the database that the present files show, where it isn't the last commit's.
    fn note(&mut self, thread: u32) -> Result<(), Refusal>
        ensures { MatchResult result (λ done. Notes thread (run_of self.old) (run_of self.new)) IsOfMemory }
    {
        self.look()?;
        self.note_present(thread)?;
        Ok(())
    }

    /// What is wrong with the database that the present files show, as they were looked at.
    fn fault(&self) -> Result<Option<CheckError>, Refusal>
        ensures { MatchResult result (IsFaultIn self.now.watched.present) IsOfMemory }
    {
        let files = self.watched.present();
        Ok(fault_in_files(self.alloc, &files.db, &files.wal, &files.journal)?)
    }

    /// Takes the database that the present files show, where it isn't the last commit's, and answers what is wrong with
    /// it. Refused by NoMemory, after which nothing is said of the run.
    pub fn note_checked(&mut self, thread: u32) -> Result<Option<CheckError>, Refusal>
        ensures { MatchResult result (NotesFault thread (run_of self.old) (run_of self.new)) IsOfMemory }
    {
        self.look()?;
        if self.note_present(thread)? {
            self.fault()
        } else {
            Ok(None)
        }
    }

    /// Whether the present files, as they were looked at, show the next of the commits at marks.
    fn shows_next(&self) -> Result<bool, Refusal>
        ensures { MatchResult result (ShowsLastOf self.now.waiting.items self.now.watched.present) IsOfMemory }
    {
        let count = self.waiting.len();
        if count == 0 {
            return Ok(false);
        }
        let files = self.watched.present();
        Ok(files_show(
            self.alloc,
            &self.waiting[count - 1],
            &files.db,
            &files.wal,
            &files.journal,
        )?)
    }

    /// Takes the next of the commits at marks.
    fn push_next(&mut self, thread: u32) -> Result<(), Refusal>
        ensures { MatchResult result
            (λ done. TakesLastOf self.old.waiting.items thread (run_of self.old) (run_of self.new)) IsOfMemory }
    {
        let Some(next) = self.waiting.pop() else {
            return Ok(());
        };
        self.watched.push(next)?;
        self.makers.push(thread)?;
        Ok(())
    }

    /// Takes the next of the commits at marks, where the present files show it.
    fn take_next(&mut self, thread: u32) -> Result<(), Refusal>
        ensures { MatchResult result
            (λ done. TakesWaiting (run_of self.old).waiting thread (run_of self.old) (run_of self.new)) IsOfMemory }
    {
        if self.waiting.len() == 0 {
            return Ok(());
        }
        self.look()?;
        if !self.shows_next()? {
            return Ok(());
        }
        self.push_next(thread)
    }

    /// Takes what the present files show as a commit, where it is one.
    fn take(&mut self, thread: u32) -> Result<(), Refusal>
        ensures { MatchResult result (λ done. Takes thread (run_of self.old) (run_of self.new)) IsOfMemory }
    {
        match self.taken_at {
            CommitsAt::Calls => self.note(thread),
            CommitsAt::Marks => self.take_next(thread),
        }
    }

    /// Takes commit 0 before the first call.
    fn begin(&mut self, thread: u32) -> Result<(), Refusal>
        ensures { MatchResult result (λ done. Begins thread (run_of self.old) (run_of self.new)) IsOfMemory }
    {
        if self.commits() > 0 {
            return Ok(());
        }
        self.take(thread)
    }

    /// Looks at the present files, and answers how long one of them is, in bytes.
    fn length_of(&mut self, subject: Subject) -> Result<u64, Refusal>
        ensures long { IfOk result (λ n. (n ≡ length (file_in subject self.new.watched.present)) × (n < 2 ^ 63)) }
        ensures present { OnOk result (IsPresent (run_of self.old).files self.new.watched.present) }
        ensures same { OnOk result (run_of self.new ≡ run_of self.old) }
        ensures memory { IfErr result IsOfMemory }
    {
        self.look()?;
        Ok(file_in(subject, self.watched.present()).len() as u64)
    }

    /// The files go over as a record says. Refused by Record.
    fn move_files(&mut self, trace: &[u8], call: &Record) -> Result<(), Refusal>
        ensures step { OnOk result (Step trace.now call.now (run_of self.old).files (run_of self.new).files) }
        ensures rest { OnOk result
            (run_of self.new ≡ record (run_of self.old) { files = (run_of self.new).files }) }
        ensures refused { IfErr result (IsUnplayed (run_of self.old).files trace.now call.now) }
    {
        match self.watched.play(trace, call) {
            Ok(()) => Ok(()),
            Err(error) => Err(Refusal::Record(call.from.saturating_sub(HEAD_LEN), error)),
        }
    }

    /// The change of a record that was played, behind which the files are as they were looked at last.
    fn change_by(
        &self,
        call: &Record,
        size: SectorSize,
        playing: Playing,
    ) -> Result<Option<Change>, Refusal>
        ensures { MatchResult result
            (ChangeAnswer size.bytes call.now playing (file_in call.now.subject self.now.watched.present)) IsOfMemory }
    {
        let present = file_in(call.subject, self.watched.present());
        Ok(change_of(self.alloc, size, call, playing, present)?)
    }

    /// Keeps a change, if it is one.
    fn keep(&mut self, change: Option<Change>) -> Result<(), Refusal>
        ensures { MatchResult result
            (λ done. run_of self.new ≡ record (run_of self.old) { kept = with_change (run_of self.old).kept change })
            IsOfMemory }
    {
        match change {
            Some(change) => {
                self.kept.push(change)?;
                Ok(())
            }
            None => Ok(()),
        }
    }

    /// Plays the call of a record, and keeps it where it changed a file.
    fn go_kept(&mut self, trace: &[u8], call: &Record, size: SectorSize) -> Result<(), Refusal>
        ensures { MatchResult result
            (λ done. GoesKept size.bytes trace.now call.now (run_of self.old) (run_of self.new))
            (PlayRefused trace.now call.now (run_of self.old)) }
    {
        let number = more(self.played)?;
        let was = self.length_of(call.subject)?;
        self.move_files(trace, call)?;
        self.look()?;
        let playing = playing_of(number, call.bytes(trace), was);
        let change = self.change_by(call, size, playing)?;
        self.keep(change)?;
        self.played = number;
        Ok(())
    }

    /// Plays the call of a record.
    fn go_plain(&mut self, trace: &[u8], call: &Record) -> Result<(), Refusal>
        ensures { MatchResult result (λ done. GoesPlain trace.now call.now (run_of self.old) (run_of self.new))
            (PlayRefused trace.now call.now (run_of self.old)) }
    {
        let number = more(self.played)?;
        self.move_files(trace, call)?;
        self.played = number;
        Ok(())
    }

    /// Plays the call of a record. Refused by Record, TooMany and NoMemory, after which nothing is said of the run.
    pub fn go(&mut self, trace: &[u8], call: &Record) -> Result<(), Refusal>
        ensures { MatchResult result (λ done. Goes trace.now call.now (run_of self.old) (run_of self.new))
            (PlayRefused trace.now call.now (run_of self.old)) }
    {
        match self.why {
            Some(size) => self.go_kept(trace, call, size),
            None => self.go_plain(trace, call),
        }
    }

    /// Plays the call of a record, and takes what it commits.
    fn play_call(&mut self, trace: &[u8], call: &Record) -> Result<(), Refusal>
        ensures { MatchResult result (λ done. Calls trace.now call.now (run_of self.old) (run_of self.new))
            (PlayRefused trace.now call.now (run_of self.old)) }
    {
        self.begin(call.thread)?;
        self.go(trace, call)?;
        self.take(call.thread)
    }

    /// The number of the commit that a thread's mark speaks of: the last one that it made, or where it made none the
    /// last of all.
    fn spoken_of(&self, thread: u32) -> usize
        ensures { IsSpokenOf (run_of self.now).makers thread result }
    {
        for k in (0..self.makers.len()).rev() {
            if self.makers[k] == thread {
                return k;
            }
        }
        self.makers.len().saturating_sub(1)
    }

    /// What is known by the line that a thread wrote.
    fn mark(&mut self, thread: u32, line: &[u8])
        ensures { Marks thread line.now (run_of self.old) (run_of self.new) }
    {
        let last = self.spoken_of(thread);
        self.known = self.known.max(self.promise.promised(Mark::of(line), last));
    }

    /// Plays one record of its trace. Refused by Record, TooMany and NoMemory, after which nothing is said of the run.
    pub fn play(&mut self, trace: &[u8], call: &Record) -> Result<(), Refusal>
        ensures { MatchResult result (λ done. PlaysOne trace.now call.now (run_of self.old) (run_of self.new))
            (PlayRefused trace.now call.now (run_of self.old)) }
    {
        match call.kind {
            Kind::Base => self.go(trace, call),
            Kind::Mark => {
                self.play_call(trace, call)?;
                self.mark(call.thread, call.bytes(trace));
                Ok(())
            }
            _ => self.play_call(trace, call),
        }
    }
}
