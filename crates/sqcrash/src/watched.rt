//! The files of a run and its commits, of which what a record changed is looked at anew alone (own).
ghost use Rattle.std.specs.Prelude.{IsTrue};
ghost use Rattle.crashdisk.specs.Solid.{is_sector_size};
ghost use Rattle.rig_play.specs.Plays.{files_of};
ghost use Rattle.rig_judge.specs.Near.{IsNear, last_of};
ghost use Rattle.rig_judge.specs.Shown.{commits_of};
ghost use Rattle.sqcrash.specs.Watching.{IsLookedAt};

use crate::fresh::{Fresh, put_present};
use crate::outcome::Refusal;
use rig_images::Image;
use rig_judge::{History, Near, Snapshot};
use rig_play::{Meta, PlayError, Player, Record};
use std::alloc::Global;

/// What crashes may leave of a run's files, the present ones, and the commits.
#[derive(Drop)]
pub struct Watched {
    alloc: Global,
    player: Player,
    history: History,
    /// The present files, as they were last looked at.
    present: Image,
    /// Which of them no record changed since.
    fresh: Fresh,
    /// Which pages of the database file among them are known to be as in the last commit.
    near: Near,
    ghost db: { IsTrue fresh.db → IsLookedAt (files_of player).db present.db.items },
    ghost wal: { IsTrue fresh.wal → IsLookedAt (files_of player).wal present.wal.items },
    ghost journal: { IsTrue fresh.journal → IsLookedAt (files_of player).journal present.journal.items },
    ghost known: { IsNear (last_of (commits_of history)) present.db.items near },
}

impl Watched {
    ghost use Rattle.std.specs.Prelude.{◌≡◌, ◌++◌, ◌∷◌, [], map, OnOk, OnErr, IfOk, IfErr, MatchResult};
    ghost use Rattle.rig_play.specs.Plays.{no_files, Step, StepRefused};
    ghost use Rattle.rig_images.specs.Left.{IsPresent};
    ghost use Rattle.rig_judge.specs.Shown.{IsNoted, commit_of};
    ghost use Rattle.sqcrash.specs.Refusals.{IsOfMemory};

    /// Nothing is played yet.
    pub fn new(alloc: Global, sector: usize, tears: bool, meta: Meta) -> Watched
        requires { IsTrue (is_sector_size sector) }
        ensures files { files_of result.player ≡ no_files sector tears meta }
        ensures commits { commits_of result.history ≡ [] }
    {
        Watched {
            alloc,
            player: Player::new(alloc, sector, tears, meta),
            history: History::new(alloc),
            present: Image::none(alloc),
            fresh: Fresh::none(),
            near: Near::none(alloc),
        }
    }

    /// What a crash may leave of the files.
    pub fn player(&self) -> &Player
        ensures { result.now ≡ self.now.player }
    {
        &self.player
    }

    /// The commits.
    pub fn history(&self) -> &History
        ensures { result.now ≡ self.now.history }
    {
        &self.history
    }

    /// The commits, the oldest first.
    pub fn into_commits(self) -> Vec<Snapshot>
        ensures { map commit_of result.items ≡ commits_of self.history }
    {
        self.history.into_commits()
    }

    /// The present files, as they were last looked at.
    pub fn present(&self) -> &Image
        ensures { result.now ≡ self.now.present }
    {
        &self.present
    }

    /// The files go over as a record says. What it doesn't change of the present ones is known still.
    pub fn play(&mut self, trace: &[u8], call: &Record) -> Result<(), PlayError>
        ensures step { OnOk result (Step trace.now call.now (files_of self.old.player) (files_of self.new.player)) }
        ensures commits { commits_of self.new.history ≡ commits_of self.old.history }
        ensures refused { IfErr result (StepRefused (files_of self.old.player) trace.now call.now) }
    {
        let fresh = self.fresh.behind(call);
        self.fresh = Fresh::none();
        self.player.play(trace, call)?;
        self.fresh = fresh;
        Ok(())
    }

    /// Looks at the present database file, where a record may have changed it.
    fn look_at_db(&mut self) -> Result<(), Refusal>
        ensures looked { OnOk result (IsLookedAt (files_of self.new.player).db self.new.present.db.items) }
        ensures memory { IfErr result IsOfMemory }
        ensures same { files_of self.new.player ≡ files_of self.old.player }
        ensures commits { commits_of self.new.history ≡ commits_of self.old.history }
    {
        if self.fresh.db {
            return Ok(());
        }
        self.near.forget();
        put_present(self.player.db(), &mut self.present.db)?;
        self.fresh.db = true;
        Ok(())
    }

    /// Looks at the present log, where a record may have changed it.
    fn look_at_wal(&mut self) -> Result<(), Refusal>
        ensures looked { OnOk result (IsLookedAt (files_of self.new.player).wal self.new.present.wal.items) }
        ensures memory { IfErr result IsOfMemory }
        ensures same { files_of self.new.player ≡ files_of self.old.player }
        ensures commits { commits_of self.new.history ≡ commits_of self.old.history }
        ensures db { self.new.present.db.items ≡ self.old.present.db.items }
    {
        if self.fresh.wal {
            return Ok(());
        }
        put_present(self.player.wal(), &mut self.present.wal)?;
        self.fresh.wal = true;
        Ok(())
    }

    /// Looks at the present journal, where a record may have changed it.
    fn look_at_journal(&mut self) -> Result<(), Refusal>
        ensures looked { OnOk result (IsLookedAt (files_of self.new.player).journal self.new.present.journal.items) }
        ensures memory { IfErr result IsOfMemory }
        ensures same { files_of self.new.player ≡ files_of self.old.player }
        ensures commits { commits_of self.new.history ≡ commits_of self.old.history }
        ensures db { self.new.present.db.items ≡ self.old.present.db.items }
        ensures wal { self.new.present.wal.items ≡ self.old.present.wal.items }
    {
        if self.fresh.journal {
            return Ok(());
        }
        put_present(self.player.journal(), &mut self.present.journal)?;
        self.fresh.journal = true;
        Ok(())
    }

    /// Looks at the present files.
    pub fn look(&mut self) -> Result<(), Refusal>
        ensures looked { MatchResult result (λ done. IsPresent (files_of self.old.player) self.new.present) IsOfMemory }
        ensures same { files_of self.new.player ≡ files_of self.old.player }
        ensures commits { commits_of self.new.history ≡ commits_of self.old.history }
    {
        self.look_at_db()?;
        self.look_at_wal()?;
        self.look_at_journal()?;
        Ok(())
    }

    /// Takes the database that the present files show, as they were looked at, where it isn't the last commit's.
    /// Answers whether it did.
    pub fn note(&mut self) -> Result<bool, Refusal>
        ensures noted { IfOk result (λ taken. IsNoted self.old.present.db.items self.old.present.wal.items
            self.old.present.journal.items taken (commits_of self.old.history) (commits_of self.new.history)) }
        ensures present { self.new.present ≡ self.old.present }
        ensures same { files_of self.new.player ≡ files_of self.old.player }
        ensures memory { IfErr result IsOfMemory }
    {
        let files = &self.present;
        let taken = self.history.note_near(
            self.alloc,
            &mut self.near,
            &files.db,
            &files.wal,
            &files.journal,
        )?;
        Ok(taken)
    }

    /// One commit more.
    pub fn push(&mut self, commit: Snapshot) -> Result<(), Refusal>
        ensures pushed { MatchResult result
            (λ done. commits_of self.new.history ≡ commits_of self.old.history ++ commit_of commit ∷ []) IsOfMemory }
        ensures same { files_of self.new.player ≡ files_of self.old.player }
    {
        self.near.forget();
        self.history.push(commit)?;
        Ok(())
    }
}
