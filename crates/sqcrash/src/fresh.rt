//! Which of the present files no record changed since they were looked at (own).
ghost use Rattle.std.specs.Prelude.{◌≡◌, IsTrue, MatchResult, false};
ghost use Rattle.rig_play.specs.Names.{name_of};
ghost use Rattle.rig_play.specs.declared.trace.Subject.TheVariants.{Db, Wal, Journal};
ghost use Rattle.sqcrash.specs.Watching.{IsLookedAt, Stays};
ghost use Rattle.sqcrash.specs.declared.outcome.Refusal.TheVariants.{NoMemory};

use crate::outcome::Refusal;
use rig_play::{Kind, Name, Record, Subject};

/// Which of the present files no record changed since they were looked at.
#[derive(Clone, Copy, Debug, PartialEq, Eq)]
pub struct Fresh {
    pub db: bool,
    pub wal: bool,
    pub journal: bool,
}

/// Whether a record leaves each present file as it is, whatever it speaks of.
fn stays(call: &Record) -> bool
    ensures { IsTrue result → Stays call.now.kind call.now.place }
{
    match call.kind {
        Kind::Close | Kind::Rename | Kind::End => true,
        Kind::Open => call.place != 1,
        _ => false,
    }
}

/// Puts there the file that has a name now.
pub fn put_present(name: &Name, out: &mut Vec<u8>) -> Result<(), Refusal>
    ensures { MatchResult result (λ done. IsLookedAt (name_of name.now) out.new.items) (λ refusal. refusal ≡ NoMemory) }
{
    out.clear();
    name.append_present(out)?;
    Ok(())
}

impl Fresh {
    /// None.
    pub fn none() -> Fresh
        ensures { result ≡ record { db = false; wal = false; journal = false } }
    {
        Fresh {
            db: false,
            wal: false,
            journal: false,
        }
    }

    /// Those that a record leaves.
    pub fn behind(self, call: &Record) -> Fresh
        ensures db { IsTrue result.db → IsTrue self.db × (call.now.subject ≡ Db → Stays call.now.kind call.now.place) }
        ensures wal { IsTrue result.wal → IsTrue self.wal × (call.now.subject ≡ Wal
            → Stays call.now.kind call.now.place) }
        ensures journal { IsTrue result.journal → IsTrue self.journal × (call.now.subject ≡ Journal
            → Stays call.now.kind call.now.place) }
    {
        if stays(call) {
            return self;
        }
        let Fresh { db, wal, journal } = self;
        match call.subject {
            Subject::Db => Fresh {
                db: false,
                wal,
                journal,
            },
            Subject::Wal => Fresh {
                db,
                wal: false,
                journal,
            },
            Subject::Journal => Fresh {
                db,
                wal,
                journal: false,
            },
            Subject::Folder | Subject::Marks | Subject::Other => self,
        }
    }
}
