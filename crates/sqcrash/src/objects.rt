//! The members of the objects that are printed of what is wrong with images (own).
use rig_judge::Judgment;
use rig_play::{Kind, Subject};
use sqpage::{CheckError, Fault};
use sqview::ViewError;
use std::fmt;

/// A fault of a page.
#[derive(Clone, Copy)]
pub struct FaultMembers(pub u32, pub Fault);

impl fmt::Display for FaultMembers {
    ghost use Rattle.std.specs.Prelude.{Some};
    ghost use Rattle.sqcrash.specs.Objects.{fault_members};

    ghost output = { λ x. Some (fault_members x.0 x.1) };

    fn fmt<W: fmt::Write>(&self, f: &mut fmt::Formatter<W>) -> fmt::Result {
        let (page, number, name) = (self.0, self.1.number(), self.1.name());
        write!(f, "\"page\":{page},\"fault\":{number},\"name\":\"{name}\"")
    }
}

/// What refuses files that show no database.
#[derive(Clone, Copy)]
struct RefusalMembers(ViewError);

impl fmt::Display for RefusalMembers {
    ghost use Rattle.std.specs.Prelude.{Some};
    ghost use Rattle.sqcrash.specs.Objects.{refusal_members};

    ghost output = { λ x. Some (refusal_members x.0) };

    fn fmt<W: fmt::Write>(&self, f: &mut fmt::Formatter<W>) -> fmt::Result {
        match self.0 {
            ViewError::TwoLogs => f.write_str("\"refused\":\"two logs\""),
            ViewError::TooLarge => f.write_str("\"refused\":\"too large\""),
            ViewError::Header(fault) => write!(f, "{}", FaultMembers(1, fault)),
            ViewError::Unread => f.write_str("\"refused\":\"file failed\""),
            ViewError::NoMemory => f.write_str("\"refused\":\"no memory\""),
            ViewError::NoSuchCommit => f.write_str("\"refused\":\"no such commit\""),
        }
    }
}

/// What is wrong with an image, where a commit is known to be durable.
#[derive(Clone, Copy)]
pub struct WrongMembers {
    pub known: usize,
    pub judgment: Judgment,
}

impl fmt::Display for WrongMembers {
    ghost use Rattle.std.specs.Prelude.{Some};
    ghost use Rattle.sqcrash.specs.Objects.{wrong_members};

    ghost output = { λ x. Some (wrong_members x.known x.judgment) };

    fn fmt<W: fmt::Write>(&self, f: &mut fmt::Formatter<W>) -> fmt::Result {
        let known = self.known;
        match self.judgment {
            Judgment::Kept(shown) => write!(f, "\"verdict\":\"kept\",\"shown\":{shown}"),
            Judgment::Lost(shown) => {
                write!(
                    f,
                    "\"verdict\":\"lost\",\"shown\":{shown},\"known\":{known}"
                )
            }
            Judgment::Mixed => f.write_str("\"verdict\":\"mixed\""),
            Judgment::Fault(CheckError { page, fault }) => {
                write!(f, "\"verdict\":\"fault\",{}", FaultMembers(page, fault))
            }
            Judgment::Refused(refusal) => {
                write!(f, "\"verdict\":\"fault\",{}", RefusalMembers(refusal))
            }
        }
    }
}

/// What a record speaks of.
#[derive(Clone, Copy)]
pub struct SubjectText(pub Subject);

impl fmt::Display for SubjectText {
    ghost use Rattle.std.specs.Prelude.{Some};
    ghost use Rattle.sqcrash.specs.Objects.{subject_text};

    ghost output = { λ x. Some (subject_text x.0) };

    fn fmt<W: fmt::Write>(&self, f: &mut fmt::Formatter<W>) -> fmt::Result {
        f.write_str(match self.0 {
            Subject::Db => "db",
            Subject::Wal => "wal",
            Subject::Journal => "journal",
            Subject::Folder => "folder",
            Subject::Marks => "marks",
            Subject::Other => "other",
        })
    }
}

/// A call's name, and what it is of.
#[derive(Clone, Copy)]
struct NamedMembers(&'static str, Subject);

impl fmt::Display for NamedMembers {
    ghost use Rattle.std.specs.Prelude.{Some};
    ghost use Rattle.sqcrash.specs.Objects.{named_members};

    ghost output = { λ x. Some (named_members x.0.now x.1) };

    fn fmt<W: fmt::Write>(&self, f: &mut fmt::Formatter<W>) -> fmt::Result {
        let (name, subject) = (self.0, SubjectText(self.1));
        write!(f, "\"call\":\"{name}\",\"file\":\"{subject}\"")
    }
}

/// A call.
#[derive(Clone, Copy)]
pub struct CallMembers {
    pub kind: Kind,
    pub subject: Subject,
    pub place: u64,
    pub count: u64,
}

impl fmt::Display for CallMembers {
    ghost use Rattle.std.specs.Prelude.{Some};
    ghost use Rattle.sqcrash.specs.Objects.{call_members};

    ghost output = { λ x. Some (call_members x.kind x.subject x.place x.count) };

    fn fmt<W: fmt::Write>(&self, f: &mut fmt::Formatter<W>) -> fmt::Result {
        let (subject, place, count) = (self.subject, self.place, self.count);
        match self.kind {
            Kind::Base => write!(f, "{}", NamedMembers("begin", subject)),
            Kind::Open => write!(f, "{}", NamedMembers("create", subject)),
            Kind::Close => write!(f, "{}", NamedMembers("close", subject)),
            Kind::Write => {
                let named = NamedMembers("write", subject);
                write!(f, "{named},\"place\":{place},\"bytes\":{count}")
            }
            Kind::Cut => {
                let named = NamedMembers("truncate", subject);
                write!(f, "{named},\"length\":{place}")
            }
            Kind::Sync | Kind::FolderSync => write!(f, "{}", NamedMembers("sync", subject)),
            Kind::Unlink => write!(f, "{}", NamedMembers("unlink", subject)),
            Kind::Rename => write!(f, "{}", NamedMembers("rename", subject)),
            Kind::Mark => f.write_str("\"call\":\"mark\""),
            Kind::NotHeld => write!(f, "{}", NamedMembers("call", subject)),
            Kind::End => write!(f, "{}", NamedMembers("end", subject)),
        }
    }
}

/// Sectors from a first to a last one.
#[derive(Clone, Copy)]
pub struct PairText(pub u64, pub u64);

impl fmt::Display for PairText {
    ghost use Rattle.std.specs.Prelude.{Some};
    ghost use Rattle.sqcrash.specs.Objects.{pair_text};

    ghost output = { λ x. Some (pair_text x.0 x.1) };

    fn fmt<W: fmt::Write>(&self, f: &mut fmt::Formatter<W>) -> fmt::Result {
        write!(f, "[{},{}]", self.0, self.1)
    }
}
