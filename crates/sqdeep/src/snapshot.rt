//! The pages that a source has as they are judged (own).
ghost use Rattle.std.specs.Prelude.{◌≡◌, ℕ, [], length, OnOk, IfErr};
ghost use Rattle.sqval.specs.Database.{Database, page};
ghost use Rattle.sqpage.specs.Freelist.{IsPage};
ghost use Rattle.sqpage.specs.Lists.{Every};
ghost use Rattle.sqdeep.specs.internal.Judging.{SameSource, IsCutOff};

use sqpage::{CheckError, Fault, PageSource};
use std::marker::Brand;

/// Stands for the pages that a source has as they are judged. No value has this type: the calls of one judgement share
/// it, so that their contracts speak of the same pages.
pub(crate) trait Snapshot {
    /// Its pages.
    ghost pages: { Database };

    /// The size of its pages.
    ghost size: { ℕ };

    /// What is read of them is right.
    ghost right: { Type 0 };

    /// The source gives them: what is read of them is right, and no read fails.
    ghost given: { Type 0 };
}

impl Snapshot for Brand {
    ghost pages = { [] };

    ghost size = { 512 };

    ghost right = { ℕ };

    ghost given = { ℕ };
}

/// Reads page `p`. Refused by Source where it could not be read.
pub(crate) fn read_page<V: Snapshot, S: PageSource>(
    source: &mut S,
    p: u32,
    out: &mut [u8],
) -> Result<(), CheckError>
    requires page { IsPage V.pages p }
    requires room { length out.old ≡ V.size }
    requires same { SameSource V.pages V.size V.right V.given (S.pages source.old) (S.size source.old)
        (S.reads_right source.old) (S.gives_pages source.old) }
    ensures read { V.right → OnOk result ((out.new ≡ page V.pages p) × Every (λ b. length b ≡ V.size) V.pages) }
    ensures same { SameSource V.pages V.size V.right V.given (S.pages source.new) (S.size source.new)
        (S.reads_right source.new) (S.gives_pages source.new) }
    ensures err { IfErr result (λ e. IsCutOff V.given e) }
{
    source.page(p, out).map_err(|_| CheckError {
        page: p,
        fault: Fault::Source,
    })
}
