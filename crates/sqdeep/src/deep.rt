//! The check of what a well-formed database holds (own).
ghost use Rattle.std.specs.Prelude.{◌≡◌, ◌≢◌, ◌<◌, IfOk, IfErr, OnOk, length};
ghost use Rattle.sqpage.specs.Freelist.{IsPage};
ghost use Rattle.sqpage.specs.Source.{KeepsPages};
ghost use Rattle.sqpage.specs.declared.fault.Fault.{Fault};
ghost use Rattle.sqcheck.specs.WellFormed.{WellFormedWith, IsReport};
ghost use Rattle.sqdeep.specs.Forms.{AreIllFormed};
ghost use Rattle.sqdeep.specs.Inside.{IsSoundInside, DeepRefused, RefutesSound};
ghost use Rattle.sqdeep.specs.internal.Judging.{Tells, HasSoundTrees};
ghost use Rattle.sqdeep.specs.internal.Uses.{AreUses};

use crate::fault::DeepError;
use crate::judge::Judge;
use crate::snapshot::Snapshot;
use crate::trees::{Trees, find_trees};
use sqcheck::{Options, Report};
use sqpage::{CheckError, Fault, PageSource};
use std::alloc::Global;
use std::marker::Brand;

/// What a deep check reports of a sound database.
#[derive(Clone, Copy, Debug, PartialEq, Eq)]
pub struct Inside {
    pub report: Report,
    /// How many cells have a record with a text that isn't one in the encoding that the header names. SQLite stores
    /// such texts, as a program binds them.
    pub ill_formed: u64,
}

/// Judges what the trees of a snapshot hold, and counts the cells with a text that isn't one in the encoding.
fn judge_snapshot<V: Snapshot, S: PageSource>(
    alloc: Global,
    source: &mut S,
    trees: &Trees,
) -> Result<u64, DeepError>
    requires { (S.pages source.old ≡ V.pages) × (S.size source.old ≡ V.size) ×
        (V.right → S.reads_right source.old) × (V.given → S.gives_pages source.old) }
    ensures ok { V.right → HasSoundTrees V.pages → AreUses V.pages trees.now.uses.items
        → OnOk result (IsSoundInside V.pages) }
    ensures counted { V.right → HasSoundTrees V.pages → AreUses V.pages trees.now.uses.items
        → IfOk result (AreIllFormed V.pages) }
    ensures err { V.right → HasSoundTrees V.pages → AreUses V.pages trees.now.uses.items
        → IfErr result (λ e. Tells V.given V.pages e) }
    ensures same { (S.pages source.new ≡ V.pages) × (S.size source.new ≡ V.size) ×
        (V.right → S.reads_right source.new) × (V.given → S.gives_pages source.new) }
{
    let count = source.count();
    if count == 0 {
        return Err(DeepError::Check(CheckError {
            page: 1,
            fault: Fault::Magic,
        }));
    }
    let size = source.page_size().get();
    let mut judge: Judge<V> = Judge::new(alloc, source, size)?;
    judge.judge_roots(trees, count)?;
    judge.judge_pages(alloc, source, trees)
}

/// Whether a database is well formed, and what it holds is sound: the numbers of its header, the pages of its trees,
/// and the records in their cells, and the places of its roots (fileformat2, 1.3, 1.6, 1.8 and 2.1); and how many cells
/// have a text that isn't one in the database's encoding, which is no fault. Refused first as `sqcheck::check_with`
/// does; then by the first fault of the header, at page 1; then by the first root that stands behind another page; then
/// by the first fault of the pages of trees, by rising numbers, those of a page before those of its cells, in the order
/// of their pointers. Refused by Source where a page could not be read, and by NoMemory. It takes memory for one byte a
/// page, one page and one payload, of at most 1,073,741,824 bytes.
pub fn check_deep<S: PageSource>(
    alloc: Global,
    source: &mut S,
    options: Options,
) -> Result<Inside, DeepError>
    // The database is well formed and sound inside, and the report is its.
    ensures ok { S.reads_right source.old → IfOk result (λ inside.
        (w : WellFormedWith options.pointer_maps (S.pages source.old) (S.size source.old)) ×
        IsReport (S.pages source.old) w.places inside.report × IsSoundInside (S.pages source.old)) }
    // So many of its cells have a text that isn't one in its encoding.
    ensures forms { S.reads_right source.old
        → IfOk result (λ inside. AreIllFormed (S.pages source.old) inside.ill_formed) }
    // The fault stands, at the page and the cell that it names.
    ensures err { S.reads_right source.old → IfErr result (λ e. DeepRefused (S.gives_pages source.old)
        options.pointer_maps (S.pages source.old) (S.size source.old) e) }
    // No fault is told of a sound database, unless a page couldn't be read or memory ran out.
    ensures none { S.reads_right source.old → IfErr result (λ e. RefutesSound options.pointer_maps
        (S.pages source.old) (S.size source.old) e) }
    ensures keeps { KeepsPages S.pages S.size S.reads_right S.gives_pages source.old source.new }
{
    let found = match find_trees(alloc, source, options) {
        Ok(found) => found,
        Err(refusal) => return Err(DeepError::Check(refusal)),
    };
    let ill_formed = judge_snapshot::<Brand, S>(alloc, source, &found.trees)?;
    let report = found.report;
    Ok(Inside { report, ill_formed })
}
