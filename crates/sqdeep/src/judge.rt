//! The pages of a well-formed database, one after the other (own).
ghost use Rattle.std.specs.Prelude.{◌≡◌, ◌↔◌, ◌*◌, ◌<◌, ◌≤◌, ◌+◌, ℕ, Some, None, IfOk, IfErr, IsTrue, OnOk, length};
ghost use Rattle.sqpage.specs.Freelist.{IsPage, usable_size};
ghost use Rattle.sqpage.specs.declared.kind.Kind.{Kind};
ghost use Rattle.sqcheck.specs.Places.{page_as};
ghost use Rattle.sqcheck.specs.WellFormed.{IsAutoVacuum};
ghost use Rattle.sqdeep.specs.Forms.{AreIllFormed};
ghost use Rattle.sqdeep.specs.Inside.{AreRootsFirst};
ghost use Rattle.sqdeep.specs.declared.fault.DeepError.TheVariants.{Inner};
ghost use Rattle.sqdeep.specs.Headers.{HasKnownNumbers};
ghost use Rattle.sqdeep.specs.Records.{encoding_of};
ghost use Rattle.sqdeep.specs.internal.Uses.{IsUsed, AreUses};
ghost use Rattle.sqdeep.specs.internal.Judging.{SameSource, Tells, IsOfSoundTree, SaysRoot, IsSoundPage, IsSoundAt};
ghost use Rattle.sqdeep.specs.internal.Judging.{HasSoundTrees, IsCutOff};
ghost use Rattle.sqdeep.specs.internal.IllFormed.{HasIllFormed};
ghost use Rattle.sqval.specs.Database.{page};

use crate::bytes::word_at;
use crate::cells::judge_cells;
use crate::fault::{DeepError, InnerError, InnerFault};
use crate::header::judge_header;
use crate::pages::judge_page;
use crate::snapshot::{Snapshot, read_page};
use crate::text::Encoding;
use crate::trees::{Trees, Use};
use sqpage::{BtreePage, CheckError, Fault, PageSource, Parts};
use std::alloc::Global;
use std::marker::PhantomData;

/// The least usable size of a page.
const LEAST_USABLE: u32 = 480;

/// A fault of a page.
fn at_page(page: u32, fault: InnerFault) -> DeepError
    ensures { result ≡ Inner (record { fault = fault; page = page; cell = None }) }
{
    DeepError::Inner(InnerError {
        fault,
        page,
        cell: None,
    })
}

/// A fault of a check.
fn refusal(page: u32, fault: Fault) -> DeepError
    ensures { result ≡ DeepError.Check (record { page = page; fault = fault }) }
{
    DeepError::Check(CheckError { page, fault })
}

/// What the pages are judged by, and room for one, for the parts of its cells and for a payload.
#[derive(Drop)]
pub(crate) struct Judge<V: Snapshot> {
    bytes: Vec<u8>,
    parts: Vec<Parts>,
    content: Vec<u8>,
    usable: u32,
    encoding: Encoding,
    is_auto_vacuum: bool,
    snapshot: PhantomData<V>,
    ghost sized: { length bytes.items ≡ V.size },
    ghost least: { 480 ≤ usable },
    ghost most: { usable ≤ V.size },
    ghost room: { usable ≤ 2 * length parts.items },
    ghost used: { V.right → usable ≡ usable_size V.pages },
    ghost named: { V.right → encoding ≡ encoding_of V.pages },
    ghost mapped: { V.right → IsTrue is_auto_vacuum ↔ IsAutoVacuum V.pages },
}

impl<V: Snapshot> Judge<V> {
    /// Reads page 1, of so many bytes, and judges its header. Refused by Version, SchemaFormat and TextEncoding, by
    /// Source and NoMemory.
    pub fn new<S: PageSource>(
        alloc: Global,
        source: &mut S,
        size: u32,
    ) -> Result<Judge<V>, DeepError>
        requires page { IsPage V.pages 1 }
        requires size { (size ≡ V.size) × (512 ≤ size) }
        requires same { SameSource V.pages V.size V.right V.given (S.pages source.old) (S.size source.old)
            (S.reads_right source.old) (S.gives_pages source.old) }
        ensures ok { V.right → IfOk result (λ _. HasKnownNumbers V.pages) }
        ensures err { V.right → HasSoundTrees V.pages → IfErr result (λ e. Tells V.given V.pages e) }
        ensures same { SameSource V.pages V.size V.right V.given (S.pages source.new) (S.size source.new)
            (S.reads_right source.new) (S.gives_pages source.new) }
    {
        let Ok(mut bytes) = vec![in alloc; 0u8; size as usize] else {
            return Err(refusal(1, Fault::NoMemory));
        };
        let Ok(parts) = vec![in alloc; Parts::NONE; size as usize / 2 + 1] else {
            return Err(refusal(1, Fault::NoMemory));
        };
        match read_page::<V, S>(source, 1, &mut bytes) {
            Ok(()) => {}
            Err(error) => return Err(DeepError::Check(error)),
        }
        let usable = size - u32::from(bytes[20]);
        if usable < LEAST_USABLE {
            return Err(refusal(1, Fault::Reserved));
        }
        match judge_header(&bytes, usable as usize) {
            Ok(()) => {}
            Err(fault) => return Err(at_page(1, fault)),
        }
        Ok(Judge {
            encoding: Encoding::named(word_at(&bytes, 56)),
            is_auto_vacuum: word_at(&bytes, 52) != 0,
            bytes,
            parts,
            content: Vec::new(alloc),
            usable,
            snapshot: PhantomData,
        })
    }

    /// Reads page `number`. Refused by Source where it could not be read.
    fn read<S: PageSource>(&mut self, source: &mut S, number: u32) -> Result<(), CheckError>
        requires page { IsPage V.pages number }
        requires same { SameSource V.pages V.size V.right V.given (S.pages source.old) (S.size source.old)
            (S.reads_right source.old) (S.gives_pages source.old) }
        ensures read { V.right → OnOk result (self.new.bytes.items ≡ page V.pages number) }
        ensures err { IfErr result (λ e. IsCutOff V.given e) }
        ensures same { SameSource V.pages V.size V.right V.given (S.pages source.new) (S.size source.new)
            (S.reads_right source.new) (S.gives_pages source.new) }
    {
        read_page::<V, S>(source, number, &mut self.bytes)
    }

    /// Judges page `number` of a tree, and its cells, and counts those with a text that isn't one in the encoding.
    /// Refused by EmptyPage and FreeblockGap, then at a cell as `judge_cells` does, by Source and NoMemory.
    fn judge_page<S: PageSource>(
        &mut self,
        alloc: Global,
        source: &mut S,
        number: u32,
        is_root: bool,
    ) -> Result<u64, DeepError>
        requires page { IsPage V.pages number }
        requires same { SameSource V.pages V.size V.right V.given (S.pages source.old) (S.size source.old)
            (S.reads_right source.old) (S.gives_pages source.old) }
        ensures ok { V.right → (kind : Kind) (root : ℕ) → IsOfSoundTree V.pages kind root number
            → SaysRoot is_root root number → OnOk result (IsSoundPage V.pages (page_as V.pages kind number) root) }
        ensures counted { V.right → HasSoundTrees V.pages → (kind : Kind) (root : ℕ)
            → IsOfSoundTree V.pages kind root number → SaysRoot is_root root number → IfOk result (λ n. (before : ℕ)
            → HasIllFormed V.pages number 0 before → HasIllFormed V.pages (number + 1) 0 (before + n)) }
        ensures most { IfOk result (λ n. n ≤ 65536) }
        ensures err { V.right → (kind : Kind) (root : ℕ) → IsOfSoundTree V.pages kind root number
            → SaysRoot is_root root number → IfErr result (λ e. Tells V.given V.pages e) }
        ensures same { SameSource V.pages V.size V.right V.given (S.pages source.new) (S.size source.new)
            (S.reads_right source.new) (S.gives_pages source.new) }
    {
        match self.read(source, number) {
            Ok(()) => {}
            Err(error) => return Err(DeepError::Check(error)),
        }
        let page = match BtreePage::parse(&self.bytes, number, self.usable, &mut self.parts) {
            Ok(page) => page,
            Err(fault) => return Err(refusal(number, fault)),
        };
        match judge_page(&page, number, &self.bytes, self.usable, is_root) {
            Ok(()) => {}
            Err(fault) => return Err(at_page(number, fault)),
        }
        judge_cells::<V, S>(
            alloc,
            source,
            self.encoding,
            &page,
            &self.parts,
            &mut self.content,
        )
    }

    /// Judges page `number`, if it is one of a tree, and counts as `judge_page` does.
    fn judge_used<S: PageSource>(
        &mut self,
        alloc: Global,
        source: &mut S,
        number: u32,
        used: Use,
    ) -> Result<u64, DeepError>
        requires page { IsPage V.pages number }
        requires same { SameSource V.pages V.size V.right V.given (S.pages source.old) (S.size source.old)
            (S.reads_right source.old) (S.gives_pages source.old) }
        ensures ok { V.right → HasSoundTrees V.pages → IsUsed V.pages number used
            → OnOk result (IsSoundAt V.pages number) }
        ensures counted { V.right → HasSoundTrees V.pages → IsUsed V.pages number used
            → IfOk result (λ n. (before : ℕ) → HasIllFormed V.pages number 0 before
            → HasIllFormed V.pages (number + 1) 0 (before + n)) }
        ensures most { IfOk result (λ n. n ≤ 65536) }
        ensures err { V.right → HasSoundTrees V.pages → IsUsed V.pages number used
            → IfErr result (λ e. Tells V.given V.pages e) }
        ensures same { SameSource V.pages V.size V.right V.given (S.pages source.new) (S.size source.new)
            (S.reads_right source.new) (S.gives_pages source.new) }
    {
        match used.is_root() {
            None => Ok(0),
            Some(is_root) => self.judge_page(alloc, source, number, is_root),
        }
    }

    /// Judges where the roots of trees stand among so many pages. Refused by RootBehind.
    pub fn judge_roots(&self, trees: &Trees, count: u32) -> Result<(), DeepError>
        requires { count ≡ length V.pages }
        ensures ok { V.right → HasSoundTrees V.pages → AreUses V.pages trees.now.uses.items
            → OnOk result (AreRootsFirst V.pages) }
        ensures err { V.right → HasSoundTrees V.pages → AreUses V.pages trees.now.uses.items
            → IfErr result (λ e. Tells V.given V.pages e) }
    {
        if !self.is_auto_vacuum {
            return Ok(());
        }
        match trees.misplaced_root(count) {
            Some(page) => Err(at_page(page, InnerFault::RootBehind)),
            None => Ok(()),
        }
    }

    /// Judges the pages of trees, in the order of their numbers, and counts the cells with a text that isn't one in the
    /// encoding.
    pub fn judge_pages<S: PageSource>(
        &mut self,
        alloc: Global,
        source: &mut S,
        trees: &Trees,
    ) -> Result<u64, DeepError>
        requires { SameSource V.pages V.size V.right V.given (S.pages source.old) (S.size source.old)
            (S.reads_right source.old) (S.gives_pages source.old) }
        ensures ok { V.right → HasSoundTrees V.pages → AreUses V.pages trees.now.uses.items
            → OnOk result ((p : ℕ) → IsPage V.pages p → IsSoundAt V.pages p) }
        ensures counted { V.right → HasSoundTrees V.pages → AreUses V.pages trees.now.uses.items
            → IfOk result (AreIllFormed V.pages) }
        ensures err { V.right → HasSoundTrees V.pages → AreUses V.pages trees.now.uses.items
            → IfErr result (λ e. Tells V.given V.pages e) }
        ensures same { SameSource V.pages V.size V.right V.given (S.pages source.new) (S.size source.new)
            (S.reads_right source.new) (S.gives_pages source.new) }
    {
        let count = source.count();
        let mut ill_formed = 0;
        'pages: for i in 0..count {
            let number = i + 1;
            let used = trees.use_of_page(number);
            let more = self.judge_used(alloc, source, number, used)?;
            ill_formed += more;
        }
        Ok(ill_formed)
    }
}
