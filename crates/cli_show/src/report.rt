//! The facts that a report shows.
ghost use Rattle.std.specs.Prelude.{◌≡◌, ℕ, ◌<◌, List, [], ◌∷◌, ◌++◌, length, map, slice_get, Option, Some};
ghost use Rattle.std.specs.Prelude.{codes, option_to_list, IfErr, IfOk, IfSome, IsSome, OnOk};
ghost use Rattle.std.specs.List.{flat_map};
ghost use Rattle.std.specs.Io.KnownBytes.{Appends};
ghost use Rattle.sqval.specs.Limits.{Bounds};
ghost use Rattle.cli_text.specs.Facts.{joined, separator};
ghost use Rattle.cli_text.specs.Reports.{line_comma};
ghost use Rattle.cli_facts.specs.Runs.{expanded};
ghost use Rattle.cli_show.specs.Errors.{IsFromPage};
ghost use Rattle.cli_show.specs.LogsShown.{IsLogFound};
ghost use Rattle.cli_show.specs.Names.{names_of};
ghost use Rattle.cli_show.specs.PageLines.{IsLoggedAt};
ghost use Rattle.cli_show.specs.Reports.{AreLogged, ArePartsOf, AreTreeTexts, IsHeadText, IsLoggedText, IsLogObject};
ghost use Rattle.cli_show.specs.Reports.{IsTreesText, OnlyReads, Parts, front_text, list_text, logged_text, pages_of};
ghost use Rattle.cli_show.specs.Reports.{placed, report_text, roles_in, runs_text, size_in};
ghost use Rattle.cli_show.specs.internal.Reports.{AreWritten, page_at};

use crate::cells::read_page;
use crate::logs::{LogFound, write_log_facts};
use crate::names::Names;
use crate::surveys::{Found, Surveyed, write_verdict};
use cli_facts::{Refusal, Run, number_of, runs_of, uses_of};
use cli_text::{Logged, Tree, write_fields, write_hex, write_run, write_tree};
use cli_words::Style;
use sqcheck::Role;
use sqpage::{DbHeader, Kind, PageSource};
use sqview::FileBytes;
use std::alloc::Global;
use std::io::{self, Write};

/// What a report shows of a database and its log.
#[derive(Drop)]
pub struct ReportFacts<F> {
    pub found: Found<F>,
    /// The first bytes of page 1.
    head: Option<[u8; 100]>,
    trees: Vec<Tree>,
    runs: Vec<Run>,
    log: LogFound,
}

/// The root of the tree that a page with this role is in, or whose payload it holds a part of.
fn root_of(roles: &[Role], role: Role) -> Option<u32> {
    match role {
        Role::Btree { root, .. } => Some(root),
        Role::Overflow { owner } => match roles.get((owner as usize).checked_sub(1)?) {
            Some(Role::Btree { root, .. }) => Some(*root),
            _ => None,
        },
        _ => None,
    }
}

/// How many pages each tree and its overflow chains have, by the place of its root from 0.
fn sizes_of(alloc: Global, roles: &[Role]) -> Result<Vec<u32>, Refusal> {
    let mut sizes = vec![in alloc; 0u32; roles.len()]?;
    for role in roles {
        let Some(root) = root_of(roles, *role) else {
            continue;
        };
        if let Some(size) = sizes.get_mut((root as usize).saturating_sub(1)) {
            *size = size.saturating_add(1);
        }
    }
    Ok(sizes)
}

/// The tree whose root is page i, from 0.
fn tree_at(roles: &[Role], sizes: &[u32], i: usize) -> Option<Tree> {
    let Role::Btree { kind, root } = *roles.get(i)? else {
        return None;
    };
    if number_of(i) != root {
        return None;
    }
    Some(Tree {
        root,
        is_index: matches!(kind, Kind::IndexLeaf | Kind::IndexInterior),
        pages: sizes.get(i).copied().unwrap_or(0),
    })
}

/// The trees of a database, in the order of their roots.
fn trees_of(alloc: Global, roles: &[Role], sizes: &[u32]) -> Result<Vec<Tree>, Refusal> {
    let mut trees = Vec::new(alloc);
    for i in 0..roles.len() {
        if let Some(tree) = tree_at(roles, sizes, i) {
            if trees.push(tree).is_err() {
                return Err(Refusal::NoMemory);
            }
        }
    }
    Ok(trees)
}

/// The first bytes of page 1.
fn head_of<F: FileBytes>(
    alloc: Global,
    found: &mut Surveyed<F>,
) -> Result<Option<[u8; 100]>, Refusal>
    ensures found { found.new ≡ record found.old { view = found.new.view } }
    ensures refused { IfErr result IsFromPage }
{
    let page = read_page(alloc, &mut found.view, 1)?;
    Ok(page.first_chunk::<100>().copied())
}

/// What is told of the pages that were found.
#[derive(Drop)]
struct PageFacts {
    head: Option<[u8; 100]>,
    trees: Vec<Tree>,
    runs: Vec<Run>,
}

/// The trees of a survey.
fn trees_found<F>(alloc: Global, found: &Surveyed<F>) -> Result<Vec<Tree>, Refusal> {
    let roles = found.survey.roles.as_slice();
    let sizes = sizes_of(alloc, roles)?;
    trees_of(alloc, roles, &sizes)
}

/// The runs of a survey.
fn runs_found<F>(alloc: Global, found: &Surveyed<F>) -> Result<Vec<Run>, Refusal>
    ensures { IfOk result (λ runs. map (λ u. u.role) (expanded runs.items) ≡ found.now.survey.roles.items) }
{
    let uses = uses_of(alloc, &found.survey.roles, &found.survey.faults)?;
    Ok(runs_of(alloc, &uses)?)
}

/// What is told of the pages that were found.
fn page_facts<F: FileBytes>(alloc: Global, found: &mut Surveyed<F>) -> Result<PageFacts, Refusal>
    ensures found { found.new ≡ record found.old { view = found.new.view } }
    ensures runs { IfOk result (λ facts. map (λ u. u.role) (expanded facts.runs.items)
        ≡ found.old.survey.roles.items) }
    ensures refused { IfErr result IsFromPage }
{
    let head = head_of(alloc, found)?;
    match (trees_found(alloc, found), runs_found(alloc, found)) {
        (Ok(trees), Ok(runs)) => Ok(PageFacts { head, trees, runs }),
        _ => Err(Refusal::NoMemory),
    }
}

/// The same of what was found; nothing where that is no page.
fn facts_in<F: FileBytes>(alloc: Global, found: &mut Found<F>) -> Result<PageFacts, Refusal>
    ensures found { OnlyReads found.old found.new }
    ensures runs { IfOk result (λ facts. map (λ u. u.role) (expanded facts.runs.items) ≡ roles_in found.old) }
    ensures refused { IfErr result IsFromPage }
{
    match found {
        Found::Pages(pages) => page_facts(alloc, pages),
        Found::Nothing(_) => Ok(PageFacts {
            head: None,
            trees: Vec::new(alloc),
            runs: Vec::new(alloc),
        }),
    }
}

/// What a report shows of what was found, and of the log that counts. Refused by `FileFailed` and `NoMemory`, and by
/// `NoSuchPage` where there is no page 1.
pub fn facts_of<F: FileBytes + Drop>(
    alloc: Global,
    found: Found<F>,
    log: LogFound,
) -> Result<ReportFacts<F>, Refusal>
    ensures found { IfOk result (λ facts. OnlyReads found facts.found) }
    ensures log { IfOk result (λ facts. facts.log ≡ log) }
    ensures runs { IfOk result (λ facts. map (λ u. u.role) (expanded facts.runs.items) ≡ roles_in found) }
    ensures refused { IfErr result IsFromPage }
{
    let mut found = found;
    match facts_in(alloc, &mut found) {
        Ok(PageFacts { head, trees, runs }) => Ok(ReportFacts {
            found,
            head,
            trees,
            runs,
            log,
        }),
        Err(refusal) => Err(refusal),
    }
}

/// The tree at a place.
fn tree_in(trees: &[Tree], i: usize) -> Tree
    requires { i < length trees.now }
    ensures { slice_get trees.now i ≡ Some result }
{
    trees[i]
}

fn write_trees<W: Write>(out: &mut W, trees: &[Tree], names: &Names) -> io::Result<()>
    ensures { OnOk result ((texts : List (List ℕ)) × AreTreeTexts (names_of names.now) trees.now texts
        × Appends (W.contents out.old) (W.contents out.new) (flat_map (λ (text : List ℕ). text) texts)) }
{
    for i in 0..trees.len() {
        let tree = tree_in(trees, i);
        let name = names.of(tree.root);
        write_tree(out, i == 0, tree, name)?;
    }
    Ok(())
}

/// The trees of a survey; none where no page was found.
fn write_trees_of<F, W: Write>(out: &mut W, trees: &[Tree], found: &Found<F>) -> io::Result<()>
    ensures { OnOk result ((text : List ℕ) × IsTreesText found.now trees.now text
        × Appends (W.contents out.old) (W.contents out.new) text) }
{
    match found {
        Found::Pages(found) => write_trees(out, trees, &found.names),
        Found::Nothing(_) => Ok(()),
    }
}

fn write_runs<W: Write>(out: &mut W, runs: &[Run]) -> io::Result<()>
    ensures { OnOk result (Appends (W.contents out.old) (W.contents out.new) (runs_text 1 runs.now)) }
{
    let mut first = 1u32;
    for run in runs {
        write_run(out, first, run.count, run.used.role, run.used.fault)?;
        first = first.saturating_add(run.count);
    }
    Ok(())
}

/// Pages that stand in the log one behind the other: the number of the first, its place in the log, and how many.
#[derive(Clone, Copy)]
struct LoggedRun {
    page: u64,
    at: u64,
    count: u64,
}

impl LoggedRun {
    /// The run and this page behind it, if both its number and its place are the next ones.
    fn grown(&self, page: u64, at: u64) -> Option<LoggedRun>
        ensures pages { IfSome result (λ run. pages_of run ≡ pages_of self.now ++ (page, at) ∷ []) }
        ensures some { IfSome result (λ run. 0 < run.count) }
    {
        if page != self.page.checked_add(self.count)? || at != self.at.checked_add(self.count)? {
            return None;
        }
        Some(LoggedRun {
            page: self.page,
            at: self.at,
            count: self.count.checked_add(1)?,
        })
    }

    /// The run as an element of a list.
    fn write<W: Write>(&self, out: &mut W, is_first: bool) -> io::Result<()>
        ensures { OnOk result (Appends (W.contents out.old) (W.contents out.new)
            (separator line_comma is_first ++ logged_text self.now)) }
    {
        let (page, at, count) = (self.page, self.at, self.count);
        if is_first {
            write!(out, "[{page},{at},{count}]")
        } else {
            write!(out, ",\n[{page},{at},{count}]")
        }
    }
}

/// Whether no run is written, and the last one, which isn't written yet and may still grow.
#[derive(Clone, Copy)]
struct LoggedRuns {
    is_first: bool,
    last: Option<LoggedRun>,
}

/// The last run and this page behind it, if it stands in the log, and both its number and its place are the next ones.
fn grown_by(last: Option<LoggedRun>, page: u64, here: Option<u64>) -> Option<LoggedRun>
    ensures pages { IfSome result (λ run. pages_of run ≡ flat_map pages_of (option_to_list last) ++ page_at page here) }
    ensures some { IfSome result (λ run. 0 < run.count) }
{
    match (last, here) {
        (Some(last), Some(at)) => last.grown(page, at),
        _ => None,
    }
}

/// A run of this page alone, if it stands in the log.
fn begun_by(page: u64, here: Option<u64>) -> Option<LoggedRun>
    ensures pages { flat_map pages_of (option_to_list result) ≡ page_at page here }
    ensures some { IfSome result (λ run. 0 < run.count) }
{
    match here {
        Some(at) => Some(LoggedRun { page, at, count: 1 }),
        None => None,
    }
}

/// The last run is written, if there is one.
fn write_last<W: Write>(out: &mut W, runs: LoggedRuns) -> io::Result<LoggedRuns>
    ensures { (begin : Option (List ℕ)) (pages : List (ℕ × ℕ)) → AreWritten begin (W.contents out.old) runs pages
        → IfOk result (λ now. AreWritten begin (W.contents out.new) now pages × (now.last ≡ Option.None)) }
{
    match runs.last {
        Some(run) => {
            run.write(out, runs.is_first)?;
            Ok(LoggedRuns {
                is_first: false,
                last: None,
            })
        }
        None => Ok(runs),
    }
}

/// One more page, which may stand in the log: the last run grows by it, or is written, and another one begins.
fn add_page<W: Write>(
    out: &mut W,
    runs: LoggedRuns,
    page: u64,
    here: Option<u64>,
) -> io::Result<LoggedRuns>
    ensures { (begin : Option (List ℕ)) (pages : List (ℕ × ℕ)) → AreWritten begin (W.contents out.old) runs pages
        → IfOk result (λ now. AreWritten begin (W.contents out.new) now (pages ++ page_at page here)) }
{
    if let Some(grown) = grown_by(runs.last, page, here) {
        return Ok(LoggedRuns {
            is_first: runs.is_first,
            last: Some(grown),
        });
    }
    let written = write_last(out, runs)?;
    Ok(LoggedRuns {
        is_first: written.is_first,
        last: begun_by(page, here),
    })
}

/// The number of the frame or record in which page i, from 0, stands.
fn logged_number<F: FileBytes>(found: &Surveyed<F>, i: usize) -> Option<u64>
    ensures within { IsSome result → i < 4294967295 }
    ensures at { (place : Option Logged) × IsLoggedAt found.now i place
        × ((page : ℕ) → page_at page result ≡ placed page place) }
{
    match found.logged(i) {
        Some(Logged::Frame(number) | Logged::Record(number)) => Some(number),
        None => None,
    }
}

/// The runs of pages that stand in the log one behind the other.
fn write_logged<F: FileBytes, W: Write>(out: &mut W, found: &Surveyed<F>) -> io::Result<()>
    ensures { OnOk result ((runs : List LoggedRun) × AreLogged found.now runs
        × Appends (W.contents out.old) (W.contents out.new) (joined line_comma (map logged_text runs))) }
{
    let mut runs = LoggedRuns {
        is_first: true,
        last: None,
    };
    for i in 0..found.survey.roles.len() {
        let here = logged_number(found, i);
        runs = add_page(out, runs, u64::from(number_of(i)), here)?;
    }
    write_last(out, runs)?;
    Ok(())
}

/// The pages of a survey that stand in the log; none where no page was found.
fn write_logged_of<F: FileBytes, W: Write>(out: &mut W, found: &Found<F>) -> io::Result<()>
    ensures { OnOk result ((text : List ℕ) × IsLoggedText found.now text
        × Appends (W.contents out.old) (W.contents out.new) text) }
{
    match found {
        Found::Pages(found) => write_logged(out, found),
        Found::Nothing(_) => Ok(()),
    }
}

/// The fields of the header that the first bytes of page 1 are, if they are one.
fn write_head<W: Write>(out: &mut W, head: &Option<[u8; 100]>) -> io::Result<()>
    ensures { OnOk result ((text : List ℕ) × IsHeadText head.now text
        × Appends (W.contents out.old) (W.contents out.new) text) }
{
    let Some(head) = head else {
        return Ok(());
    };
    match DbHeader::read(head) {
        Ok(header) => write_fields(out, &header),
        Err(_) => Ok(()),
    }
}

/// The size of a page, in bytes; 0 where no page was found.
fn page_size_of<F: FileBytes>(found: &Found<F>) -> u32
    ensures { result ≡ size_in found.now }
{
    match found {
        Found::Pages(found) => found.view.page_size().get(),
        Found::Nothing(_) => 0,
    }
}

/// What stands before the verdict.
fn write_front<W: Write>(out: &mut W, version: &str, file: &str, size: u32) -> io::Result<()>
    ensures { OnOk result (Appends (W.contents out.old) (W.contents out.new)
        (front_text version.now file.now size)) }
{
    write!(out, "{{\"version\":\"{version}\",\"file\":\"")?;
    write_hex(out, file.as_bytes())?;
    write!(out, "\",\n\"page size\":{size},\n\"verdict\":")
}

/// The header.
fn write_header_part<W: Write>(out: &mut W, head: &Option<[u8; 100]>) -> io::Result<()>
    ensures { OnOk result ((text : List ℕ) × IsHeadText head.now text
        × Appends (W.contents out.old) (W.contents out.new) (codes ",\"header\":{" ++ (text ++ codes "},\n"))) }
{
    out.write_all(b",\"header\":{")?;
    write_head(out, head)?;
    out.write_all(b"},\n")
}

/// The list of trees.
fn write_tree_list<F, W: Write>(out: &mut W, trees: &[Tree], found: &Found<F>) -> io::Result<()>
    ensures { OnOk result ((text : List ℕ) × IsTreesText found.now trees.now text
        × Appends (W.contents out.old) (W.contents out.new) (list_text (codes "trees") text)) }
{
    out.write_all(b"\"trees\":[")?;
    write_trees_of(out, trees, found)?;
    out.write_all(b"],\n")
}

/// The list of runs.
fn write_run_list<W: Write>(out: &mut W, runs: &[Run]) -> io::Result<()>
    ensures { OnOk result (Appends (W.contents out.old) (W.contents out.new)
        (list_text (codes "runs") (runs_text 1 runs.now))) }
{
    out.write_all(b"\"runs\":[")?;
    write_runs(out, runs)?;
    out.write_all(b"],\n")
}

/// The list of pages in the log.
fn write_logged_list<F: FileBytes, W: Write>(out: &mut W, found: &Found<F>) -> io::Result<()>
    ensures { OnOk result ((text : List ℕ) × IsLoggedText found.now text
        × Appends (W.contents out.old) (W.contents out.new) (list_text (codes "logged") text)) }
{
    out.write_all(b"\"logged\":[")?;
    write_logged_of(out, found)?;
    out.write_all(b"],\n")
}

/// The lists of trees, of runs and of pages in the log.
fn write_lists<F: FileBytes, W: Write>(out: &mut W, facts: &ReportFacts<F>) -> io::Result<()>
    ensures { OnOk result ((trees : List ℕ) × (logged : List ℕ)
        × IsTreesText facts.now.found facts.now.trees.items trees × IsLoggedText facts.now.found logged
        × Appends (W.contents out.old) (W.contents out.new) (list_text (codes "trees") trees
        ++ (list_text (codes "runs") (runs_text 1 facts.now.runs.items) ++ list_text (codes "logged") logged))) }
{
    write_tree_list(out, &facts.trees, &facts.found)?;
    write_run_list(out, &facts.runs)?;
    write_logged_list(out, &facts.found)
}

/// The log.
fn write_log_part<W: Write>(out: &mut W, log: &LogFound) -> io::Result<()>
    ensures { (limits : Bounds) (wal journal : List ℕ) → IsLogFound limits wal journal log.now
        → OnOk result ((text : List ℕ) × IsLogObject limits.frames wal journal log.now text
        × Appends (W.contents out.old) (W.contents out.new) (codes "\"log\":" ++ (text ++ codes "}\n"))) }
{
    out.write_all(b"\"log\":")?;
    write_log_facts(out, log)?;
    out.write_all(b"}\n")
}

/// The facts of a report by a program of this version on a file of this name, as one object. An error of the writer.
pub fn write_report_facts<F: FileBytes, W: Write>(
    out: &mut W,
    version: &str,
    file: &str,
    facts: &ReportFacts<F>,
) -> io::Result<()>
    ensures { (limits : Bounds) (wal journal : List ℕ) → IsLogFound limits wal journal facts.now.log
        → OnOk result ((parts : Parts) × ArePartsOf limits.frames wal journal facts.now parts
        × Appends (W.contents out.old) (W.contents out.new) (report_text version.now file.now facts.now parts)) }
{
    write_front(out, version, file, page_size_of(&facts.found))?;
    write_verdict(out, Style::Json, &facts.found)?;
    write_header_part(out, &facts.head)?;
    write_lists(out, facts)?;
    write_log_part(out, &facts.log)
}
