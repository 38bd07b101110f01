//! What each page of the database that files show is used for.
ghost use Rattle.std.specs.Prelude.{◌≡◌, ◌≢◌, ◌⊎◌, ◌↔◌, ◌<◌, ◌≤◌, ℕ, length, get_or, IfOk, IfErr};
ghost use Rattle.sqcheck.specs.declared.role.Role.TheVariants.{Unused};
ghost use Rattle.sqview.specs.LogView.{pages_of};
ghost use Rattle.sqrescue_c.specs.Asked.{AreAskedFlags};
ghost use Rattle.sqrescue_c.specs.Roles.{kind_number, role_of, IsSurveyOf, IsAnswered, IsUnsurveyedBy};
ghost use Rattle.sqrescue_c.specs.Roles.{AreRolesAsked, HasAskedPages, AreRolesRefused};
ghost use Rattle.sqrescue_c.specs.internal.Statuses.{number_of};

use crate::asked::{UNKNOWN_OPTIONS, are_known, options_of, view_asked};
use crate::status::{Status, past_status};
use crate::view::Files;
use sqcheck::{Options, Report, Role, Survey};
use sqpage::{CheckError, Fault, Kind, PageSource};
use sqview::{View, survey_view_with};
use std::alloc::Global;

/// What a page is used for, by the number of its role, and the page that goes with it: of a page of a tree its root, of
/// an overflow page the page of the cell whose payload it holds, otherwise 0.
#[repr(C)]
#[derive(Clone, Copy)]
pub struct PageRole {
    pub role: u32,
    pub of_page: u32,
}

/// How many pages there are, and the fault that a check finds, with its page; 0 and 0 where there is none.
#[repr(C)]
#[derive(Clone, Copy)]
pub struct SurveyReport {
    pub pages: u32,
    pub fault: u32,
    pub page: u32,
}

/// From TableLeaf, 1, to IndexInterior, 4, in the order of the enum.
fn kind_number(kind: Kind) -> u32
    ensures { result ≡ kind_number kind }
{
    match kind {
        Kind::TableLeaf => 1,
        Kind::TableInterior => 2,
        Kind::IndexLeaf => 3,
        Kind::IndexInterior => 4,
    }
}

/// A role by its number.
fn page_role(role: Role) -> PageRole
    ensures { result ≡ role_of role }
{
    let (role, of_page) = match role {
        Role::Btree { kind, root } => (kind_number(kind), root),
        Role::Overflow { owner } => (5, owner),
        Role::FreeTrunk => (6, 0),
        Role::FreeLeaf => (7, 0),
        Role::LockByte => (8, 0),
        Role::PointerMap => (9, 0),
        Role::Unused => (10, 0),
    };
    PageRole { role, of_page }
}

/// Writes roles to the front of an array.
fn copy_roles(found: &[Role], roles: &mut [PageRole])
    requires { length found.now ≤ length roles.old }
    ensures { (i : ℕ) (r : PageRole) → i < length found.now
        → get_or roles.new i r ≡ role_of (get_or found.now i Unused) }
{
    for i in 0..found.len() {
        roles[i] = page_role(found[i]);
    }
}

/// Refuses a survey that finds auto-vacuum, which then isn't asked for.
fn judged(survey: Survey) -> Result<Survey, Status>
    ensures ok { IfOk result (λ found. (found ≡ survey) × IfErr survey.answer (λ e. e.fault ≢ Fault.AutoVacuum)) }
    ensures err { IfErr result (λ status. (status ≡ Status.AutoVacuum)
        × (e : CheckError) × (survey.answer ≡ Err e) × (e.fault ≡ Fault.AutoVacuum)) }
{
    match survey.answer {
        Err(error) => match error.fault {
            Fault::AutoVacuum => Err(Status::AutoVacuum),
            _ => Ok(survey),
        },
        Ok(_) => Ok(survey),
    }
}

/// The survey of a view.
fn survey_of(alloc: Global, view: &mut View<&[u8]>, options: Options) -> Result<Survey, Status>
    ensures found { IfOk result (IsSurveyOf options.pointer_maps
        (pages_of (λ file. file.now) view.old) view.old.page_size) }
    ensures refused { IfErr result (λ status. IsUnsurveyedBy options.pointer_maps
        (pages_of (λ file. file.now) view.old) view.old.page_size (number_of status)) }
{
    match survey_view_with(alloc, view, options) {
        Ok(survey) => judged(survey),
        Err(error) => match error.fault {
            Fault::NoMemory => Err(Status::NoMemory),
            _ => Err(Status::NotADatabase),
        },
    }
}

/// What a check answers, of so many pages, and its status.
fn answer_of(answer: &Result<Report, CheckError>, pages: u32) -> (SurveyReport, u32)
    ensures answered { IsAnswered answer.now result.1 result.0 }
    ensures pages { result.0.pages ≡ pages }
{
    match answer {
        Ok(_) => {
            let none = SurveyReport {
                pages,
                fault: 0,
                page: 0,
            };
            (none, Status::Done.number())
        }
        Err(error) => {
            let report = SurveyReport {
                pages,
                fault: u32::from(error.fault.number()),
                page: error.page,
            };
            (report, Status::Damaged.number())
        }
    }
}

/// What each page is used for of the database that flags ask for, as for `sqr_check_with`: the roles of all pages, page
/// 1 first, at the front of an array, and the fault that a check finds. Answers Done, or Damaged where there is one;
/// NoRoom where there are more pages than the array has places, and then says how many, with no fault, and leaves the
/// array as it is; otherwise TwoLogs, TooLarge, NoSuchCommit, CommitOverwritten, NotADatabase or AutoVacuum, or
/// NoMemory in place of any, or 24 where a flag isn't known, and then leaves both as they are (fileformat2, 1.4 to
/// 1.8).
#[unsafe(no_mangle)]
pub extern "C" fn sqr_page_roles(
    alloc: Global,
    files: &Files<'_>,
    flags: u32,
    frame: u32,
    roles: &mut [PageRole],
    out: &mut SurveyReport,
) -> u32
    ensures roles { (result ≡ 0) ⊎ (result ≡ 1) → AreRolesAsked flags frame
        files.now.db.now files.now.wal.now files.now.journal.now result out.new roles.new }
    ensures crowded { result ≡ 9 → (length roles.old < out.new.pages)
        × HasAskedPages flags frame files.now.db.now files.now.wal.now files.now.journal.now out.new.pages }
    ensures refused { 2 ≤ result → result ≢ 9 → result ≢ 24 → AreRolesRefused flags frame
        files.now.db.now files.now.wal.now files.now.journal.now result }
    ensures known { (result ≢ 24) ↔ AreAskedFlags flags }
    ensures roles_kept { 2 ≤ result → roles.new ≡ roles.old }
    ensures out_kept { 2 ≤ result → result ≢ 9 → out.new ≡ out.old }
{
    if !are_known(flags) {
        return UNKNOWN_OPTIONS;
    }
    let mut view = match view_asked(alloc, files, flags, frame) {
        Ok(view) => view,
        Err(error) => return past_status(error).number(),
    };
    let pages = view.count();
    if pages as usize > roles.len() {
        *out = SurveyReport {
            pages,
            fault: 0,
            page: 0,
        };
        return Status::NoRoom.number();
    }
    let survey = match survey_of(alloc, &mut view, options_of(flags)) {
        Ok(survey) => survey,
        Err(status) => return status.number(),
    };
    let (report, status) = answer_of(&survey.answer, pages);
    copy_roles(&survey.roles, roles);
    *out = report;
    status
}
