//! Neighbouring pages of one use, as one.
ghost use Rattle.std.specs.Prelude.{◌≡◌, ◌+◌, ◌<◌, ◌++◌, ◌∷◌, [], map, IfOk, IsTrue, OnOk};
ghost use Rattle.std.specs.List.Sorted.{IsNonDecreasingBy};
ghost use Rattle.cli_facts.specs.Runs.{TellFirstFaults, expanded};

use crate::faults::first_fault;
use sqcheck::Role;
use sqpage::{CheckError, Fault};
use std::alloc::{AllocError, Global};

/// What a page is used for, and the first fault that was told at it.
#[derive(Clone, Copy, Debug, PartialEq, Eq)]
pub struct Use {
    pub role: Role,
    pub fault: Option<Fault>,
}

/// So many neighbouring pages of one use.
#[derive(Clone, Copy, Debug, PartialEq, Eq)]
pub struct Run {
    pub count: u32,
    pub used: Use,
}

/// The number of the page that stands at this place, from 0, in a list by page.
pub fn number_of(i: usize) -> u32
    ensures { i < 4294967295 → result ≡ i + 1 }
{
    match u32::try_from(i) {
        Ok(i) => i.saturating_add(1),
        Err(_) => u32::MAX,
    }
}

/// The uses of all pages: the roles that a survey told, and its faults, which are in the order of their pages.
pub fn uses_of(alloc: Global, roles: &[Role], faults: &[CheckError]) -> Result<Vec<Use>, AllocError>
    ensures roles { IfOk result (λ uses. map (λ u. u.role) uses.items ≡ roles.now) }
    ensures faults { IsNonDecreasingBy (λ e. e.page) faults.now
        → IfOk result (λ uses. TellFirstFaults faults.now uses.items) }
{
    let mut uses = Vec::with_capacity(alloc, roles.len())?;
    for i in 0..roles.len() {
        let fault = first_fault(faults, number_of(i));
        uses.push(Use {
            role: roles[i],
            fault,
        })?;
    }
    Ok(uses)
}

/// Whether both are one use.
fn is_same(one: &Use, other: &Use) -> bool
    ensures { IsTrue result → one.now ≡ other.now }
{
    one.role == other.role && one.fault == other.fault
}

/// Adds a page's use to runs: to the last one where that is of this use.
fn add_use(runs: &mut Vec<Run>, used: Use) -> Result<(), AllocError>
    ensures { OnOk result (expanded runs.new.items ≡ expanded runs.old.items ++ used ∷ []) }
{
    let end = runs.len();
    if end > 0 && is_same(&runs[end - 1].used, &used) && runs[end - 1].count < u32::MAX {
        runs[end - 1].count += 1;
        return Ok(());
    }
    runs.push(Run { count: 1, used })?;
    Ok(())
}

/// The runs that the pages are, in their order.
pub fn runs_of(alloc: Global, uses: &[Use]) -> Result<Vec<Run>, AllocError>
    ensures { IfOk result (λ runs. expanded runs.items ≡ uses.now) }
{
    let mut runs = Vec::new(alloc);
    for used in uses {
        add_use(&mut runs, *used)?;
    }
    Ok(runs)
}
