//! The faults that a survey tells at a page.
ghost use Rattle.std.specs.Prelude.{◌≡◌, ◌↔◌, ◌<◌, ◌≤◌, length, slice_get, Some, IsTrue};
ghost use Rattle.std.specs.List.Sorted.{IsNonDecreasingBy};
ghost use Rattle.cli_facts.specs.Faults.{IsFirstFault, IsUnsound};
ghost use Rattle.cli_facts.specs.internal.Faults.{IsPlaceOf};

use sqpage::{CheckError, Fault};

/// Where the faults of pages from this one on begin, in faults that are in the order of their pages.
fn place_of(faults: &[CheckError], page: u32) -> usize
    ensures within { result ≤ length faults.now }
    ensures place { IsNonDecreasingBy (λ e. e.page) faults.now → IsPlaceOf faults.now page result }
{
    faults.partition_point(|error| error.page < page)
}

/// The first fault that was told at a page, of faults that are in the order of their pages.
pub fn first_fault(faults: &[CheckError], page: u32) -> Option<Fault>
    ensures { IsNonDecreasingBy (λ e. e.page) faults.now → IsFirstFault faults.now page result }
{
    let error = *faults.get(place_of(faults, page))?;
    if error.page == page {
        Some(error.fault)
    } else {
        None
    }
}

/// The fault at a place.
fn fault_at(faults: &[CheckError], i: usize) -> CheckError
    requires { i < length faults.now }
    ensures { slice_get faults.now i ≡ Some result }
{
    faults[i]
}

/// Whether a fault says that a row of the schema is none.
fn is_of_row(fault: Fault) -> bool
    ensures { IsTrue result ↔ fault ≡ Fault.SchemaRecord }
{
    matches!(fault, Fault::SchemaRecord)
}

/// Whether a fault was told at a page that says more than that a row in it is none.
pub fn is_unsound(faults: &[CheckError], page: u32) -> bool
    ensures { IsNonDecreasingBy (λ e. e.page) faults.now → (IsTrue result ↔ IsUnsound faults.now page) }
{
    'faults: for i in place_of(faults, page)..faults.len() {
        let error = fault_at(faults, i);
        if error.page != page {
            return false;
        }
        if !is_of_row(error.fault) {
            return true;
        }
    }
    false
}
