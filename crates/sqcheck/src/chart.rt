//! What a survey puts down of each page (own).
ghost use Rattle.std.specs.Prelude.{◌≡◌, ◌<◌, ◌^◌, ◌↔◌, ◌⊎◌, [], ◌∷◌, length, IfOk, IfErr, IsTrue, OnErr, OnOk};
ghost use Rattle.sqpage.specs.declared.fault.Fault.{Fault};
ghost use Rattle.sqcheck.specs.internal.Charting.{ArePutDown, IsUnusedIn, unused_faults};
ghost use Rattle.sqcheck.specs.internal.Surveys.{Charts, IsEnd, IsSetDown, AreSetDown};

use crate::role::{Role, Visitor};
use sqpage::{CheckError, Fault, is_pointer_map, lock_byte_page};
use sqval::PageSize;
use std::alloc::{AllocError, Global};

/// The most faults that are put down.
const MOST_FAULTS: usize = 1_000_000;

/// What was found of the pages so far.
#[derive(Drop)]
pub(crate) struct Chart {
    /// By page, from 1: what it is used for, `Unused` where nothing has named it yet.
    pub roles: Vec<Role>,
    /// The faults, in the order in which they were found.
    pub faults: Vec<CheckError>,
    ghost few: { length roles.items < 2 ^ 32 },
}

impl Visitor for Chart {
    ghost saw = { λ old page role new. Charts old.roles.items page role new.roles.items };

    fn visit(&mut self, page: u32, role: Role) {
        self.put(page, role);
    }
}

/// What a page is set aside for: the lock-byte page, and where so many bytes of each page are reserved in a database of
/// auto-vacuum a pointer map. Unused where it isn't.
fn role_aside(page_size: PageSize, reserved: Option<u8>, page: u32) -> Role
    ensures { IsSetDown page_size reserved page result }
{
    if page == lock_byte_page(page_size) {
        return Role::LockByte;
    }
    match reserved {
        Some(reserved) => if is_pointer_map(page_size, reserved, page) {
            Role::PointerMap
        } else {
            Role::Unused
        },
        None => Role::Unused,
    }
}

impl Chart {
    /// A chart of so many pages, on which those that are set aside are put down.
    pub fn new(
        alloc: Global,
        count: u32,
        page_size: PageSize,
        reserved: Option<u8>,
    ) -> Result<Chart, AllocError>
        ensures roles { IfOk result (λ chart. AreSetDown count page_size reserved chart.roles.items) }
        ensures faults { IfOk result (λ chart. chart.faults.items ≡ []) }
    {
        let mut roles = vec![in alloc; Role::Unused; count as usize]?;
        'pages: for i in 0..count {
            roles[i as usize] = role_aside(page_size, reserved, i + 1);
        }
        Ok(Chart {
            roles,
            faults: Vec::new(alloc),
        })
    }

    /// Puts the role of a page down, where it is one of these.
    pub fn put(&mut self, page: u32, role: Role)
        ensures charts { Charts self.old.roles.items page role self.new.roles.items }
        ensures same { self.new.faults.items ≡ self.old.faults.items }
    {
        let page = page as usize;
        if 0 < page && page <= self.roles.len() {
            self.roles[page - 1] = role;
        }
    }

    /// Puts a fault down, as far as there is room. Refused by the fault where it isn't one of the database, by Source
    /// and NoMemory.
    pub fn tell(&mut self, error: CheckError) -> Result<(), CheckError>
        ensures same { self.new.roles.items ≡ self.old.roles.items }
        ensures down { OnOk result (ArePutDown self.old.faults.items (error ∷ []) self.new.faults.items) }
        ensures taken { OnOk result (¬ IsEnd error.fault) }
        ensures kept { OnErr result (self.new.faults.items ≡ self.old.faults.items) }
        ensures page { IfErr result (λ e. e.page ≡ error.page) }
        ensures ends { IfErr result (λ e. (e.fault ≡ Fault.NoMemory) ⊎ ((e.fault ≡ Fault.Source) × (e ≡ error))) }
    {
        if error.fault == Fault::Source || error.fault == Fault::NoMemory {
            return Err(error);
        }
        if self.faults.len() >= MOST_FAULTS {
            return Ok(());
        }
        match self.faults.push(error) {
            Ok(()) => Ok(()),
            Err(_) => Err(CheckError {
                page: error.page,
                fault: Fault::NoMemory,
            }),
        }
    }

    /// Whether nothing has named a page yet.
    pub fn is_unused(&self, page: u32) -> bool
        ensures { IsTrue result ↔ IsUnusedIn self.now.roles.items page }
    {
        let page = page as usize;
        0 < page && page <= self.roles.len() && self.roles[page - 1] == Role::Unused
    }

    /// Tells of each page that nothing has named, rising.
    pub fn tell_unused(&mut self) -> Result<(), CheckError>
        ensures same { self.new.roles.items ≡ self.old.roles.items }
        ensures down { OnOk result
            (ArePutDown self.old.faults.items (unused_faults 1 self.old.roles.items) self.new.faults.items) }
        ensures ends { IfErr result (λ e. e.fault ≡ Fault.NoMemory) }
    {
        'pages: for i in 0..self.roles.len() {
            if self.roles[i] == Role::Unused {
                self.tell(CheckError {
                    page: i as u32 + 1,
                    fault: Fault::PageUnused,
                })?;
            }
        }
        Ok(())
    }
}
