//! The names of statuses and of faults, and the version, for callers in any language (own).
ghost use Rattle.std.specs.Prelude.{◌≡◌, ◌⊎◌, ◌<◌, length, IfSome, IfNone, codes};
ghost use Rattle.sqpage.specs.Faults.{name_of, number_of};
ghost use Rattle.sqpage.specs.declared.fault.Fault.{Fault};
ghost use Rattle.sqrescue_c.specs.Names.{padded, status_name};

use sqpage::Fault;

/// The version: a million for each major one, a thousand for each minor one, one for each patch.
const VERSION: u32 = 1_000_000;

/// A name, and zeros behind it, one at least.
#[repr(C)]
#[derive(Clone, Copy)]
pub struct Name {
    pub bytes: [u8; 24],
}

/// The version of the library, by the number of its header, SQR_VERSION_NUMBER.
#[unsafe(no_mangle)]
pub extern "C" fn sqr_version() -> u32
    ensures { result ≡ 1000000 }
{
    VERSION
}

/// The name of the status of this number, as the program prints it where it has one, and "?" of any other number.
fn name_of_status(status: u32) -> &'static str
    ensures name { result.now ≡ status_name status }
    ensures short { length result.now < 24 }
{
    match status {
        0 => "ok",
        1 => "damaged",
        2 => "two logs",
        3 => "too large",
        4 => "auto-vacuum",
        5 => "not a database",
        6 => "no memory",
        7 => "no such page",
        8 => "wrong size",
        9 => "no room",
        10 => "no such commit",
        11 => "magic",
        12 => "page size",
        13 => "checksum",
        14 => "unknown log version",
        15 => "super-journal",
        16 => "page sizes differ",
        17 => "not there",
        18 => "not readable",
        19 => "folder",
        20 => "not a file",
        21 => "in use",
        22 => "no locks",
        23 => "file failed",
        24 => "unknown options",
        25 => "misuse",
        26 => "not writable",
        27 => "already there",
        28 => "disk full",
        29 => "shared process",
        30 => "commit overwritten",
        31 => "not judged",
        _ => "?",
    }
}

/// The fault of this number.
fn fault_of(number: u32) -> Option<Fault>
    ensures some { IfSome result (λ fault. number ≡ number_of fault) }
    ensures none { IfNone result ((number ≡ 0) ⊎ (22 < number)) }
{
    match number {
        1 => Some(Fault::Magic),
        2 => Some(Fault::PageSize),
        3 => Some(Fault::Fraction),
        4 => Some(Fault::Reserved),
        5 => Some(Fault::AutoVacuum),
        6 => Some(Fault::Kind),
        7 => Some(Fault::CellOutside),
        8 => Some(Fault::Overlap),
        9 => Some(Fault::Freeblock),
        10 => Some(Fault::Fragments),
        11 => Some(Fault::ChainCut),
        12 => Some(Fault::ChainLong),
        13 => Some(Fault::PageTwice),
        14 => Some(Fault::PageOutside),
        15 => Some(Fault::PageUnused),
        16 => Some(Fault::KeyOrder),
        17 => Some(Fault::Depth),
        18 => Some(Fault::FreeCount),
        19 => Some(Fault::Source),
        20 => Some(Fault::NoMemory),
        21 => Some(Fault::SchemaRecord),
        22 => Some(Fault::PointerMap),
        _ => None,
    }
}

/// Writes a name and the zeros behind it, and gives its length.
fn write_name(name: &str, out: &mut Name) -> u32
    requires { length name.now < 24 }
    ensures bytes { out.new.bytes ≡ padded name.now }
    ensures length { result ≡ length name.now }
{
    let bytes = name.as_bytes();
    out.bytes = [0; 24];
    out.bytes[..bytes.len()].copy_from_slice(bytes);
    bytes.len() as u32
}

/// Writes the name of the status of this number, "?" where there is none, and answers how long it is, in bytes.
#[unsafe(no_mangle)]
pub extern "C" fn sqr_status_text(status: u32, name: &mut Name) -> u32
    ensures name { name.new.bytes ≡ padded (status_name status) }
    ensures length { result ≡ length (status_name status) }
{
    write_name(name_of_status(status), name)
}

/// Writes the name of the fault of this number, as `sqrescue check` prints it, "?" where there is none, and answers how
/// long it is, in bytes.
#[unsafe(no_mangle)]
pub extern "C" fn sqr_fault_text(fault: u32, name: &mut Name) -> u32
    ensures name { (it : Fault) → fault ≡ number_of it → name.new.bytes ≡ padded (name_of it) }
    ensures length { (it : Fault) → fault ≡ number_of it → result ≡ length (name_of it) }
    ensures unknown { (fault ≡ 0) ⊎ (22 < fault) → name.new.bytes ≡ padded (codes "?") }
{
    match fault_of(fault) {
        Some(fault) => write_name(fault.name(), name),
        None => write_name("?", name),
    }
}
