//! Reading pages (own).
ghost use Rattle.std.specs.Prelude.{◌≡◌, ◌+◌, ◌≤◌, length, OnOk, IfErr};
ghost use Rattle.sqval.specs.Bytes.{word};
ghost use Rattle.sqval.specs.Database.{page};
ghost use Rattle.sqpage.specs.Freelist.{IsPage};
ghost use Rattle.sqpage.specs.Lists.{Every};
ghost use Rattle.sqpage.specs.declared.fault.Fault.{Fault};
ghost use Rattle.sqcheck.specs.internal.Snapshots.{Keeps};

use crate::snapshot::Snapshot;
use byteorder::{BigEndian, ByteOrder};
use sqpage::{CheckError, Fault, PageSource};

/// Reads page `p`. Refused by Source where it could not be read.
pub(crate) fn read_page<V: Snapshot, S: PageSource>(
    source: &mut S,
    p: u32,
    out: &mut [u8],
) -> Result<(), CheckError>
    requires page { IsPage V.pages p }
    requires room { length out.old ≡ V.size }
    requires same { Keeps V.Snapshot S.PageSource source.old }
    ensures read { V.right → OnOk result ((out.new ≡ page V.pages p) × Every (λ b. length b ≡ V.size) V.pages) }
    ensures same { Keeps V.Snapshot S.PageSource source.new }
    ensures err { IfErr result (λ e. (e.page ≡ p) × (e.fault ≡ Fault.Source) × ¬ V.given) }
{
    source.page(p, out).map_err(|_| CheckError {
        page: p,
        fault: Fault::Source,
    })
}

/// The number of four bytes at `at`.
pub(crate) fn word_at(bytes: &[u8], at: usize) -> u32
    requires { at + 4 ≤ length bytes.now }
    ensures { result ≡ word bytes.now at }
{
    BigEndian::read_u32(&bytes[at..at + 4])
}
