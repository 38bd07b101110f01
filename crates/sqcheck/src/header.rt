//! The header of the file (fileformat2, 1.3).
ghost use Rattle.std.specs.Prelude.{◌≡◌, ◌≢◌, ◌+◌, ◌<◌, ◌≤◌, ◌↔◌, length, IfOk, IfErr, IsTrue, false, take};
ghost use Rattle.sqval.specs.Bytes.{word};
ghost use Rattle.sqpage.specs.declared.fault.Fault.{Fault};
ghost use Rattle.sqpage.specs.declared.header.DbHeader.{DbHeader};
ghost use Rattle.sqpage.specs.Header.{HasMagic, HasPageSize, size_named};
ghost use Rattle.sqcheck.specs.internal.Heading.{HasHeaderOf, HeaderFault};

use sqpage::{CheckError, DbHeader, Fault, has_magic, named_page_size};
use sqval::PageSize;

/// The bytes of the header in those of page 1.
fn head_in(bytes: &[u8]) -> [u8; 100]
    requires { 100 ≤ length bytes.now }
    ensures { result ≡ take 100 bytes.now }
{
    let mut head = [0; 100];
    head.copy_from_slice(&bytes[..100]);
    head
}

/// Whether a header names this page size.
fn names(head: &[u8; 100], size: PageSize) -> bool
    ensures is { IsTrue result ↔ size_named head.now ≡ size }
    ensures valid { IsTrue result → HasPageSize head.now }
{
    match named_page_size(head) {
        Some(named) => named.get() == size.get(),
        None => false,
    }
}

/// Whether a header has the magic, and names another page size.
fn names_another(head: &[u8; 100], size: PageSize) -> bool
    ensures another { IsTrue result → HasMagic head.now × (size_named head.now ≢ size) }
    ensures same { result ≡ false → HasMagic head.now → HasPageSize head.now × (size_named head.now ≡ size) }
{
    has_magic(head) && !names(head, size)
}

/// Judges the header of a database of pages of this size. Refused by Magic, PageSize, Fraction, Reserved, and without
/// `maps` AutoVacuum, the first that applies; with them by PointerMap where it asks for incremental vacuum without
/// auto-vacuum.
fn judge(bytes: &[u8], size: PageSize, maps: bool) -> Result<DbHeader, Fault>
    requires size { size ≡ length bytes.now }
    requires large { 512 ≤ length bytes.now }
    ensures ok { IfOk result (λ header. HasHeaderOf maps header size bytes.now) }
    ensures room { IfOk result (λ header. 480 + header.reserved ≤ size) }
    ensures err { IfErr result (λ fault. HeaderFault maps fault size bytes.now) }
{
    let head = head_in(bytes);
    if names_another(&head, size) {
        return Err(Fault::PageSize);
    }
    let header = DbHeader::read(&head)?;
    if !maps && header.largest_root != 0 {
        return Err(Fault::AutoVacuum);
    }
    if maps && header.largest_root == 0 && header.incremental_vacuum != 0 {
        return Err(Fault::PointerMap);
    }
    Ok(header)
}

/// Judges the header in the bytes of page 1, at page 1.
pub(crate) fn judge_header(bytes: &[u8], size: PageSize, maps: bool) -> Result<DbHeader, CheckError>
    requires size { size ≡ length bytes.now }
    requires large { 512 ≤ size }
    ensures ok { IfOk result (λ header. HasHeaderOf maps header size bytes.now) }
    ensures room { IfOk result (λ header. 480 + header.reserved ≤ size) }
    ensures err { IfErr result (λ e. (e.page ≡ 1) × HeaderFault maps e.fault size bytes.now) }
{
    match judge(bytes, size, maps) {
        Ok(header) => Ok(header),
        Err(fault) => Err(CheckError { page: 1, fault }),
    }
}
