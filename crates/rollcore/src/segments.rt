//! A segment of the journal: old pages are copied from the database to the journal, and once they are durable, the
//! header is written.
ghost use Rattle.std.specs.Prelude.{◌≡◌, ◌+◌, ◌-◌, ◌*◌, ◌^◌, ◌<◌, ◌≤◌, ◌++◌, length, take};
ghost use Rattle.std.specs.Prelude.{drop, replicate, Some, IfErr};
ghost use Rattle.std.specs.List.{All};
ghost use Rattle.byteorder.specs.Endian.{big_bytes};
ghost use Rattle.sqval.specs.Bytes.{part};
ghost use Rattle.crashdisk.specs.During.{During};
ghost use Rattle.rollcore.specs.internal.Committing.{AreNumbered, AreAmong, ArePart, WritesRecord, WritesRecords};
ghost use Rattle.rollcore.specs.internal.Committing.{PreparesSegment, WritesHeader};
ghost use Rattle.rollcore.specs.internal.Committing.{PutsPage, PutsPages, PutsNewPages, PutsSegment};
ghost use Rattle.std.specs.Prelude.{MatchResult};
ghost use Rattle.sqjournal.specs.Header.{IsSector, Names, header_bytes};
ghost use Rattle.crashdisk.specs.declared.file.File.TheVariants.{Log};
ghost use Rattle.rollcore.specs.Journaling.{record_bytes};

use crate::changes::Change;
use crate::error::RollError;
use crate::opening::{break_magic, sync_log};
use byteorder::{BigEndian, ByteOrder};
use crashdisk::{Disk, File};
use sqjournal::{JournalHeader, next_header_at, page_sum};

/// A segment's header, and where it is going to stand in the journal.
#[derive(Clone, Copy)]
pub(crate) struct Head {
    pub place: u64,
    pub header: JournalHeader,
}

/// Writes a number as four bytes at a place, the highest byte first.
fn put_word(bytes: &mut [u8], at: usize, value: u32)
    requires { at + 4 ≤ length bytes.old }
    ensures { bytes.new ≡ take at bytes.old ++ big_bytes 4 value ++ drop (at + 4) bytes.old }
{
    BigEndian::write_u32(&mut bytes[at..], value);
}

/// Puts the number and the sum of a record round its page.
fn frame_record(buffer: &mut [u8], page: u32, nonce: u32)
    requires { 8 ≤ length buffer.old }
    ensures { buffer.new ≡ record_bytes page nonce (part buffer.old 4 (length buffer.old - 8)) }
{
    let end = buffer.len() - 4;
    let sum = page_sum(nonce, &buffer[4..end]);
    put_word(buffer, 0, page);
    put_word(buffer, end, sum);
}

/// Copies a page of the database to a record at a place of the journal.
fn write_record<D: Disk>(
    disk: &mut D,
    buffer: &mut [u8],
    at: u64,
    page: u32,
    nonce: u32,
) -> Result<(), RollError>
    requires buffer { (8 ≤ length buffer.old) × (length buffer.old ≤ 65544) }
    requires page { 1 ≤ page }
    requires place { at ≤ 2 ^ 39 + 2 ^ 23 }
    ensures disk { During D.keeps_word D.state disk.old disk.new
        (WritesRecord (length buffer.old - 8) page nonce at result) }
    ensures error { IfErr result (λ e. e ≡ RollError.Device) }
{
    let end = buffer.len() - 4;
    let from = u64::from(page - 1) * (end - 4) as u64;
    disk.read_at(File::Db, from, &mut buffer[4..end])?;
    frame_record(buffer, page, nonce);
    disk.write_at(File::Log, at, buffer)?;
    Ok(())
}

/// Copies the pages of these changes to records from a place of the journal on. Where the last one ends.
fn write_records<D: Disk>(
    disk: &mut D,
    buffer: &mut [u8],
    changes: &[Change],
    at: u64,
    nonce: u32,
) -> Result<u64, RollError>
    requires buffer { (8 ≤ length buffer.old) × (length buffer.old ≤ 65544) }
    requires changes { (length changes.now ≤ 64) × AreNumbered changes.now }
    requires place { at ≤ 2 ^ 39 }
    ensures disk { During D.keeps_word D.state disk.old disk.new
        (WritesRecords (length buffer.old - 8) at nonce changes.now result) }
    ensures answer { MatchResult result (λ end. end ≡ at + length changes.now * length buffer.old)
        (λ e. e ≡ RollError.Device) }
{
    let mut end = at;
    for change in changes {
        write_record(disk, buffer, end, change.page, nonce)?;
        end += buffer.len() as u64;
    }
    Ok(end)
}

/// Writes the records of a segment whose header is going to stand at a place, and makes them stay. The place of the
/// next header, where none begins now.
fn prepare_segment<D: Disk>(
    disk: &mut D,
    buffer: &mut [u8],
    changes: &[Change],
    place: u64,
    sector: u32,
    nonce: u32,
) -> Result<u64, RollError>
    requires buffer { (8 ≤ length buffer.old) × (length buffer.old ≤ 65544) }
    requires changes { (length changes.now ≤ 64) × AreNumbered changes.now }
    requires place { place ≤ 2 ^ 38 }
    requires sector { IsSector sector }
    ensures disk { During D.keeps_word D.state disk.old disk.new
        (PreparesSegment (length buffer.old - 8) sector nonce place changes.now result) }
    ensures answer { MatchResult result (λ next. next ≤ place + 2 ^ 23) (λ e. e ≡ RollError.Device) }
{
    let end = write_records(disk, buffer, changes, place + u64::from(sector), nonce)?;
    let next = next_header_at(end, sector);
    break_magic(disk, next)?;
    sync_log(disk)?;
    Ok(next)
}

/// A header, with zeros up to the end of its sector.
fn fill_header(header: &mut [u8], head: &JournalHeader)
    requires long { 28 ≤ length header.old }
    requires sector { IsSector head.now.sector }
    ensures bytes { header.new ≡ header_bytes head.now ++ replicate (length header.old - 28) 0 }
    ensures names { Names (header_bytes head.now) head.now }
{
    let mut front = [0u8; 28];
    head.write(&mut front);
    header[..28].copy_from_slice(&front);
    header[28..].fill(0);
}

/// Writes a page to its place in the database.
fn put_page<D: Disk>(disk: &mut D, page: u32, content: &[u8]) -> Result<(), RollError>
    requires page { 1 ≤ page }
    requires short { length content.now ≤ 65536 }
    ensures disk { During D.keeps_word D.state disk.old disk.new (PutsPage page content.now result) }
    ensures error { IfErr result (λ e. e ≡ RollError.Device) }
{
    let at = u64::from(page - 1) * content.len() as u64;
    disk.write_at(File::Db, at, content)?;
    Ok(())
}

/// Writes the new contents of these changes into the database.
fn put_pages<D: Disk>(
    disk: &mut D,
    changes: &[Change],
    pages: &[(u32, &[u8])],
) -> Result<(), RollError>
    requires pages { AreNumbered changes.now }
    requires within { AreAmong (length pages.now) changes.now }
    requires short { All (λ x. length x.1.now ≤ 65536) pages.now }
    ensures disk { During D.keeps_word D.state disk.old disk.new (PutsPages changes.now pages.now result) }
    ensures error { IfErr result (λ e. e ≡ RollError.Device) }
{
    for change in changes {
        match change.content {
            Some(k) => {
                let (_, content) = pages[k];
                put_page(disk, change.page, content)?;
            }
            None => {} // it is cut off
        }
    }
    Ok(())
}

/// Writes the header of a segment whose records are durable, and syncs it.
fn write_header<D: Disk>(
    disk: &mut D,
    header: &mut [u8],
    place: u64,
    head: &JournalHeader,
) -> Result<(), RollError>
    requires header { (512 ≤ length header.old) × (length header.old ≤ 65536) }
    requires sector { IsSector head.now.sector }
    requires place { place ≤ 2 ^ 38 }
    ensures disk { During D.keeps_word D.state disk.old disk.new
        (WritesHeader (length header.old) place head.now result) }
    ensures error { IfErr result (λ e. e ≡ RollError.Device) }
{
    fill_header(header, head);
    disk.write_at(File::Log, place, header)?;
    disk.sync(File::Log)?; // before any of its pages is overwritten
    Ok(())
}

/// Writes the pages that the database doesn't have yet.
pub(crate) fn put_new_pages<D: Disk>(
    disk: &mut D,
    pages: &[(u32, &[u8])],
    old_size: u32,
) -> Result<(), RollError>
    requires pages { All (λ x. (1 ≤ x.0) × (length x.1.now ≤ 65536)) pages.now }
    ensures disk { During D.keeps_word D.state disk.old disk.new (PutsNewPages pages.now old_size result) }
    ensures error { IfErr result (λ e. e ≡ RollError.Device) }
{
    for x in pages {
        let (page, content) = *x;
        if page > old_size {
            put_page(disk, page, content)?;
        }
    }
    Ok(())
}

/// Makes a segment of the journal durable, and then puts its pages. The place of the next header.
pub(crate) fn put_segment<D: Disk>(
    disk: &mut D,
    buffer: &mut [u8],
    header: &mut [u8],
    changes: &[Change],
    pages: &[(u32, &[u8])],
    head: &Head,
) -> Result<u64, RollError>
    requires buffer { (8 ≤ length buffer.old) × (length buffer.old ≤ 65544) }
    requires header { (512 ≤ length header.old) × (length header.old ≤ 65536) }
    requires changes { ArePart changes.now pages.now }
    requires place { (head.now.place ≤ 2 ^ 38) × IsSector head.now.header.sector }
    ensures disk { During D.keeps_word D.state disk.old disk.new
        (PutsSegment (length buffer.old - 8) (length header.old) head.now.place changes.now pages.now
        head.now.header result) }
    ensures answer { MatchResult result (λ next. next ≤ head.now.place + 2 ^ 23) (λ e. e ≡ RollError.Device) }
{
    let named = &head.header;
    let next = prepare_segment(disk, buffer, changes, head.place, named.sector, named.nonce)?;
    write_header(disk, header, head.place, named)?;
    put_pages(disk, changes, pages)?;
    Ok(next)
}
