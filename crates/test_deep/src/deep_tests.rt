//! A database as SQLite 3.40.1 writes it, and each fault in it.
use sqcheck::Options;
use sqdeep::{DeepError, InnerError, InnerFault, Inside, check_deep};
use sqpage::SliceSource;
use sqval::PageSize;
use std::alloc::{AllocError, Global};
use std::test::Fail;

/// Writes bytes from a place on, as far as the file goes.
pub(crate) fn put(file: &mut Vec<u8>, at: usize, bytes: &[u8]) {
    for (i, byte) in bytes.iter().enumerate() {
        if let Some(place) = file.get_mut(at.saturating_add(i)) {
            *place = *byte;
        }
    }
}

/// Of PRAGMA page_size = 512, CREATE TABLE t(x), and the rows 'ab', 'cd' and 'ef'. What isn't here is zero.
static SOUND: [(usize, &[u8]); 7] = [
    (
        0,
        b"SQLite format 3\0\x02\0\x01\x01\0\x40\x20\x20\0\0\0\x04\0\0\0\x02",
    ),
    (43, &[1, 0, 0, 0, 4]),
    (59, &[1]),
    (95, &[4, 0, 46, 99, 1, 13, 0, 0, 0, 1, 1, 223, 0, 1, 223]),
    (
        479,
        b"\x1f\x01\x06\x17\x0f\x0f\x01\x2ftablett\x02CREATE TABLE t(x)",
    ),
    (512, &[13, 0, 0, 0, 3, 1, 238, 0, 1, 250, 1, 244, 1, 238]),
    (
        1006,
        b"\x04\x03\x02\x11ef\x04\x02\x02\x11cd\x04\x01\x02\x11ab",
    ),
];

/// The same in so many pages, with these pieces over it.
pub(crate) fn file_with(
    alloc: Global,
    pages: usize,
    pieces: &[(usize, &[u8])],
) -> Result<Vec<u8>, AllocError> {
    let mut file = vec![in alloc; 0; pages.saturating_mul(512)]?;
    for (at, bytes) in &SOUND {
        put(&mut file, *at, bytes);
    }
    for (at, bytes) in pieces {
        put(&mut file, *at, bytes);
    }
    Ok(file)
}

/// What is found of a file so. None where it has no whole pages.
fn found_with(alloc: Global, file: &[u8], options: Options) -> Option<Result<Inside, DeepError>> {
    let size = PageSize::new(512)?;
    match SliceSource::new(file, size) {
        None => None,
        Some(mut source) => Some(check_deep(alloc, &mut source, options)),
    }
}

/// What is found of a file without pointer maps.
fn found(alloc: Global, file: &[u8]) -> Option<Result<Inside, DeepError>> {
    found_with(alloc, file, Options::PLAIN)
}

/// The fault inside that is found in such a file, and where.
fn fault_in(
    alloc: Global,
    pages: usize,
    pieces: &[(usize, &[u8])],
) -> Result<Option<(InnerFault, u32, Option<usize>)>, AllocError> {
    let file = file_with(alloc, pages, pieces)?;
    match found(alloc, &file) {
        Some(Err(DeepError::Inner(InnerError { fault, page, cell }))) => Ok(Some((
            fault, page, cell,
        ))),
        _ => Ok(None),
    }
}

/// How many cells of such a file have a text that isn't one in its encoding. None where a fault is found.
fn ill_formed_in(
    alloc: Global,
    pages: usize,
    pieces: &[(usize, &[u8])],
) -> Result<Option<u64>, AllocError> {
    let file = file_with(alloc, pages, pieces)?;
    match found(alloc, &file) {
        Some(Ok(inside)) => Ok(Some(inside.ill_formed)),
        _ => Ok(None),
    }
}

#[test]
fn a_sound_database(rt: HostRuntime) -> Result<(), Fail> {
    let file = file_with(rt.alloc(), 2, &[])?;
    match found(rt.alloc(), &file) {
        Some(Ok(inside)) => {
            assert!(rt; inside.report.pages == 2);
            assert!(rt; inside.report.trees == 2);
            assert!(rt; inside.ill_formed == 0);
        }
        _ => assert!(rt; false),
    }
    Ok(())
}

#[test]
fn numbers_of_the_header(rt: HostRuntime) -> Result<(), Fail> {
    let version = fault_in(rt.alloc(), 2, &[(18, &[3])])?;
    assert!(rt; version == Some((InnerFault::Version, 1, None)));
    let format = fault_in(rt.alloc(), 2, &[(47, &[5])])?;
    assert!(rt; format == Some((InnerFault::SchemaFormat, 1, None)));
    let encoding = fault_in(rt.alloc(), 2, &[(59, &[4])])?;
    assert!(rt; encoding == Some((InnerFault::TextEncoding, 1, None)));
    Ok(())
}

/// The same database with auto-vacuum: page 2 is a pointer map, the freelist has one page, and the table another.
fn mapped_with(alloc: Global, free: u8, table: u8, types: [u8; 2]) -> Result<Vec<u8>, AllocError> {
    let mut file = file_with(
        alloc,
        4,
        &[(31, &[4]), (35, &[free, 0, 0, 0, 1]), (55, &[table])],
    )?;
    let moved = usize::from(table).saturating_sub(1).saturating_mul(512);
    put(&mut file, 494, &[table]);
    put(
        &mut file,
        512,
        &[types[0], 0, 0, 0, 0, types[1], 0, 0, 0, 0, 0, 0, 0, 0],
    );
    put(&mut file, 1006, &[0; 18]);
    for (at, bytes) in &SOUND[5..] {
        put(
            &mut file,
            at.saturating_sub(512).saturating_add(moved),
            bytes,
        );
    }
    Ok(file)
}

#[test]
fn a_root_behind_a_free_page(rt: HostRuntime) -> Result<(), Fail> {
    let options = Options { pointer_maps: true };
    let sound = mapped_with(rt.alloc(), 4, 3, [1, 2])?;
    assert!(rt; matches!(found_with(rt.alloc(), &sound, options), Some(Ok(_))));
    let behind = mapped_with(rt.alloc(), 3, 4, [2, 1])?;
    match found_with(rt.alloc(), &behind, options) {
        Some(Err(DeepError::Inner(error))) => {
            assert!(rt; error.fault == InnerFault::RootBehind);
            assert!(rt; error.page == 4);
        }
        _ => assert!(rt; false),
    }
    Ok(())
}

#[test]
fn an_empty_page_below_a_root(rt: HostRuntime) -> Result<(), Fail> {
    // Page 2 names page 3, whose only row is row 1, and page 4, which has none.
    let pieces: [(usize, &[u8]); 4] = [
        (512, &[5, 0, 0, 0, 1, 1, 251, 0, 0, 0, 0, 4, 1, 251]),
        (
            1006,
            &[0, 0, 0, 0, 0, 0, 0, 0, 0, 0, 0, 0, 0, 0, 0, 0, 3, 1],
        ),
        (1024, &[13, 0, 0, 0, 1, 1, 251, 0, 1, 251]),
        (1536, &[13, 0, 0, 0, 0, 2, 0]),
    ];
    let mut file = file_with(rt.alloc(), 4, &pieces)?;
    put(&mut file, 31, &[4]);
    put(&mut file, 1019, &[0, 0, 0, 3, 1]);
    put(&mut file, 1531, &[3, 1, 2, 1, 7]);
    match found(rt.alloc(), &file) {
        Some(Err(DeepError::Inner(error))) => {
            assert!(rt; error.fault == InnerFault::EmptyPage);
            assert!(rt; error.page == 4);
        }
        _ => assert!(rt; false),
    }
    Ok(())
}

#[test]
fn a_freeblock_before_the_cells(rt: HostRuntime) -> Result<(), Fail> {
    let gap = fault_in(
        rt.alloc(),
        2,
        &[(512, &[13, 1, 234, 0, 3, 1, 234]), (1002, &[0, 0, 0, 4])],
    )?;
    assert!(rt; gap == Some((InnerFault::FreeblockGap, 2, None)));
    Ok(())
}

#[test]
fn a_cell_of_three_bytes(rt: HostRuntime) -> Result<(), Fail> {
    let short = fault_in(
        rt.alloc(),
        2,
        &[
            (512, &[13, 0, 0, 0, 1, 1, 253, 0, 1, 253]),
            (1021, &[1, 1, 1]),
        ],
    )?;
    assert!(rt; short == Some((InnerFault::ShortCell, 2, Some(0))));
    Ok(())
}

#[test]
fn payloads(rt: HostRuntime) -> Result<(), Fail> {
    let no_record = fault_in(rt.alloc(), 2, &[(1008, &[9])])?;
    assert!(rt; no_record == Some((InnerFault::NotRecord, 2, Some(2))));
    Ok(())
}

#[test]
fn texts(rt: HostRuntime) -> Result<(), Fail> {
    let one = ill_formed_in(rt.alloc(), 2, &[(1016, &[0xff])])?;
    assert!(rt; one == Some(1));
    let both = ill_formed_in(rt.alloc(), 2, &[(1016, &[0xff]), (1022, &[0xff])])?;
    assert!(rt; both == Some(2));
    // "table" has five bytes, which are no text of UTF-16; the rows have two.
    let odd = ill_formed_in(rt.alloc(), 2, &[(59, &[2])])?;
    assert!(rt; odd == Some(1));
    Ok(())
}

#[test]
fn faults_have_numbers_and_names(rt: HostRuntime) -> Result<(), Fail> {
    assert!(rt; InnerFault::NotRecord.number() == 42);
    assert_eq!(rt; InnerFault::NotRecord.name(), "NotRecord");
    Ok(())
}
