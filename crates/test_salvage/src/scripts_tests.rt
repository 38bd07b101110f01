//! Scripts of damaged databases, worked by hand.
use crate::files::{RISING, file_of, source_of};
use cli_show_salvage::print_salvage;
use std::alloc::Global;
use std::process::Abort;
use std::test::Fail;

/// What the script of no rows begins with, and ends with. Page 1 of such a file is that of no database.
const FIRST: &str = "PRAGMA foreign_keys=OFF;
PRAGMA ignore_check_constraints=ON;
BEGIN TRANSACTION;
-- page 1: fault 1 Magic
CREATE TABLE \"lost_and_found\"(rootpgno INTEGER, pgno INTEGER, nfield INTEGER, id INTEGER);
";

const LAST: &str = "COMMIT;
";

/// Whether this is the script of a file of RISING with damages: what stands between the first lines and the last one.
fn is_script(alloc: Global, damages: &[(usize, &[u8])], places: bool, wanted: &str) -> bool {
    let Ok(file) = file_of(alloc, &RISING, damages) else {
        return false;
    };
    let Some(mut source) = source_of(&file) else {
        return false;
    };
    let mut script = Vec::new(alloc);
    match print_salvage(alloc, &mut source, places, &mut script) {
        Ok(whole) => !whole && is_between(&script, wanted),
        Err(_) => false,
    }
}

/// Whether a script is these lines between the first ones and the last one.
fn is_between(script: &[u8], wanted: &str) -> bool {
    match script.strip_prefix(FIRST.as_bytes()) {
        Some(rest) => match rest.strip_suffix(LAST.as_bytes()) {
            Some(lines) => lines == wanted.as_bytes(),
            None => false,
        },
        None => false,
    }
}

/// Page 3, whose eight rows are of no interest, as no page of a tree.
const WITHOUT_3: (usize, &[u8]) = (1024, &[7]);

#[test]
fn a_row_that_no_tree_reaches(rt: HostRuntime) -> Result<(), Fail> {
    // The cell of page 4: its payload is a header of 3 bytes, NULL, and a BLOB of one byte in place of 60.
    let short: (usize, &[u8]) = (1982, &[4, 9, 3, 0, 14, 0]);
    let lines = "ALTER TABLE \"lost_and_found\" ADD COLUMN c0;
ALTER TABLE \"lost_and_found\" ADD COLUMN c1;
INSERT OR ABORT INTO \"lost_and_found\"(rootpgno,pgno,nfield,id,c0,c1) VALUES(NULL,4,2,9,NULL,X'00');
";
    assert!(rt; is_script(rt.alloc(), &[WITHOUT_3, short], false, lines));
    Ok(())
}

#[test]
fn cells_that_are_no_rows(rt: HostRuntime) -> Result<(), Fail> {
    // Page 4 has one cell, which leaves the page, has a header longer than its payload, or a chain that is cut.
    let outside = "-- page 4 cell 0: leaves its page
";
    assert!(rt; is_script(rt.alloc(), &[WITHOUT_3, (1544, &[1, 255])], false, outside));
    let strange = "-- page 4 cell 0: rowid 9, 2 bytes, no row: X'0700'
";
    assert!(rt;
        is_script(
            rt.alloc(),
            &[WITHOUT_3, (1982, &[2, 9, 7, 0])],
            false,
            strange
        )
    );
    Ok(())
}
