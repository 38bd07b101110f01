//! What a deep check of files finds, and how it is printed.
use crate::deep_tests::{file_with, put};
use cli_facts::Refusal;
use cli_show::Asked;
use cli_show_deep::{DeepFinding, judged_as, write_found};
use cli_words::{Commit, Style};
use sqcheck::Options as Maps;
use sqdeep::InnerFault;
use sqdeepjudge::{Damage, DeepVerdict, Kind, Lengths, judge_deep, objects_of, things_of};
use sqpast::leave_used;
use sqschema::{ObjectError, SchemaFault};
use sqval::Limits;
use sqview::{JudgeError, Verdict, View};
use std::alloc::{AllocError, Global};
use std::test::Fail;

/// What is asked: the database as its log has it.
const ASKED: Asked = Asked {
    limits: Limits::USUAL,
    at: Commit::Last,
    maps: Maps::PLAIN,
};

/// What is told of a file beside a journal.
fn told_beside(
    alloc: Global,
    deep: bool,
    file: &[u8],
    journal: &[u8],
) -> Result<DeepFinding, Refusal> {
    let none = [].as_slice();
    judged_as(alloc, ASKED, deep, file, none, journal)
}

/// What is told of a file without logs.
fn told(alloc: Global, deep: bool, file: &[u8]) -> Result<DeepFinding, Refusal> {
    let none = [].as_slice();
    told_beside(alloc, deep, file, none)
}

/// What is found of it.
fn found(alloc: Global, deep: bool, file: &[u8]) -> Result<DeepVerdict, Refusal> {
    match told(alloc, deep, file) {
        Ok(found) => Ok(found.verdict),
        Err(refusal) => Err(refusal),
    }
}

/// The line of what is told.
fn printed(alloc: Global, style: Style, told: Result<DeepFinding, Refusal>) -> Option<Vec<u8>> {
    let found = told.ok()?;
    let mut out = Vec::new(alloc);
    match write_found(&mut out, style, &found.verdict, found.missing) {
        Ok(()) => Some(out),
        Err(_) => None,
    }
}

/// The line of a file without logs.
fn line(alloc: Global, style: Style, deep: bool, file: &[u8]) -> Option<Vec<u8>> {
    printed(alloc, style, told(alloc, deep, file))
}

/// Whether a line was printed, and is this one.
fn is_line(line: Option<Vec<u8>>, wanted: &[u8]) -> bool {
    match line {
        Some(line) => line.as_slice() == wanted,
        None => false,
    }
}

/// What is found of a view of a file without logs.
fn viewed(alloc: Global, file: &[u8]) -> Result<DeepVerdict, JudgeError> {
    let none = [].as_slice();
    match View::new(alloc, file, none, none) {
        Ok(mut view) => match leave_used(alloc, &mut view) {
            Ok(counts) => {
                let long = file.len() as u64;
                judge_deep(alloc, &mut view, Lengths { long, counts }, Maps::PLAIN)
            }
            Err(_) => Err(JudgeError::Unread),
        },
        Err(_) => Err(JudgeError::Unread),
    }
}

#[test]
fn lines_of_files(rt: HostRuntime) -> Result<(), Fail> {
    let alloc = rt.alloc();
    let sound = file_with(alloc, 2, &[])?;
    let clean =
        b"clean: 2 pages, 2 trees, 2 b-tree, 0 overflow, 0 free; records, schema and indexes sound\n";
    assert!(rt; is_line(line(alloc, Style::Lines, true, &sound), clean));
    let clean = b"clean: 2 pages, 2 trees, 2 b-tree, 0 overflow, 0 free\n";
    assert!(rt; is_line(line(alloc, Style::Lines, false, &sound), clean));
    let damaged = file_with(alloc, 2, &[(1008, &[9])])?;
    let fault = b"{\"page\":2,\"cell\":2,\"fault\":42,\"name\":\"NotRecord\"}\n";
    assert!(rt; is_line(line(alloc, Style::Json, true, &damaged), fault));
    // The second page lacks its last byte, which the check takes as zero.
    let mut cut = sound;
    let _ = cut.pop();
    let fault = b"{\"page\":2,\"fault\":36,\"name\":\"FileCut\"}\n";
    assert!(rt; is_line(line(alloc, Style::Json, true, &cut), fault));
    let missing =
        b"{\"check\":\"clean\",\"pages\":2,\"trees\":2,\"b-tree\":2,\"overflow\":0,\"free\":0,\"missing\":2}\n";
    assert!(rt; is_line(line(alloc, Style::Json, false, &cut), missing));
    assert!(rt; is_line(line(alloc, Style::Lines, false, &cut), clean));
    Ok(())
}

/// A hot journal without records, of a database of so many pages of 512 bytes.
fn journal_of(alloc: Global, pages: u8) -> Result<Vec<u8>, AllocError> {
    let mut journal = vec![in alloc; 0; 512]?;
    put(
        &mut journal,
        0,
        &[0xd9, 0xd5, 5, 0xf9, 0x20, 0xa1, 0x63, 0xd7],
    );
    put(&mut journal, 16, &[0, 0, 0, pages, 0, 0, 2, 0, 0, 0, 2]);
    Ok(journal)
}

#[test]
fn a_header_that_counts_too_many(rt: HostRuntime) -> Result<(), Fail> {
    let alloc = rt.alloc();
    let file = file_with(alloc, 2, &[])?;
    let journal = journal_of(alloc, 1)?;
    let found = told_beside(alloc, true, &file, &journal);
    let fault = b"page 1: fault 37 PageCount\n";
    assert!(rt; is_line(printed(alloc, Style::Lines, found), fault));
    let found = told_beside(alloc, true, &file, &journal);
    let fault = b"{\"page\":1,\"fault\":37,\"name\":\"PageCount\"}\n";
    assert!(rt; is_line(printed(alloc, Style::Json, found), fault));
    let longer = journal_of(alloc, 2)?;
    match told_beside(alloc, true, &file, &longer) {
        Ok(found) => assert!(rt; matches!(found.verdict, DeepVerdict::Sound(_, _, _))),
        Err(_) => assert!(rt; false),
    }
    // A count that isn't valid is none, and then page 2 is one that the tree names and there isn't.
    let other = file_with(alloc, 2, &[(95, &[5])])?;
    match told_beside(alloc, true, &other, &journal) {
        Ok(found) => assert!(rt; matches!(found.verdict, DeepVerdict::Damaged(Damage::Check(_)))),
        Err(_) => assert!(rt; false),
    }
    Ok(())
}

/// The damage that is found of a file without logs.
fn damage(alloc: Global, deep: bool, file: &[u8]) -> Option<Damage> {
    match found(alloc, deep, file) {
        Ok(DeepVerdict::Damaged(damage)) => Some(damage),
        _ => None,
    }
}

#[test]
fn files_that_are_damaged(rt: HostRuntime) -> Result<(), Fail> {
    let alloc = rt.alloc();
    let file = file_with(alloc, 2, &[(18, &[3])])?;
    match damage(alloc, true, &file) {
        Some(Damage::Inner(error)) => assert!(rt; error.fault == InnerFault::Version),
        _ => assert!(rt; false),
    }
    assert!(rt; matches!(found(alloc, false, &file), Ok(DeepVerdict::Clean(_))));
    let file = file_with(alloc, 2, &[(512, &[9])])?;
    let plain = damage(alloc, false, &file);
    assert!(rt; matches!(plain, Some(Damage::Check(_))));
    assert!(rt; damage(alloc, true, &file) == plain);
    Ok(())
}

#[test]
fn a_schema_that_is_damaged(rt: HostRuntime) -> Result<(), Fail> {
    let alloc = rt.alloc();
    let file = file_with(alloc, 2, &[(493, b"u")])?;
    assert!(rt; damage(alloc, false, &file).is_none());
    let wanted = ObjectError {
        fault: SchemaFault::TableName,
        row: 0,
    };
    assert!(rt; damage(alloc, true, &file) == Some(Damage::Schema(wanted)));
    let text = b"schema row 1: fault 55 TableName\n";
    assert!(rt; is_line(line(alloc, Style::Lines, true, &file), text));
    let text = b"{\"row\":1,\"fault\":55,\"name\":\"TableName\"}\n";
    assert!(rt; is_line(line(alloc, Style::Json, true, &file), text));
    Ok(())
}

#[test]
fn a_text_that_is_not_understood(rt: HostRuntime) -> Result<(), Fail> {
    let alloc = rt.alloc();
    let file = file_with(alloc, 2, &[(510, b"?")])?;
    match found(alloc, true, &file) {
        Ok(verdict) => {
            assert!(rt; matches!(verdict, DeepVerdict::Sound(_, _, _)));
            assert!(rt; verdict.aside(0) == Some(b"t".as_slice()));
            assert!(rt; verdict.aside(1).is_none());
            assert!(rt; verdict.unjudged_table(0) == Some(b"t".as_slice()));
            assert!(rt; verdict.unjudged_table(1).is_none());
        }
        Err(_) => assert!(rt; false),
    }
    let text = b"clean: 2 pages, 2 trees, 2 b-tree, 0 overflow, 0 free; not fully judged: \
                 0 of 0 indexes, 1 of 1 tables, 0 of 0 checks\n";
    assert!(rt; is_line(line(alloc, Style::Lines, true, &file), text));
    let text =
        b"{\"check\":\"clean\",\"records\":\"sound\",\"schema\":\"sound\",\"indexes\":\"in part\",\
                 \"pages\":2,\"trees\":2,\"b-tree\":2,\"overflow\":0,\"free\":0,\"ill_formed\":0,\"not_judged\":[\
                 {\"kind\":\"table\",\"name\":\"t\",\"table\":\"t\",\"why\":\"rows\"}],\"not_judged_count\":1}\n";
    assert!(rt; is_line(line(alloc, Style::Json, true, &file), text));
    Ok(())
}

#[test]
fn a_view(rt: HostRuntime) -> Result<(), Fail> {
    let alloc = rt.alloc();
    let file = file_with(alloc, 2, &[])?;
    match viewed(alloc, &file) {
        Ok(DeepVerdict::Sound(report, schema, unjudged)) => {
            assert!(rt; schema.asides.is_empty());
            assert!(rt; unjudged.indexes.is_empty() && unjudged.tables.is_empty());
            assert!(rt; unjudged.all.is_empty() && things_of(&unjudged.all, Kind::View) == 0);
            assert!(rt;
                objects_of(&schema, Kind::Table) == 1 && objects_of(&schema, Kind::Index) == 0
            );
            let plain = DeepVerdict::of(Verdict::Clean(report));
            assert!(rt; matches!(plain, DeepVerdict::Clean(same) if same == report));
            assert!(rt; plain.aside(0).is_none());
            assert!(rt; plain.unjudged(0).is_none());
            assert!(rt; plain.unjudged_table(0).is_none());
        }
        _ => assert!(rt; false),
    }
    Ok(())
}
