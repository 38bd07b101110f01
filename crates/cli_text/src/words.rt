//! What kinds, uses and stops are called.
ghost use Rattle.std.specs.Prelude.{◌≡◌};
ghost use Rattle.cli_text.specs.Words.{kind_word, use_word, of_page, stop_word, record_stop_word};

use sqcheck::Role;
use sqpage::Kind;

/// What a kind of b-tree page is called (fileformat2, 1.6).
pub fn kind_name(kind: Kind) -> &'static str
    ensures { result.now ≡ kind_word kind }
{
    match kind {
        Kind::TableLeaf => "table leaf",
        Kind::TableInterior => "table interior",
        Kind::IndexLeaf => "index leaf",
        Kind::IndexInterior => "index interior",
    }
}

/// What a role is called, and the page that it is of, if there is one.
pub fn use_of(role: Role) -> (&'static str, Option<u32>)
    ensures word { result.0.now ≡ use_word role }
    ensures page { result.1 ≡ of_page role }
{
    match role {
        Role::Btree { kind, root } => (kind_name(kind), Some(root)),
        Role::Overflow { owner } => ("overflow", Some(owner)),
        Role::FreeTrunk => ("free trunk", None),
        Role::FreeLeaf => ("free leaf", None),
        Role::Unused => ("unused", None),
        Role::PointerMap => ("pointer map", None),
        Role::LockByte => ("lock byte", None),
    }
}

/// Why a write-ahead log's frames stop.
pub fn stop_name(why: sqwal::Why) -> &'static str
    ensures { result.now ≡ stop_word why }
{
    match why {
        sqwal::Why::End => "End",
        sqwal::Why::Cut => "Cut",
        sqwal::Why::Salt => "Salt",
        sqwal::Why::PageZero => "PageZero",
        sqwal::Why::Sum => "Sum",
    }
}

/// Why a journal's records stop.
pub fn record_stop_name(why: sqjournal::Why) -> &'static str
    ensures { result.now ≡ record_stop_word why }
{
    match why {
        sqjournal::Why::End => "End",
        sqjournal::Why::Header => "Header",
        sqjournal::Why::Short => "Short",
        sqjournal::Why::PageZero => "PageZero",
        sqjournal::Why::Sum => "Sum",
    }
}
