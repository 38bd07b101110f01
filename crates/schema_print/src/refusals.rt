//! Which texts of a schema may be in a script, and how.
ghost use Rattle.std.specs.Prelude.{◌≡◌, ◌^◌, ◌+◌, ◌<◌, ◌≤◌, ◌&&◌, false, true, filter, nat_le, codes, bytes_eq};
ghost use Rattle.std.specs.Prelude.{IsTrue, IfSome, IfOk, length, not, ◌||◌, ◌==◌, slice_index, slice_get, take};
ghost use Rattle.std.specs.List.{list_any, list_all, prefix_len};
ghost use Rattle.std.specs.Option.{option_map_or};
ghost use Rattle.schema_tokens.specs.Keywords.{is_same_word};
ghost use Rattle.schema_print.specs.Statements.{bytes_of, head_of, table_at};
ghost use Rattle.schema_print.specs.Printable.{is_semicolon_kind, is_variable_kind, statement, end_at, has_body};
ghost use Rattle.schema_print.specs.Printable.{is_one_statement, deeper, separates, commas, closing_at, is_option};
ghost use Rattle.schema_print.specs.Printable.{is_complete, name_at, has_module, has_return, is_unsafe_call};
ghost use Rattle.schema_print.specs.Printable.{ends_safe_mode, row_word, is_of_row, runs_at_insert, is_virtual};
ghost use Rattle.schema_print.specs.Printable.{ends_in_comment, last_byte, refused_bytes, refused_object};
ghost use Rattle.schema_print.specs.Printable.{refused_statement, refused_head, refused, is_line_blank};
ghost use Rattle.schema_print.specs.Printable.{is_terminator, has_terminator, is_before_terminator, is_odd_space};
ghost use Rattle.schema_print.specs.Printable.{is_plain};

use crate::heads::{
    Head, Object, before_word, bytes_of, head_of, is_open, is_word, later, table_at,
};
use crate::names::name_of;
use schema_tokens::{
    Kind, Piece, after, byte_at, is_blank, is_listed, is_same_word, is_token, is_word_byte,
};
use std::alloc::{AllocError, Global};

/// The modules whose virtual tables are printed.
pub const MODULES: [&[u8]; 6] = [
    b"fts3",
    b"fts4",
    b"fts5",
    b"rtree",
    b"rtree_i32",
    b"geopoly",
];

/// The functions at which `sqlite3 -safe` ends.
pub const UNSAFE: [&[u8]; 7] = [
    b"edit",
    b"fts3_tokenizer",
    b"load_extension",
    b"readfile",
    b"writefile",
    b"zipfile",
    b"zipfile_cds",
];

/// The row of a text in sqlite_schema: its type, its name, and its tbl_name if that is known.
#[derive(Clone, Copy)]
pub struct Row<'a> {
    pub kind: &'a [u8],
    pub name: &'a [u8],
    pub table: Option<&'a [u8]>,
}

/// Why a text isn't printed.
#[derive(Clone, Copy, Debug, PartialEq, Eq)]
pub enum Why {
    /// It doesn't begin with a token, or has a NUL, or a byte that begins no token.
    NotWhole,
    /// It is no CREATE statement, or one that makes a table AS SELECT.
    NotCreate,
    /// The row has another kind, name or table.
    OtherInRow,
    /// It has TEMP, IF NOT EXISTS, or a schema before the name.
    NotPlain,
    /// Its name begins with `sqlite_`.
    ReservedName,
    /// It has a `;` before its end that isn't in the body of a trigger.
    SemicolonInside,
    /// What follows the name isn't what follows the name of a table, a virtual table or an index.
    NotComplete,
    HasVariable,
    /// A virtual table of another module, or with more than 900 arguments.
    UnknownModule,
    ReturnInQuotes,
    /// Its last bytes are `/*`.
    EndsInComment,
    /// It calls a function that ends `sqlite3 -safe`.
    EndsSafeMode,
    /// The shell would read a line of it as `;`, or one of its blanks as no blank, and plain blanks don't mend that.
    NotSpaced,
}

/// How a text is printed.
#[derive(Debug, Drop)]
pub enum Printed {
    /// Its bytes up to the end of its last token.
    AsItIs(usize),
    /// These bytes, which have the same tokens.
    Spaced(Vec<u8>),
    /// A row of sqlite_schema, since it makes a virtual table.
    RowOfSchema,
    /// A comment.
    Comment(Why),
}

fn is_semicolon(piece: &Piece) -> bool
    ensures { result ≡ is_semicolon_kind piece.now.kind }
{
    matches!(piece.kind, Kind::Semicolon)
}

fn is_variable(piece: &Piece) -> bool
    ensures { result ≡ is_variable_kind piece.now.kind }
{
    matches!(piece.kind, Kind::Variable)
}

/// The first tokens, as many as this.
fn earlier(tokens: &[Piece], count: usize) -> &[Piece]
    ensures { result.now ≡ take count tokens.now }
{
    &tokens[..count.min(tokens.len())]
}

fn is_semicolon_at(tokens: &[Piece], at: usize) -> bool
    ensures { result ≡ option_map_or (λ p. is_semicolon_kind p.kind) (slice_get tokens.now at) false }
{
    match tokens.get(at) {
        Some(token) => is_semicolon(token),
        None => false,
    }
}

/// The tokens without a `;` that is the last.
#[tactic(auto, unfolding(crate::specs::Printable::statement))]
pub fn statement(tokens: &[Piece]) -> &[Piece]
    ensures { result.now ≡ statement tokens.now }
{
    let last = tokens.len().saturating_sub(1);
    if is_semicolon_at(tokens, last) {
        earlier(tokens, last)
    } else {
        tokens
    }
}

fn end_at(text: &[u8], tokens: &[Piece]) -> usize
    ensures value { result ≡ end_at text.now tokens.now }
    ensures within { result ≤ length tokens.now }
{
    for (i, token) in tokens.iter().enumerate() {
        if is_semicolon(token) && is_word(text, later(tokens, i + 1), 0, b"END") {
            return i + 1;
        }
    }
    tokens.len()
}

fn before_semicolon(tokens: &[Piece]) -> usize
    ensures { result ≡ prefix_len (λ p. not (is_semicolon_kind p.kind)) tokens.now }
{
    tokens.iter().take_while(|p| !is_semicolon(p)).count()
}

#[tactic(auto, unfolding(crate::specs::Printable::has_body))]
fn has_body(text: &[u8], tokens: &[Piece]) -> bool
    ensures { result ≡ has_body text.now tokens.now }
{
    let end = end_at(text, tokens);
    before_word(text, tokens, b"BEGIN") < before_semicolon(tokens)
        && end < tokens.len()
        && end + 1 == tokens.len()
}

fn has_semicolon(tokens: &[Piece]) -> bool
    ensures { result ≡ list_any (λ p. is_semicolon_kind p.kind) tokens.now }
{
    tokens.iter().any(is_semicolon)
}

fn has_variable(tokens: &[Piece]) -> bool
    ensures { result ≡ list_any (λ p. is_variable_kind p.kind) tokens.now }
{
    tokens.iter().any(is_variable)
}

fn is_one_statement(text: &[u8], object: Object, tokens: &[Piece]) -> bool
    ensures { result ≡ is_one_statement text.now object tokens.now }
{
    match object {
        Object::Trigger => has_body(text, tokens),
        _ => !has_semicolon(tokens),
    }
}

fn commas(tokens: &[Piece]) -> usize
    ensures { result ≡ commas 0 tokens.now }
{
    let mut depth = 0usize;
    let mut count = 0usize;
    for token in tokens {
        match token.kind {
            Kind::Open => depth += 1,
            Kind::Close => depth = depth.saturating_sub(1),
            Kind::Comma => {
                if depth == 1 {
                    count += 1;
                }
            }
            _ => {}
        }
    }
    count
}

fn depth_after(kind: Kind, depth: usize) -> usize
    requires { depth < 2 ^ 63 }
    ensures { result ≡ deeper kind depth }
{
    match kind {
        Kind::Open => depth + 1,
        Kind::Close => depth.saturating_sub(1),
        _ => depth,
    }
}

/// How many tokens there are up to the `)` that closes the `(` at the front, and with it; if none does, more than
/// there are.
fn closing_at(tokens: &[Piece]) -> usize
    ensures value { result ≡ closing_at 0 tokens.now }
    ensures within { result ≤ length tokens.now + 1 }
{
    let mut depth = 0usize;
    for (i, token) in tokens.iter().enumerate() {
        depth = depth_after(token.kind, depth);
        if depth == 0 {
            return i + 1;
        }
    }
    tokens.len() + 1
}

#[tactic(auto, unfolding(crate::specs::Printable::is_option))]
fn is_option(text: &[u8], piece: &Piece) -> bool
    ensures { result ≡ is_option text.now piece.now }
{
    let word = bytes_of(text, piece);
    is_same_word(b",", word)
        || is_same_word(b"WITHOUT", word)
        || is_same_word(b"ROWID", word)
        || is_same_word(b"STRICT", word)
}

fn are_options(text: &[u8], tokens: &[Piece]) -> bool
    ensures { result ≡ list_all (λ p. is_option text.now p) tokens.now }
{
    tokens.iter().all(|p| is_option(text, p))
}

/// Whether what follows the name of a table, a virtual table or an index has the form of it.
#[tactic(auto, unfolding(crate::specs::Printable::is_complete))]
fn is_complete(text: &[u8], tokens: &[Piece], object: Object, name: usize) -> bool
    requires { name < 10 }
    ensures { result ≡ is_complete text.now tokens.now object name }
{
    match object {
        Object::Table => {
            let end = name + 1 + closing_at(later(tokens, name + 1));
            end <= tokens.len() && are_options(text, later(tokens, end))
        }
        Object::Virtual => {
            let end = name + 3 + closing_at(later(tokens, name + 3));
            tokens.len() == name + 3 || (is_open(tokens, name + 3) && end == tokens.len())
        }
        Object::Index => {
            let end = name + 3 + closing_at(later(tokens, name + 3));
            end == tokens.len() || is_word(text, tokens, end, b"WHERE")
        }
        Object::View | Object::Trigger => true,
    }
}

#[tactic(auto, unfolding(crate::specs::Printable::name_at))]
fn name_at(alloc: Global, text: &[u8], tokens: &[Piece], at: usize) -> Result<Vec<u8>, AllocError>
    ensures { IfOk result (λ v. v.items ≡ name_at text.now tokens.now at) }
{
    match tokens.get(at) {
        Some(token) => name_of(alloc, bytes_of(text, token)),
        None => Ok(Vec::new(alloc)),
    }
}

/// Whether a virtual table has a module that scripts may name, and at most 900 arguments.
#[tactic(auto, unfolding(crate::specs::Printable::has_module))]
fn has_module(alloc: Global, text: &[u8], tokens: &[Piece], name: usize) -> Result<bool, AllocError>
    requires { name < 10 }
    ensures { IfOk result (λ r. r ≡ has_module text.now tokens.now name) }
{
    let module = name_at(alloc, text, tokens, name + 2)?;
    Ok(is_listed(&MODULES, module.as_slice()) && commas(tokens) <= 899)
}

fn has_return_in(bytes: &[u8]) -> bool
    ensures { result ≡ list_any (λ b. b == 13) bytes.now }
{
    bytes.iter().any(|b| *b == b'\r')
}

#[tactic(auto, unfolding(crate::specs::Printable::has_return))]
fn has_return(text: &[u8], tokens: &[Piece]) -> bool
    ensures { result ≡ has_return text.now tokens.now }
{
    tokens.iter().any(|p| has_return_in(bytes_of(text, p)))
}

/// Whether a token and those after it call a function that ends `sqlite3 -safe`.
fn is_unsafe_call(alloc: Global, token: &[u8], rest: &[Piece]) -> Result<bool, AllocError>
    ensures { IfOk result (λ r. r ≡ is_unsafe_call token.now rest.now) }
{
    if !is_open(rest, 0) {
        return Ok(false);
    }
    let name = name_of(alloc, token)?;
    Ok(is_listed(&UNSAFE, name.as_slice()))
}

fn ends_safe_mode(alloc: Global, text: &[u8], tokens: &[Piece]) -> Result<bool, AllocError>
    ensures { IfOk result (λ r. r ≡ ends_safe_mode text.now tokens.now) }
{
    for (i, token) in tokens.iter().enumerate() {
        if is_unsafe_call(alloc, bytes_of(text, token), later(tokens, i + 1))? {
            return Ok(true);
        }
    }
    Ok(false)
}

#[tactic(auto, unfolding(crate::specs::Printable::is_line_blank))]
fn is_line_blank(b: u8) -> bool
    ensures { result ≡ is_line_blank b }
{
    (is_blank(b) && b != b'\n') || b >= 128
}

fn line_blanks(s: &[u8]) -> usize
    ensures value { result ≡ prefix_len is_line_blank s.now }
    ensures within { result ≤ length s.now }
{
    s.iter().take_while(|b| is_line_blank(**b)).count()
}

/// Whether the shell reads what comes next as `;`, if it is alone on its line.
#[tactic(auto, unfolding(crate::specs::Printable::is_terminator))]
pub fn is_terminator(s: &[u8]) -> bool
    ensures { result ≡ is_terminator s.now }
{
    let rest = after(s, line_blanks(s));
    let (first, second) = (byte_at(rest, 0), byte_at(rest, 1));
    let slash = first == b'/' && second != b'*';
    let go = (first == b'g' || first == b'G') && (second == b'o' || second == b'O');
    slash || (go && !is_word_byte(byte_at(rest, 2)))
}

fn has_terminator(text: &[u8]) -> bool
    ensures { result ≡ has_terminator text.now }
{
    for (i, b) in text.iter().enumerate() {
        if *b == b'\n' && is_terminator(after(text, i + 1)) {
            return true;
        }
    }
    false
}

#[tactic(auto, unfolding(crate::specs::Printable::last_byte))]
pub fn last_byte(tokens: &[Piece]) -> usize
    ensures { result ≡ last_byte tokens.now }
{
    match tokens.get(tokens.len().saturating_sub(1)) {
        Some(token) => token.to,
        None => 0,
    }
}

/// The type that a row has for an object of this kind.
fn row_word(object: Object) -> &'static [u8]
    ensures { result.now ≡ row_word object }
{
    match object {
        Object::Table | Object::Virtual => b"table",
        Object::Index => b"index",
        Object::View => b"view",
        Object::Trigger => b"trigger",
    }
}

/// Whether this is the name of the row's table, if that is known.
fn is_of_table(row: Row<'_>, name: &[u8]) -> bool
    ensures { result ≡ option_map_or (λ t. is_same_word t.now name.now) row.entry.table true }
{
    match row.table {
        Some(table) => is_same_word(table, name),
        None => true,
    }
}

#[tactic(auto, unfolding(crate::specs::Printable::is_of_row))]
fn is_of_row(
    alloc: Global,
    text: &[u8],
    tokens: &[Piece],
    row: Row<'_>,
    head: Head,
    table: usize,
) -> Result<bool, AllocError>
    ensures { IfOk result (λ r. r ≡ is_of_row text.now tokens.now row.entry head table) }
{
    let name = name_at(alloc, text, tokens, head.name)?;
    let belongs = name_at(alloc, text, tokens, table)?;
    Ok(
        is_same_word(row_word(head.object), row.kind)
            && is_same_word(row.name, name.as_slice())
            && is_of_table(row, belongs.as_slice()),
    )
}

fn runs_at_insert(object: Object) -> bool
    ensures { result ≡ runs_at_insert object }
{
    matches!(object, Object::Table | Object::Index)
}

pub fn is_virtual(object: Object) -> bool
    ensures { result ≡ is_virtual object }
{
    matches!(object, Object::Virtual)
}

fn ends_in_comment(text: &[u8], last: usize) -> bool
    ensures { result ≡ ends_in_comment text.now last }
{
    byte_at(text, last.saturating_sub(2)) == b'/' && byte_at(text, last.saturating_sub(1)) == b'*'
}

#[tactic(auto, unfolding(crate::specs::Printable::refused_bytes))]
fn refused_bytes(
    alloc: Global,
    text: &[u8],
    tokens: &[Piece],
    object: Object,
) -> Result<Option<Why>, AllocError>
    ensures { IfOk result (λ r. r ≡ refused_bytes text.now tokens.now object) }
{
    let unsafe_call = ends_safe_mode(alloc, text, tokens)?;
    Ok(if has_return(text, tokens) {
        Some(Why::ReturnInQuotes)
    } else if ends_in_comment(text, last_byte(tokens)) {
        Some(Why::EndsInComment)
    } else if runs_at_insert(object) && unsafe_call {
        Some(Why::EndsSafeMode)
    } else {
        None
    })
}

#[tactic(auto, unfolding(crate::specs::Printable::refused_object))]
fn refused_object(
    alloc: Global,
    text: &[u8],
    tokens: &[Piece],
    head: Head,
) -> Result<Option<Why>, AllocError>
    requires { head.name < 10 }
    ensures { IfOk result (λ r. r ≡ refused_object text.now tokens.now head) }
{
    if is_virtual(head.object) {
        let known = has_module(alloc, text, tokens, head.name)?;
        Ok(if known {
            None
        } else {
            Some(Why::UnknownModule)
        })
    } else {
        refused_bytes(alloc, text, tokens, head.object)
    }
}

#[tactic(auto, unfolding(crate::specs::Printable::refused_statement))]
fn refused_statement(
    alloc: Global,
    text: &[u8],
    tokens: &[Piece],
    row: Row<'_>,
    head: Head,
    table: usize,
) -> Result<Option<Why>, AllocError>
    requires { head.name < 10 }
    ensures { IfOk result (λ r. r ≡ refused_statement text.now tokens.now row.entry head table) }
{
    let same = is_of_row(alloc, text, tokens, row, head, table)?;
    let name = name_at(alloc, text, tokens, head.name)?;
    let object = refused_object(alloc, text, tokens, head)?;
    Ok(if !same {
        Some(Why::OtherInRow)
    } else if head.temporary || head.guarded || head.qualified {
        Some(Why::NotPlain)
    } else if is_reserved(name.as_slice()) {
        Some(Why::ReservedName)
    } else if !is_one_statement(text, head.object, tokens) {
        Some(Why::SemicolonInside)
    } else if !is_complete(text, tokens, head.object, head.name) {
        Some(Why::NotComplete)
    } else if has_variable(tokens) {
        Some(Why::HasVariable)
    } else {
        object
    })
}

fn is_reserved(name: &[u8]) -> bool
    ensures { result ≡ is_same_word (codes "sqlite_") (take 7 name.now) }
{
    is_same_word(b"sqlite_", &name[..name.len().min(7)])
}

fn refused_head(
    alloc: Global,
    text: &[u8],
    tokens: &[Piece],
    row: Row<'_>,
) -> Result<Option<Why>, AllocError>
    ensures { IfOk result (λ r. r ≡ refused_head text.now tokens.now row.entry (head_of text.now tokens.now)) }
{
    match head_of(text, tokens) {
        None => Ok(Some(Why::NotCreate)),
        Some(head) => match table_at(text, tokens, head.object, head.name) {
            None => Ok(Some(Why::NotCreate)),
            Some(table) => refused_statement(alloc, text, tokens, row, head, table),
        },
    }
}

fn begins_at_once(tokens: &[Piece]) -> bool
    ensures { result ≡ option_map_or (λ p. p.from == 0) (slice_get tokens.now 0) false }
{
    match tokens.get(0) {
        Some(token) => token.from == 0,
        None => false,
    }
}

#[tactic(auto, unfolding(crate::specs::Printable::refused))]
pub fn refused(
    alloc: Global,
    text: &[u8],
    tokens: &[Piece],
    end: usize,
    row: Row<'_>,
) -> Result<Option<Why>, AllocError>
    ensures { IfOk result (λ r. r ≡ refused text.now tokens.now end row.entry) }
{
    if begins_at_once(tokens) && end == text.len() {
        refused_head(alloc, text, statement(tokens), row)
    } else {
        Ok(Some(Why::NotWhole))
    }
}

fn has_odd_blank(bytes: &[u8]) -> bool
    ensures { result ≡ list_any (λ b. b == 11 || b == 13) bytes.now }
{
    bytes.iter().any(|b| *b == 11 || *b == b'\r')
}

fn has_line_feed(bytes: &[u8]) -> bool
    ensures { result ≡ list_any (λ b. b == 10) bytes.now }
{
    bytes.iter().any(|b| *b == b'\n')
}

#[tactic(auto, unfolding(crate::specs::Printable::is_before_terminator))]
fn is_before_terminator(text: &[u8], piece: &Piece) -> bool
    ensures { result ≡ is_before_terminator text.now piece.now }
{
    let bytes = bytes_of(text, piece);
    has_terminator(bytes)
        || (matches!(piece.kind, Kind::Blanks)
            && has_line_feed(bytes)
            && is_terminator(after(text, piece.to)))
}

#[tactic(auto, unfolding(crate::specs::Printable::is_odd_space))]
fn is_odd_space(text: &[u8], piece: &Piece) -> bool
    ensures { result ≡ is_odd_space text.now piece.now }
{
    !is_token(piece)
        && (matches!(piece.kind, Kind::ByteOrderMark)
            || has_odd_blank(bytes_of(text, piece))
            || is_before_terminator(text, piece))
}

fn has_odd_space(text: &[u8], pieces: &[Piece], last: usize) -> bool
    ensures { result ≡ list_any (λ p. nat_le p.to last && is_odd_space text.now p) pieces.now }
{
    pieces.iter().any(|p| p.to <= last && is_odd_space(text, p))
}

/// Whether no space of a statement, up to its last byte, means something else to the shell.
#[tactic(auto, unfolding(crate::specs::Printable::is_plain))]
pub fn is_plain(text: &[u8], pieces: &[Piece], last: usize) -> bool
    ensures { result ≡ is_plain text.now pieces.now last }
{
    !has_odd_space(&text[..last.min(text.len())], pieces, last)
}
