//! The clauses of CREATE TABLE, one after another.
ghost use Rattle.std.specs.Prelude.{◌≡◌, ◌≤◌, ◌<◌, ◌+◌, ◌^◌, ℕ, List, length, drop, IfOk, IfSome};
ghost use Rattle.schema_text.specs.Clauses.{clause_of, separator_at, key_at, constraint_at, table_constraint_at};
ghost use Rattle.schema_text.specs.Clauses.{option_at, comma_at, clause_at, after_comma, after_rule, may_end};
ghost use Rattle.schema_text.specs.Clauses.{term_at, key_rest_at, in_term_at, is_in_primary, depth_of};
ghost use Rattle.schema_text.specs.Clauses.{first_statement, makes_table, AreClauses, IsTable, IsTableHeld};
ghost use Rattle.schema_print.specs.declared.heads.Head.{Head};
ghost use Rattle.schema_text.specs.declared.clauses.Clause.{Clause};
ghost use Rattle.schema_text.specs.internal.Sizes.{IsWithin};

use crate::rules::{
    action_length, as_length, check_length, collate_length, column_length, conflict_length,
    default_length, defer_length, foreign_length, generated_length, is_operand, listed_length,
    named_length, primary_length, references_length,
};
use crate::tokens::{before_semicolon, is_close, is_comma, is_name, is_open, is_word, later};
use schema_print::{Head, Object, head_of};
use schema_tokens::Piece;
use std::alloc::{AllocError, Global};

/// What a clause is.
#[derive(Clone, Copy, Debug, PartialEq, Eq)]
pub enum Rule {
    /// A column's name, and its type or none.
    Column,
    /// CONSTRAINT and a name, in a column.
    Named,
    /// NULL, which changes nothing.
    Null,
    NotNull,
    /// PRIMARY KEY of a column.
    PrimaryKey,
    /// UNIQUE of a column.
    Unique,
    /// CHECK of a column.
    Check,
    Default,
    Collate,
    /// REFERENCES of a column.
    References,
    /// MATCH, or ON with DELETE, UPDATE or INSERT, of a reference.
    Action,
    /// DEFERRABLE of a column, with NOT or without.
    Deferrable,
    /// AS and an expression, after GENERATED ALWAYS or without.
    Generated,
    /// CONSTRAINT and a name, among the constraints of the table.
    TableNamed,
    /// PRIMARY KEY and `(`.
    TablePrimaryKey,
    /// UNIQUE and `(`.
    TableUnique,
    /// `(` before the name of a key's column.
    TermOpen,
    /// The name of a key's column.
    Term,
    /// The `)` to a `TermOpen`.
    TermClose,
    /// COLLATE and a name, in a key.
    TermCollate,
    /// ASC in a key.
    TermAscends,
    /// DESC in a key.
    TermDescends,
    /// `,` in a key.
    TermComma,
    /// AUTOINCREMENT at the end of a key.
    Autoincrement,
    /// The `)` of a key, and ON CONFLICT or nothing.
    KeyEnd,
    /// CHECK among the constraints of the table.
    TableCheck,
    ForeignKey,
    /// DEFERRABLE after FOREIGN KEY, with NOT or without.
    TableDeferrable,
    /// `,`
    Comma,
    /// The `)` after the last column or constraint.
    Close,
    WithoutRowid,
    Strict,
}

/// Where in a statement the next clause is.
#[derive(Clone, Copy, Debug, PartialEq, Eq)]
pub enum Place {
    /// After the `(`: the first column is due.
    First,
    /// In a column.
    InColumn,
    /// In a column, after REFERENCES.
    InReference,
    /// After a comma between columns: a column or a constraint of the table is due.
    Next,
    /// After a constraint of the table.
    InConstraints,
    /// After FOREIGN KEY.
    InForeignKey,
    /// After a comma between constraints of the table: one more is due.
    NextConstraint,
    /// In a key before the name of a column: whether it is a PRIMARY KEY, and in how many parentheses the name is.
    TermDue(bool, usize),
    /// In a key after the name of a column, in so many parentheses.
    InTerm(bool, usize),
    /// In a key after ASC or DESC.
    AfterTerm(bool),
    /// In a key after AUTOINCREMENT.
    KeyDone,
    /// After the `)`.
    Closed,
    /// After a comma between options: one more is due.
    NextOption,
    /// After an option.
    InOptions,
}

/// What tokens begin with.
#[derive(Clone, Copy, Debug, PartialEq, Eq)]
pub struct Found {
    pub rule: Rule,
    /// In tokens.
    pub length: usize,
}

/// A clause of a statement.
#[derive(Clone, Copy, Debug, PartialEq, Eq)]
pub struct Clause {
    pub rule: Rule,
    /// Its first token.
    pub from: usize,
    /// The token after its last.
    pub to: usize,
}

/// A CREATE TABLE statement.
#[derive(Debug, Drop)]
pub struct Table {
    pub head: Head,
    /// Each begins at the end of the one before; the first after the `(`.
    pub clauses: Vec<Clause>,
}

/// A clause of this length; None of length 0.
fn clause_of(rule: Rule, size: usize) -> Option<Found>
    ensures value { result ≡ clause_of rule size }
    ensures within { (n : ℕ) → size ≤ n → IsWithin n result }
{
    if size == 0 {
        None
    } else {
        Some(Found { rule, length: size })
    }
}

#[tactic(auto, unfolding(crate::specs::Clauses::separator_at))]
fn separator_at(tokens: &[Piece]) -> Option<Found>
    ensures value { result ≡ separator_at tokens.now }
    ensures within { IsWithin (length tokens.now) result }
{
    if is_comma(tokens, 0) {
        clause_of(Rule::Comma, 1)
    } else if is_close(tokens, 0) {
        clause_of(Rule::Close, 1)
    } else {
        None
    }
}

fn comma_at(tokens: &[Piece]) -> Option<Found>
    ensures value { result ≡ comma_at tokens.now }
    ensures within { IsWithin (length tokens.now) result }
{
    if is_comma(tokens, 0) {
        clause_of(Rule::Comma, 1)
    } else {
        None
    }
}

#[tactic(auto, unfolding(crate::specs::Clauses::key_at))]
fn key_at(text: &[u8], tokens: &[Piece]) -> Option<Found>
    ensures value { result ≡ key_at text.now tokens.now }
    ensures within { IsWithin (length tokens.now) result }
{
    if is_word(text, tokens, 0, b"PRIMARY") {
        clause_of(Rule::PrimaryKey, primary_length(text, tokens))
    } else if is_word(text, tokens, 0, b"UNIQUE") {
        clause_of(Rule::Unique, 1 + conflict_length(text, later(tokens, 1)))
    } else if is_word(text, tokens, 0, b"CHECK") {
        clause_of(Rule::Check, check_length(tokens))
    } else if is_word(text, tokens, 0, b"REFERENCES") {
        clause_of(Rule::References, references_length(tokens))
    } else {
        clause_of(Rule::Deferrable, defer_length(text, tokens))
    }
}

#[tactic(auto, unfolding(crate::specs::Clauses::constraint_at))]
fn constraint_at(text: &[u8], tokens: &[Piece]) -> Option<Found>
    ensures value { result ≡ constraint_at text.now tokens.now }
    ensures within { IsWithin (length tokens.now) result }
{
    if is_word(text, tokens, 0, b"CONSTRAINT") {
        clause_of(Rule::Named, named_length(tokens))
    } else if is_word(text, tokens, 0, b"NULL") {
        clause_of(Rule::Null, 1 + conflict_length(text, later(tokens, 1)))
    } else if is_word(text, tokens, 0, b"NOT") && is_word(text, tokens, 1, b"NULL") {
        clause_of(Rule::NotNull, 2 + conflict_length(text, later(tokens, 2)))
    } else if is_word(text, tokens, 0, b"DEFAULT") {
        clause_of(Rule::Default, default_length(text, tokens))
    } else if is_word(text, tokens, 0, b"COLLATE") {
        clause_of(Rule::Collate, collate_length(tokens))
    } else if is_word(text, tokens, 0, b"AS") {
        clause_of(Rule::Generated, as_length(text, tokens))
    } else if is_word(text, tokens, 0, b"GENERATED") {
        clause_of(Rule::Generated, generated_length(text, tokens))
    } else {
        key_at(text, tokens)
    }
}

#[tactic(auto, unfolding(crate::specs::Clauses::table_constraint_at))]
fn table_constraint_at(text: &[u8], tokens: &[Piece]) -> Option<Found>
    ensures value { result ≡ table_constraint_at text.now tokens.now }
    ensures within { IsWithin (length tokens.now) result }
{
    if is_word(text, tokens, 0, b"CONSTRAINT") {
        clause_of(Rule::TableNamed, named_length(tokens))
    } else if is_word(text, tokens, 0, b"PRIMARY") && is_word(text, tokens, 1, b"KEY") {
        clause_of(
            Rule::TablePrimaryKey,
            if is_open(tokens, 2) { 3 } else { 0 },
        )
    } else if is_word(text, tokens, 0, b"UNIQUE") {
        clause_of(Rule::TableUnique, if is_open(tokens, 1) { 2 } else { 0 })
    } else if is_word(text, tokens, 0, b"CHECK") {
        clause_of(Rule::TableCheck, listed_length(1, text, tokens))
    } else if is_word(text, tokens, 0, b"FOREIGN") {
        clause_of(Rule::ForeignKey, foreign_length(text, tokens))
    } else {
        None
    }
}

#[tactic(auto, unfolding(crate::specs::Clauses::option_at))]
fn option_at(text: &[u8], tokens: &[Piece]) -> Option<Found>
    ensures value { result ≡ option_at text.now tokens.now }
    ensures within { IsWithin (length tokens.now) result }
{
    if is_word(text, tokens, 0, b"WITHOUT") && is_word(text, tokens, 1, b"ROWID") {
        clause_of(Rule::WithoutRowid, 2)
    } else if is_word(text, tokens, 0, b"STRICT") {
        clause_of(Rule::Strict, 1)
    } else {
        None
    }
}

#[tactic(auto, unfolding(crate::specs::Clauses::term_at))]
fn term_at(text: &[u8], tokens: &[Piece]) -> Option<Found>
    ensures value { result ≡ term_at text.now tokens.now }
    ensures within { IsWithin (length tokens.now) result }
{
    if is_open(tokens, 0) {
        clause_of(Rule::TermOpen, 1)
    } else if is_name(tokens, 0) && !is_operand(text, tokens) {
        clause_of(Rule::Term, 1)
    } else {
        None
    }
}

#[tactic(auto, unfolding(crate::specs::Clauses::key_rest_at))]
fn key_rest_at(text: &[u8], primary: bool, tokens: &[Piece]) -> Option<Found>
    ensures value { result ≡ key_rest_at text.now primary tokens.now }
    ensures within { IsWithin (length tokens.now) result }
{
    if is_close(tokens, 0) {
        clause_of(Rule::KeyEnd, 1 + conflict_length(text, later(tokens, 1)))
    } else if is_comma(tokens, 0) {
        clause_of(Rule::TermComma, 1)
    } else if primary && is_word(text, tokens, 0, b"AUTOINCREMENT") {
        clause_of(Rule::Autoincrement, 1)
    } else {
        None
    }
}

#[tactic(auto, unfolding(crate::specs::Clauses::in_term_at))]
fn in_term_at(text: &[u8], primary: bool, depth: usize, tokens: &[Piece]) -> Option<Found>
    ensures value { result ≡ in_term_at text.now primary depth tokens.now }
    ensures within { IsWithin (length tokens.now) result }
{
    if is_word(text, tokens, 0, b"COLLATE") {
        clause_of(Rule::TermCollate, collate_length(tokens))
    } else if depth != 0 {
        if is_close(tokens, 0) {
            clause_of(Rule::TermClose, 1)
        } else {
            None
        }
    } else if is_word(text, tokens, 0, b"ASC") {
        clause_of(Rule::TermAscends, 1)
    } else if is_word(text, tokens, 0, b"DESC") {
        clause_of(Rule::TermDescends, 1)
    } else {
        key_rest_at(text, primary, tokens)
    }
}

#[tactic(auto, unfolding(crate::specs::Clauses::clause_at))]
fn after_key(text: &[u8], tokens: &[Piece]) -> Option<Found>
    ensures value { result ≡ clause_at text.now Place.KeyDone tokens.now }
    ensures within { IsWithin (length tokens.now) result }
{
    if is_close(tokens, 0) {
        clause_of(Rule::KeyEnd, 1 + conflict_length(text, later(tokens, 1)))
    } else {
        None
    }
}

#[tactic(auto, unfolding(crate::specs::Clauses::clause_at))]
fn in_reference(text: &[u8], tokens: &[Piece]) -> Option<Found>
    ensures value { result ≡ clause_at text.now Place.InReference tokens.now }
    ensures within { IsWithin (length tokens.now) result }
{
    if let Some(action) = clause_of(Rule::Action, action_length(text, tokens)) {
        Some(action)
    } else if let Some(separator) = separator_at(tokens) {
        Some(separator)
    } else {
        constraint_at(text, tokens)
    }
}

#[tactic(auto, unfolding(crate::specs::Clauses::clause_at))]
fn in_foreign_key(text: &[u8], tokens: &[Piece]) -> Option<Found>
    ensures value { result ≡ clause_at text.now Place.InForeignKey tokens.now }
    ensures within { IsWithin (length tokens.now) result }
{
    if let Some(action) = clause_of(Rule::Action, action_length(text, tokens)) {
        Some(action)
    } else if let Some(deferrable) = clause_of(Rule::TableDeferrable, defer_length(text, tokens)) {
        Some(deferrable)
    } else if let Some(separator) = separator_at(tokens) {
        Some(separator)
    } else {
        table_constraint_at(text, tokens)
    }
}

/// The clause that begins here, at this place of the statement.
#[tactic(auto, unfolding(crate::specs::Clauses::clause_at))]
fn clause_at(text: &[u8], place: Place, tokens: &[Piece]) -> Option<Found>
    ensures value { result ≡ clause_at text.now place tokens.now }
    ensures within { IsWithin (length tokens.now) result }
{
    match place {
        Place::First => clause_of(Rule::Column, column_length(text, tokens)),
        Place::InColumn => match separator_at(tokens) {
            Some(separator) => Some(separator),
            None => constraint_at(text, tokens),
        },
        Place::InReference => in_reference(text, tokens),
        Place::Next => match table_constraint_at(text, tokens) {
            Some(constraint) => Some(constraint),
            None => clause_of(Rule::Column, column_length(text, tokens)),
        },
        Place::InConstraints => match separator_at(tokens) {
            Some(separator) => Some(separator),
            None => table_constraint_at(text, tokens),
        },
        Place::InForeignKey => in_foreign_key(text, tokens),
        Place::NextConstraint => table_constraint_at(text, tokens),
        Place::TermDue(_, _) => term_at(text, tokens),
        Place::InTerm(primary, depth) => in_term_at(text, primary, depth, tokens),
        Place::AfterTerm(primary) => key_rest_at(text, primary, tokens),
        Place::KeyDone => after_key(text, tokens),
        Place::Closed => match comma_at(tokens) {
            Some(comma) => Some(comma),
            None => option_at(text, tokens),
        },
        Place::NextOption => option_at(text, tokens),
        Place::InOptions => comma_at(tokens),
    }
}

fn after_comma(place: Place) -> Place
    ensures { result ≡ after_comma place }
{
    match place {
        Place::InColumn | Place::InReference => Place::Next,
        Place::InConstraints | Place::InForeignKey => Place::NextConstraint,
        _ => Place::NextOption,
    }
}

fn is_in_primary(place: Place) -> bool
    ensures { result ≡ is_in_primary place }
{
    match place {
        Place::TermDue(primary, _) | Place::InTerm(primary, _) | Place::AfterTerm(primary) => {
            primary
        }
        _ => false,
    }
}

fn depth_of(place: Place) -> usize
    ensures { result ≡ depth_of place }
{
    match place {
        Place::TermDue(_, depth) | Place::InTerm(_, depth) => depth,
        _ => 0,
    }
}

/// Where the statement is after a clause of this rule.
fn after_rule(place: Place, rule: Rule) -> Place
    requires { depth_of place < 2 ^ 63 }
    ensures value { result ≡ after_rule place rule }
    ensures shallow { depth_of result ≤ depth_of place + 1 }
{
    match rule {
        Rule::Comma => after_comma(place),
        Rule::Close => Place::Closed,
        Rule::References => Place::InReference,
        Rule::Action => place,
        Rule::TablePrimaryKey => Place::TermDue(true, 0),
        Rule::TableUnique => Place::TermDue(false, 0),
        Rule::TermOpen => Place::TermDue(is_in_primary(place), depth_of(place) + 1),
        Rule::Term => Place::InTerm(is_in_primary(place), depth_of(place)),
        Rule::TermClose => Place::InTerm(is_in_primary(place), depth_of(place).saturating_sub(1)),
        Rule::TermCollate => place,
        Rule::TermAscends | Rule::TermDescends => Place::AfterTerm(is_in_primary(place)),
        Rule::TermComma => Place::TermDue(is_in_primary(place), 0),
        Rule::Autoincrement => Place::KeyDone,
        Rule::TableNamed | Rule::TableCheck | Rule::TableDeferrable | Rule::KeyEnd => {
            Place::InConstraints
        }
        Rule::ForeignKey => Place::InForeignKey,
        Rule::WithoutRowid | Rule::Strict => Place::InOptions,
        _ => Place::InColumn,
    }
}

fn may_end(place: Place) -> bool
    ensures { result ≡ may_end place }
{
    matches!(place, Place::Closed | Place::InOptions)
}

/// The clauses from a token on, up to where none begins.
#[derive(Drop)]
struct Walk {
    clauses: Vec<Clause>,
    /// The token after the last clause.
    end: usize,
    /// Where the statement is there.
    place: Place,
}

/// The clauses from a token on, up to where none begins.
fn clauses_from(
    alloc: Global,
    text: &[u8],
    tokens: &[Piece],
    from: usize,
) -> Result<Walk, AllocError>
    requires { from ≤ length tokens.now }
    ensures clauses { IfOk result (λ w. AreClauses text.now tokens.now Place.First from w.clauses.items w.end w.place) }
    ensures stops { IfOk result (λ w. clause_at text.now w.place (drop w.end tokens.now) ≡ None) }
    ensures within { IfOk result (λ w. w.end ≤ length tokens.now) }
{
    let mut clauses = Vec::new(alloc);
    let mut at = from;
    let mut place = Place::First;
    while let Some(found) = clause_at(text, place, later(tokens, at)) {
        let to = at + found.length;
        clauses.push(Clause {
            rule: found.rule,
            from: at,
            to,
        })?;
        place = after_rule(place, found.rule);
        at = to;
    }
    Ok(Walk {
        clauses,
        end: at,
        place,
    })
}

/// The tokens before the first `;`.
#[tactic(auto, unfolding(crate::specs::Clauses::first_statement))]
pub fn first_statement(tokens: &[Piece]) -> &[Piece]
    ensures { result.now ≡ first_statement tokens.now }
{
    &tokens[..before_semicolon(tokens)]
}

fn makes_table(object: Object) -> bool
    ensures { result ≡ makes_table object }
{
    matches!(object, Object::Table)
}

/// The clauses of a CREATE TABLE statement whose tokens these are; None if they are no such statement.
pub fn table_of(alloc: Global, text: &[u8], tokens: &[Piece]) -> Result<Option<Table>, AllocError>
    ensures found { IfOk result (λ r. IfSome r (λ t. IsTable text.now tokens.now t.head t.clauses.items)) }
    ensures only { IfOk result (λ r. (h : Head) (cs : List Clause)
        → IsTable text.now tokens.now h cs → IsTableHeld h cs r) }
{
    let Some(head) = head_of(text, tokens) else {
        return Ok(None);
    };
    if !makes_table(head.object) || !is_open(tokens, head.name + 1) {
        return Ok(None);
    }
    let walk = clauses_from(alloc, text, tokens, head.name + 2)?;
    if walk.end != tokens.len() || !may_end(walk.place) {
        return Ok(None);
    }
    Ok(Some(Table {
        head,
        clauses: walk.clauses,
    }))
}
