//! The index that the text of an index creates.
ghost use Rattle.std.specs.Prelude.{◌≡◌, map, Some, IfOk, IfSome};
ghost use Rattle.std.specs.Option.{is_some};
ghost use Rattle.schema_index.specs.Terms.{index_terms};
ghost use Rattle.schema_ast.specs.Indexes.{keyed_under, keyed_in, all_of, index_over, MakesIndex};
ghost use Rattle.schema_ast.specs.declared.indexes.MadeIndex.{MadeIndex};

use crate::rules::{collation_named, own_name};
use schema_columns::name_at;
use schema_index::{Index, IndexTerm, IndexText, index_terms, read_index};
use schema_tokens::{Piece, text_of};
use sqlite_ast::{CreateIndex, Keyed};
use sqlite_items::Items;
use sqlite_value::value::Bytes;
use std::alloc::{AllocError, Global};

/// What the text of an index creates.
#[derive(Drop)]
pub struct MadeIndex {
    /// WHERE is at its end.
    pub partial: bool,
    pub def: CreateIndex,
}

fn keyed_under(
    alloc: Global,
    text: &[u8],
    tokens: &[Piece],
    name: Bytes,
    descends: bool,
    collation: Option<usize>,
) -> Result<Option<Keyed>, AllocError>
    ensures { IfOk result (λ k. k ≡ keyed_under text.now tokens.now name descends collation) }
{
    let Some(at) = collation else {
        return Ok(Some(Keyed {
            name,
            collation: None,
            descending: descends,
        }));
    };
    match collation_named(&name_at(alloc, text, tokens, at)?) {
        Some(known) => Ok(Some(Keyed {
            name,
            collation: Some(known),
            descending: descends,
        })),
        None => Ok(None),
    }
}

/// A term that is a column under a collation that SQLite has by itself.
#[tactic(auto, unfolding(crate::specs::Indexes::keyed_in))]
fn keyed_in(
    alloc: Global,
    text: &[u8],
    tokens: &[Piece],
    term: &IndexTerm,
) -> Result<Option<Keyed>, AllocError>
    ensures { IfOk result (λ k. k ≡ keyed_in text.now tokens.now term.now) }
{
    match term.name {
        Some(at) => {
            let name = own_name(alloc, text, tokens, at)?;
            keyed_under(alloc, text, tokens, name, term.descends, term.collation)
        }
        None => Ok(None),
    }
}

/// All terms, if each is such a column.
#[tactic(auto, using(crate::proofs::AllOf::one_more, crate::proofs::AllOf::none_more))]
fn keyed_terms(
    alloc: Global,
    text: &[u8],
    tokens: &[Piece],
    terms: &[IndexTerm],
) -> Result<Option<Items<Keyed>>, AllocError>
    ensures { IfOk result (λ all. all ≡ all_of (map (keyed_in text.now tokens.now) terms.now)) }
{
    let mut all = Items::new(alloc);
    for term in terms {
        match keyed_in(alloc, text, tokens, term)? {
            Some(keyed) => all.push(keyed)?,
            None => return Ok(None),
        }
    }
    Ok(Some(all))
}

#[tactic(auto, unfolding(crate::specs::Indexes::index_over))]
fn index_over(
    alloc: Global,
    text: &[u8],
    tokens: &[Piece],
    index: &Index,
    columns: Items<Keyed>,
) -> Result<CreateIndex, AllocError>
    ensures { IfOk result (λ i. i ≡ index_over text.now tokens.now index.now columns) }
{
    Ok(CreateIndex {
        is_unique: index.unique,
        if_missing: false,
        name: own_name(alloc, text, tokens, index.head.name)?,
        table: own_name(alloc, text, tokens, index.table)?,
        columns,
    })
}

/// The index that the first statement of a text creates, as SQLite's loader reads it; None if that isn't CREATE INDEX,
/// or if a term isn't a column under a collation that SQLite has by itself.
pub fn made_index(alloc: Global, bytes: &[u8]) -> Result<Option<MadeIndex>, AllocError>
    ensures found { IfOk result (λ r. IfSome r (λ i. MakesIndex bytes.now i)) }
    ensures only { IfOk result (λ r. (i : MadeIndex) → MakesIndex bytes.now i → r ≡ Some i) }
{
    let Some(IndexText { tokens, index }) = read_index(alloc, bytes)? else {
        return Ok(None);
    };
    let text = text_of(bytes);
    let terms = index_terms(alloc, text, &tokens, &index)?;
    let Some(columns) = keyed_terms(alloc, text, &tokens, &terms)? else {
        return Ok(None);
    };
    Ok(Some(MadeIndex {
        partial: index.condition.is_some(),
        def: index_over(alloc, text, &tokens, &index, columns)?,
    }))
}
