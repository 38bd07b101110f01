//! The key of an index of a schema (fileformat2, 2.6).
ghost use Rattle.std.specs.Prelude.{◌≡◌, ◌∷◌, IfOk, MatchOption, Some, None, nat_eq};
ghost use Rattle.std.specs.Fmt.{decimal};
ghost use Rattle.std.specs.List.{ends_with};
ghost use Rattle.sqschema.specs.Items.{seen};
ghost use Rattle.sqcontents.specs.Contents.{EndsWith, HasKey, HasNoKey, HasNoNumber};

use sqindex::IndexKey;
use sqkeys::{automatic_key_of, key_of};
use sqschema::Item;
use std::alloc::{AllocError, Global};

/// The largest number that is looked for.
const MOST_NUMBER: u32 = 1000;

/// Whether the name of an index ends with this number behind a `_`.
fn ends_with(alloc: Global, name: &[u8], number: u32) -> Result<bool, AllocError>
    ensures { IfOk result (λ found. found ≡ ends_with nat_eq name.now (95 ∷ decimal number)) }
{
    let end = format!(in alloc; "_{number}")?;
    Ok(name.ends_with(end.as_bytes()))
}

/// The number at the end of the name of an index that a constraint made, from 1.
pub(crate) fn number_of(alloc: Global, name: &[u8]) -> Result<Option<u32>, AllocError>
    ensures { IfOk result (λ found. MatchOption found (HasNoNumber name.now) (EndsWith name.now)) }
{
    'numbers: for number in 1..=MOST_NUMBER {
        if ends_with(alloc, name, number)? {
            return Ok(Some(number));
        }
    }
    Ok(None)
}

/// The key of an index that a constraint of a table with this text made.
fn automatic_key(
    alloc: Global,
    table: &[u8],
    name: &[u8],
    format: u32,
) -> Result<Option<IndexKey>, AllocError>
    ensures { IfOk result (λ found. MatchOption found (HasNoKey format (Some table.now) None name.now)
        (HasKey format (Some table.now) None name.now)) }
{
    match number_of(alloc, name)? {
        Some(number) => automatic_key_of(alloc, table, number, format),
        None => Ok(None),
    }
}

/// The key of an index of a table, from their texts. None where these aren't understood.
pub(crate) fn key_of_item(
    alloc: Global,
    table: &Item,
    index: &Item,
    format: u32,
) -> Result<Option<IndexKey>, AllocError>
    ensures { IfOk result (λ found. MatchOption found
        (HasNoKey format (seen table.now).sql (seen index.now).sql index.now.name.items)
        (HasKey format (seen table.now).sql (seen index.now).sql index.now.name.items)) }
{
    let Some(text) = &table.sql else {
        return Ok(None);
    };
    match &index.sql {
        Some(sql) => key_of(alloc, text, sql, format),
        None => automatic_key(alloc, text, &index.name, format),
    }
}
