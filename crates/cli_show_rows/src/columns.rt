//! What is known of the columns of a table.
ghost use Rattle.std.specs.Prelude.{◌≡◌, IfOk, IfErr, Some, map, option_map};
ghost use Rattle.sqdefaults.specs.Literals.{datum_in};
ghost use Rattle.cli_show_rows.specs.Schemas.{AreColumnsIn, AreDefaultsIn, AreStoredIn, IsDefaultIn};
ghost use Rattle.cli_show_rows.specs.declared.stop.Stop.{Stop};

use crate::stop::Stop;
use sqdeep::Encoding;
use sqtables::{Columns, Literal, Object, columns_of};
use sqtext::encoded;
use std::alloc::{AllocError, Global};

/// A value whose text is stored in this encoding.
fn stored_literal(alloc: Global, encoding: Encoding, named: &Literal) -> Result<Literal, AllocError>
    ensures { IfOk result (λ stored. IsDefaultIn encoding (Some (datum_in named.now)) (Some (datum_in stored))) }
{
    match named {
        Literal::Null => Ok(Literal::Null),
        Literal::Int(number) => Ok(Literal::Int(*number)),
        Literal::Real(bytes) => Ok(Literal::Real(*bytes)),
        Literal::Text(text) => Ok(Literal::Text(encoded(alloc, encoding, text)?)),
        Literal::Blob(bytes) => Ok(Literal::Blob(Vec::from_slice(alloc, bytes)?)),
    }
}

/// A default, if one is known.
fn stored_default(
    alloc: Global,
    encoding: Encoding,
    named: &Option<Literal>,
) -> Result<Option<Literal>, AllocError>
    ensures { IfOk result (λ stored.
        IsDefaultIn encoding (option_map datum_in named.now) (option_map datum_in stored)) }
{
    match named {
        None => Ok(None),
        Some(named) => Ok(Some(stored_literal(alloc, encoding, named)?)),
    }
}

/// The same of each.
#[tactic(auto, using(crate::proofs::DefaultsStored::defaults_more))]
fn stored_defaults(
    alloc: Global,
    encoding: Encoding,
    found: &[Option<Literal>],
) -> Result<Vec<Option<Literal>>, AllocError>
    ensures { IfOk result (λ stored. AreDefaultsIn encoding (map (option_map datum_in) found.now)
        (map (option_map datum_in) stored.items)) }
{
    let mut stored = Vec::with_capacity(alloc, found.len())?;
    for named in found {
        stored.push(stored_default(alloc, encoding, named)?)?;
    }
    Ok(stored)
}

/// Columns whose defaults are stored in this encoding.
fn stored_columns(
    alloc: Global,
    encoding: Encoding,
    columns: Columns,
) -> Result<Columns, AllocError>
    ensures { IfOk result (AreStoredIn encoding columns) }
{
    let Columns {
        names,
        alias,
        defaults,
        needed,
        places,
    } = columns;
    Ok(Columns {
        names,
        alias,
        defaults: stored_defaults(alloc, encoding, &defaults)?,
        needed,
        places,
    })
}

/// What is known of the columns of a table in a database of this encoding. Refused by `NoMemory` alone.
pub fn known_columns(alloc: Global, table: &Object, encoding: Encoding) -> Result<Columns, Stop>
    ensures ok { IfOk result (AreColumnsIn encoding table.now.sql.items) }
    ensures err { IfErr result (λ stop. stop ≡ Stop.NoMemory) }
{
    let columns = match columns_of(alloc, &table.sql) {
        Ok(columns) => columns,
        Err(_) => return Err(Stop::NoMemory),
    };
    match stored_columns(alloc, encoding, columns) {
        Ok(columns) => Ok(columns),
        Err(_) => Err(Stop::NoMemory),
    }
}
