//! Names without their quotes.
ghost use Rattle.std.specs.Prelude.{◌≡◌, IfOk};
ghost use Rattle.schema_print.specs.Names.{unquoted, name_of};

use schema_tokens::up_to;
use std::alloc::{AllocError, Global};

/// What stands in quotes, each doubled quote once.
#[tactic(auto, using(crate::proofs::Steps::unquoted_other))]
fn unquoted(alloc: Global, quote: u8, s: &[u8]) -> Result<Vec<u8>, AllocError>
    ensures { IfOk result (λ v. v.items ≡ unquoted quote s.now) }
{
    let mut out = Vec::new(alloc);
    let mut n = 0;
    while n < s.len() {
        if s[n] != quote {
            out.push(s[n])?;
            n += 1;
        } else if n + 1 < s.len() && s[n + 1] == quote {
            out.push(quote)?;
            n += 2;
        } else {
            break;
        }
    }
    Ok(out)
}

/// The name that a token is: what stands in its quotes, or all of it.
pub fn name_of(alloc: Global, token: &[u8]) -> Result<Vec<u8>, AllocError>
    ensures { IfOk result (λ v. v.items ≡ name_of token.now) }
{
    let Some((first, rest)) = token.split_first() else {
        return Ok(Vec::new(alloc));
    };
    if *first == b'"' || *first == b'`' || *first == b'\'' {
        unquoted(alloc, *first, rest)
    } else if *first == b'[' {
        rest[..up_to(rest, b']')].to_vec(alloc)
    } else {
        token.to_vec(alloc)
    }
}
