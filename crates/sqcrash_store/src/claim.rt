//! What a mark claims that the files show then (own).
ghost use Rattle.std.specs.Prelude.{◌≡◌, ◌↔◌, ℕ, List, Option, IsTrue, IfOk, IfErr, MatchOption};
ghost use Rattle.std.specs.Io.KnownBytes.{Appends};
ghost use Rattle.sqcrash_store.specs.Claims.{ClaimsCommit, ClaimsFalsely, HasName, IsClaim, IsClaimOf, IsNew};
ghost use Rattle.sqcrash_store.specs.Claims.{IsUnwritten};
ghost use Rattle.sqcrash_store.specs.Printed.{claim_lines};
ghost use Rattle.sqcrash_store.specs.Refused.{ClaimRefused};
ghost use Rattle.sqcrash_store.specs.Surveys.{judging_of};
ghost use Rattle.sqcrash_store.specs.Tallies.{with_claim_of};

use crate::outcome::Refusal;
use crate::printed::write_claim;
use crate::survey::Bench;
use crate::tally::Tally;
use crate::verdict::{Answer, last_named};
use rig_store::{Action, Call};
use std::io::Write;

/// Whether a state is sound, and no state before it has its name.
fn is_new(before: &[Answer], state: &Answer) -> bool
    ensures { IsTrue result ↔ IsNew before.now state.now }
{
    state.is_sound && last_named(before, state.line.as_str()).is_none()
}

/// Whether a state is sound and has this name.
fn has_name(state: &Answer, name: &[u8]) -> bool
    ensures { IsTrue result ↔ HasName name.now state.now }
{
    state.is_sound && state.line.as_bytes() == name
}

/// Whether a mark with this line claims a commit.
fn is_claim(line: &[u8]) -> bool
    ensures { IsTrue result ↔ IsClaim line.now }
{
    if line == b"commit".as_slice() {
        return true;
    }
    match line.strip_prefix(b"commit ".as_slice()) {
        Some(_) => true,
        None => false,
    }
}

/// The line is such a claim, and a state doesn't show it.
fn is_unwritten(line: &[u8], before: &[Answer], state: &Answer) -> bool
    ensures { IsTrue result ↔ IsUnwritten line.now before.now state.now }
{
    if line == b"commit".as_slice() {
        return !is_new(before, state);
    }
    match line.strip_prefix(b"commit ".as_slice()) {
        Some(name) => !has_name(state, name),
        None => false,
    }
}

/// Whether a record is mark number `mark`, and claims a commit.
fn claims_commit(bench: &Bench<'_>, call: &Call, mark: u64) -> bool
    ensures { IsTrue result ↔ ClaimsCommit (judging_of bench.now) call.now mark }
{
    match call.action {
        Action::Mark => bench.plan.is_promised
            && (mark as usize) < bench.states.len()
            && is_claim(call.bytes(bench.trace)),
        _ => false,
    }
}

/// The name of the state that the files showed at such a mark, if that isn't the commit that it claims.
fn shown_instead<'a>(bench: &Bench<'a>, call: &Call, mark: u64) -> Option<&'a str>
    requires { ClaimsCommit (judging_of bench.now) call.now mark }
    ensures { MatchOption result ((shown : List ℕ) → ¬ ClaimsFalsely (judging_of bench.now) call.now mark shown)
        (λ shown. ClaimsFalsely (judging_of bench.now) call.now mark shown.now) }
{
    let states = bench.states;
    let k = mark as usize;
    if !is_unwritten(call.bytes(bench.trace), &states[..k], &states[k]) {
        return None;
    }
    Some(states[k].line.as_str())
}

/// Counts mark number `mark`, which a record is, if it claims a commit, and writes its line if the files don't show
/// that. Refused by TooMany, Unwritten and NoMemory.
pub fn judge_claim<O: Write>(
    bench: &Bench<'_>,
    call: &Call,
    mark: u64,
    before: Tally,
    out: &mut O,
) -> Result<Tally, Refusal>
    ensures judged { IfOk result (λ tally. (found : Option (Option (List ℕ)))
        × IsClaimOf (judging_of bench.now) call.now mark found × (tally ≡ with_claim_of before found)
        × Appends (O.contents out.old) (O.contents out.new) (claim_lines bench.now.plan before mark found)) }
    ensures refused { IfErr result (ClaimRefused before) }
{
    if !claims_commit(bench, call, mark) {
        return Ok(before);
    }
    let Some(shown) = shown_instead(bench, call, mark) else {
        return before.with_claim(false);
    };
    let tally = before.with_claim(true)?;
    write_claim(out, bench.plan, before, mark, shown)?;
    Ok(tally)
}
