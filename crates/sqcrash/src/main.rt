//! What crashes may leave of a recorded run, judged.
#![tactic(auto)]

ghost use Rattle.std.specs.Prelude.{◌≤◌, ℕ, List, IfOk};
ghost use Rattle.sqcrash.specs.Ends.{Ends};

mod commands;
mod explained;
mod finding;
mod fresh;
mod keep;
mod lines;
mod marked;
mod objects;
mod outcome;
mod plan;
mod program;
mod promise;
mod requests;
mod rig;
mod run;
mod sample;
mod shown;
mod stopped;
mod survey;
mod watched;

use std::env::{self, Env};
use std::io::{self, Write};
use std::process::ExitCode;
use std::rt::Files;
use std::time::Clock;

/// Reads the words and carries them out.
fn answer<R: Env + Files + Clock + AllocGlobal, O: Write, E: Write>(
    rt: &R,
    out: &mut O,
    err: &mut E,
) -> io::Result<u8>
    ensures { IfOk result (λ status. (status ≤ 3)
        × ((words : List (List ℕ)) × Ends words (O.contents out.old) (O.contents out.new) status)) }
{
    let alloc = rt.alloc();
    let words: Vec<String> = env::args(rt)?.collect(alloc)?;
    let mut texts = Vec::new(alloc);
    for word in &words {
        texts.push(word.as_str())?;
    }
    Ok(program::run(rt, texts.as_slice(), out, err))
}

fn main(rt: HostRuntime) -> ExitCode {
    let mut err = rt.stderr();
    let status = match io::BufWriter::new(rt.alloc(), io::writer(&rt)) {
        Ok(mut out) => match answer(&rt, &mut out, &mut err) {
            Ok(status) => status,
            Err(error) => program::unread(&mut err, &error),
        },
        Err(error) => program::unread(&mut err, &error),
    };
    ExitCode::from(status)
}
