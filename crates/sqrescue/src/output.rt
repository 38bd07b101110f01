//! Standard output, which keeps why it couldn't be written.
ghost use Rattle.std.specs.Prelude.{◌≡◌, None};

use crate::hints::step_after_print;
use std::io::{self, ErrorKind, IsTerminal, Write};

/// A writer that keeps of which kind the last error is that it met.
#[derive(Drop)]
pub(crate) struct Output<O: Drop> {
    out: O,
    failure: Option<ErrorKind>,
}

impl<O: Write + Drop> Output<O> {
    /// A writer that met none yet.
    pub(crate) fn new(out: O) -> Output<O>
        ensures { result.failure ≡ None }
    {
        Output { out, failure: None }
    }

    /// Says on standard error why it couldn't be written, unless nobody reads it any more, and what to do then where a
    /// person reads that.
    pub(crate) fn tell<E: Write + IsTerminal>(&self, err: &mut E) {
        match self.failure {
            None | Some(ErrorKind::BrokenPipe) => {}
            Some(kind) => {
                let error = io::Error::from(kind);
                let _ = writeln!(err, "sqrescue: note: standard output: {error}");
                if err.is_terminal() {
                    let _ = writeln!(err, "sqrescue: note: {}", step_after_print(kind));
                }
            }
        }
    }
}

impl<O: Write + Drop> Write for Output<O> {
    ghost contents = { λ output. O.contents output.out };

    fn write(&mut self, buf: &[u8]) -> io::Result<usize> {
        let answer = self.out.write(buf);
        if let Err(error) = &answer {
            self.failure = Some(error.kind());
        }
        answer
    }

    fn flush(&mut self) -> io::Result<()> {
        self.out.flush()
    }
}
