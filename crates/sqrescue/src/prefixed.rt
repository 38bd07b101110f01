//! A writer of lines that say which file they are of.
use cli_facts::Quoted;
use cli_row_text::write_string;
use std::io::{self, IsTerminal, Write};

/// A writer each of whose lines begins with the name of a file, as `ls` prints it, and a colon; where the line is a
/// JSON object, the name is its first member `file` instead.
pub(crate) struct Prefixed<'a, O> {
    out: &'a mut O,
    file: &'a str,
    is_json: bool,
    /// Whether the next byte begins a line.
    begins: bool,
}

impl<O> Drop for Prefixed<'_, O> {
    fn drop(self) {
        let Prefixed {
            out: _,
            file: _,
            is_json: _,
            begins: _,
        } = self;
    }
}

impl<'a, O: Write> Prefixed<'a, O> {
    pub(crate) fn new(out: &'a mut O, file: &'a str, is_json: bool) -> Prefixed<'a, O> {
        Prefixed {
            out,
            file,
            is_json,
            begins: true,
        }
    }

    /// Begins a line whose first byte is this one, and says whether that is written.
    fn begin(&mut self, first: u8) -> io::Result<bool> {
        if self.is_json && first == b'{' {
            self.out.write_all(b"{\"file\":")?;
            write_string(self.out, self.file.as_bytes())?;
            self.out.write_all(b",")?;
            return Ok(true);
        }
        write!(self.out, "{}: ", Quoted(self.file))?;
        Ok(false)
    }
}

impl<O: Write> Write for Prefixed<'_, O> {
    fn write(&mut self, buf: &[u8]) -> io::Result<usize> {
        let Some(first) = buf.first() else {
            return Ok(0);
        };
        if self.begins {
            self.begins = false;
            if self.begin(*first)? {
                return Ok(1);
            }
        }
        let end = match buf.iter().position(|byte| *byte == b'\n') {
            Some(at) => at + 1,
            None => buf.len(),
        };
        let count = self.out.write(&buf[..end])?;
        self.begins = count == end && buf[end - 1] == b'\n';
        Ok(count)
    }

    fn flush(&mut self) -> io::Result<()> {
        self.out.flush()
    }
}

impl<O: IsTerminal> IsTerminal for Prefixed<'_, O> {
    fn is_terminal(&self) -> bool {
        self.out.is_terminal()
    }
}
