//! Notes on standard error.
ghost use Rattle.std.specs.Prelude.{◌≡◌};

use crate::quoted::Quoted;
use std::cell::{Cell, RefCell};
use std::fmt::Display;
use std::io::{self, ErrorKind, Write};

/// A writer of notes, which several `Notes` share, and what the system said last that a note told of. A note that can't
/// be written is left out.
#[derive(Drop)]
pub struct NoteWriter<E> {
    err: RefCell<E>,
    cause: Cell<Option<ErrorKind>>,
}

impl<E: Write> NoteWriter<E> {
    pub fn new(err: E) -> NoteWriter<E> {
        NoteWriter {
            err: RefCell::new(err),
            cause: Cell::new(None),
        }
    }

    /// Writes a note.
    fn say<T: Display>(&self, text: &T) {
        if let Ok(mut err) = self.err.try_borrow_mut() {
            let _ = writeln!(err, "sqrescue: note: {text}");
        }
    }
}

/// Where notes go, each a line that begins `sqrescue: note: `.
pub struct Notes<'a, E> {
    to: &'a NoteWriter<E>,
    verbose: bool,
    explains: bool,
}

impl<E> Drop for Notes<'_, E> {
    fn drop(self) {
        let Notes {
            to: _,
            verbose: _,
            explains: _,
        } = self;
    }
}

impl<'a, E: Write> Notes<'a, E> {
    /// Notes of which some are written only where they are asked for; those that say why a command is refused also
    /// where a person reads them.
    pub fn new(to: &'a NoteWriter<E>, verbose: bool, is_read: bool) -> Notes<'a, E>
        ensures { result.verbose ≡ verbose }
    {
        Notes {
            to,
            verbose,
            explains: verbose || is_read,
        }
    }

    /// The same notes for another who writes some.
    pub fn again(&self) -> Notes<'a, E>
        ensures { result.verbose ≡ self.now.verbose }
    {
        Notes {
            to: self.to,
            verbose: self.verbose,
            explains: self.explains,
        }
    }

    /// Writes a note.
    pub fn say<T: Display>(&self, text: &T) {
        self.to.say(text);
    }

    /// Writes a note where it is asked for.
    pub fn tell<T: Display>(&self, text: &T) {
        if self.verbose {
            self.say(text);
        }
    }

    /// Writes a note that says why a command is refused, or what to do then.
    pub fn explain<T: Display>(&self, text: &T) {
        if self.explains {
            self.say(text);
        }
    }

    /// The same, of a path of which the system said this. The path as the note names it.
    pub fn blame<'p>(&self, path: &'p str, error: &io::Error) -> Quoted<'p>
        ensures { result.0.now ≡ path.entry.now }
    {
        self.to.cause.set(Some(error.kind()));
        let path = Quoted(path);
        self.explain(&format_args!("{path}: {error}"));
        path
    }

    /// What the system said last that a note told of.
    pub fn cause(&self) -> Option<ErrorKind> {
        self.to.cause.get()
    }

    /// Whether notes are written that say why a command is refused.
    pub fn explains(&self) -> bool
        ensures { result ≡ self.now.explains }
    {
        self.explains
    }

    /// Whether notes are asked for.
    pub fn are_asked(&self) -> bool
        ensures { result ≡ self.now.verbose }
    {
        self.verbose
    }
}
