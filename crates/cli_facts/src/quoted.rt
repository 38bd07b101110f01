//! Names of files in notes.
ghost use Rattle.std.specs.Prelude.{◌≡◌};
ghost use Rattle.std.specs.List.{flat_map, list_any};
ghost use Rattle.std.specs.Char.{is_control};
ghost use Rattle.std.specs.Fmt.{WritesOnOk};
ghost use Rattle.std.specs.Str.{chars};
ghost use Rattle.cli_facts.specs.Quoted.{letter_text};

use std::fmt;

/// A name as `ls` prints it on a terminal: where it has control characters, so that a shell takes what is printed for
/// the name, and no terminal is told anything.
#[derive(Clone, Copy)]
pub struct Quoted<'a>(pub &'a str);

/// A control character as a shell takes it, between the quotes of what stands before and behind it.
#[derive(Clone, Copy)]
struct Control(char);

impl fmt::Display for Control {
    ghost use Rattle.std.specs.Prelude.{Some};
    ghost use Rattle.cli_facts.specs.Quoted.{control_text};

    ghost output = { λ x. Some (control_text x.0) };

    fn fmt<W: fmt::Write>(&self, f: &mut fmt::Formatter<W>) -> fmt::Result {
        let code = self.0 as u32;
        match self.0 {
            '\n' => f.write_str("'$'\\n''"),
            '\r' => f.write_str("'$'\\r''"),
            '\t' => f.write_str("'$'\\t''"),
            '\u{80}'..='\u{9f}' => write!(f, "'$'\\302\\{code:03o}''"),
            _ => write!(f, "'$'\\{code:03o}''"),
        }
    }
}

/// A character of a name between quotes.
#[derive(Clone, Copy)]
struct Letter(char);

impl fmt::Display for Letter {
    ghost use Rattle.std.specs.Prelude.{Some};
    ghost use Rattle.cli_facts.specs.Quoted.{letter_text};

    ghost output = { λ x. Some (letter_text x.0) };

    fn fmt<W: fmt::Write>(&self, f: &mut fmt::Formatter<W>) -> fmt::Result {
        if self.0.is_control() {
            write!(f, "{}", Control(self.0))
        } else if self.0 == '\'' {
            f.write_str("'\\''")
        } else {
            f.write_char(self.0)
        }
    }
}

/// Whether a name has a control character.
fn has_control(name: &str) -> bool
    ensures { result ≡ list_any is_control (chars name.now) }
{
    name.chars().any(|letter| letter.is_control())
}

/// The characters of a name between quotes.
fn write_letters<W: fmt::Write>(f: &mut fmt::Formatter<W>, name: &str) -> fmt::Result
    ensures { WritesOnOk W.write_str_gives f.old result (flat_map letter_text (chars name.now)) f.new }
{
    for letter in name.chars() {
        write!(f, "{}", Letter(letter))?;
    }
    Ok(())
}

impl fmt::Display for Quoted<'_> {
    ghost use Rattle.std.specs.Prelude.{Some};
    ghost use Rattle.cli_facts.specs.Quoted.{name_text};

    ghost output = { λ x. Some (name_text x.0.now) };

    fn fmt<W: fmt::Write>(&self, f: &mut fmt::Formatter<W>) -> fmt::Result {
        if has_control(self.0) {
            f.write_str("'")?;
            write_letters(f, self.0)?;
            f.write_str("'")
        } else {
            f.write_str(self.0)
        }
    }
}
