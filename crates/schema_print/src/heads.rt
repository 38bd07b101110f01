//! What a CREATE statement begins with.
ghost use Rattle.std.specs.Prelude.{◌≡◌, ◌<◌, ◌≤◌, ◌+◌, length, IfSome, drop, not};
ghost use Rattle.std.specs.List.{prefix_len};
ghost use Rattle.schema_tokens.specs.Keywords.{is_same_word};
ghost use Rattle.schema_print.specs.Statements.{bytes_of, is_word, is_name, is_open, is_dot, is_temporary};
ghost use Rattle.schema_print.specs.Statements.{object_at, object_of, is_guarded, head_of, on_at, table_at};

use schema_tokens::{Kind, Piece, after, is_same_word};

/// What a statement makes.
#[derive(Clone, Copy, Debug, PartialEq, Eq)]
pub enum Object {
    Table,
    /// A virtual table.
    Virtual,
    Index,
    View,
    Trigger,
}

/// What a CREATE statement begins with.
#[derive(Clone, Copy, Debug, PartialEq, Eq)]
pub struct Head {
    pub object: Object,
    /// TEMP or TEMPORARY.
    pub temporary: bool,
    /// IF NOT EXISTS.
    pub guarded: bool,
    /// The name of a schema and a dot before the name.
    pub qualified: bool,
    /// Which token is the object's name.
    pub name: usize,
}

/// The bytes of a token.
pub fn bytes_of<'a>(text: &'a [u8], piece: &Piece) -> &'a [u8]
    ensures { result.now ≡ bytes_of text.now piece.now }
{
    let rest = after(text, piece.from);
    &rest[..rest.len().min(piece.to.saturating_sub(piece.from))]
}

/// Whether a token is this word, in any case.
#[tactic(auto, unfolding(crate::specs::Statements::is_word))]
pub fn is_word(text: &[u8], tokens: &[Piece], at: usize, word: &[u8]) -> bool
    ensures { result ≡ is_word text.now tokens.now at word.now }
{
    match tokens.get(at) {
        Some(token) => is_same_word(word, bytes_of(text, token)),
        None => false,
    }
}

/// Whether a token may be a name.
#[tactic(auto, unfolding(crate::specs::Statements::is_name))]
pub fn is_name(tokens: &[Piece], at: usize) -> bool
    ensures { result ≡ is_name tokens.now at }
{
    match tokens.get(at) {
        Some(token) => matches!(
            token.kind,
            Kind::Word | Kind::Fallback | Kind::Joining | Kind::Quoted | Kind::Text
        ),
        None => false,
    }
}

#[tactic(auto, unfolding(crate::specs::Statements::is_open))]
pub fn is_open(tokens: &[Piece], at: usize) -> bool
    ensures { result ≡ is_open tokens.now at }
{
    match tokens.get(at) {
        Some(token) => matches!(token.kind, Kind::Open),
        None => false,
    }
}

#[tactic(auto, unfolding(crate::specs::Statements::is_dot))]
fn is_dot(tokens: &[Piece], at: usize) -> bool
    ensures { result ≡ is_dot tokens.now at }
{
    match tokens.get(at) {
        Some(token) => matches!(token.kind, Kind::Dot),
        None => false,
    }
}

#[tactic(auto, unfolding(crate::specs::Statements::is_temporary))]
fn is_temporary(text: &[u8], tokens: &[Piece]) -> bool
    ensures { result ≡ is_temporary text.now tokens.now }
{
    is_word(text, tokens, 1, b"TEMP") || is_word(text, tokens, 1, b"TEMPORARY")
}

#[tactic(auto, unfolding(crate::specs::Statements::object_at))]
fn object_at(text: &[u8], tokens: &[Piece]) -> usize
    ensures value { result ≡ object_at text.now tokens.now }
    ensures low { result < 3 }
{
    if is_temporary(text, tokens)
        || is_word(text, tokens, 1, b"UNIQUE")
        || is_word(text, tokens, 1, b"VIRTUAL")
    {
        2
    } else {
        1
    }
}

#[tactic(auto, unfolding(crate::specs::Statements::object_of))]
fn object_of(text: &[u8], tokens: &[Piece]) -> Option<Object>
    ensures { result ≡ object_of text.now tokens.now }
{
    let unique = is_word(text, tokens, 1, b"UNIQUE");
    let virtual_one = is_word(text, tokens, 1, b"VIRTUAL");
    let at = object_at(text, tokens);
    if is_word(text, tokens, at, b"TABLE") && !unique {
        Some(if virtual_one {
            Object::Virtual
        } else {
            Object::Table
        })
    } else if is_word(text, tokens, at, b"INDEX") && !(is_temporary(text, tokens) || virtual_one) {
        Some(Object::Index)
    } else if is_word(text, tokens, at, b"VIEW") && !(unique || virtual_one) {
        Some(Object::View)
    } else if is_word(text, tokens, at, b"TRIGGER") && !(unique || virtual_one) {
        Some(Object::Trigger)
    } else {
        None
    }
}

#[tactic(auto, unfolding(crate::specs::Statements::is_guarded))]
fn is_guarded(text: &[u8], tokens: &[Piece], at: usize) -> bool
    requires { at < 10 }
    ensures { result ≡ is_guarded text.now tokens.now at }
{
    is_word(text, tokens, at, b"IF")
        && is_word(text, tokens, at + 1, b"NOT")
        && is_word(text, tokens, at + 2, b"EXISTS")
}

/// What these tokens begin with; None if they begin no CREATE statement.
#[tactic(auto, unfolding(crate::specs::Statements::head_of))]
pub fn head_of(text: &[u8], tokens: &[Piece]) -> Option<Head>
    ensures value { result ≡ head_of text.now tokens.now }
    ensures low { IfSome result (λ h. h.name < 10) }
{
    let at = 1 + object_at(text, tokens);
    let guarded = is_guarded(text, tokens, at);
    let first = if guarded { at + 3 } else { at };
    let qualified = is_dot(tokens, first + 1);
    let name = if qualified { first + 2 } else { first };
    if is_word(text, tokens, 0, b"CREATE")
        && is_name(tokens, first)
        && is_name(tokens, name)
        && !is_word(text, tokens, first, b"IF")
    {
        let temporary = is_temporary(text, tokens);
        object_of(text, tokens).map(|object| Head {
            object,
            temporary,
            guarded,
            qualified,
            name,
        })
    } else {
        None
    }
}

/// The tokens from one on.
pub fn later(tokens: &[Piece], from: usize) -> &[Piece]
    ensures { result.now ≡ drop from tokens.now }
{
    if from <= tokens.len() {
        &tokens[from..]
    } else {
        &[]
    }
}

/// How many tokens come before this word.
pub fn before_word(text: &[u8], tokens: &[Piece], word: &[u8]) -> usize
    ensures value { result ≡ prefix_len (λ p. not (is_same_word word.now (bytes_of text.now p))) tokens.now }
    ensures within { result ≤ length tokens.now }
{
    tokens
        .iter()
        .take_while(|p| !is_same_word(word, bytes_of(text, p)))
        .count()
}

#[tactic(auto, unfolding(crate::specs::Statements::on_at))]
fn on_at(text: &[u8], tokens: &[Piece], from: usize) -> usize
    requires { from < 20 }
    ensures value { result ≡ on_at text.now tokens.now from }
    ensures within { result ≤ from + length tokens.now }
{
    from + before_word(text, later(tokens, from), b"ON")
}

/// Which token names the table that the object belongs to; None if the statement goes on otherwise, as by AS SELECT.
#[tactic(auto, unfolding(crate::specs::Statements::table_at))]
pub fn table_at(text: &[u8], tokens: &[Piece], object: Object, name: usize) -> Option<usize>
    requires { name < 10 }
    ensures { result ≡ table_at text.now tokens.now object name }
{
    let found = match object {
        Object::Table => is_open(tokens, name + 1),
        Object::Virtual => is_word(text, tokens, name + 1, b"USING") && is_name(tokens, name + 2),
        Object::View => is_open(tokens, name + 1) || is_word(text, tokens, name + 1, b"AS"),
        Object::Index => {
            let on = is_word(text, tokens, name + 1, b"ON");
            return if on && is_name(tokens, name + 2) && is_open(tokens, name + 3) {
                Some(name + 2)
            } else {
                None
            };
        }
        Object::Trigger => {
            let on = on_at(text, tokens, name + 1);
            return if is_name(tokens, on + 1) {
                Some(on + 1)
            } else {
                None
            };
        }
    };
    if found { Some(name) } else { None }
}
