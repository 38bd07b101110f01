//! What is said of a cell before its place (own).

/// What is said of a cell before its place.
#[derive(Clone, Copy)]
pub(crate) enum Mark {
    /// That it stands there.
    Stands,
    /// That it stood there in an old database, and doesn't in a new one.
    Went,
    /// That it stands there in a new database, and didn't in an old one.
    Came,
    /// That it stands there in the image of its page that this frame of a log has.
    InFrame(u64),
}
