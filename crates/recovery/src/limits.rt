//! How large a database may be that an engine opens (own).

/// The most bytes of a database.
pub const MOST_BYTES: u64 = 1_073_741_824;
