//! What is asked of a check (own).

/// What is asked of a check.
#[derive(Clone, Copy, Debug, PartialEq, Eq)]
pub struct Options {
    /// Whether a database of auto-vacuum is checked, with its pointer maps (fileformat2, 1.8). Otherwise it is refused.
    pub pointer_maps: bool,
}

impl Options {
    /// What `check` goes by: a database of auto-vacuum is refused.
    pub const PLAIN: Options = Options {
        pointer_maps: false,
    };
}
