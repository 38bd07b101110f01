//! The pages that a source has as a check begins (own).
ghost use Rattle.std.specs.Prelude.{ℕ, [], Bool, false};
ghost use Rattle.sqval.specs.Database.{Database};

use std::marker::Brand;

/// Stands for the pages that a source has as a check begins. No value has this type: the calls of one check
/// share it, so that their contracts speak of the same pages.
pub(crate) trait Snapshot {
    /// Its pages.
    ghost pages: { Database };

    /// The size of its pages.
    ghost size: { ℕ };

    /// What is read of them is right.
    ghost right: { Type 0 };

    /// The source gives them: what is read of them is right, and no read fails.
    ghost given: { Type 0 };

    /// Whether it has pointer maps was judged by its header.
    ghost judged: { Type 0 };

    /// Pointer maps are asked for.
    ghost maps: { Bool };
}

impl Snapshot for Brand {
    ghost pages = { [] };

    ghost size = { 512 };

    ghost right = { ℕ };

    ghost given = { ℕ };

    ghost judged = { ℕ };

    ghost maps = { false };
}
