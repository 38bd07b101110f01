//! How the pages of a database are read, and their cells written.
ghost use Rattle.std.specs.Prelude.{◌≤◌};

use cli_row_text::Form;
use std::alloc::Global;

/// How many bytes of each page are used, and how values are written.
#[derive(Clone, Copy)]
pub struct Layout {
    pub alloc: Global,
    /// How many bytes of each page are used.
    pub usable: usize,
    /// How values are written.
    pub form: Form,
    ghost least: { 480 ≤ usable },
    ghost most: { usable ≤ 65536 },
}
