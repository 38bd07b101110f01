//! A version of one file (own).
ghost use Rattle.std.specs.Prelude.{◌≡◌, []};

use crashdisk::FileChoice;

/// A version of a file.
#[derive(Drop)]
pub struct FileVersion {
    /// Which of the files of its name, the oldest being 0.
    pub(crate) file: usize,
    /// The number of each sector's value, and the length.
    pub(crate) choice: FileChoice,
    ghost untorn: { choice.torn.items ≡ [] },
}
