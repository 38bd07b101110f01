//! Readers of one commit (fileformat2, 4.5).
ghost use Rattle.std.specs.Prelude.{◌≡◌};

/// An open reader, bound to the commit that was the last one when it began. It has to be given back to `Wal::end`.
#[derive(Debug)]
pub struct Reader {
    // the frame that ends its commit, 0 for the database below the log
    pub(crate) mark: u32,
    // pages of its database
    pub(crate) size: u32,
}

impl Reader {
    /// How many pages its database has.
    pub fn size(&self) -> u32
        ensures { result ≡ self.now.size }
    {
        self.size
    }
}
