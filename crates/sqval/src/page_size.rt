//! The size of a database's pages (fileformat2, 1.3.2).
ghost use Rattle.std.specs.Prelude.{◌≡◌, ◌↔◌, IsSome, IfSome};
ghost use Rattle.sqval.specs.PageSize.{IsPageSize};

use std::marker::Model;

const SIZES: [u32; 8] = [512, 1024, 2048, 4096, 8192, 16384, 32768, 65536];

/// The size of a page in bytes: a power of two from 512 to 65536 (fileformat2, 1.3.2, "Page Size").
#[derive(Clone, Copy, Debug, PartialEq, Eq)]
pub struct PageSize {
    bytes: u32,
}

impl Model for PageSize {
    ghost use Rattle.std.specs.Prelude.{ℕ};
    ghost use Rattle.sqval.specs.PageSize.{IsPageSize};

    ghost Value = { ℕ };

    ghost view = { λ s. s.bytes };

    ghost invariant = { λ s. IsPageSize s.bytes };

    ghost inverse = { λ n. record { bytes = n } };
}

impl PageSize {
    /// The page size of this many bytes. None where no database can have it.
    pub fn new(bytes: u32) -> Option<PageSize>
        ensures valid { IsSome result ↔ IsPageSize bytes }
        ensures value { IfSome result (λ size. size ≡ bytes) }
    {
        if SIZES.contains(&bytes) {
            Some(PageSize { bytes })
        } else {
            None
        }
    }

    /// In bytes.
    pub fn get(self) -> u32
        ensures value { result ≡ self }
        ensures valid { IsPageSize result }
    {
        self.bytes
    }
}
