//! A view that shows the same, whatever reads its pages.
ghost use Rattle.std.specs.Prelude.{◌≡◌, []};
ghost use Rattle.sqview.specs.LogView.{pages_of};
ghost use Rattle.sqview.specs.Shapes.{Shape, shape_of};

use sqpage::{PageSource, SourceError};
use sqval::PageSize;
use sqview::{FileBytes, View};
use std::marker::{Brand, PhantomData};

/// Stands for what a view shows as it is begun to be read. No value has this type.
pub(crate) trait Seen {
    /// What it shows.
    ghost shape: { Shape };
}

impl Seen for Brand {
    ghost shape = { record { page_size = 512; count = 0; front = 0; places = []; db = []; log = [] } };
}

/// A view that shows that.
#[derive(Drop)]
pub(crate) struct Held<V: Seen, F: FileBytes> {
    pub view: View<F>,
    pub seen: PhantomData<V>,
    ghost same: { shape_of F.bytes view ≡ V.shape },
}

impl<V: Seen, F: FileBytes> PageSource for Held<V, F> {
    ghost pages = { λ held. pages_of F.bytes held.view };

    ghost size = { λ held. held.view.page_size };

    ghost reads_right = { λ held. F.reads_right held.view.db × F.reads_right held.view.log };

    ghost gives_pages = { λ held. F.gives_bytes held.view.db × F.gives_bytes held.view.log };

    ghost right = { λ held gives. (F.right held.view.db gives.0, F.right held.view.log gives.1) };

    fn page_size(&self) -> PageSize {
        self.view.page_size()
    }

    fn count(&self) -> u32 {
        self.view.count()
    }

    fn page(&mut self, p: u32, out: &mut [u8]) -> Result<(), SourceError> {
        self.view.read(p, out)
    }
}
