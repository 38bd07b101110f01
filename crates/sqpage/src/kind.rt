//! The kinds of b-tree pages (fileformat2, 1.6).
ghost use Rattle.std.specs.Prelude.{◌≡◌, ◌↔◌, Some};
ghost use Rattle.sqpage.specs.Page.{code_of, is_interior, is_table, has_payload};
ghost use Rattle.sqpage.specs.declared.kind.Kind.{Kind};

/// The kind of a b-tree page (fileformat2, 1.6, "B-tree Pages").
#[derive(Clone, Copy, Debug, PartialEq, Eq)]
pub enum Kind {
    /// Rows of a table: rowids and payloads. The type byte is 13.
    TableLeaf,
    /// Children and rowids. The type byte is 5.
    TableInterior,
    /// Payloads of an index. The type byte is 10.
    IndexLeaf,
    /// Children and payloads. The type byte is 2.
    IndexInterior,
}

impl Kind {
    /// The kind that a page's type byte names.
    pub fn of(code: u8) -> Option<Kind>
        ensures { (kind : Kind) → (result ≡ Some kind) ↔ (code ≡ code_of kind) }
    {
        match code {
            13 => Some(Kind::TableLeaf),
            5 => Some(Kind::TableInterior),
            10 => Some(Kind::IndexLeaf),
            2 => Some(Kind::IndexInterior),
            _ => None,
        }
    }

    /// Whether its cells name children.
    pub fn is_interior(self) -> bool
        ensures { result ≡ is_interior self }
    {
        match self {
            Kind::TableLeaf | Kind::IndexLeaf => false,
            Kind::TableInterior | Kind::IndexInterior => true,
        }
    }

    /// Whether its cells have rowids.
    pub fn is_table(self) -> bool
        ensures { result ≡ is_table self }
    {
        match self {
            Kind::TableLeaf | Kind::TableInterior => true,
            Kind::IndexLeaf | Kind::IndexInterior => false,
        }
    }

    /// Whether its cells have payloads.
    pub fn has_payload(self) -> bool
        ensures { result ≡ has_payload self }
    {
        match self {
            Kind::TableLeaf | Kind::IndexLeaf | Kind::IndexInterior => true,
            Kind::TableInterior => false,
        }
    }
}
