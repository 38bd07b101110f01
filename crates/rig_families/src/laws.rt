//! What holds of the likeliest images (own).
ghost use Rattle.rig_families.specs.Likeliest.{EachHasNumber};

/// Each of the likeliest images has a number below their count, and no other image has one. It does nothing; its
/// contract is that law.
pub fn each_has_number()
    ensures { EachHasNumber }
{}
