//! What holds of all images (own).
ghost use Rattle.rig_images.specs.Including.{OrderedIsWhole};

/// What a crash may leave where metadata becomes durable in order, it may leave where truncations become durable as a
/// whole. It does nothing; its contract is that law.
pub fn what_order_leaves()
    ensures { OrderedIsWhole }
{}
