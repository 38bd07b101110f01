//! How a refused call of the disk is told (own).
use crashdisk::DiskError;

/// An engine's error, one of which tells that a call of the disk was refused.
pub trait DeviceError: From<DiskError> {
    ghost use Rattle.std.specs.Prelude.{◌≡◌};
    ghost use Rattle.crashdisk.specs.declared.error.DiskError.{DiskError};

    /// That one.
    ghost device: { Self };

    /// The disk's errors are told by it.
    ghost device_gives: { (error : DiskError) (e : Self)
        → ⟦<Self as From<DiskError>>⟧.from_gives error e → e ≡ device };
}
