//! The end of a restore: the database is synced, and then the log's front is zeroed (own).
ghost use Rattle.std.specs.Prelude.{◌≤◌};
ghost use Rattle.crashdisk.specs.During.{During};
ghost use Rattle.recovery.specs.Steps.{Ends};

use crashdisk::{Disk, DiskError, File};

/// Syncs the database, and then makes a header of so many bytes at the log's front invalid, for good.
pub fn finish<D: Disk>(disk: &mut D, count: usize) -> Result<(), DiskError>
    requires { count ≤ 32 }
    ensures { During D.keeps_word D.state disk.old disk.new (Ends count result) }
{
    let zeros = [0; 32];
    disk.sync(File::Db)?; // before anything is done to the log
    disk.write_at(File::Log, 0, &zeros[..count])?;
    disk.sync(File::Log)
}
