//! How a file of a set becomes durable, and whether its length is (own).
ghost use Rattle.std.specs.Prelude.{◌≡◌, Some};
ghost use Rattle.rig_play.specs.Plays.{files_of};
ghost use Rattle.rig_store.specs.Names.{file_meta};
ghost use Rattle.rig_store.specs.Stores.{is_resized};

use crashdisk::File;
use rig_play::{Meta, Player};

/// How truncations become durable.
pub(crate) fn file_meta(meta: Meta) -> Meta
    ensures { result ≡ file_meta meta }
{
    match meta {
        Meta::Parts => Meta::Parts,
        Meta::Whole | Meta::Ordered => Meta::Whole,
    }
}

/// Whether the length of a file changed since it was last synced.
pub(crate) fn is_resized(file: &Player) -> bool
    ensures { result ≡ is_resized (Some (files_of file.now)) }
{
    let files = file.db().files();
    match files.last() {
        Some(disk) => {
            let (least, greatest) = disk.lengths(File::Db);
            files.len() > 1 || least < greatest
        }
        None => false,
    }
}
