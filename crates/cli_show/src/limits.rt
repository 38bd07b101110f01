//! How large a database and its log may be.
ghost use Rattle.std.specs.Prelude.{◌≡◌};
ghost use Rattle.cli_words.specs.Commits.{commit_named};
ghost use Rattle.cli_show.specs.Limits.{limits_named};

use crate::views::Asked;
use cli_words::Options;
use sqcheck::Options as Maps;
use sqval::Limits;

/// The limits that are asked for.
pub fn limits_of(options: Options) -> Limits
    ensures { result ≡ limits_named options.large }
{
    if options.large {
        Limits::LARGE
    } else {
        Limits::USUAL
    }
}

/// What is asked of files.
pub fn asked_of(options: Options) -> Asked
    ensures limits { result.limits ≡ limits_named options.large }
    ensures commit { result.at ≡ commit_named options }
    ensures maps { result.maps.pointer_maps ≡ options.pointer_maps }
{
    Asked {
        limits: limits_of(options),
        at: options.commit(),
        maps: Maps {
            pointer_maps: options.pointer_maps,
        },
    }
}
