//! What is wrong with an image (own).
ghost use Rattle.std.specs.Prelude.{◌≡◌};
ghost use Rattle.sqcrash.specs.Told.{Told};

use rig_judge::Judgment;
use rig_missing::Missing;
use std::marker::Model;

/// What is wrong with an image.
#[derive(Drop)]
pub struct Finding {
    image: u64,
    judgment: Judgment,
    missing: Vec<Missing>,
}

impl Model for Finding {
    ghost Value = { Told };

    ghost view = { λ f. record { image = f.image; judgment = f.judgment; missing = f.missing.items } };
}

impl Finding {
    /// Of the image of this number at its point, counted from 0, in which these calls aren't down.
    pub fn new(image: u64, judgment: Judgment, missing: Vec<Missing>) -> Finding
        ensures { result ≡ record { image = image; judgment = judgment; missing = missing.items } }
    {
        Finding {
            image,
            judgment,
            missing,
        }
    }

    /// The number of the image at its point, counted from 0.
    pub fn image(&self) -> u64
        ensures { result ≡ self.now.image }
    {
        self.image
    }

    /// What is wrong with it.
    pub fn judgment(&self) -> Judgment
        ensures { result ≡ self.now.judgment }
    {
        self.judgment
    }

    /// The calls that aren't down in it, where these are told.
    pub fn missing(&self) -> &[Missing]
        ensures { result.now ≡ self.now.missing }
    {
        self.missing.as_slice()
    }
}
