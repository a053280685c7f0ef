//! Images that keep every rule.

ghost use Rattle.std.specs.Prelude.{◌≡◌, IsTrue};
ghost use Rattle.gm_image.specs.Views.{program};
ghost use Rattle.gm_image.specs.Soundness.{is_sound};
ghost use Rattle.gm_image.specs.Ranges.{Ranged};

use crate::images::Image;
use crate::numbers::read_image_numbers;
use std::marker::Model;

/// An image that keeps every rule, whose text has fewer than 4,294,967,296 lines, and whose numbers are in the ranges of
/// their types. Contracts see the image.
#[derive(Drop)]
pub struct Sound {
    image: Image,
}

impl Model for Sound {
    ghost use Rattle.std.specs.Prelude.{IsTrue};
    ghost use Rattle.std.specs.Coded.{codes};
    ghost use Rattle.gm_image.specs.contracts.lines.Expr as expressions;
    ghost use Rattle.gm_image.specs.declared.images.Image.{Image};
    ghost use Rattle.gm_image.specs.Views.{program};
    ghost use Rattle.gm_image.specs.Soundness.{is_sound};
    ghost use Rattle.gm_image.specs.Ranges.{Ranged};

    ghost Value = { Image };

    ghost coded = { Prim.hlevel (codes, expressions.the_row.coded) };

    ghost view = { λ s. s.image };

    ghost invariant = { λ s. IsTrue (is_sound (program s.image)) × Ranged (program s.image) };
}

impl Sound {
    /// A sound image. Its numbers are read once. It takes no memory.
    pub fn new(image: Image) -> Sound
        requires { IsTrue (is_sound (program image)) }
        ensures { result ≡ image }
    {
        read_image_numbers(&image);
        Sound { image }
    }

    /// The image. It takes no memory.
    pub fn image(&self) -> &Image
        ensures same { result.now ≡ self.now }
        ensures sound { IsTrue (is_sound (program result.now)) }
        ensures numbers { Ranged (program result.now) }
    {
        &self.image
    }

    /// The image, which need not stay sound. It takes no memory.
    pub fn into_image(self) -> Image
        ensures same { result ≡ self }
        ensures sound { IsTrue (is_sound (program result)) }
        ensures numbers { Ranged (program result) }
    {
        self.image
    }
}
