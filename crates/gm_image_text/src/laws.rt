//! What holds of all images and their texts.

ghost use Rattle.std.specs.Prelude.{◌≡◌, ℕ, List, IsTrue};
ghost use Rattle.gm_image.specs.Program.{Program};
ghost use Rattle.gm_image.specs.Soundness.{is_sound};
ghost use Rattle.gm_image_text.specs.Spelling.{image_text};
ghost use Rattle.gm_image_text.specs.ImageText.{IsTextOf};
ghost use Rattle.gm_image.specs.Ranges.{Ranged};

/// Each text is the text of at most one image. So what is read from an image's text is that image.
pub fn each_text_is_of_one_image()
    ensures { (p q : Program) (text : List ℕ) → IsTextOf p text → IsTextOf q text → p ≡ q }
{}

/// A sound image has a text: what is written for it. Its numbers are in the ranges of their types, which `Sound` keeps.
pub fn sound_images_have_texts()
    ensures { (p : Program) → IsTrue (is_sound p) → Ranged p → IsTextOf p (image_text p) }
{}

/// An image that has a text has one in version 2: what is written for it.
pub fn each_text_has_one_in_version_two()
    ensures { (p : Program) (text : List ℕ) → IsTextOf p text → IsTextOf p (image_text p) }
{}
