//! What may be wrong with an image's text.

ghost use Rattle.std.specs.Prelude.{◌≡◌};
ghost use Rattle.gm_exec.specs.Flaws.{image_stop, verify_stop};

use gm_image::ImageRule;
use gm_image_text::ImageFault;
use gm_verify::VerifyStop;

/// What is wrong with an image's text. Lines count from 1.
#[derive(Clone, Copy, Debug, PartialEq, Eq)]
pub enum Flaw {
    /// The text has more bytes than the limit.
    TooLong,
    /// The first line with which the lines so far begin no image's text.
    BadText(u32),
    /// The least line that breaks a rule, and the least rule that this line breaks.
    Broken { rule: ImageRule, line: u32 },
}

/// Why a text gave no sound image.
#[derive(Clone, Copy, Debug, PartialEq, Eq)]
pub enum ImageStop {
    /// Something is wrong with it.
    Flawed(Flaw),
    /// There was not enough memory.
    NoMemory,
}

impl From<ImageFault> for ImageStop {
    ghost from_gives = { λ fault stop. stop ≡ image_stop fault };

    fn from(fault: ImageFault) -> ImageStop {
        match fault {
            ImageFault::BadText(line) => ImageStop::Flawed(Flaw::BadText(line)),
            ImageFault::TooLong => ImageStop::Flawed(Flaw::TooLong),
            ImageFault::NoMemory => ImageStop::NoMemory,
        }
    }
}

impl From<VerifyStop> for ImageStop {
    ghost from_gives = { λ refusal stop. stop ≡ verify_stop refusal };

    fn from(refusal: VerifyStop) -> ImageStop {
        match refusal {
            VerifyStop::Broken { rule, line } => ImageStop::Flawed(Flaw::Broken { rule, line }),
            VerifyStop::NoMemory => ImageStop::NoMemory,
        }
    }
}
