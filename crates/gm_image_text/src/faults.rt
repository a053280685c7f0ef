//! What an image's text may have wrong with it.

ghost use Rattle.std.specs.Prelude.{◌≡◌, Some, codes};
ghost use Rattle.gm_image_text.specs.declared.faults.ImageFault.TheVariants.{NoMemory as image_no_memory};
ghost use Rattle.gm_image_text.specs.declared.faults.LineStop.TheVariants.{NoMemory as line_no_memory};
ghost use Rattle.gm_image_text.specs.declared.faults.TextStop.TheVariants.{NoMemory as text_no_memory};

use gm_base::NoMemory;
use std::alloc::{AllocError, AllocFailed};

/// Why a text was not read.
#[derive(Clone, Copy, Debug, PartialEq, Eq)]
pub enum ImageFault {
    /// The number, from 1, of the first line with which the lines so far begin no image's text. A last line without
    /// its end counts as such a line, and so does the line behind the end where one is wanted.
    BadText(u32),
    /// The text has more bytes than the limit.
    TooLong,
    /// There was not enough memory.
    NoMemory,
}

impl From<NoMemory> for ImageFault {
    ghost from_gives = { λ _ fault. fault ≡ image_no_memory };

    fn from(_error: NoMemory) -> ImageFault {
        ImageFault::NoMemory
    }
}

// Why a line was not read.
#[derive(Clone, Copy, Debug, PartialEq, Eq)]
pub enum LineStop {
    Bad,
    NoMemory,
}

// Why the lines of a text were not read: the text from the first bad line on.
#[derive(Clone, Copy, Debug)]
pub enum TextStop<'a> {
    Bad(&'a [u8]),
    NoMemory,
}

impl From<AllocError> for LineStop {
    ghost from_gives = { λ _ stop. stop ≡ line_no_memory };

    fn from(_error: AllocError) -> LineStop {
        LineStop::NoMemory
    }
}

impl<T: Drop> From<AllocFailed<T>> for LineStop {
    ghost from_gives = { λ _ stop. stop ≡ line_no_memory };

    fn from(_error: AllocFailed<T>) -> LineStop {
        LineStop::NoMemory
    }
}

impl<'a, T: Drop> From<AllocFailed<T>> for TextStop<'a> {
    ghost from_gives = { λ _ stop. stop ≡ text_no_memory };

    fn from(_error: AllocFailed<T>) -> TextStop<'a> {
        TextStop::NoMemory
    }
}
