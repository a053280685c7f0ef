//! The text of images: a sound image becomes its text of version 2. A text of version 1 or 2 becomes the image that it
//! spells, or the number of the first line that no image's text has at this point.
#![tactic(auto)]

mod expressions;
mod faults;
mod heads;
mod laws;
mod numbers;
mod put_expressions;
mod put_rows;
mod put_words;
mod reads;
mod reductions;
mod rows;
mod sections;
mod tables;
mod words;
mod writes;

pub use faults::ImageFault;
pub use laws::{
    each_text_has_one_in_version_two, each_text_is_of_one_image, sound_images_have_texts,
};
pub use reads::read_image;
pub use writes::{write_image, written_and_read};
