//! What the passes of the compiler may rest on in the program of a text.
#![tactic(auto)]

mod laws;

pub use laws::{
    places_of_texts_ascend, text_programs_are_ordered, text_programs_are_spelled,
    text_programs_can_be_hoisted, text_programs_have_types,
};
