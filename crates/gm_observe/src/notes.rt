//! What a run tells about one superstep.

use std::fmt;

/// What a run tells about one superstep.
#[derive(Clone, Copy, Debug, PartialEq, Eq)]
pub struct Note {
    /// The number of the superstep, counted from 1.
    pub step: u64,
    /// The block that the nodes ran in it, as the image counts its blocks, from 0.
    pub block: u32,
    /// How many nodes the graph has.
    pub vertices: u32,
    /// How many messages the nodes sent in it, before any combining.
    pub messages: u64,
}

/// `step K block B vertices V messages M`, all in decimal.
impl fmt::Display for Note {
    ghost use Rattle.std.specs.Prelude.{Some};
    ghost use Rattle.gm_observe.specs.Notes.{note_text};

    ghost output = { λ note. Some (note_text note) };

    fn fmt<W: fmt::Write>(&self, f: &mut fmt::Formatter<W>) -> fmt::Result {
        let Note {
            step,
            block,
            vertices,
            messages,
        } = *self;
        write!(
            f,
            "step {step} block {block} vertices {vertices} messages {messages}"
        )
    }
}
