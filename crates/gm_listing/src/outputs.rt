//! What a listing is told besides the graph and the outcome.

/// The names of a procedure's outputs, each kind in the order of the declarations.
#[derive(Clone, Copy, Debug)]
pub struct Outputs<'a> {
    /// The names of the scalar outputs.
    pub scalars: &'a [&'a [u8]],
    /// The names of the output properties.
    pub properties: &'a [&'a [u8]],
}

/// What the last line of a finished run tells.
#[derive(Clone, Copy, Debug, PartialEq, Eq)]
pub enum Ending {
    /// The turns.
    Turns,
    /// How many supersteps an image's run took, how many messages its vertices sent, and the turns.
    Counts { supersteps: u64, messages: u64 },
}
