//! How large a graph text and its graph may be.

/// How large a graph text and its graph may be.
#[derive(Clone, Copy, Debug, PartialEq, Eq)]
pub struct Limits {
    /// The greatest number of nodes, at most 2,147,483,647.
    pub nodes: u32,
    /// The greatest number of edges, at most 2,147,483,647.
    pub edges: u32,
    /// The greatest number of bytes of the text.
    pub bytes: u64,
}
