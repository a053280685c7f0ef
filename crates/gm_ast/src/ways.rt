//! Where the reductions of inner loops are evaluated.

/// The way of a reduction in an inner loop: to the neighbour's property, from what the neighbour has, or from what
/// the node itself has.
#[derive(Clone, Copy, PartialEq, Eq, Debug)]
pub enum Way {
    Push,
    Pull,
    Home,
}
