//! The iterators of reductions around an expression.

ghost use Rattle.std.specs.Prelude.{◌≡◌};
ghost use Rattle.gm_loops.specs.Scopes.{scalar_in};

/// The reductions around an expression, the innermost first, each with the node that its iterator holds.
#[derive(Clone, Copy)]
pub enum Scope<'a> {
    Nothing,
    Bound {
        iterator: u32,
        node: u32,
        outer: &'a Scope<'a>,
    },
}
