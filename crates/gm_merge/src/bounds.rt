//! The least number above every place that lines name. Places are indices, so they are below it exactly where the lines
//! come before all that names it or more.

ghost use Rattle.std.specs.Prelude.{◌≡◌, map};
ghost use Rattle.gm_image.specs.Views.{term, target, line, handler, block};
ghost use Rattle.gm_image.specs.Parts.{terms_of};
ghost use Rattle.gm_merge_laws.specs.Joins.{block_lines};
ghost use Rattle.gm_merge.specs.Tests.{lines_of};
ghost use Rattle.gm_merge.specs.Bounds.{above, term_bound, terms_bound, line_bound, lines_bound};

use gm_image::{Block, Expr, Handler, Shape, VertexLine};

// The least number that is at least a bound and above an operation's place, if it has one.
fn above(bound: u64, place: Option<u32>) -> u64
    ensures { result ≡ above bound place }
{
    match place {
        None => bound,
        Some(place) => bound.max(place as u64 + 1),
    }
}

// The least number that is at least a bound and above each place that an expression names.
#[tactic(auto, using(crate::proofs::Bounding::bound_leaf, crate::proofs::Bounding::bound_one, crate::proofs::Bounding::bound_two))]
fn term_bound(bound: u64, expr: &Expr) -> u64
    ensures { result ≡ term_bound bound (term expr.now) }
{
    match expr.shape() {
        Shape::Leaf(_) => bound,
        Shape::One(op, a) => term_bound(above(bound, op.place()), a),
        Shape::Two(op, a, b) => {
            let first = term_bound(above(bound, op.place()), a);
            term_bound(first, b)
        }
        Shape::Choose(c, a, b) => {
            let chosen = term_bound(bound, c);
            let first = term_bound(chosen, a);
            term_bound(first, b)
        }
    }
}

// The same of some expressions.
fn terms_bound(start: u64, exprs: &[Expr]) -> u64
    ensures { result ≡ terms_bound start (map term exprs.now) }
{
    let mut bound = start;
    for expr in exprs {
        bound = term_bound(bound, expr);
    }
    bound
}

// The same of the values of a reduction.
fn targets_bound(start: u64, targets: &[(u32, Expr)]) -> u64
    ensures { result ≡ terms_bound start (terms_of (map target targets.now)) }
{
    let mut bound = start;
    for target in targets {
        bound = term_bound(bound, &target.1);
    }
    bound
}

// The same of a line.
fn line_bound(bound: u64, vertex_line: &VertexLine) -> u64
    ensures { result ≡ line_bound bound (line vertex_line.now) }
{
    match vertex_line {
        VertexLine::SetField(_, a) | VertexLine::SetRegister(_, a) | VertexLine::Skip(_, a) => {
            term_bound(bound, a)
        }
        VertexLine::Fold { place, slots, .. } | VertexLine::Put { place, slots, .. } => {
            targets_bound(above(bound, Some(*place)), slots.as_slice())
        }
        VertexLine::Send { to, values, .. } => {
            terms_bound(term_bound(bound, to), values.as_slice())
        }
        VertexLine::EachOut(_) | VertexLine::EachIn(_) => bound,
    }
}

// The same of some lines.
pub fn lines_bound(start: u64, vertex_lines: &[VertexLine]) -> u64
    ensures { result ≡ lines_bound start (map line vertex_lines.now) }
{
    let mut bound = start;
    for vertex_line in vertex_lines {
        bound = line_bound(bound, vertex_line);
    }
    bound
}

// The same of the lines of some handlers.
#[tactic(auto, using(crate::proofs::Bounding::bound_append))]
fn handlers_bound(start: u64, handlers: &[Handler]) -> u64
    ensures { result ≡ lines_bound start (lines_of (map handler handlers.now)) }
{
    let mut bound = start;
    for handled in handlers {
        bound = lines_bound(bound, handled.lines.as_slice());
    }
    bound
}

// The least number above every place that a block names.
#[tactic(auto, using(crate::proofs::Bounding::bound_append))]
pub fn block_bound(one: &Block) -> u64
    ensures { result ≡ lines_bound 0 (block_lines (block one.now)) }
{
    let handled = handlers_bound(0, one.handlers.as_slice());
    lines_bound(handled, one.body.as_slice())
}
