//! Loops over nodes, and the loop and the filter of one that is written several times.

ghost use Rattle.std.specs.Prelude.{◌≡◌, IfOk};
ghost use Rattle.gm_ast.specs.Program as Program;
ghost use Rattle.gm_ast.specs.Tree.{expr_of, stmt_of};

use gm_ast::tree::{Expr, Head, Key, Stmt};
use gm_base::Place;
use gm_trees::copies::copy;
use gm_trees::places::{beside, with_boxed};
use std::alloc::{AllocError, Global};

// What a loop has but for its filter and its body.
#[derive(Clone, Copy)]
pub(crate) struct Site {
    pub(crate) key: Key,
    pub(crate) place: Place,
    pub(crate) head: Head,
}

// The loop of a body.
pub(crate) fn whole_loop(
    alloc: Global,
    site: Site,
    filter: Expr,
    body: Stmt,
) -> Result<Stmt, AllocError>
    ensures { IfOk result (λ r. stmt_of r ≡ Program.Foreach site.key site.place site.head (expr_of filter) (stmt_of body)) }
{
    let (filter, body) = with_boxed(alloc, filter, body)?;
    Ok(Stmt::Foreach {
        key: site.key,
        place: site.place,
        head: site.head,
        filter,
        body,
    })
}

// The loop of a body, with a copy of a filter.
pub(crate) fn loop_of(
    alloc: Global,
    site: Site,
    mask: &Expr,
    body: Stmt,
) -> Result<Stmt, AllocError>
    ensures { IfOk result (λ r. stmt_of r ≡ Program.Foreach site.key site.place site.head (expr_of mask.now) (stmt_of body)) }
{
    let (body, filter) = beside(body, copy(alloc, mask))?;
    whole_loop(alloc, site, filter, body)
}
