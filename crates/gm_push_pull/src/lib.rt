//! Push, pull and home: where the reductions of an inner loop are evaluated.
#![tactic(auto)]

ghost use Rattle.std.specs.Prelude.{◌≡◌, IfOk, map, option_map};
ghost use Rattle.gm_push_pull.specs.Sweeps.{IsSettled};
ghost use Rattle.gm_base.specs.Rules.{broken_at, least};
ghost use Rattle.gm_base.specs.declared.rules.Rule.TheVariants.{C7};
ghost use Rattle.gm_ast.specs.Tree.{expr_of, stmt_of};
ghost use Rattle.gm_ast.specs.Ways.{edges_against, ways_of};

mod finding;
mod locals;
mod reads;
mod spread;
mod sweeps;
mod web;

use crate::finding::Finder;
use crate::locals::Locals;
use crate::reads::NOTHING;
use gm_ast::tree::{Expr, Head, Stmt};
use gm_ast::ways::Way;
use gm_base::{Place, Refusal, Rule};
use indexmap::IndexMap;
use std::alloc::{AllocError, Global};

/// What is found of an inner loop: the ways of its reductions that end with a loop, in the order of the text, and
/// the first read of an edge that goes against the way of its message.
#[derive(Debug, Drop)]
pub struct LoopWays {
    pub ways: Vec<Way>,
    pub against: Option<Refusal>,
}

// The violation by a read of an edge, if there is one.
fn refusal_at(place: Option<Place>) -> Option<Refusal>
    ensures { result ≡ option_map (broken_at C7) place }
{
    match place {
        None => None,
        Some(place) => Some(Refusal {
            rule: Rule::C7,
            place,
        }),
    }
}

// The locals of an inner body, with all that their values read.
fn locals_of(alloc: Global, iterator: u32, body: &Stmt) -> Result<Locals, AllocError>
    ensures { IfOk result (λ locals. IsSettled locals iterator (stmt_of body.now)) }
{
    let mut locals = Locals {
        iterator,
        facts: IndexMap::new(alloc),
    };
    locals.gather(body)?;
    locals.spread(alloc, body)?;
    locals.settle(body)?;
    Ok(locals)
}

/// The ways of the reductions of an inner loop over the neighbours of a node, and the least place at which its body
/// reads an edge against the way of a message (C7). It fails only for want of memory.
pub fn ways_in_loop(
    alloc: Global,
    head: &Head,
    filter: &Expr,
    body: &Stmt,
) -> Result<LoopWays, AllocError>
    ensures ways { IfOk result (λ found. found.ways.items ≡ ways_of head.now (expr_of filter.now) (stmt_of body.now)) }
    ensures against { IfOk result (λ found. found.against ≡ least (map (broken_at C7) (edges_against head.now (expr_of filter.now) (stmt_of body.now)))) }
{
    let locals = locals_of(alloc, head.iterator, body)?;
    let around = locals.noted(filter, NOTHING);
    let mut finder = Finder {
        head: *head,
        locals,
        ways: Vec::new(alloc),
        against: None,
    };
    finder.find(body, around)?;
    Ok(LoopWays {
        ways: finder.ways,
        against: refusal_at(finder.against),
    })
}
