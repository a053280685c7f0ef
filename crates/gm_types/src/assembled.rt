//! Statements put together from their parts, of which some may have no types.

ghost use Rattle.std.specs.Prelude.{◌≡◌, Some, Ok, IfOk, map, option_map};
ghost use Rattle.gm_ast.specs.Judged.{both_of, part_by};
ghost use Rattle.gm_ast.specs.Surface.{sequence};
ghost use Rattle.gm_ast.specs.Program as Program;
ghost use Rattle.gm_ast.specs.Typing.{head_with};
ghost use Rattle.gm_ast.specs.Statements.{search_of, loops_of, loop_of};
ghost use Rattle.gm_ast.specs.SurfaceTree as SurfaceTree;
ghost use Rattle.gm_ast.specs.SurfaceTree.{name_of};
ghost use Rattle.gm_ast.specs.Tree.{expr_of, stmt_of};
ghost use Rattle.gm_types.specs.Boxes.{boxed_of, half_of, back_of};
ghost use Rattle.gm_types.specs.Shapes.{under_key};

use crate::reductions::head_with;
use gm_ast::kinds::Binding;
use gm_ast::surface::{LoopWord, Name, SpelledHead};
use gm_ast::tree::{Expr, Key, Search, Stmt};
use gm_base::Place;
use std::alloc::{AllocError, Global};

// The filter of a loop or a search, and its body.
#[derive(Drop)]
pub struct Half {
    pub filter: Expr,
    pub body: Box<Stmt>,
}

// The part of a search after InReverse, with the key of its filter.
#[derive(Drop)]
pub struct Back {
    pub key: Key,
    pub half: Half,
}

// A statement in a box, where it has a type.
pub fn boxed(alloc: Global, stmt: Option<Stmt>) -> Result<Option<Box<Stmt>>, AllocError>
    ensures { IfOk result (λ r. option_map boxed_of r ≡ option_map stmt_of stmt) }
{
    match stmt {
        None => Ok(None),
        Some(stmt) => {
            let stmt = Box::new(alloc, stmt)?;
            Ok(Some(stmt))
        }
    }
}

// The block of no statements.
pub fn skip(alloc: Global) -> Result<Box<Stmt>, AllocError>
    ensures { IfOk result (λ r. boxed_of r ≡ Program.Skip) }
{
    let stmt = Stmt::Block(Vec::new(alloc));
    let stmt = Box::new(alloc, stmt)?;
    Ok(stmt)
}

// A filter and the body under it, if both have types.
pub fn half_with(filter: Option<Expr>, body: Option<Box<Stmt>>) -> Option<Half>
    ensures { option_map half_of result ≡ both_of (option_map expr_of filter) (option_map boxed_of body) }
{
    match filter.zip(body) {
        None => None,
        Some((filter, body)) => Some(Half { filter, body }),
    }
}

// The part of a search after InReverse, if it has types.
pub fn back_with(key: Key, half: Option<Half>) -> Option<Back>
    ensures { option_map back_of result ≡ option_map (under_key key) (option_map half_of half) }
{
    match half {
        None => None,
        Some(half) => Some(Back { key, half }),
    }
}

pub fn loops_of(word: LoopWord) -> u32
    ensures { result ≡ loops_of word }
{
    match word {
        LoopWord::Foreach => 1,
        LoopWord::For => 0,
    }
}

// A statement whose name after `@` breaks no rule.
pub fn enclosed(stmt: Option<Stmt>, iterator: Option<u32>) -> Option<Stmt>
    ensures { option_map stmt_of result ≡ part_by (both_of (option_map stmt_of stmt) iterator) (λ p. Ok p.0) }
{
    match stmt.zip(iterator) {
        None => None,
        Some((stmt, _)) => Some(stmt),
    }
}

// The block of some statements.
pub fn block_of(stmts: Option<Vec<Stmt>>) -> Option<Stmt>
    ensures { option_map stmt_of result ≡ option_map (λ v. Program.sequence (map stmt_of v.items)) stmts }
{
    match stmts {
        None => None,
        Some(stmts) => Some(Stmt::Block(stmts)),
    }
}

// The loop of a word, whose parts may have no types.
pub fn loop_with(
    word: LoopWord,
    key: Key,
    place: Place,
    head: &SpelledHead,
    owner: Option<Binding>,
    iterator: u32,
    half: Option<Half>,
) -> Option<Stmt>
    ensures { option_map stmt_of result ≡ part_by (both_of owner (both_of (Some iterator) (option_map half_of half))) (λ p. Ok (loop_of word key place (head_with (SurfaceTree.head_of head.now) p.0 p.1.0) p.1.1.0 p.1.1.1)) }
{
    match owner.zip(half) {
        None => None,
        Some((owner, Half { filter, body })) => {
            let head = head_with(head, owner, iterator);
            Some(match word {
                LoopWord::Foreach => Stmt::Foreach {
                    key,
                    place,
                    head,
                    filter,
                    body,
                },
                LoopWord::For => Stmt::For {
                    key,
                    place,
                    head,
                    filter,
                    body,
                },
            })
        }
    }
}

// A choice between statements, whose parts may have no types.
pub fn if_with(
    key: Key,
    test: Option<Expr>,
    yes: Option<Box<Stmt>>,
    no: Option<Box<Stmt>>,
) -> Option<Stmt>
    ensures { option_map stmt_of result ≡ part_by (both_of (option_map expr_of test) (both_of (option_map boxed_of yes) (option_map boxed_of no))) (λ p. Ok (Program.If key p.0 p.1.0 p.1.1)) }
{
    match test.zip(yes.zip(no)) {
        None => None,
        Some((test, (yes, no))) => Some(Stmt::If { key, test, yes, no }),
    }
}

// A loop with its condition first, whose parts may have no types.
pub fn while_with(
    key: Key,
    place: Place,
    test: Option<Expr>,
    body: Option<Box<Stmt>>,
) -> Option<Stmt>
    ensures { option_map stmt_of result ≡ part_by (both_of (option_map expr_of test) (option_map boxed_of body)) (λ p. Ok (Program.While key place p.0 p.1)) }
{
    match test.zip(body) {
        None => None,
        Some((test, body)) => Some(Stmt::While {
            key,
            place,
            test,
            body,
        }),
    }
}

// A loop with its condition last, whose parts may have no types.
pub fn do_with(key: Key, place: Place, body: Option<Box<Stmt>>, test: Option<Expr>) -> Option<Stmt>
    ensures { option_map stmt_of result ≡ part_by (both_of (option_map boxed_of body) (option_map expr_of test)) (λ p. Ok (Program.Do key place p.0 p.1)) }
{
    match body.zip(test) {
        None => None,
        Some((body, test)) => Some(Stmt::Do {
            key,
            place,
            body,
            test,
        }),
    }
}

// A search with its names resolved.
fn search_with(root: &Name, graph: Binding, start: Binding, iterator: u32) -> Search
    ensures { result ≡ search_of (name_of root.now) (graph, start) iterator }
{
    Search {
        iterator,
        graph: graph.index,
        root: start.index,
        place: root.place,
    }
}

// A search without a part after InReverse, whose parts may have no types.
pub fn bfs_with(
    key: Key,
    place: Place,
    root: &Name,
    graph: Option<Binding>,
    start: Option<Binding>,
    iterator: u32,
    half: Option<Half>,
) -> Option<Stmt>
    ensures { option_map stmt_of result ≡ part_by (both_of (both_of graph start) (both_of (Some iterator) (option_map half_of half))) (λ p. Ok (Program.InBfs key place (search_of (name_of root.now) p.0 p.1.0) p.1.1.0 p.1.1.1)) }
{
    match graph.zip(start).zip(half) {
        None => None,
        Some(((graph, start), Half { filter, body })) => Some(Stmt::InBfs {
            key,
            place,
            search: search_with(root, graph, start, iterator),
            filter,
            body,
        }),
    }
}

// A search with a part after InReverse, whose parts may have no types.
pub fn bfs_both_with(
    key: Key,
    place: Place,
    root: &Name,
    graph: Option<Binding>,
    start: Option<Binding>,
    iterator: u32,
    front: Option<Half>,
    back: Option<Back>,
) -> Option<Stmt>
    ensures { option_map stmt_of result ≡ part_by (both_of (both_of graph start) (both_of (Some iterator) (both_of (option_map half_of front) (option_map back_of back)))) (λ p. Ok (Program.InBfsBoth key place (search_of (name_of root.now) p.0 p.1.0) p.1.1.0.0 p.1.1.0.1 p.1.1.1.0 p.1.1.1.1.0 p.1.1.1.1.1)) }
{
    match graph.zip(start).zip(front.zip(back)) {
        None => None,
        Some(((graph, start), (front, back))) => Some(Stmt::InBfsBoth {
            key,
            place,
            search: search_with(root, graph, start, iterator),
            filter: front.filter,
            body: front.body,
            back_key: back.key,
            back_filter: back.half.filter,
            back: back.half.body,
        }),
    }
}
