//! The pass: a program with each search as loops.

ghost use Rattle.std.specs.Prelude.{◌≡◌, IfOk, OnOk, map, true};
ghost use Rattle.gm_ast.specs.Program.{sequence};
ghost use Rattle.gm_ast.specs.Tree.{program_of, stmt_of};
ghost use Rattle.gm_forms.specs.Forms.{is_desugared, is_levelled};
ghost use Rattle.gm_forms.specs.Meanings.{SameMeaning};
ghost use Rattle.gm_forms.specs.Order.{is_ordered};
ghost use Rattle.gm_forms.specs.Sharing.{is_race_free};
ghost use Rattle.gm_forms.specs.Typing.{has_types};
ghost use Rattle.gm_forms.specs.Uses.{is_named};
ghost use Rattle.gm_bfs.specs.Levelled as Levelled;

use crate::fresh::{Fresh, add_fresh, fresh_from};
use crate::searches::{search_both, search_out};
use gm_ast::forms::Work;
use gm_ast::tree::{Stmt, Tree};
use gm_base::NoMemory;
use gm_trees::places::put;
use std::alloc::Global;

/// Writes each search of a program as loops over levels. A program without searches stays as it is. Where variables
/// stand in the table as they are used and the program is a desugared one, the result means the same, for every graph,
/// all arguments and every bound, and has the form of one without searches. Variables stand in the longer table as they
/// are used, and expressions have types. Where faults of the parallel loops and searches stand in the order of their
/// text, those of the loops that come out do; and where the iterations of each share what ends with it alone, those of
/// the loops that come out do.
pub fn bfs_out(alloc: Global, program: Work) -> Result<Work, NoMemory>
    ensures made { IfOk result (λ r. program_of r ≡ Levelled.levelled (program_of program)) }
    ensures same { IfOk result (λ r. is_named (program_of program) ≡ true → is_desugared (program_of program) ≡ true → SameMeaning (program_of program) (program_of r)) }
    ensures form { IfOk result (λ r. is_named (program_of program) ≡ true → is_desugared (program_of program) ≡ true → is_levelled (program_of r) ≡ true) }
    ensures named { IfOk result (λ r. is_named (program_of program) ≡ true → is_named (program_of r) ≡ true) }
    ensures typed { IfOk result (λ r. is_named (program_of program) ≡ true → has_types (program_of program) ≡ true → has_types (program_of r) ≡ true) }
    ensures ordered { IfOk result (λ r. is_ordered (program_of program) ≡ true → is_ordered (program_of r) ≡ true) }
    ensures race_free { IfOk result (λ r. is_named (program_of program) ≡ true → is_desugared (program_of program) ≡ true → is_race_free (program_of program) ≡ true → is_race_free (program_of r) ≡ true) }
{
    let mut tree = program.into_tree();
    without_searches(alloc, &mut tree)?;
    Ok(Work::new(tree))
}

// Changes each search of a program's tree into loops.
fn without_searches(alloc: Global, tree: &mut Tree) -> Result<(), NoMemory>
    ensures { OnOk result (program_of tree.new ≡ Levelled.levelled (program_of tree.old)) }
{
    if has_search(&tree.body) {
        searches_into_loops(alloc, tree)
    } else {
        Ok(())
    }
}

// Changes the searches of a program's tree into loops, over fresh variables.
fn searches_into_loops(alloc: Global, tree: &mut Tree) -> Result<(), NoMemory>
    ensures { OnOk result (Levelled.has_search (stmt_of tree.old.body) ≡ true → program_of tree.new ≡ Levelled.levelled (program_of tree.old)) }
{
    let count = tree.declarations.len();
    let fresh = fresh_from(count)?;
    searches_out(alloc, fresh, count, &mut tree.body)?;
    add_fresh(alloc, &mut tree.declarations)?;
    Ok(())
}

// Whether a block has a search.
#[cycle(searching)]
fn has_search_among(stmts: &Vec<Stmt>) -> bool
    ensures { result ≡ Levelled.has_search (sequence (map stmt_of stmts.now.items)) }
{
    for stmt in stmts {
        if has_search(stmt) {
            return true;
        }
    }
    false
}

// Whether a sequential phase has a search.
#[cycle(searching)]
fn has_search(s: &Stmt) -> bool
    ensures { result ≡ Levelled.has_search (stmt_of s.now) }
{
    match s {
        Stmt::Block(stmts) => has_search_among(stmts),
        Stmt::For { body, .. } | Stmt::While { body, .. } | Stmt::Do { body, .. } => {
            has_search(body)
        }
        Stmt::If { yes, no, .. } => has_search(yes) || has_search(no),
        Stmt::InBfs { .. } | Stmt::InBfsBoth { .. } => true,
        _ => false,
    }
}

// Changes the searches of a block into loops, behind so many declared variables.
#[cycle(looping)]
fn searches_among(
    alloc: Global,
    fresh: Fresh,
    count: usize,
    stmts: &mut Vec<Stmt>,
) -> Result<(), NoMemory>
    ensures { OnOk result (sequence (map stmt_of stmts.new.items) ≡ Levelled.searches_out fresh count (sequence (map stmt_of stmts.old.items))) }
{
    for stmt in stmts.iter_mut() {
        searches_out(alloc, fresh, count, stmt)?;
    }
    Ok(())
}

// Changes the searches of a sequential phase into loops, behind so many declared variables.
#[cycle(looping)]
fn searches_out(alloc: Global, fresh: Fresh, count: usize, s: &mut Stmt) -> Result<(), NoMemory>
    ensures { OnOk result (stmt_of s.new ≡ Levelled.searches_out fresh count (stmt_of s.old)) }
{
    match s {
        Stmt::Block(stmts) => searches_among(alloc, fresh, count, stmts),
        Stmt::For { body, .. } => searches_out(alloc, fresh, count, body),
        Stmt::If { yes, no, .. } => {
            searches_out(alloc, fresh, count, yes)?;
            searches_out(alloc, fresh, count, no)
        }
        Stmt::While { body, .. } => searches_out(alloc, fresh, count, body),
        Stmt::Do { body, .. } => searches_out(alloc, fresh, count, body),
        Stmt::InBfs {
            key,
            search,
            filter,
            body,
            ..
        } => {
            let loops = search_out(alloc, fresh, count, *key, *search, filter, body)?;
            put(s, loops);
            Ok(())
        }
        Stmt::InBfsBoth {
            key,
            search,
            filter,
            body,
            back_key,
            back_filter,
            back,
            ..
        } => {
            let loops = search_both(
                alloc,
                fresh,
                count,
                *key,
                *search,
                filter,
                body,
                *back_key,
                back_filter,
                back,
            )?;
            put(s, loops);
            Ok(())
        }
        Stmt::Declare { .. }
        | Stmt::DeclareEdge { .. }
        | Stmt::Assign { .. }
        | Stmt::Defer { .. }
        | Stmt::Reduce { .. }
        | Stmt::Group { .. }
        | Stmt::Foreach { .. }
        | Stmt::Return { .. } => Ok(()),
    }
}
