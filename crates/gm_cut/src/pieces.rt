//! Bodies of parallel loops, cut into pieces.
//!
//! A loop over nodes whose body is more than own statements becomes loops in turn, one for each piece of its body: runs
//! of own statements stay together, and each inner loop stands alone. The branches of an If that is cut stand under its
//! condition and under the other side of it, beside the filter of the loop. One walk over the body finds the pieces, in
//! time linear in it times the depth of its Ifs, but for the masks, which are copied for each piece.

ghost use Rattle.std.specs.Prelude.{◌≡◌, ◌∷◌, [], ◌++◌, ◌||◌, true, false, IfOk, OnOk, map};
ghost use Rattle.gm_value.specs.declared.operations.Op1.TheVariants.{Not};
ghost use Rattle.gm_ast.specs.Program as Program;
ghost use Rattle.gm_ast.specs.Program.{sequence};
ghost use Rattle.gm_ast.specs.Tree.{expr_of, program_of, stmt_of};
ghost use Rattle.gm_forms.specs.Meanings.{SameMeaning};
ghost use Rattle.gm_forms.specs.Ready.{Ready2, Ready3};
ghost use Rattle.gm_dissect.specs.Loops.{each_loop};
ghost use Rattle.gm_cut.specs.Own as Own;
ghost use Rattle.gm_cut.specs.Parts.{can_be_parted, in_pieces, IsPartedBy, Kind, parted_loop};
ghost use Rattle.gm_cut.specs.Slices.{goes_one_way};
ghost use Rattle.gm_cut.specs.Taken.{run_piece};
ghost use Rattle.gm_cut.specs.Walks.{adds_in, branch_pieces, cut_pieces, is_block, loops_of, walked};

use crate::own::{adds_beyond, is_own, joins};
use gm_ast::forms::Work;
use gm_ast::tree::{Expr, Head, Key, Stmt, Tree};
use gm_base::{NoMemory, Place};
use gm_trees::copies::copy;
use gm_trees::places::{
    beside, both_boxed, finish, put, taken, taken_value, with_boxed, with_pushed,
};
use gm_value::Op1;
use std::alloc::{AllocError, Global};

/// Cuts the body of each loop over nodes into pieces, each of which becomes a loop. A program whose loops may be written
/// so means the same, and is parted, with inner loops of the same kind; where each goes one way, and nothing in it can
/// fault behind a Sum or Product through a node variable, it is ready for flipping.
/// It takes time linear in the tree times the depth of its Ifs, but for the masks, which are copied for each piece.
pub fn cut_bodies(alloc: Global, program: Work) -> Result<Work, NoMemory>
    ensures made { IfOk result (λ r. program_of r ≡ in_pieces (program_of program)) }
    ensures same { IfOk result (λ r. (kind : Kind) → Ready2 (program_of program) → can_be_parted kind (program_of program) ≡ true → SameMeaning (program_of program) (program_of r)) }
    ensures cut { IfOk result (λ r. (kind : Kind) → Ready2 (program_of program) → can_be_parted kind (program_of program) ≡ true → IsPartedBy kind (program_of r)) }
    ensures ready { IfOk result (λ r. Ready2 (program_of program) → can_be_parted goes_one_way (program_of program) ≡ true → Ready3 (program_of r)) }
{
    let mut tree = program.into_tree();
    let outcome = cut_tree(alloc, &mut tree);
    finish(tree, outcome)
}

// The same of a tree.
fn cut_tree(alloc: Global, tree: &mut Tree) -> Result<(), NoMemory>
    ensures { OnOk result (program_of tree.new ≡ in_pieces (program_of tree.old)) }
{
    cut_phase(alloc, &mut tree.body)?;
    Ok(())
}

// What the loops of all pieces of a body have.
#[derive(Clone, Copy)]
struct Site {
    key: Key,
    place: Place,
    head: Head,
}

// What a walk has come to: the loops of the pieces so far, the run of own statements that may go on behind them, and
// whether the run reduces by a Sum or a Product through another node variable.
#[derive(Drop)]
struct Walk {
    loops: Vec<Stmt>,
    run: Vec<Stmt>,
    adds: bool,
}

// A walk that has no run.
fn begin(alloc: Global, loops: Vec<Stmt>) -> Walk
    ensures loops { result.loops ≡ loops }
    ensures run { result.run.items ≡ [] }
    ensures adds { result.adds ≡ false }
{
    Walk {
        loops,
        run: Vec::new(alloc),
        adds: false,
    }
}

// The loop of a body.
fn whole_loop(alloc: Global, site: Site, filter: Expr, body: Stmt) -> Result<Stmt, AllocError>
    ensures { IfOk result (λ r. stmt_of r ≡ Program.Foreach site.key site.place site.head (expr_of filter) (stmt_of body)) }
{
    let (filter, body) = with_boxed(alloc, filter, body)?;
    Ok(Stmt::Foreach {
        key: site.key,
        place: site.place,
        head: site.head,
        filter,
        body,
    })
}

// The loop of a piece.
fn loop_of(alloc: Global, site: Site, mask: &Expr, body: Stmt) -> Result<Stmt, AllocError>
    ensures { IfOk result (λ r. stmt_of r ≡ Program.Foreach site.key site.place site.head (expr_of mask.now) (stmt_of body)) }
{
    let (body, filter) = beside(body, copy(alloc, mask))?;
    whole_loop(alloc, site, filter, body)
}

// One more own statement in the run.
fn join(site: Site, stmt: Stmt, walk: Walk) -> Result<Walk, AllocError>
    ensures loops { IfOk result (λ r. r.loops ≡ walk.loops) }
    ensures run { IfOk result (λ r. map stmt_of r.run.items ≡ map stmt_of walk.run.items ++ (stmt_of stmt ∷ [])) }
    ensures adds { IfOk result (λ r. r.adds ≡ walk.adds || Own.adds_beyond site.head.iterator (stmt_of stmt)) }
{
    let adds = walk.adds || adds_beyond(site.head.iterator, &stmt);
    let (loops, run) = with_pushed(walk.loops, walk.run, stmt)?;
    Ok(Walk { loops, run, adds })
}

// The walk behind the loop of its run, if that has statements.
fn close(alloc: Global, site: Site, mask: &Expr, walk: Walk) -> Result<Walk, AllocError>
    ensures loops { IfOk result (λ r. map stmt_of r.loops.items ≡ map stmt_of walk.loops.items ++ loops_of site.key site.place site.head (run_piece (expr_of mask.now) (map stmt_of walk.run.items))) }
    ensures run { IfOk result (λ r. r.run.items ≡ []) }
    ensures adds { IfOk result (λ r. r.adds ≡ false) }
{
    let Walk { loops, run, adds } = walk;
    if run.is_empty() {
        drop(run);
        return Ok(begin(alloc, loops));
    }
    let (loops, piece) = beside(loops, loop_of(alloc, site, mask, Stmt::Block(run)))?;
    let (_adds, loops) = with_pushed(adds, loops, piece)?;
    Ok(begin(alloc, loops))
}

// The other side of a condition.
fn negated(alloc: Global, place: Place, test: &Expr) -> Result<Expr, AllocError>
    ensures { IfOk result (λ r. expr_of r ≡ Program.Unary Not place (expr_of test.now)) }
{
    let part = copy(alloc, test)?;
    let inner = Box::new(alloc, part)?;
    Ok(Expr::Unary {
        op: Op1::Not,
        place,
        inner,
    })
}

// A condition beside a mask.
fn under(alloc: Global, mask: &Expr, test: Expr) -> Result<Expr, AllocError>
    ensures { IfOk result (λ r. expr_of r ≡ Program.Both (expr_of mask.now) (expr_of test)) }
{
    let (test, mask) = beside(test, copy(alloc, mask))?;
    let (left, right) = both_boxed(alloc, mask, test)?;
    Ok(Expr::Both(left, right))
}

// The loops of the pieces of a branch, under a filter.
#[cycle(walking)]
fn cut_under(
    alloc: Global,
    site: Site,
    s: Stmt,
    filter: &Expr,
    walk: Walk,
) -> Result<Walk, AllocError>
    requires run { walk.run.items ≡ [] }
    requires adds { walk.adds ≡ false }
    ensures loops { IfOk result (λ r. map stmt_of r.loops.items ≡ map stmt_of walk.loops.items ++ loops_of site.key site.place site.head (branch_pieces site.head.iterator site.place (expr_of filter.now) (stmt_of s))) }
    ensures run { IfOk result (λ r. r.run.items ≡ []) }
    ensures adds { IfOk result (λ r. r.adds ≡ false) }
{
    let behind = take(alloc, site, s, filter, walk)?;
    close(alloc, site, filter, behind)
}

// The loops of the pieces of a branch, under a side of its condition.
#[cycle(walking)]
fn cut_branch(
    alloc: Global,
    site: Site,
    s: Stmt,
    mask: &Expr,
    test: Expr,
    walk: Walk,
) -> Result<Walk, AllocError>
    requires run { walk.run.items ≡ [] }
    requires adds { walk.adds ≡ false }
    ensures loops { IfOk result (λ r. map stmt_of r.loops.items ≡ map stmt_of walk.loops.items ++ loops_of site.key site.place site.head (branch_pieces site.head.iterator site.place (Program.Both (expr_of mask.now) (expr_of test)) (stmt_of s))) }
    ensures run { IfOk result (λ r. r.run.items ≡ []) }
    ensures adds { IfOk result (λ r. r.adds ≡ false) }
{
    match under(alloc, mask, test) {
        Ok(filter) => {
            let outcome = cut_under(alloc, site, s, &filter, walk);
            drop(filter);
            outcome
        }
        Err(error) => {
            drop(s);
            drop(walk);
            Err(error)
        }
    }
}

// The loops of the pieces of a statement that is not own.
#[cycle(walking)]
fn cut(alloc: Global, site: Site, s: Stmt, mask: &Expr, walk: Walk) -> Result<Walk, AllocError>
    requires run { walk.run.items ≡ [] }
    requires adds { walk.adds ≡ false }
    ensures loops { IfOk result (λ r. map stmt_of r.loops.items ≡ map stmt_of walk.loops.items ++ loops_of site.key site.place site.head (cut_pieces site.head.iterator site.place (expr_of mask.now) (stmt_of s))) }
    ensures run { IfOk result (λ r. r.run.items ≡ []) }
    ensures adds { IfOk result (λ r. r.adds ≡ false) }
{
    match s {
        Stmt::If { test, yes, no, .. } => {
            let other = negated(alloc, site.place, &test)?;
            let walk = cut_branch(alloc, site, Box::into_inner(yes), mask, test, walk)?;
            cut_branch(alloc, site, Box::into_inner(no), mask, other, walk)
        }
        Stmt::Block(stmts) => push_loop(alloc, site, mask, Stmt::Block(stmts), walk),
        other => push_loop(alloc, site, mask, other, walk),
    }
}

// The walk behind the loop of one more piece.
fn push_loop(
    alloc: Global,
    site: Site,
    mask: &Expr,
    body: Stmt,
    walk: Walk,
) -> Result<Walk, AllocError>
    ensures loops { IfOk result (λ r. map stmt_of r.loops.items ≡ map stmt_of walk.loops.items ++ (Program.Foreach site.key site.place site.head (expr_of mask.now) (stmt_of body) ∷ [])) }
    ensures run { IfOk result (λ r. r.run ≡ walk.run) }
    ensures adds { IfOk result (λ r. r.adds ≡ walk.adds) }
{
    let (walk, piece) = beside(walk, loop_of(alloc, site, mask, body))?;
    let (run, loops) = with_pushed(walk.run, walk.loops, piece)?;
    Ok(Walk {
        loops,
        run,
        adds: walk.adds,
    })
}

// A statement that is no block behind what the walk has come to.
#[cycle(walking)]
fn take_one(alloc: Global, site: Site, s: Stmt, mask: &Expr, walk: Walk) -> Result<Walk, AllocError>
    requires single { is_block (stmt_of s) ≡ false }
    requires adds { walk.adds ≡ adds_in site.head.iterator (map stmt_of walk.run.items) }
    ensures loops { IfOk result (λ r. map stmt_of r.loops.items ≡ map stmt_of walk.loops.items ++ loops_of site.key site.place site.head (walked site.head.iterator site.place (expr_of mask.now) (map stmt_of walk.run.items) (stmt_of s)).pieces) }
    ensures run { IfOk result (λ r. map stmt_of r.run.items ≡ (walked site.head.iterator site.place (expr_of mask.now) (map stmt_of walk.run.items) (stmt_of s)).run) }
    ensures adds { IfOk result (λ r. r.adds ≡ adds_in site.head.iterator (map stmt_of r.run.items)) }
{
    if joins(site.head.iterator, walk.adds, &s) {
        return join(site, s, walk);
    }
    match close(alloc, site, mask, walk) {
        Ok(closed) => {
            if is_own(site.head.iterator, &s) {
                return join(site, s, closed);
            }
            cut(alloc, site, s, mask, closed)
        }
        Err(error) => {
            drop(s);
            Err(error)
        }
    }
}

// The statements of a block behind what the walk has come to.
#[cycle(walking)]
fn take_all(
    alloc: Global,
    site: Site,
    stmts: Vec<Stmt>,
    mask: &Expr,
    walk: Walk,
) -> Result<Walk, AllocError>
    requires { walk.adds ≡ adds_in site.head.iterator (map stmt_of walk.run.items) }
    ensures loops { IfOk result (λ r. map stmt_of r.loops.items ≡ map stmt_of walk.loops.items ++ loops_of site.key site.place site.head (walked site.head.iterator site.place (expr_of mask.now) (map stmt_of walk.run.items) (sequence (map stmt_of stmts.items))).pieces) }
    ensures run { IfOk result (λ r. map stmt_of r.run.items ≡ (walked site.head.iterator site.place (expr_of mask.now) (map stmt_of walk.run.items) (sequence (map stmt_of stmts.items))).run) }
    ensures adds { IfOk result (λ r. r.adds ≡ adds_in site.head.iterator (map stmt_of r.run.items)) }
{
    let mut behind = walk;
    for stmt in stmts {
        behind = take(alloc, site, stmt, mask, behind)?;
    }
    Ok(behind)
}

// A body behind what the walk has come to.
#[cycle(walking)]
fn take(alloc: Global, site: Site, s: Stmt, mask: &Expr, walk: Walk) -> Result<Walk, AllocError>
    requires { walk.adds ≡ adds_in site.head.iterator (map stmt_of walk.run.items) }
    ensures loops { IfOk result (λ r. map stmt_of r.loops.items ≡ map stmt_of walk.loops.items ++ loops_of site.key site.place site.head (walked site.head.iterator site.place (expr_of mask.now) (map stmt_of walk.run.items) (stmt_of s)).pieces) }
    ensures run { IfOk result (λ r. map stmt_of r.run.items ≡ (walked site.head.iterator site.place (expr_of mask.now) (map stmt_of walk.run.items) (stmt_of s)).run) }
    ensures adds { IfOk result (λ r. r.adds ≡ adds_in site.head.iterator (map stmt_of r.run.items)) }
{
    match s {
        Stmt::Block(stmts) => take_all(alloc, site, stmts, mask, walk),
        other => take_one(alloc, site, other, mask, walk),
    }
}

// The loops of the pieces of a body.
fn all_pieces(alloc: Global, site: Site, mask: &Expr, body: Stmt) -> Result<Vec<Stmt>, AllocError>
    ensures { IfOk result (λ r. map stmt_of r.items ≡ loops_of site.key site.place site.head (branch_pieces site.head.iterator site.place (expr_of mask.now) (stmt_of body))) }
{
    let walk = begin(alloc, Vec::new(alloc));
    let behind = take(alloc, site, body, mask, walk)?;
    let closed = close(alloc, site, mask, behind)?;
    let Walk { loops, run, .. } = closed;
    drop(run);
    Ok(loops)
}

// The same in a block.
fn part(alloc: Global, site: Site, mask: Expr, body: Stmt) -> Result<Stmt, AllocError>
    ensures { IfOk result (λ r. stmt_of r ≡ sequence (loops_of site.key site.place site.head (branch_pieces site.head.iterator site.place (expr_of mask) (stmt_of body)))) }
{
    let outcome = all_pieces(alloc, site, &mask, body);
    let (mask, loops) = beside(mask, outcome)?;
    drop(mask);
    Ok(Stmt::Block(loops))
}

// A loop over nodes, in pieces if it is not of own statements. Its filter and its body are taken out.
fn part_loop(
    alloc: Global,
    site: Site,
    filter: &mut Expr,
    body: &mut Stmt,
) -> Result<Stmt, AllocError>
    ensures { IfOk result (λ r. stmt_of r ≡ parted_loop site.key site.place site.head (expr_of filter.old) (stmt_of body.old)) }
{
    let filter = taken_value(filter);
    let body = taken(alloc, body);
    if is_own(site.head.iterator, &body) {
        return whole_loop(alloc, site, filter, body);
    }
    part(alloc, site, filter, body)
}

// Each loop of a block of the sequential phase comes in pieces so.
#[cycle(cutting)]
fn cut_block(alloc: Global, stmts: &mut Vec<Stmt>) -> Result<(), AllocError>
    ensures { OnOk result (sequence (map stmt_of stmts.new.items) ≡ each_loop parted_loop (sequence (map stmt_of stmts.old.items))) }
{
    for i in 0..stmts.len() {
        cut_phase(alloc, &mut stmts[i])?;
    }
    Ok(())
}

// The same of a sequential phase in a box.
#[cycle(cutting)]
fn cut_part(alloc: Global, s: &mut Box<Stmt>) -> Result<(), AllocError>
    ensures { OnOk result (stmt_of s.new.value ≡ each_loop parted_loop (stmt_of s.old.value)) }
{
    cut_phase(alloc, s)?;
    Ok(())
}

// The same of a sequential phase.
#[cycle(cutting)]
fn cut_phase(alloc: Global, s: &mut Stmt) -> Result<(), AllocError>
    ensures { OnOk result (stmt_of s.new ≡ each_loop parted_loop (stmt_of s.old)) }
{
    match s {
        Stmt::Block(stmts) => cut_block(alloc, stmts),
        Stmt::Foreach {
            key,
            place,
            head,
            filter,
            body,
        } => {
            let site = Site {
                key: *key,
                place: *place,
                head: *head,
            };
            let new = part_loop(alloc, site, filter, body)?;
            put(s, new);
            Ok(())
        }
        Stmt::For { body, .. } => cut_part(alloc, body),
        Stmt::If { yes, no, .. } => {
            cut_part(alloc, yes)?;
            cut_part(alloc, no)
        }
        Stmt::While { body, .. } => cut_part(alloc, body),
        Stmt::Do { body, .. } => cut_part(alloc, body),
        _ => Ok(()),
    }
}
