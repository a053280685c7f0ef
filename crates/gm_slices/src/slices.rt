//! Inner loops that go several ways, in slices.
//!
//! An inner loop that is the body of a loop over nodes and goes several ways becomes loops in turn, one for each group of
//! neighbouring statements that go one way. Each evaluates again what it needs of the statements before it, and nothing
//! else of them. One walk over the body comes to the groups: a statement that does more than set locals, by what cannot
//! fault, joins the group before it where their slice still goes one way, and begins another where it does not; any other
//! statement goes with the next one that does.

ghost use Rattle.std.specs.Prelude.{◌≡◌, ◌∷◌, [], ◌++◌, ◌||◌, false, true, List, IfOk, OnOk, filter, map};
ghost use Rattle.gm_ast.specs.Program as Program;
ghost use Rattle.gm_ast.specs.Program.{sequence};
ghost use Rattle.gm_ast.specs.Tree.{expr_of, program_of, stmt_of};
ghost use Rattle.gm_dissect.specs.Loops.{each_loop};
ghost use Rattle.gm_forms.specs.Meanings.{SameMeaning};
ghost use Rattle.gm_forms.specs.Ready.{Ready3};
ghost use Rattle.gm_cut.specs.Parts.{goes_any_way, IsPartedBy};
ghost use Rattle.gm_cut.specs.Lean.{can_be_lean, has_slices_that_go, in_lean_slices, lean_loop};
ghost use Rattle.gm_cut.specs.Slices as Slices;
ghost use Rattle.gm_slices.specs.Keeping as Keeping;
ghost use Rattle.gm_slices.specs.Nests.{nest_of};
ghost use Rattle.gm_slices.specs.OneWay.{has_loops_of_one_way};
ghost use Rattle.gm_slices.specs.SliceWalks as Walks;
ghost use Rattle.gm_slices.specs.SliceWalks.{goes, is_loop, loops_behind, loops_joined, nested, placed, slice_to, sliced_nest};

use crate::calm::adds_last;
use crate::keeping::{is_still, may_serve_again};
use crate::loops::{Site, loop_of, whole_loop};
use crate::needs::Ends;
use crate::slicing::{open, slice};
use gm_ast::forms::Work;
use gm_ast::tree::{Declaration, Expr, Head, Stmt, Tree};
use gm_base::NoMemory;
use gm_facts::ways::has_a_way;
use gm_trees::copies::copy_all;
use gm_trees::places::{beside, finish, put, taken, taken_value};
use std::alloc::{AllocError, Global};
use std::mem;

/// Writes each inner loop that goes several ways as those of its slices, each of which becomes a loop. A program whose
/// inner loops may be written so means the same, and is ready for flipping.
/// A body of so many groups is evaluated so many times, as far as each needs what comes before it. The call takes, for each
/// statement of an inner body that does more than set locals, time linear in its group and the statements before that set
/// something or declare an edge, times the depth of their Ifs and the logarithm of their variables.
pub fn slice_inner_loops(alloc: Global, program: Work) -> Result<Work, NoMemory>
    ensures made { IfOk result (λ r. program_of r ≡ in_lean_slices (program_of program)) }
    ensures same { IfOk result (λ r. IsPartedBy goes_any_way (program_of program) → can_be_lean (program_of program) ≡ true → SameMeaning (program_of program) (program_of r)) }
    ensures ready { IfOk result (λ r. IsPartedBy goes_any_way (program_of program) → can_be_lean (program_of program) ≡ true → Ready3 (program_of r)) }
    ensures ways { IfOk result (λ r. has_loops_of_one_way (program_of r) ≡ has_slices_that_go (program_of program)) }
{
    let mut tree = program.into_tree();
    let outcome = slice_tree(alloc, &mut tree);
    finish(tree, outcome)
}

// The same of a tree.
fn slice_tree(alloc: Global, tree: &mut Tree) -> Result<(), NoMemory>
    ensures { OnOk result (program_of tree.new ≡ in_lean_slices (program_of tree.old)) }
{
    slice_phase(alloc, &tree.declarations, &mut tree.body)?;
    Ok(())
}

/// Whether an inner loop goes one way, `outer` being the iterator around it, and nothing in it can fault behind a Sum or a
/// Product through a node variable.
pub fn goes_one_way(
    alloc: Global,
    declarations: &[Declaration],
    outer: u32,
    head: Head,
    test: &Expr,
    body: &Stmt,
) -> Result<bool, AllocError>
    ensures { IfOk result (λ r. r ≡ Slices.goes_one_way declarations.now outer head (expr_of test.now) (stmt_of body.now)) }
{
    if !has_a_way(declarations, outer, head, test, body) {
        return Ok(false);
    }
    adds_last(alloc, &[outer, head.iterator], body)
}

// A loop over nodes and its inner loop, but for the inner body.
#[derive(Drop)]
struct Nest {
    around: Site,
    within: Site,
    mask: Expr,
    test: Expr,
}

// What a walk has come to: the loops of the slices so far; the statements that are done; a group that goes on, unless it
// is new; and those that wait for one that does more than set locals.
#[derive(Drop)]
struct Groups {
    loops: Vec<Stmt>,
    done: Vec<Stmt>,
    group: Vec<Stmt>,
    waits: Vec<Stmt>,
    fresh: bool,
}

// A copy of some statements, in a block.
fn block_of(alloc: Global, stmts: &Vec<Stmt>) -> Result<Stmt, AllocError>
    ensures { IfOk result (λ r. stmt_of r ≡ sequence (map stmt_of stmts.now.items)) }
{
    let copies = copy_all(alloc, stmts, Vec::new(alloc))?;
    Ok(Stmt::Block(copies))
}

// Copies of some statements and of others, in a block.
fn block_of_both(alloc: Global, before: &Vec<Stmt>, behind: &Vec<Stmt>) -> Result<Stmt, AllocError>
    ensures { IfOk result (λ r. stmt_of r ≡ sequence (map stmt_of before.now.items ++ map stmt_of behind.now.items)) }
{
    let first = copy_all(alloc, before, Vec::new(alloc))?;
    let both = copy_all(alloc, behind, first)?;
    Ok(Stmt::Block(both))
}

// The slice of some statements and others, behind those that are done.
fn slice_of(
    alloc: Global,
    declarations: &[Declaration],
    nest: &Nest,
    done: &Vec<Stmt>,
    before: &Vec<Stmt>,
    behind: &Vec<Stmt>,
) -> Result<Stmt, AllocError>
    ensures { IfOk result (λ r. stmt_of r ≡ slice_to declarations.now (nest_of nest.now) (map stmt_of done.now.items) (map stmt_of before.now.items ++ map stmt_of behind.now.items)) }
{
    let ends = Ends {
        outer: nest.around.head.iterator,
        inner: nest.within.head.iterator,
    };
    let last = block_of_both(alloc, before, behind)?;
    let (group, first) = beside(last, block_of(alloc, done))?;
    slice(alloc, declarations, ends, first, group)
}

// Whether the inner loop of a body goes one way.
fn body_goes(
    alloc: Global,
    declarations: &[Declaration],
    nest: &Nest,
    body: &Stmt,
) -> Result<bool, AllocError>
    ensures { IfOk result (λ r. r ≡ goes declarations.now (nest_of nest.now) (stmt_of body.now)) }
{
    let outer = nest.around.head.iterator;
    goes_one_way(
        alloc,
        declarations,
        outer,
        nest.within.head,
        &nest.test,
        body,
    )
}

// Whether the slice up to the statements that wait goes on with the group.
fn goes_on(
    alloc: Global,
    declarations: &[Declaration],
    nest: &Nest,
    groups: &Groups,
) -> Result<bool, AllocError>
    ensures { IfOk result (λ r. r ≡ groups.now.fresh || goes declarations.now (nest_of nest.now) (slice_to declarations.now (nest_of nest.now) (map stmt_of groups.now.done.items) (map stmt_of groups.now.group.items ++ map stmt_of groups.now.waits.items))) }
{
    if groups.fresh {
        return Ok(true);
    }
    let body = slice_of(
        alloc,
        declarations,
        nest,
        &groups.done,
        &groups.group,
        &groups.waits,
    )?;
    let outcome = body_goes(alloc, declarations, nest, &body);
    drop(body);
    outcome
}

// The loops of an inner body.
fn loops_for(alloc: Global, nest: &Nest, body: Stmt) -> Result<Stmt, AllocError>
    ensures { IfOk result (λ r. stmt_of r ≡ nested (nest_of nest.now) (stmt_of body)) }
{
    let inner = loop_of(alloc, nest.within, &nest.test, body)?;
    loop_of(alloc, nest.around, &nest.mask, inner)
}

// The loops of the slice of some statements and others, behind others.
fn push_slice(
    alloc: Global,
    declarations: &[Declaration],
    nest: &Nest,
    done: &Vec<Stmt>,
    before: &Vec<Stmt>,
    behind: &Vec<Stmt>,
    loops: &mut Vec<Stmt>,
) -> Result<(), AllocError>
    ensures { OnOk result (map stmt_of loops.new.items ≡ map stmt_of loops.old.items ++ (nested (nest_of nest.now) (slice_to declarations.now (nest_of nest.now) (map stmt_of done.now.items) (map stmt_of before.now.items ++ map stmt_of behind.now.items)) ∷ [])) }
{
    let body = slice_of(alloc, declarations, nest, done, before, behind)?;
    let whole = loops_for(alloc, nest, body)?;
    loops.push(whole)?;
    Ok(())
}

// Puts a statement behind those that are done, if it may be evaluated again.
#[tactic(auto, using(crate::proofs::Done::one_kept, crate::proofs::Done::one_left))]
fn keep_one(
    declarations: &[Declaration],
    ends: Ends,
    stmt: Stmt,
    done: &mut Vec<Stmt>,
) -> Result<(), AllocError>
    ensures { OnOk result (map stmt_of done.new.items ≡ map stmt_of done.old.items ++ filter (Keeping.may_serve_again declarations.now (ends.outer ∷ ends.inner ∷ []) ends.outer) (stmt_of stmt ∷ [])) }
{
    if may_serve_again(declarations, ends, &stmt) {
        done.push(stmt)?;
        return Ok(());
    }
    drop(stmt);
    Ok(())
}

// The same of the statements of a group.
fn keep_done(
    declarations: &[Declaration],
    ends: Ends,
    group: Vec<Stmt>,
    done: &mut Vec<Stmt>,
) -> Result<(), AllocError>
    ensures { OnOk result (map stmt_of done.new.items ≡ map stmt_of done.old.items ++ filter (Keeping.may_serve_again declarations.now (ends.outer ∷ ends.inner ∷ []) ends.outer) (map stmt_of group.items)) }
{
    for stmt in group {
        keep_one(declarations, ends, stmt, done)?;
    }
    Ok(())
}

// Ends a group: its slice becomes loops, and its statements are done, but for those that set nothing.
fn end_group(
    alloc: Global,
    declarations: &[Declaration],
    nest: &Nest,
    groups: &mut Groups,
) -> Result<(), AllocError>
    ensures { (ss : List Program.Stmt) → OnOk result (map stmt_of groups.new.loops.items ++ loops_joined declarations.now (nest_of nest.now) (map stmt_of groups.new.done.items) (map stmt_of groups.new.group.items ++ map stmt_of groups.new.waits.items) ss
        ≡ map stmt_of groups.old.loops.items ++ (nested (nest_of nest.now) (slice_to declarations.now (nest_of nest.now) (map stmt_of groups.old.done.items) (map stmt_of groups.old.group.items)) ∷ loops_joined declarations.now (nest_of nest.now) (map stmt_of groups.old.done.items ++ map stmt_of groups.old.group.items) (map stmt_of groups.old.waits.items) ss)) }
{
    let none = Vec::new(alloc);
    push_slice(
        alloc,
        declarations,
        nest,
        &groups.done,
        &groups.group,
        &none,
        &mut groups.loops,
    )?;
    let ends = Ends {
        outer: nest.around.head.iterator,
        inner: nest.within.head.iterator,
    };
    let group = mem::replace(&mut groups.group, Vec::new(alloc));
    keep_done(declarations, ends, group, &mut groups.done)
}

// The statements that wait go on with the group.
fn join(declarations: &[Declaration], nest: &Nest, groups: &mut Groups) -> Result<(), AllocError>
    ensures { (ss : List Program.Stmt) → OnOk result (map stmt_of groups.new.loops.items ++ loops_behind declarations.now (nest_of nest.now) groups.new.fresh (map stmt_of groups.new.done.items) (map stmt_of groups.new.group.items) (map stmt_of groups.new.waits.items) ss
        ≡ map stmt_of groups.old.loops.items ++ loops_joined declarations.now (nest_of nest.now) (map stmt_of groups.old.done.items) (map stmt_of groups.old.group.items ++ map stmt_of groups.old.waits.items) ss) }
{
    groups.group.append(&mut groups.waits)?;
    groups.fresh = false;
    Ok(())
}

// The statements that wait begin another group.
fn begin_group(
    alloc: Global,
    declarations: &[Declaration],
    nest: &Nest,
    groups: &mut Groups,
) -> Result<(), AllocError>
    ensures { (ss : List Program.Stmt) → OnOk result (map stmt_of groups.new.loops.items ++ loops_behind declarations.now (nest_of nest.now) groups.new.fresh (map stmt_of groups.new.done.items) (map stmt_of groups.new.group.items) (map stmt_of groups.new.waits.items) ss
        ≡ map stmt_of groups.old.loops.items ++ (nested (nest_of nest.now) (slice_to declarations.now (nest_of nest.now) (map stmt_of groups.old.done.items) (map stmt_of groups.old.group.items)) ∷ loops_joined declarations.now (nest_of nest.now) (map stmt_of groups.old.done.items ++ map stmt_of groups.old.group.items) (map stmt_of groups.old.waits.items) ss)) }
{
    end_group(alloc, declarations, nest, groups)?;
    join(declarations, nest, groups)
}

// The statements that wait, of which the last does more than set locals, go on with the group or begin another.
fn place(
    alloc: Global,
    declarations: &[Declaration],
    nest: &Nest,
    groups: &mut Groups,
) -> Result<(), AllocError>
    ensures { (ss : List Program.Stmt) → OnOk result (map stmt_of groups.new.loops.items ++ loops_behind declarations.now (nest_of nest.now) groups.new.fresh (map stmt_of groups.new.done.items) (map stmt_of groups.new.group.items) (map stmt_of groups.new.waits.items) ss
        ≡ map stmt_of groups.old.loops.items ++ placed declarations.now (nest_of nest.now) groups.old.fresh (map stmt_of groups.old.done.items) (map stmt_of groups.old.group.items) (map stmt_of groups.old.waits.items) ss) }
{
    let goes = goes_on(alloc, declarations, nest, groups)?;
    if goes {
        return join(declarations, nest, groups);
    }
    begin_group(alloc, declarations, nest, groups)
}

// One more statement, which waits if it is still.
fn take_told(
    alloc: Global,
    declarations: &[Declaration],
    nest: &Nest,
    still: bool,
    s: Stmt,
    groups: &mut Groups,
) -> Result<(), AllocError>
    requires { still ≡ Walks.waits declarations.now (nest_of nest.now) (stmt_of s) }
    ensures { (ss : List Program.Stmt) → OnOk result (map stmt_of groups.new.loops.items ++ loops_behind declarations.now (nest_of nest.now) groups.new.fresh (map stmt_of groups.new.done.items) (map stmt_of groups.new.group.items) (map stmt_of groups.new.waits.items) ss
        ≡ map stmt_of groups.old.loops.items ++ loops_behind declarations.now (nest_of nest.now) groups.old.fresh (map stmt_of groups.old.done.items) (map stmt_of groups.old.group.items) (map stmt_of groups.old.waits.items) (stmt_of s ∷ ss)) }
{
    groups.waits.push(s)?;
    if still {
        return Ok(());
    }
    place(alloc, declarations, nest, groups)
}

// One more statement.
fn take(
    alloc: Global,
    declarations: &[Declaration],
    nest: &Nest,
    s: Stmt,
    groups: &mut Groups,
) -> Result<(), AllocError>
    ensures { (ss : List Program.Stmt) → OnOk result (map stmt_of groups.new.loops.items ++ loops_behind declarations.now (nest_of nest.now) groups.new.fresh (map stmt_of groups.new.done.items) (map stmt_of groups.new.group.items) (map stmt_of groups.new.waits.items) ss ≡ map stmt_of groups.old.loops.items ++ loops_behind declarations.now (nest_of nest.now) groups.old.fresh (map stmt_of groups.old.done.items) (map stmt_of groups.old.group.items) (map stmt_of groups.old.waits.items) (stmt_of s ∷ ss)) }
{
    let still = is_still(&[nest.around.head.iterator, nest.within.head.iterator], &s);
    take_told(alloc, declarations, nest, still, s, groups)
}

// The statements of a body one after another.
fn take_all(
    alloc: Global,
    declarations: &[Declaration],
    nest: &Nest,
    stmts: Vec<Stmt>,
    groups: &mut Groups,
) -> Result<(), AllocError>
    ensures { OnOk result (map stmt_of groups.new.loops.items ++ loops_behind declarations.now (nest_of nest.now) groups.new.fresh (map stmt_of groups.new.done.items) (map stmt_of groups.new.group.items) (map stmt_of groups.new.waits.items) [] ≡ map stmt_of groups.old.loops.items ++ loops_behind declarations.now (nest_of nest.now) groups.old.fresh (map stmt_of groups.old.done.items) (map stmt_of groups.old.group.items) (map stmt_of groups.old.waits.items) (map stmt_of stmts.items)) }
{
    for stmt in stmts {
        take(alloc, declarations, nest, stmt, groups)?;
    }
    Ok(())
}

// A walk that has come to nothing.
fn begin(alloc: Global) -> Groups
    ensures loops { result.loops.items ≡ [] }
    ensures done { result.done.items ≡ [] }
    ensures group { result.group.items ≡ [] }
    ensures waits { result.waits.items ≡ [] }
    ensures fresh { result.fresh ≡ true }
{
    Groups {
        loops: Vec::new(alloc),
        done: Vec::new(alloc),
        group: Vec::new(alloc),
        waits: Vec::new(alloc),
        fresh: true,
    }
}

// The loops of the slices of some statements.
fn all_slices(
    alloc: Global,
    declarations: &[Declaration],
    nest: &Nest,
    stmts: Vec<Stmt>,
) -> Result<Vec<Stmt>, AllocError>
    ensures { IfOk result (λ r. map stmt_of r.items ≡ loops_behind declarations.now (nest_of nest.now) true [] [] [] (map stmt_of stmts.items)) }
{
    let mut groups = begin(alloc);
    take_all(alloc, declarations, nest, stmts, &mut groups)?;
    let Groups {
        mut loops,
        done,
        group,
        waits,
        ..
    } = groups;
    push_slice(alloc, declarations, nest, &done, &group, &waits, &mut loops)?;
    Ok(loops)
}

// The loops of the slices of an inner body, in a block.
fn slice_body(
    alloc: Global,
    declarations: &[Declaration],
    nest: &Nest,
    body: Stmt,
) -> Result<Stmt, AllocError>
    ensures { IfOk result (λ r. stmt_of r ≡ sequence (loops_behind declarations.now (nest_of nest.now) true [] [] [] (Slices.statements_of (stmt_of body)))) }
{
    let stmts = open(alloc, body, Vec::new(alloc))?;
    let loops = all_slices(alloc, declarations, nest, stmts)?;
    Ok(Stmt::Block(loops))
}

// The loops of an inner body that goes one way.
fn whole_loops(alloc: Global, nest: Nest, body: Stmt) -> Result<Stmt, AllocError>
    ensures { IfOk result (λ r. stmt_of r ≡ nested (nest_of nest) (stmt_of body)) }
{
    let Nest {
        around,
        within,
        mask,
        test,
    } = nest;
    let (mask, inner) = beside(mask, whole_loop(alloc, within, test, body))?;
    whole_loop(alloc, around, mask, inner)
}

// The loops of the slices of an inner body that goes several ways.
fn cut_loops(
    alloc: Global,
    declarations: &[Declaration],
    nest: Nest,
    body: Stmt,
) -> Result<Stmt, AllocError>
    ensures { IfOk result (λ r. stmt_of r ≡ sequence (loops_behind declarations.now (nest_of nest) true [] [] [] (Slices.statements_of (stmt_of body)))) }
{
    let outcome = slice_body(alloc, declarations, &nest, body);
    drop(nest);
    outcome
}

// A loop over nodes and its inner loop, in slices if that goes several ways.
fn slice_nest(
    alloc: Global,
    declarations: &[Declaration],
    nest: Nest,
    body: Stmt,
) -> Result<Stmt, AllocError>
    ensures { IfOk result (λ r. stmt_of r ≡ sliced_nest declarations.now (nest_of nest) (stmt_of body)) }
{
    let outcome = body_goes(alloc, declarations, &nest, &body);
    let (parts, goes) = beside((nest, body), outcome)?;
    let (nest, body) = parts;
    if goes {
        return whole_loops(alloc, nest, body);
    }
    cut_loops(alloc, declarations, nest, body)
}

// A loop over nodes, in slices if it is an inner loop that goes several ways. Its filter and its body are taken out.
fn slice_loop(
    alloc: Global,
    declarations: &[Declaration],
    site: Site,
    filter: &mut Expr,
    body: &mut Stmt,
) -> Result<Stmt, AllocError>
    ensures { IfOk result (λ r. stmt_of r ≡ lean_loop declarations.now site.key site.place site.head (expr_of filter.old) (stmt_of body.old)) }
{
    let mask = taken_value(filter);
    let body = taken(alloc, body);
    slice_taken(alloc, declarations, site, mask, body)
}

// A loop whose body is no inner loop stands as it is.
fn keep_loop(
    alloc: Global,
    declarations: &[Declaration],
    around: Site,
    mask: Expr,
    body: Stmt,
) -> Result<Stmt, AllocError>
    requires { is_loop (stmt_of body) ≡ false }
    ensures { IfOk result (λ r. stmt_of r ≡ lean_loop declarations.now around.key around.place around.head (expr_of mask) (stmt_of body)) }
{
    whole_loop(alloc, around, mask, body)
}

// The same where it is a block.
fn keep_block(
    alloc: Global,
    declarations: &[Declaration],
    around: Site,
    mask: Expr,
    stmts: Vec<Stmt>,
) -> Result<Stmt, AllocError>
    ensures { IfOk result (λ r. stmt_of r ≡ lean_loop declarations.now around.key around.place around.head (expr_of mask) (sequence (map stmt_of stmts.items))) }
{
    whole_loop(alloc, around, mask, Stmt::Block(stmts))
}

// The same of a loop that was taken out.
fn slice_taken(
    alloc: Global,
    declarations: &[Declaration],
    around: Site,
    mask: Expr,
    body: Stmt,
) -> Result<Stmt, AllocError>
    ensures { IfOk result (λ r. stmt_of r ≡ lean_loop declarations.now around.key around.place around.head (expr_of mask) (stmt_of body)) }
{
    match body {
        Stmt::Foreach {
            key,
            place,
            head,
            filter,
            body,
        } => {
            let nest = Nest {
                around,
                within: Site { key, place, head },
                mask,
                test: filter,
            };
            slice_nest(alloc, declarations, nest, Box::into_inner(body))
        }
        Stmt::Block(stmts) => keep_block(alloc, declarations, around, mask, stmts),
        other => keep_loop(alloc, declarations, around, mask, other),
    }
}

// Each loop of a block of the sequential phase comes in slices so.
#[cycle(slicing)]
fn slice_all(
    alloc: Global,
    declarations: &[Declaration],
    stmts: &mut Vec<Stmt>,
) -> Result<(), AllocError>
    ensures { OnOk result (sequence (map stmt_of stmts.new.items) ≡ each_loop (lean_loop declarations.now) (sequence (map stmt_of stmts.old.items))) }
{
    for i in 0..stmts.len() {
        slice_phase(alloc, declarations, &mut stmts[i])?;
    }
    Ok(())
}

// The same of a sequential phase in a box.
#[cycle(slicing)]
fn slice_part(
    alloc: Global,
    declarations: &[Declaration],
    s: &mut Box<Stmt>,
) -> Result<(), AllocError>
    ensures { OnOk result (stmt_of s.new.value ≡ each_loop (lean_loop declarations.now) (stmt_of s.old.value)) }
{
    slice_phase(alloc, declarations, s)?;
    Ok(())
}

// The same of a sequential phase.
#[cycle(slicing)]
fn slice_phase(alloc: Global, declarations: &[Declaration], s: &mut Stmt) -> Result<(), AllocError>
    ensures { OnOk result (stmt_of s.new ≡ each_loop (lean_loop declarations.now) (stmt_of s.old)) }
{
    match s {
        Stmt::Block(stmts) => slice_all(alloc, declarations, stmts),
        Stmt::Foreach {
            key,
            place,
            head,
            filter,
            body,
        } => {
            let site = Site {
                key: *key,
                place: *place,
                head: *head,
            };
            let new = slice_loop(alloc, declarations, site, filter, body)?;
            put(s, new);
            Ok(())
        }
        Stmt::For { body, .. } => slice_part(alloc, declarations, body),
        Stmt::If { yes, no, .. } => {
            slice_part(alloc, declarations, yes)?;
            slice_part(alloc, declarations, no)
        }
        Stmt::While { body, .. } => slice_part(alloc, declarations, body),
        Stmt::Do { body, .. } => slice_part(alloc, declarations, body),
        _ => Ok(()),
    }
}
