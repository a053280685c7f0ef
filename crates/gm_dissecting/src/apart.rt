//! The statements of inner loops that go several ways, each alone under its conditions.
//!
//! The slice of an inner body up to a statement keeps what the statement needs, and the If around it whole. So that each
//! reduction may go its own way, conditions are saved in locals, and each statement of a branch stands alone under its
//! condition: `If (c) { s; t; } Else u;` is `Bool x = c; If (x) s; If (x) t; If (!x) u;`.

ghost use Rattle.std.specs.Prelude.{◌≡◌, ◌+◌, ◌∷◌, [], ◌++◌, false, Some, IfOk, OnOk, map};
ghost use Rattle.gm_ast.specs.Program as Program;
ghost use Rattle.gm_ast.specs.Program.{sequence};
ghost use Rattle.gm_ast.specs.Tree.{expr_of, program_of, stmt_of};
ghost use Rattle.gm_cut.specs.Parts.{goes_any_way, IsPartedBy};
ghost use Rattle.gm_cut.specs.Walks.{is_block};
ghost use Rattle.gm_dissect.specs.Loops.{each_loop};
ghost use Rattle.gm_dissecting.specs.Standing.{condition, inner_apart};
ghost use Rattle.gm_forms.specs.Meanings.{SameMeaning};
ghost use Rattle.gm_parting.specs.Apart.{apart, apart_loop, ifs_inside, inner_flag, inner_flags, most_ifs, under, with_statements_apart};
ghost use Rattle.gm_parting.specs.Numbers as Numbers;

use gm_ast::forms::Work;
use gm_ast::tree::{Declaration, Expr, Key, Sort, Stmt, Tree, Variable};
use gm_base::{Items, NoMemory, Place};
use gm_slices::slices::goes_one_way;
use gm_trees::places::{finish, put, taken, taken_value};
use gm_value::{Op1, VType};
use std::alloc::{AllocError, Global};

/// Writes the body of each inner loop that is the body of a loop and goes several ways so that its conditions are saved in
/// locals, and each statement stands alone under its own. The locals stand behind the program's variables. A program whose
/// loops are parted means the same and still is parted. It takes time linear in the program times the depth of its Ifs.
pub fn statements_apart(alloc: Global, program: Work) -> Result<Work, NoMemory>
    ensures made { IfOk result (λ r. program_of r ≡ with_statements_apart (program_of program)) }
    ensures same { IfOk result (λ r. IsPartedBy goes_any_way (program_of program) → SameMeaning (program_of program) (program_of r)) }
    ensures cut { IfOk result (λ r. IsPartedBy goes_any_way (program_of program) → IsPartedBy goes_any_way (program_of r)) }
{
    let mut tree = program.into_tree();
    let outcome = stand_tree(alloc, &mut tree);
    finish(tree, outcome)
}

// The same of a tree.
fn stand_tree(alloc: Global, tree: &mut Tree) -> Result<(), NoMemory>
    ensures { OnOk result (program_of tree.new ≡ with_statements_apart (program_of tree.old)) }
{
    let count = most_ifs(&tree.body)?;
    let first = u32::try_from(tree.declarations.len()).map_err(|_| NoMemory)?;
    stand_phase(alloc, &tree.declarations, first, &mut tree.body)?;
    declare(alloc, count, &mut tree.declarations)
}

// The sum of two numbers, where it is one.
fn sum(a: u32, b: u32) -> Result<u32, NoMemory>
    ensures { IfOk result (λ n. n ≡ a + b) }
{
    a.checked_add(b).ok_or(NoMemory)
}

// How many Ifs a block has.
#[cycle(counting)]
fn count_all(stmts: &Vec<Stmt>) -> Result<u32, NoMemory>
    ensures { IfOk result (λ n. n ≡ Numbers.count_ifs (sequence (map stmt_of stmts.now.items))) }
{
    let mut count = 0;
    for stmt in stmts {
        count = sum(count, count_ifs(stmt)?)?;
    }
    Ok(count)
}

// How many Ifs a body has.
#[cycle(counting)]
fn count_ifs(body: &Stmt) -> Result<u32, NoMemory>
    ensures { IfOk result (λ n. n ≡ Numbers.count_ifs (stmt_of body.now)) }
{
    match body {
        Stmt::Block(stmts) => count_all(stmts),
        Stmt::If { yes, no, .. } => {
            let first = count_ifs(yes)?;
            let second = count_ifs(no)?;
            sum(sum(first, second)?, 1)
        }
        _ => Ok(0),
    }
}

// How many Ifs the inner loop has that a loop's body is.
fn count_inside(body: &Stmt) -> Result<u32, NoMemory>
    ensures { IfOk result (λ n. n ≡ ifs_inside (stmt_of body.now)) }
{
    match body {
        Stmt::Foreach { body, .. } => count_ifs(body),
        Stmt::Block(_) => Ok(0),
        _ => Ok(0),
    }
}

// The most that one of a block of a sequential phase has.
#[cycle(bounding)]
fn most_of_all(stmts: &Vec<Stmt>) -> Result<u32, NoMemory>
    ensures { IfOk result (λ n. n ≡ most_ifs (sequence (map stmt_of stmts.now.items))) }
{
    let mut most = 0;
    for stmt in stmts {
        most = most.max(most_ifs(stmt)?);
    }
    Ok(most)
}

// The most that one of a sequential phase has.
#[cycle(bounding)]
fn most_ifs(s: &Stmt) -> Result<u32, NoMemory>
    ensures { IfOk result (λ n. n ≡ most_ifs (stmt_of s.now)) }
{
    match s {
        Stmt::Block(stmts) => most_of_all(stmts),
        Stmt::Foreach { body, .. } => count_inside(body),
        Stmt::For { body, .. } => most_ifs(body),
        Stmt::If { yes, no, .. } => {
            let first = most_ifs(yes)?;
            let second = most_ifs(no)?;
            Ok(first.max(second))
        }
        Stmt::While { body, .. } => most_ifs(body),
        Stmt::Do { body, .. } => most_ifs(body),
        _ => Ok(0),
    }
}

// A local of an inner body that holds a condition.
fn flag(alloc: Global) -> Declaration
    ensures { result ≡ inner_flag }
{
    Declaration {
        name: Items::new(Vec::new(alloc)),
        variable: Variable {
            sort: Sort::Scalar,
            vtype: VType::Flag,
            depth: 2,
        },
    }
}

// Adds so many of them.
fn declare(alloc: Global, count: u32, declarations: &mut Vec<Declaration>) -> Result<(), NoMemory>
    ensures { OnOk result (declarations.new.items ≡ declarations.old.items ++ inner_flags count) }
{
    for _i in 0..count {
        declarations.push(flag(alloc))?;
    }
    Ok(())
}

// A condition that is saved in a local: that it holds, or that it does not. `place` is that of a read that cannot fault.
#[derive(Clone, Copy)]
struct Saved {
    holds: bool,
    variable: u32,
    place: Place,
}

impl Saved {
    // The expression that asks it.
    fn asked(self, alloc: Global) -> Result<Expr, AllocError>
        ensures { IfOk result (λ r. expr_of r ≡ condition self.holds self.variable self.place) }
    {
        let read = Expr::Var {
            variable: self.variable,
            place: self.place,
        };
        if self.holds {
            return Ok(read);
        }
        let inner = Box::new(alloc, read)?;
        Ok(Expr::Unary {
            op: Op1::Not,
            place: self.place,
            inner,
        })
    }
}

// Each statement of a block stands under a condition alone.
#[cycle(putting)]
fn put_all_under(
    alloc: Global,
    key: Key,
    saved: Saved,
    stmts: &mut Vec<Stmt>,
) -> Result<(), AllocError>
    ensures { OnOk result (sequence (map stmt_of stmts.new.items) ≡ under key (condition saved.holds saved.variable saved.place) (sequence (map stmt_of stmts.old.items))) }
{
    for i in 0..stmts.len() {
        put_under(alloc, key, saved, &mut stmts[i])?;
    }
    Ok(())
}

// The same of a part in a box.
fn put_part_under(
    alloc: Global,
    key: Key,
    saved: Saved,
    s: &mut Box<Stmt>,
) -> Result<(), AllocError>
    ensures { OnOk result (stmt_of s.new.value ≡ under key (condition saved.holds saved.variable saved.place) (stmt_of s.old.value)) }
{
    put_under(alloc, key, saved, s)?;
    Ok(())
}

// The same of a part.
#[cycle(putting)]
fn put_under(alloc: Global, key: Key, saved: Saved, s: &mut Stmt) -> Result<(), AllocError>
    ensures { OnOk result (stmt_of s.new ≡ under key (condition saved.holds saved.variable saved.place) (stmt_of s.old)) }
{
    match s {
        Stmt::Block(stmts) => put_all_under(alloc, key, saved, stmts),
        _ => stand_under(alloc, key, saved, s),
    }
}

// A statement that is no block stands under a condition.
#[tactic(auto, using(crate::proofs::Standing::under_single))]
fn stand_under(alloc: Global, key: Key, saved: Saved, s: &mut Stmt) -> Result<(), AllocError>
    requires single { is_block (stmt_of s.old) ≡ false }
    ensures { OnOk result (stmt_of s.new ≡ under key (condition saved.holds saved.variable saved.place) (stmt_of s.old)) }
{
    let test = saved.asked(alloc)?;
    let yes = taken(alloc, s);
    let new = if_alone(alloc, key, test, yes)?;
    put(s, new);
    Ok(())
}

// An If without an Else.
fn if_alone(alloc: Global, key: Key, test: Expr, yes: Stmt) -> Result<Stmt, AllocError>
    ensures { IfOk result (λ r. stmt_of r ≡ Program.If key (expr_of test) (stmt_of yes) Program.Skip) }
{
    let yes = Box::new(alloc, yes)?;
    let no = Box::new(alloc, Stmt::Block(Vec::new(alloc)))?;
    Ok(Stmt::If { key, test, yes, no })
}

// The parts that an If becomes, whose condition is saved in a local, with the statements of its branches under it.
fn opened(
    alloc: Global,
    place: Place,
    variable: u32,
    key: Key,
    test: &mut Expr,
    yes: &mut Box<Stmt>,
    no: &mut Box<Stmt>,
) -> Result<Stmt, AllocError>
    ensures { IfOk result (λ r. stmt_of r ≡ sequence (Program.Declare key variable (Some (expr_of test.old))
        ∷ under key (Program.Var variable place) (stmt_of yes.old.value) ∷ under key (condition false variable place) (stmt_of no.old.value) ∷ [])) }
{
    let saved = Saved {
        holds: true,
        variable,
        place,
    };
    put_part_under(alloc, key, saved, yes)?;
    put_part_under(
        alloc,
        key,
        Saved {
            holds: false,
            ..saved
        },
        no,
    )?;
    three(
        alloc,
        Stmt::Declare {
            key,
            variable,
            value: Some(taken_value(test)),
        },
        taken(alloc, yes),
        taken(alloc, no),
    )
}

// A block of three statements.
fn three(alloc: Global, a: Stmt, b: Stmt, c: Stmt) -> Result<Stmt, AllocError>
    ensures { IfOk result (λ r. stmt_of r ≡ sequence (stmt_of a ∷ stmt_of b ∷ stmt_of c ∷ [])) }
{
    let stmts = vec![in alloc; a, b, c]?;
    Ok(Stmt::Block(stmts))
}

// The statements of a block of an inner body stand apart, with locals from the next on. Answers the next one then.
#[cycle(standing)]
fn stand_all(alloc: Global, place: Place, next: u32, stmts: &mut Vec<Stmt>) -> Result<u32, NoMemory>
    ensures next { IfOk result (λ n. n ≡ next + Numbers.count_ifs (sequence (map stmt_of stmts.old.items))) }
    ensures changed { IfOk result (λ n. sequence (map stmt_of stmts.new.items) ≡ apart place next (sequence (map stmt_of stmts.old.items))) }
{
    let mut so_far = next;
    for i in 0..stmts.len() {
        let now = stand(alloc, place, so_far, &mut stmts[i])?;
        so_far = now;
    }
    Ok(so_far)
}

// The same of a body in a box.
#[cycle(standing)]
fn stand_inner(
    alloc: Global,
    place: Place,
    next: u32,
    body: &mut Box<Stmt>,
) -> Result<u32, NoMemory>
    ensures next { IfOk result (λ n. n ≡ next + Numbers.count_ifs (stmt_of body.old.value)) }
    ensures changed { IfOk result (λ n. stmt_of body.new.value ≡ apart place next (stmt_of body.old.value)) }
{
    let now = stand(alloc, place, next, body)?;
    Ok(now)
}

// The same of a body.
#[cycle(standing)]
fn stand(alloc: Global, place: Place, next: u32, body: &mut Stmt) -> Result<u32, NoMemory>
    ensures next { IfOk result (λ n. n ≡ next + Numbers.count_ifs (stmt_of body.old)) }
    ensures changed { IfOk result (λ n. stmt_of body.new ≡ apart place next (stmt_of body.old)) }
{
    match body {
        Stmt::Block(stmts) => stand_all(alloc, place, next, stmts),
        Stmt::If { key, test, yes, no } => {
            let within = sum(next, 1)?;
            let behind = stand_inner(alloc, place, within, yes)?;
            let end = stand_inner(alloc, place, behind, no)?;
            let new = opened(alloc, place, next, *key, test, yes, no)?;
            put(body, new);
            Ok(end)
        }
        _ => Ok(next),
    }
}

// The statements of an inner loop that is the body of a loop stand apart, where it goes several ways.
fn stand_loop(
    alloc: Global,
    declarations: &[Declaration],
    first: u32,
    outer: u32,
    body: &mut Stmt,
) -> Result<(), NoMemory>
    ensures { OnOk result (stmt_of body.new ≡ inner_apart declarations.now first outer (stmt_of body.old)) }
{
    match body {
        Stmt::Foreach {
            key: _key,
            place,
            head,
            filter,
            body,
        } => {
            if !goes_one_way(alloc, declarations, outer, *head, filter, body)? {
                stand_inner(alloc, *place, first, body)?;
            }
            Ok(())
        }
        Stmt::Block(_) => Ok(()),
        _ => Ok(()),
    }
}

// The same of a body in a box.
fn stand_body(
    alloc: Global,
    declarations: &[Declaration],
    first: u32,
    outer: u32,
    body: &mut Box<Stmt>,
) -> Result<(), NoMemory>
    ensures { OnOk result (stmt_of body.new.value ≡ inner_apart declarations.now first outer (stmt_of body.old.value)) }
{
    stand_loop(alloc, declarations, first, outer, body)?;
    Ok(())
}

// The same of the loops in a block of a sequential phase.
#[cycle(loops)]
fn stand_phases(
    alloc: Global,
    declarations: &[Declaration],
    first: u32,
    stmts: &mut Vec<Stmt>,
) -> Result<(), NoMemory>
    ensures { OnOk result (sequence (map stmt_of stmts.new.items) ≡ each_loop (apart_loop declarations.now first) (sequence (map stmt_of stmts.old.items))) }
{
    for i in 0..stmts.len() {
        stand_phase(alloc, declarations, first, &mut stmts[i])?;
    }
    Ok(())
}

// The same of a sequential phase in a box.
#[cycle(loops)]
fn stand_part(
    alloc: Global,
    declarations: &[Declaration],
    first: u32,
    s: &mut Box<Stmt>,
) -> Result<(), NoMemory>
    ensures { OnOk result (stmt_of s.new.value ≡ each_loop (apart_loop declarations.now first) (stmt_of s.old.value)) }
{
    stand_phase(alloc, declarations, first, s)?;
    Ok(())
}

// The same of a sequential phase.
#[cycle(loops)]
fn stand_phase(
    alloc: Global,
    declarations: &[Declaration],
    first: u32,
    s: &mut Stmt,
) -> Result<(), NoMemory>
    ensures { OnOk result (stmt_of s.new ≡ each_loop (apart_loop declarations.now first) (stmt_of s.old)) }
{
    match s {
        Stmt::Block(stmts) => stand_phases(alloc, declarations, first, stmts),
        Stmt::Foreach {
            key: _key,
            place: _place,
            head,
            filter: _filter,
            body,
        } => stand_body(alloc, declarations, first, head.iterator, body),
        Stmt::For { body, .. } => stand_part(alloc, declarations, first, body),
        Stmt::If { yes, no, .. } => {
            stand_part(alloc, declarations, first, yes)?;
            stand_part(alloc, declarations, first, no)
        }
        Stmt::While { body, .. } => stand_part(alloc, declarations, first, body),
        Stmt::Do { body, .. } => stand_part(alloc, declarations, first, body),
        _ => Ok(()),
    }
}
