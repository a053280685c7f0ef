//! Reads of the sequential phase, each set to a variable of its own.
//!
//! In a sequential phase what is read through node variables, and reductions, come before the rest of an expression,
//! from left to right. So `x = a.p + Sum(n: G.Nodes){n.q};` is `t = a.p; u = Sum(n: G.Nodes){n.q}; x = t + u;` with new
//! variables, in administrative normal form: each such read stands alone as the value of a scalar, and scalars and
//! counts tell what is declared, assigned and returned else.

ghost use Rattle.std.specs.Prelude.{◌≡◌, ◌+◌, ◌++◌, true, [], ◌∷◌, IfOk, OnOk, map, option_map};
ghost use Rattle.gm_base.specs.declared.places.Place.{Place};
ghost use Rattle.gm_ast.specs.Program as Program;
ghost use Rattle.gm_ast.specs.Program.{sequence};
ghost use Rattle.gm_ast.specs.Tree.{expr_of, program_of, stmt_of};
ghost use Rattle.gm_forms.specs.Meanings.{SameMeaning};
ghost use Rattle.gm_forms.specs.Typing.{type_at};
ghost use Rattle.gm_forms.specs.Uses.{is_named};
ghost use Rattle.gm_desugar.specs.Conditions as Conditions;
ghost use Rattle.gm_trees.specs.Places as Places;
ghost use Rattle.gm_desugar.specs.Reads as Reads;
ghost use Rattle.gm_desugar.specs.Reads.{apart, count_read, count_reads, with_reads_apart};
ghost use Rattle.gm_desugar.specs.Stages.{WithConditions, WithReadsApart};

use crate::conditions::{asked, fresh, is_told, set_to};
use gm_ast::forms::Work;
use gm_ast::tree::{Declaration, Expr, Key, Stmt, Target, Tree};
use gm_base::NoMemory;
use gm_trees::copies::copy;
use gm_trees::places::{finish, put, put_after_all};
use gm_value::VType;
use std::alloc::{AllocError, Global};

/// Sets each read of what the sequential phase declares, assigns and returns to a new variable, unless it stands alone
/// as the value of a scalar. Where each variable stands in the table as it is used, the program means the same. If it
/// was ready for the passes, it still is, and each read stands alone. Answers want of memory too where the table has
/// no room for the variables.
pub fn reads_out(alloc: Global, program: Work) -> Result<Work, NoMemory>
    ensures made { IfOk result (λ r. program_of r ≡ with_reads_apart (program_of program)) }
    ensures same { IfOk result (λ r. is_named (program_of program) ≡ true → SameMeaning (program_of program) (program_of r)) }
    ensures ready { IfOk result (λ r. WithConditions (program_of program) → WithReadsApart (program_of r)) }
{
    let mut tree = program.into_tree();
    let outcome = set_reads(alloc, &mut tree);
    finish(tree, outcome)
}

// The same of a tree.
fn set_reads(alloc: Global, tree: &mut Tree) -> Result<(), NoMemory>
    ensures { OnOk result (program_of tree.new ≡ with_reads_apart (program_of tree.old)) }
{
    let Ok(first) = u32::try_from(tree.declarations.len()) else {
        return Err(NoMemory);
    };
    let mut types = Vec::new(alloc);
    types_apart(&tree.declarations, &tree.body, &mut types)?;
    add_fresh(alloc, types, &mut tree.declarations)?;
    let mut next = first;
    set_apart(alloc, &mut next, &mut tree.body)?;
    Ok(())
}

/// Adds a scalar of each type that no text declares.
pub fn add_fresh(
    alloc: Global,
    types: Vec<VType>,
    declarations: &mut Vec<Declaration>,
) -> Result<(), AllocError>
    ensures { OnOk result (declarations.new.items ≡ declarations.old.items ++ map Conditions.fresh types.items) }
{
    for vtype in types {
        declarations.push(fresh(alloc, vtype))?;
    }
    Ok(())
}

/// The type of a variable.
pub fn type_of(declarations: &[Declaration], variable: u32) -> VType
    ensures { result ≡ type_at declarations.now variable }
{
    match declarations.get(variable as usize) {
        Some(declaration) => declaration.variable.vtype,
        None => VType::I32,
    }
}

/// Takes the next of the new variables. Answers want of memory where no number is behind it.
pub fn take_next(next: &mut u32) -> Result<u32, AllocError>
    ensures taken { IfOk result (λ n. n ≡ next.old) }
    ensures next { OnOk result (next.new ≡ next.old + 1) }
{
    let variable = *next;
    match variable.checked_add(1) {
        Some(more) => {
            *next = more;
            Ok(variable)
        }
        None => Err(AllocError),
    }
}

/// Adds the types of an expression's reads, from left to right.
pub fn types_read(
    declarations: &[Declaration],
    e: &Expr,
    types: &mut Vec<VType>,
) -> Result<(), AllocError>
    ensures { OnOk result (types.new.items ≡ types.old.items ++ Reads.types_read declarations.now (expr_of e.now)) }
{
    match e {
        Expr::Const(_) => Ok(()),
        Expr::Var { .. } => Ok(()),
        Expr::Property { property, .. } => {
            types.push(type_of(declarations, *property))?;
            Ok(())
        }
        Expr::EdgeProperty { .. } => Ok(()),
        Expr::Degree { .. } => {
            types.push(VType::I32)?;
            Ok(())
        }
        Expr::NodeCount => Ok(()),
        Expr::EdgeCount => Ok(()),
        Expr::Live { .. } => {
            types.push(VType::Node)?;
            Ok(())
        }
        Expr::Unary { inner, .. } => types_read(declarations, inner, types),
        Expr::Binary { left, right, .. } => {
            types_read(declarations, left, types)?;
            types_read(declarations, right, types)
        }
        Expr::Both(left, right) => {
            types_read(declarations, left, types)?;
            types_read(declarations, right, types)
        }
        Expr::Either(left, right) => {
            types_read(declarations, left, types)?;
            types_read(declarations, right, types)
        }
        Expr::Choose(test, yes, no) => {
            types_read(declarations, test, types)?;
            types_read(declarations, yes, types)?;
            types_read(declarations, no, types)
        }
        Expr::Fold { fold, .. } => {
            types.push(fold.vtype)?;
            Ok(())
        }
    }
}

/// Adds the reads of an expression, each set to the next variable, from left to right.
pub fn reads_set(
    alloc: Global,
    next: &mut u32,
    key: Key,
    e: &Expr,
    set: &mut Vec<Stmt>,
) -> Result<(), AllocError>
    ensures set { OnOk result (map stmt_of set.new.items ≡ map stmt_of set.old.items ++ Reads.reads_set next.old key (expr_of e.now)) }
    ensures next { OnOk result (next.new ≡ next.old + count_read (expr_of e.now)) }
{
    match e {
        Expr::Const(_) => Ok(()),
        Expr::Var { .. } => Ok(()),
        Expr::EdgeProperty { .. } => Ok(()),
        Expr::NodeCount => Ok(()),
        Expr::EdgeCount => Ok(()),
        Expr::Property { .. } => one_set(alloc, next, key, e, set),
        Expr::Degree { .. } => one_set(alloc, next, key, e, set),
        Expr::Live { .. } => one_set(alloc, next, key, e, set),
        Expr::Fold { .. } => one_set(alloc, next, key, e, set),
        Expr::Unary { inner, .. } => reads_set(alloc, next, key, inner, set),
        Expr::Binary { left, right, .. } => {
            reads_set(alloc, next, key, left, set)?;
            reads_set(alloc, next, key, right, set)
        }
        Expr::Both(left, right) => {
            reads_set(alloc, next, key, left, set)?;
            reads_set(alloc, next, key, right, set)
        }
        Expr::Either(left, right) => {
            reads_set(alloc, next, key, left, set)?;
            reads_set(alloc, next, key, right, set)
        }
        Expr::Choose(test, yes, no) => {
            reads_set(alloc, next, key, test, set)?;
            reads_set(alloc, next, key, yes, set)?;
            reads_set(alloc, next, key, no, set)
        }
    }
}

// Adds one read, set to the next variable.
fn one_set(
    alloc: Global,
    next: &mut u32,
    key: Key,
    e: &Expr,
    set: &mut Vec<Stmt>,
) -> Result<(), AllocError>
    ensures set { OnOk result (map stmt_of set.new.items ≡ map stmt_of set.old.items ++ (Conditions.set_to next.old key (expr_of e.now) ∷ [])) }
    ensures next { OnOk result (next.new ≡ next.old + 1) }
{
    let variable = take_next(next)?;
    let read = copy(alloc, e)?;
    set.push(set_to(variable, key, read))?;
    Ok(())
}

// A read becomes the next variable.
fn tell_read(next: &mut u32, e: &mut Expr) -> Result<(), AllocError>
    ensures told { OnOk result (expr_of e.new ≡ Conditions.asked next.old) }
    ensures next { OnOk result (next.new ≡ next.old + 1) }
{
    let variable = take_next(next)?;
    put(e, asked(variable));
    Ok(())
}

// The reads of an expression in a box become the next variables.
#[cycle(telling)]
fn tell_part(next: &mut u32, e: &mut Box<Expr>) -> Result<(), AllocError>
    ensures told { OnOk result (expr_of e.new.value ≡ Reads.told_from next.old (expr_of e.old.value)) }
    ensures next { OnOk result (next.new ≡ next.old + count_read (expr_of e.old.value)) }
{
    tell(next, e)?;
    Ok(())
}

/// The reads of an expression become the next variables.
#[cycle(telling)]
pub fn tell(next: &mut u32, e: &mut Expr) -> Result<(), AllocError>
    ensures told { OnOk result (expr_of e.new ≡ Reads.told_from next.old (expr_of e.old)) }
    ensures next { OnOk result (next.new ≡ next.old + count_read (expr_of e.old)) }
{
    match e {
        Expr::Property { .. } => tell_read(next, e),
        Expr::Degree { .. } => tell_read(next, e),
        Expr::Live { .. } => tell_read(next, e),
        Expr::Fold { .. } => tell_read(next, e),
        Expr::Unary { inner, .. } => tell_part(next, inner),
        Expr::Binary { left, right, .. } => {
            tell_part(next, left)?;
            tell_part(next, right)
        }
        Expr::Both(left, right) => {
            tell_part(next, left)?;
            tell_part(next, right)
        }
        Expr::Either(left, right) => {
            tell_part(next, left)?;
            tell_part(next, right)
        }
        Expr::Choose(test, yes, no) => {
            tell_part(next, test)?;
            tell_part(next, yes)?;
            tell_part(next, no)
        }
        _ => Ok(()),
    }
}

// Whether an expression names a variable.
fn names(x: u32, e: &Expr) -> bool
    ensures { result ≡ Reads.names x (expr_of e.now) }
{
    match e {
        Expr::Const(_) => false,
        Expr::Var { variable, .. } => *variable == x,
        Expr::Property {
            owner,
            property,
            ..
        } => *owner == x || *property == x,
        Expr::EdgeProperty { property, .. } => *property == x,
        Expr::Degree { owner, .. } => *owner == x,
        Expr::NodeCount => false,
        Expr::EdgeCount => false,
        Expr::Live { variable, .. } => *variable == x,
        Expr::Unary { inner, .. } => names(x, inner),
        Expr::Binary { left, right, .. } => names(x, left) || names(x, right),
        Expr::Both(left, right) => names(x, left) || names(x, right),
        Expr::Either(left, right) => names(x, left) || names(x, right),
        Expr::Choose(test, yes, no) => names(x, test) || (names(x, yes) || names(x, no)),
        Expr::Fold {
            head,
            filter,
            body,
            ..
        } => head.owner == x || (names(x, filter) || names(x, body)),
    }
}

// Whether an expression is one read that a scalar may be set to.
fn is_read(x: u32, e: &Expr) -> bool
    ensures { result ≡ Reads.is_read x (expr_of e.now) }
{
    match e {
        Expr::Const(_) => false,
        Expr::Var { .. } => false,
        Expr::Property { .. } => true,
        Expr::EdgeProperty { .. } => false,
        Expr::Degree { .. } => true,
        Expr::NodeCount => false,
        Expr::EdgeCount => false,
        Expr::Live { .. } => true,
        Expr::Unary { .. } => false,
        Expr::Binary { .. } => false,
        Expr::Both(_, _) => false,
        Expr::Either(_, _) => false,
        Expr::Choose(_, _, _) => false,
        Expr::Fold { .. } => !names(x, e),
    }
}

// Whether an expression is one read that a scalar may be set to, or scalars and counts tell it.
fn is_single(x: u32, e: &Expr) -> bool
    ensures { result ≡ Reads.is_single x (expr_of e.now) }
{
    is_told(e) || is_read(x, e)
}

// Whether an assignment's value may stay as it is.
fn stays_alone(target: Target, value: &Expr) -> bool
    ensures { result ≡ Reads.stays_alone target (expr_of value.now) }
{
    match target {
        Target::Scalar { variable, .. } => is_single(variable, value),
        Target::Property { .. } => is_told(value),
    }
}

// Adds the types of an expression's reads, unless it stands alone.
fn types_unless(
    alone: bool,
    declarations: &[Declaration],
    e: &Expr,
    types: &mut Vec<VType>,
) -> Result<(), AllocError>
    ensures { OnOk result (types.new.items ≡ types.old.items ++ Reads.types_unless alone declarations.now (expr_of e.now)) }
{
    if alone {
        return Ok(());
    }
    types_read(declarations, e, types)
}

// Adds the types of the reads of what a declaration sets, if it sets anything.
fn types_declared(
    declarations: &[Declaration],
    variable: u32,
    value: &Option<Expr>,
    types: &mut Vec<VType>,
) -> Result<(), AllocError>
    ensures { OnOk result (types.new.items ≡ types.old.items ++ Reads.types_declared declarations.now variable (option_map expr_of value.now)) }
{
    match value {
        Some(value) => types_unless(is_single(variable, value), declarations, value, types),
        None => Ok(()),
    }
}

// Adds the types of the reads of what is returned, if anything is.
fn types_returned(
    declarations: &[Declaration],
    value: &Option<Expr>,
    types: &mut Vec<VType>,
) -> Result<(), AllocError>
    ensures { OnOk result (types.new.items ≡ types.old.items ++ Reads.types_returned declarations.now (option_map expr_of value.now)) }
{
    match value {
        Some(value) => types_unless(is_told(value), declarations, value, types),
        None => Ok(()),
    }
}

// Adds the types of the reads of the statements of a block.
#[cycle(typing)]
fn types_among(
    declarations: &[Declaration],
    stmts: &Vec<Stmt>,
    types: &mut Vec<VType>,
) -> Result<(), AllocError>
    ensures { OnOk result (types.new.items ≡ types.old.items ++ Reads.types_apart declarations.now (Program.sequence (map stmt_of stmts.now.items))) }
{
    for stmt in stmts {
        types_apart(declarations, stmt, types)?;
    }
    Ok(())
}

// Adds the types of the reads of a sequential phase.
#[cycle(typing)]
fn types_apart(
    declarations: &[Declaration],
    s: &Stmt,
    types: &mut Vec<VType>,
) -> Result<(), AllocError>
    ensures { OnOk result (types.new.items ≡ types.old.items ++ Reads.types_apart declarations.now (stmt_of s.now)) }
{
    match s {
        Stmt::Block(stmts) => types_among(declarations, stmts, types),
        Stmt::Declare {
            variable,
            value,
            ..
        } => types_declared(declarations, *variable, value, types),
        Stmt::Assign { target, value, .. } => {
            types_unless(stays_alone(*target, value), declarations, value, types)
        }
        Stmt::For { body, .. } => types_apart(declarations, body, types),
        Stmt::If { yes, no, .. } => {
            types_apart(declarations, yes, types)?;
            types_apart(declarations, no, types)
        }
        Stmt::While { body, .. } => types_apart(declarations, body, types),
        Stmt::Do { body, .. } => types_apart(declarations, body, types),
        Stmt::Return { value, .. } => types_returned(declarations, value, types),
        _ => Ok(()),
    }
}

// Adds the reads of an expression, each set to the next variable. The expression tells these variables then.
fn set_and_tell(
    alloc: Global,
    next: &mut u32,
    key: Key,
    e: &mut Expr,
    set: &mut Vec<Stmt>,
) -> Result<(), AllocError>
    ensures set { OnOk result (map stmt_of set.new.items ≡ map stmt_of set.old.items ++ Reads.reads_set next.old key (expr_of e.old)) }
    ensures told { OnOk result (expr_of e.new ≡ Reads.told_from next.old (expr_of e.old)) }
    ensures next { OnOk result (next.new ≡ next.old + count_read (expr_of e.old)) }
{
    let mut from = *next;
    reads_set(alloc, &mut from, key, e, set)?;
    tell(next, e)
}

// The reads of an expression, each set to the next variable. The expression tells these variables then.
fn reads_apart(
    alloc: Global,
    next: &mut u32,
    key: Key,
    e: &mut Expr,
) -> Result<Vec<Stmt>, AllocError>
    ensures set { IfOk result (λ r. map stmt_of r.items ≡ Reads.reads_set next.old key (expr_of e.old)) }
    ensures told { OnOk result (expr_of e.new ≡ Reads.told_from next.old (expr_of e.old)) }
    ensures next { OnOk result (next.new ≡ next.old + count_read (expr_of e.old)) }
{
    let mut set = Vec::new(alloc);
    match set_and_tell(alloc, next, key, e, &mut set) {
        Ok(()) => Ok(set),
        Err(error) => {
            drop(set);
            Err(error)
        }
    }
}

// The same of an expression, unless it stands alone.
fn reads_unless(
    alloc: Global,
    next: &mut u32,
    alone: bool,
    key: Key,
    e: &mut Expr,
) -> Result<Option<Vec<Stmt>>, AllocError>
    ensures set { IfOk result (λ r. option_map (λ v. map stmt_of v.items) r ≡ Reads.set_unless alone next.old key (expr_of e.old)) }
    ensures told { OnOk result (expr_of e.new ≡ Reads.told_unless alone next.old (expr_of e.old)) }
    ensures next { OnOk result (next.new ≡ next.old + Reads.count_unless alone (expr_of e.old)) }
{
    if alone {
        return Ok(None);
    }
    let set = reads_apart(alloc, next, key, e)?;
    Ok(Some(set))
}

// The same of what is assigned.
fn assigned_apart(
    alloc: Global,
    next: &mut u32,
    key: Key,
    target: Target,
    value: &mut Expr,
) -> Result<Option<Vec<Stmt>>, AllocError>
    ensures apart { IfOk result (λ r. Places.after_all (option_map (λ v. map stmt_of v.items) r) (Program.Assign key target (expr_of value.new)) ≡ apart next.old (Program.Assign key target (expr_of value.old))) }
    ensures next { OnOk result (next.new ≡ next.old + count_reads (Program.Assign key target (expr_of value.old))) }
{
    let alone = stays_alone(target, value);
    let set = reads_unless(alloc, next, alone, key, value)?;
    Ok(set)
}

// The same of what a declaration sets, if it sets anything.
fn declared_apart(
    alloc: Global,
    next: &mut u32,
    key: Key,
    variable: u32,
    value: &mut Option<Expr>,
) -> Result<Option<Vec<Stmt>>, AllocError>
    ensures apart { IfOk result (λ r. Places.after_all (option_map (λ v. map stmt_of v.items) r) (Program.Declare key variable (option_map expr_of value.new)) ≡ apart next.old (Program.Declare key variable (option_map expr_of value.old))) }
    ensures next { OnOk result (next.new ≡ next.old + count_reads (Program.Declare key variable (option_map expr_of value.old))) }
{
    match value {
        None => Ok(None),
        Some(value) => {
            let alone = is_single(variable, value);
            let set = reads_unless(alloc, next, alone, key, value)?;
            Ok(set)
        }
    }
}

// The same of what is returned, if anything is.
fn returned_apart(
    alloc: Global,
    next: &mut u32,
    key: Key,
    value: &mut Option<Expr>,
) -> Result<Option<Vec<Stmt>>, AllocError>
    ensures apart { IfOk result (λ r. (at : Place) → Places.after_all (option_map (λ v. map stmt_of v.items) r) (Program.Return key at (option_map expr_of value.new)) ≡ apart next.old (Program.Return key at (option_map expr_of value.old))) }
    ensures next { OnOk result ((at : Place) → next.new ≡ next.old + count_reads (Program.Return key at (option_map expr_of value.old))) }
{
    match value {
        None => Ok(None),
        Some(value) => {
            let alone = is_told(value);
            let set = reads_unless(alloc, next, alone, key, value)?;
            Ok(set)
        }
    }
}

// The reads in a block come to stand apart.
#[cycle(setting)]
fn set_block_apart(alloc: Global, next: &mut u32, stmts: &mut Vec<Stmt>) -> Result<(), AllocError>
    ensures apart { OnOk result (sequence (map stmt_of stmts.new.items) ≡ apart next.old (sequence (map stmt_of stmts.old.items))) }
    ensures next { OnOk result (next.new ≡ next.old + count_reads (sequence (map stmt_of stmts.old.items))) }
{
    for i in 0..stmts.len() {
        set_apart(alloc, next, &mut stmts[i])?;
    }
    Ok(())
}

// The same of a sequential phase in a box.
#[cycle(setting)]
fn set_part_apart(alloc: Global, next: &mut u32, s: &mut Box<Stmt>) -> Result<(), AllocError>
    ensures apart { OnOk result (stmt_of s.new.value ≡ apart next.old (stmt_of s.old.value)) }
    ensures next { OnOk result (next.new ≡ next.old + count_reads (stmt_of s.old.value)) }
{
    set_apart(alloc, next, s)?;
    Ok(())
}

// The same of a sequential phase.
#[cycle(setting)]
fn set_apart(alloc: Global, next: &mut u32, s: &mut Stmt) -> Result<(), AllocError>
    ensures apart { OnOk result (stmt_of s.new ≡ apart next.old (stmt_of s.old)) }
    ensures next { OnOk result (next.new ≡ next.old + count_reads (stmt_of s.old)) }
{
    match s {
        Stmt::Block(stmts) => set_block_apart(alloc, next, stmts),
        Stmt::Declare {
            key,
            variable,
            value,
        } => {
            let set = declared_apart(alloc, next, *key, *variable, value)?;
            put_after_all(alloc, set, s)?;
            Ok(())
        }
        Stmt::Assign { key, target, value } => {
            let set = assigned_apart(alloc, next, *key, *target, value)?;
            put_after_all(alloc, set, s)?;
            Ok(())
        }
        Stmt::For { body, .. } => set_part_apart(alloc, next, body),
        Stmt::If { yes, no, .. } => {
            set_part_apart(alloc, next, yes)?;
            set_part_apart(alloc, next, no)
        }
        Stmt::While { body, .. } => set_part_apart(alloc, next, body),
        Stmt::Do { body, .. } => set_part_apart(alloc, next, body),
        Stmt::Return {
            key,
            place: _place,
            value,
        } => {
            let set = returned_apart(alloc, next, *key, value)?;
            put_after_all(alloc, set, s)?;
            Ok(())
        }
        _ => Ok(()),
    }
}
