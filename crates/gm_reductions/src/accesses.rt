//! Reads and writes of the sequential phase through node variables, as checks and loops over all nodes.
//!
//! `x = s.p;` is `c = Live(s); x = Max(n: G.Nodes)(n == c){n.p};` (Exist for Bool), and so is a degree: the check faults
//! where s is NIL, as the read did, and of one value and the least of its type the value is the greatest.
//! `s.p = e;` is `c = Live(s); v = e; Foreach (n: G.Nodes)(n == c) { n.p = v; }`: the node is checked before the value
//! is told, in the order in which both fault. The variables c, n and v (one for each type) are new, and all statements
//! share them, since each is set before it is told. An iterator of a For around always holds a node: it is compared
//! itself, without a check.

ghost use Rattle.std.specs.Prelude.{◌≡◌, ◌+◌, ◌++◌, [], ◌∷◌, Some, IfOk, OnOk, option_map};
ghost use Rattle.gm_ast.specs.Program as Program;
ghost use Rattle.gm_ast.specs.Program.{sequence};
ghost use Rattle.gm_ast.specs.Tree.{expr_of, program_of, stmt_of};
ghost use Rattle.gm_ast.specs.declared.tree.Target.TheVariants as Targets;
ghost use Rattle.gm_forms.specs.Meanings.{SameMeaning};
ghost use Rattle.gm_forms.specs.Order as Order;
ghost use Rattle.gm_forms.specs.Typing.{type_at};
ghost use Rattle.gm_desugar.specs.Conditions as Conditions;
ghost use Rattle.gm_reductions.specs.Accesses as Accesses;
ghost use Rattle.gm_reductions.specs.Accesses.{added, added_at, by_loops, without_accesses};
ghost use Rattle.gm_reductions.specs.Phases.{KeepsNoPicks};
ghost use Rattle.gm_reductions.specs.Stages.{WithTypedRuns, WithoutAccesses};

use gm_ast::forms::Work;
use gm_ast::surface::ReductionWord;
use gm_ast::tree::{
    Declaration, Direction, Domain, Expr, Fold, Head, Key, Sort, Stage, Stmt, Target, TotalKey,
    Tree, Variable,
};
use gm_base::{Items, NoMemory, Place};
use gm_trees::places::in_turn;
use gm_trees::variables::is_in;
use gm_value::{Op2, VType};
use std::alloc::{AllocError, Global};

/// The variables that are added to a table: a node that was checked, an iterator, and a value of each type.
#[derive(Clone, Copy)]
pub struct Fresh {
    pub checked: u32,
    pub iterator: u32,
    pub int: u32,
    pub long: u32,
    pub flag: u32,
    pub node: u32,
}

/// Writes each read and each write of the sequential phase through a node variable as a check and a reduction or a
/// loop over all nodes; through an iterator of a For around, as the reduction or loop alone. Where each read stands alone, the keys of reductions rise, and the program tells values alone,
/// it means the same, is as ready for the passes as it was, and has no such access left; and no pick comes in. Answers
/// want of memory too where the table has no room for six more variables.
pub fn accesses_out(alloc: Global, program: Work) -> Result<Work, NoMemory>
    ensures made { IfOk result (λ r. program_of r ≡ without_accesses (program_of program)) }
    ensures same { IfOk result (λ r. WithTypedRuns (program_of program) → SameMeaning (program_of program) (program_of r)) }
    ensures ready { IfOk result (λ r. WithTypedRuns (program_of program) → WithoutAccesses (program_of r)) }
    ensures picks { IfOk result (λ r. KeepsNoPicks (program_of program) (program_of r)) }
{
    let tree = program.into_tree();
    let Ok(first) = u32::try_from(tree.declarations.len()) else {
        return Err(NoMemory);
    };
    let fresh = fresh_at(first)?;
    let mut declarations = tree.declarations;
    let body = tree.body;
    let body = by_loops(alloc, &declarations, fresh, &[], body)?;
    add_fresh(alloc, &mut declarations)?;
    Ok(Work::new(Tree {
        declarations,
        body,
        ..tree
    }))
}

// A number, so many behind another.
fn behind(first: u32, by: u32) -> Result<u32, AllocError>
    ensures { IfOk result (λ r. r ≡ first + by) }
{
    match first.checked_add(by) {
        Some(variable) => Ok(variable),
        None => Err(AllocError),
    }
}

// The added variables, from a number on.
fn fresh_at(first: u32) -> Result<Fresh, AllocError>
    ensures { IfOk result (λ r. r ≡ added_at first) }
{
    Ok(Fresh {
        checked: first,
        iterator: behind(first, 1)?,
        int: behind(first, 2)?,
        long: behind(first, 3)?,
        flag: behind(first, 4)?,
        node: behind(first, 5)?,
    })
}

// A variable that no text declares.
fn unnamed(alloc: Global, sort: Sort, vtype: VType, depth: u32) -> Declaration
    ensures { result ≡ record { name = []; variable = record { sort = sort; vtype = vtype; depth = depth } } }
{
    Declaration {
        name: Items::new(Vec::new(alloc)),
        variable: Variable { sort, vtype, depth },
    }
}

// Adds the variables to a table.
fn add_fresh(alloc: Global, declarations: &mut Vec<Declaration>) -> Result<(), AllocError>
    ensures { OnOk result (declarations.new.items ≡ declarations.old.items ++ added) }
{
    declarations.push(unnamed(alloc, Sort::Scalar, VType::Node, 0))?;
    declarations.push(unnamed(alloc, Sort::Iterator, VType::Node, 1))?;
    declarations.push(unnamed(alloc, Sort::Scalar, VType::I32, 0))?;
    declarations.push(unnamed(alloc, Sort::Scalar, VType::I64, 0))?;
    declarations.push(unnamed(alloc, Sort::Scalar, VType::Flag, 0))?;
    declarations.push(unnamed(alloc, Sort::Scalar, VType::Node, 0))?;
    Ok(())
}

// The type of a variable.
fn type_of(declarations: &[Declaration], variable: u32) -> VType
    ensures { result ≡ type_at declarations.now variable }
{
    match declarations.get(variable as usize) {
        Some(declaration) => declaration.variable.vtype,
        None => VType::I32,
    }
}

// The variable for a value of a type.
fn holder(fresh: Fresh, vtype: VType) -> u32
    ensures { result ≡ Accesses.holder fresh vtype }
{
    match vtype {
        VType::I32 => fresh.int,
        VType::I64 => fresh.long,
        VType::Flag => fresh.flag,
        VType::Node => fresh.node,
    }
}

// The place of what no text spells.
fn nowhere() -> Place
    ensures { result ≡ Conditions.nowhere }
{
    Place { line: 0, col: 0 }
}

// The value of a variable.
fn told(variable: u32) -> Expr
    ensures { expr_of result ≡ Program.Var variable Conditions.nowhere }
{
    Expr::Var {
        variable,
        place: nowhere(),
    }
}

// A variable set to a value.
fn set_to(variable: u32, key: Key, value: Expr) -> Stmt
    ensures { stmt_of result ≡ Conditions.set_to variable key (expr_of value) }
{
    let target = Target::Scalar {
        variable,
        place: nowhere(),
    };
    Stmt::Assign { key, target, value }
}

// The node that a variable holds, checked.
fn check(fresh: Fresh, key: Key, variable: u32, place: Place) -> Stmt
    ensures { stmt_of result ≡ Conditions.set_to fresh.checked key (Program.Live variable place) }
{
    set_to(fresh.checked, key, Expr::Live { variable, place })
}

// All nodes.
fn all_nodes(fresh: Fresh) -> Head
    ensures { result ≡ Accesses.all_nodes fresh }
{
    Head {
        iterator: fresh.iterator,
        domain: Domain::Nodes,
        owner: fresh.iterator,
        place: nowhere(),
    }
}

// Whether the iterator is at the node that a variable holds.
fn is_there(alloc: Global, fresh: Fresh, holds: u32) -> Result<Expr, AllocError>
    ensures { IfOk result (λ r. expr_of r ≡ Accesses.is_there fresh holds) }
{
    let left = Box::new(alloc, told(fresh.iterator))?;
    let right = Box::new(alloc, told(holds))?;
    Ok(Expr::Binary {
        op: Op2::Eq,
        place: nowhere(),
        left,
        right,
    })
}

// The keys of a reduction in which nothing faults.
fn quiet_fold(vtype: VType) -> Fold
    ensures { result ≡ record { word = Accesses.word_for vtype; vtype = vtype; filter = Accesses.filter_key; body = Accesses.element_key; total = record { key = Accesses.total_key; place = Accesses.total_place; shown = Conditions.nowhere } } }
{
    let word = match vtype {
        VType::Flag => ReductionWord::Exist,
        VType::I32 | VType::I64 | VType::Node => ReductionWord::Max,
    };
    let total = TotalKey {
        key: Key {
            statement: 1,
            stage: Stage::Total,
        },
        place: Place { line: 0, col: 1 },
        shown: nowhere(),
    };
    Fold {
        word,
        vtype,
        filter: Key {
            statement: 1,
            stage: Stage::Inner,
        },
        body: Key {
            statement: 1,
            stage: Stage::Operator,
        },
        total,
    }
}

// What an expression is at the node that a variable holds.
fn one_node(
    alloc: Global,
    fresh: Fresh,
    holds: u32,
    vtype: VType,
    body: Expr,
) -> Result<Expr, AllocError>
    ensures { IfOk result (λ r. expr_of r ≡ Accesses.one_node fresh holds vtype (expr_of body)) }
{
    let passes = is_there(alloc, fresh, holds)?;
    let filter = Box::new(alloc, passes)?;
    let body = Box::new(alloc, body)?;
    Ok(Expr::Fold {
        fold: quiet_fold(vtype),
        head: all_nodes(fresh),
        filter,
        body,
    })
}

// A property of that node.
fn property_there(
    alloc: Global,
    declarations: &[Declaration],
    fresh: Fresh,
    holds: u32,
    property: u32,
) -> Result<Expr, AllocError>
    ensures { IfOk result (λ r. expr_of r ≡ Accesses.one_node fresh holds (type_at declarations.now property) (Program.Property fresh.iterator property Conditions.nowhere)) }
{
    let value = Expr::Property {
        owner: fresh.iterator,
        property,
        place: nowhere(),
    };
    one_node(alloc, fresh, holds, type_of(declarations, property), value)
}

// A degree of that node.
fn degree_there(
    alloc: Global,
    fresh: Fresh,
    holds: u32,
    direction: Direction,
) -> Result<Expr, AllocError>
    ensures { IfOk result (λ r. expr_of r ≡ Accesses.one_node fresh holds VType.I32 (Program.Degree direction fresh.iterator Conditions.nowhere)) }
{
    let value = Expr::Degree {
        direction,
        owner: fresh.iterator,
        place: nowhere(),
    };
    one_node(alloc, fresh, holds, VType::I32, value)
}

// The iterator of a For and those around it, beside the For's body. On the way out for want of memory the body is
// dropped here.
fn inside<T: Drop>(
    alloc: Global,
    iterator: u32,
    around: &[u32],
    body: T,
) -> Result<(Vec<u32>, T), AllocError>
    ensures iterators { IfOk result (λ r. r.0.items ≡ iterator ∷ around.now) }
    ensures body { IfOk result (λ r. r.1 ≡ body) }
{
    let mut iterators = Vec::new(alloc);
    iterators.push(iterator)?;
    iterators.extend_from_slice(around)?;
    Ok((iterators, body))
}

// The variable with the node that a variable holds: the iterator of a For itself, or the one that the check sets.
fn compared(is_iterator: bool, fresh: Fresh, variable: u32) -> u32
    ensures { result ≡ Accesses.compared is_iterator fresh variable }
{
    if is_iterator { variable } else { fresh.checked }
}

// A statement behind the check of the node that a variable holds, unless the variable is the iterator of a For.
fn after_check(
    alloc: Global,
    is_iterator: bool,
    fresh: Fresh,
    key: Key,
    variable: u32,
    place: Place,
    stmt: Stmt,
) -> Result<Stmt, AllocError>
    ensures { IfOk result (λ r. stmt_of r ≡ Accesses.after_check is_iterator fresh key variable place (stmt_of stmt)) }
{
    if is_iterator {
        return Ok(stmt);
    }
    let checked = check(fresh, key, variable, place);
    in_turn(alloc, checked, stmt)
}

// A loop that writes what a variable holds to a property of the node that another holds.
fn write_there(
    alloc: Global,
    fresh: Fresh,
    holds: u32,
    property: u32,
    variable: u32,
) -> Result<Stmt, AllocError>
    ensures { IfOk result (λ r. stmt_of r ≡ Accesses.write_there fresh holds property variable) }
{
    let filter = is_there(alloc, fresh, holds)?;
    let target = Target::Property {
        owner: fresh.iterator,
        property,
        place: nowhere(),
    };
    let write = Stmt::Assign {
        key: second_key(),
        target,
        value: told(variable),
    };
    let body = Box::new(alloc, write)?;
    Ok(Stmt::Foreach {
        key: first_key(),
        place: nowhere(),
        head: all_nodes(fresh),
        filter,
        body,
    })
}

// The key before all that are numbered.
fn first_key() -> Key
    ensures { result ≡ Order.first_key }
{
    Key {
        statement: 0,
        stage: Stage::Inner,
    }
}

// A key that is numbered.
fn second_key() -> Key
    ensures { result ≡ Order.second_key }
{
    Key {
        statement: 1,
        stage: Stage::Inner,
    }
}

// A declaration with a value, or one behind a check where the value is an access.
fn initial_by_loops(
    alloc: Global,
    declarations: &[Declaration],
    fresh: Fresh,
    around: &[u32],
    key: Key,
    variable: u32,
    value: Expr,
) -> Result<Stmt, AllocError>
    ensures { IfOk result (λ r. stmt_of r ≡ Accesses.declared_by_loops declarations.now fresh around.now key variable (Some (expr_of value))) }
{
    match value {
        Expr::Property {
            owner,
            property,
            place,
        } => {
            let is_iterator = is_in(around, owner);
            let holds = compared(is_iterator, fresh, owner);
            let value = Some(property_there(alloc, declarations, fresh, holds, property)?);
            let set = Stmt::Declare {
                key,
                variable,
                value,
            };
            after_check(alloc, is_iterator, fresh, key, owner, place, set)
        }
        Expr::Degree {
            direction,
            owner,
            place,
        } => {
            let is_iterator = is_in(around, owner);
            let holds = compared(is_iterator, fresh, owner);
            let value = Some(degree_there(alloc, fresh, holds, direction)?);
            let set = Stmt::Declare {
                key,
                variable,
                value,
            };
            after_check(alloc, is_iterator, fresh, key, owner, place, set)
        }
        Expr::Const(_)
        | Expr::Var { .. }
        | Expr::EdgeProperty { .. }
        | Expr::NodeCount
        | Expr::EdgeCount
        | Expr::Live { .. }
        | Expr::Unary { .. }
        | Expr::Binary { .. }
        | Expr::Both(..)
        | Expr::Either(..)
        | Expr::Choose(..)
        | Expr::Fold { .. } => Ok(Stmt::Declare {
            key,
            variable,
            value: Some(value),
        }),
    }
}

// A declaration, or one behind a check where its value is an access.
fn declared_by_loops(
    alloc: Global,
    declarations: &[Declaration],
    fresh: Fresh,
    around: &[u32],
    key: Key,
    variable: u32,
    value: Option<Expr>,
) -> Result<Stmt, AllocError>
    ensures { IfOk result (λ r. stmt_of r ≡ Accesses.declared_by_loops declarations.now fresh around.now key variable (option_map expr_of value)) }
{
    match value {
        Some(value) => {
            initial_by_loops(alloc, declarations, fresh, around, key, variable, value)
        },
        None => Ok(Stmt::Declare {
            key,
            variable,
            value: None,
        }),
    }
}

// An assignment to a scalar, or one behind a check where its value is an access.
fn scalar_by_loops(
    alloc: Global,
    declarations: &[Declaration],
    fresh: Fresh,
    around: &[u32],
    key: Key,
    variable: u32,
    place: Place,
    value: Expr,
) -> Result<Stmt, AllocError>
    ensures { IfOk result (λ r. stmt_of r ≡ Accesses.assigned_by_loops declarations.now fresh around.now key (Targets.Scalar variable place) (expr_of value)) }
{
    let target = Target::Scalar { variable, place };
    match value {
        Expr::Property {
            owner,
            property,
            place,
        } => {
            let is_iterator = is_in(around, owner);
            let holds = compared(is_iterator, fresh, owner);
            let value = property_there(alloc, declarations, fresh, holds, property)?;
            let set = Stmt::Assign { key, target, value };
            after_check(alloc, is_iterator, fresh, key, owner, place, set)
        }
        Expr::Degree {
            direction,
            owner,
            place,
        } => {
            let is_iterator = is_in(around, owner);
            let holds = compared(is_iterator, fresh, owner);
            let value = degree_there(alloc, fresh, holds, direction)?;
            let set = Stmt::Assign { key, target, value };
            after_check(alloc, is_iterator, fresh, key, owner, place, set)
        }
        Expr::Const(_)
        | Expr::Var { .. }
        | Expr::EdgeProperty { .. }
        | Expr::NodeCount
        | Expr::EdgeCount
        | Expr::Live { .. }
        | Expr::Unary { .. }
        | Expr::Binary { .. }
        | Expr::Both(..)
        | Expr::Either(..)
        | Expr::Choose(..)
        | Expr::Fold { .. } => Ok(Stmt::Assign { key, target, value }),
    }
}

// The check of a node variable, unless it is the iterator of a For, a variable set to a value, and the loop that writes
// it at the node.
fn checked_write(
    alloc: Global,
    is_iterator: bool,
    fresh: Fresh,
    key: Key,
    owner: u32,
    place: Place,
    property: u32,
    variable: u32,
    value: Expr,
) -> Result<Stmt, AllocError>
    ensures { IfOk result (λ r. stmt_of r ≡ sequence (Accesses.checks is_iterator fresh key owner place ++ (Conditions.set_to variable key (expr_of value) ∷ Accesses.write_there fresh (Accesses.compared is_iterator fresh owner) property variable ∷ []))) }
{
    let mut stmts = Vec::new(alloc);
    if !is_iterator {
        stmts.push(check(fresh, key, owner, place))?;
    }
    stmts.push(set_to(variable, key, value))?;
    let holds = compared(is_iterator, fresh, owner);
    let write = write_there(alloc, fresh, holds, property, variable)?;
    stmts.push(write)?;
    Ok(Stmt::Block(stmts))
}

// An assignment to a property through a node variable.
fn property_by_loops(
    alloc: Global,
    declarations: &[Declaration],
    fresh: Fresh,
    around: &[u32],
    key: Key,
    owner: u32,
    property: u32,
    place: Place,
    value: Expr,
) -> Result<Stmt, AllocError>
    ensures { IfOk result (λ r. stmt_of r ≡ Accesses.assigned_by_loops declarations.now fresh around.now key (Targets.Property owner property place) (expr_of value)) }
{
    let is_iterator = is_in(around, owner);
    let variable = holder(fresh, type_of(declarations, property));
    checked_write(
        alloc,
        is_iterator,
        fresh,
        key,
        owner,
        place,
        property,
        variable,
        value,
    )
}

// An assignment, as checks and loops where it has an access.
fn assigned_by_loops(
    alloc: Global,
    declarations: &[Declaration],
    fresh: Fresh,
    around: &[u32],
    key: Key,
    target: Target,
    value: Expr,
) -> Result<Stmt, AllocError>
    ensures { IfOk result (λ r. stmt_of r ≡ Accesses.assigned_by_loops declarations.now fresh around.now key target (expr_of value)) }
{
    match target {
        Target::Scalar { variable, place } => {
            scalar_by_loops(
                alloc,
                declarations,
                fresh,
                around,
                key,
                variable,
                place,
                value,
            )
        }
        Target::Property {
            owner,
            property,
            place,
        } => property_by_loops(
            alloc,
            declarations,
            fresh,
            around,
            key,
            owner,
            property,
            place,
            value,
        ),
    }
}

// A part of the sequential phase inside some Fors with its accesses as checks and loops.
fn by_loops(
    alloc: Global,
    declarations: &[Declaration],
    fresh: Fresh,
    around: &[u32],
    s: Stmt,
) -> Result<Stmt, AllocError>
    ensures { IfOk result (λ r. stmt_of r ≡ by_loops declarations.now fresh around.now (stmt_of s)) }
{
    match s {
        Stmt::Block(stmts) => {
            let mut out = Vec::new(alloc);
            for stmt in stmts {
                let changed = by_loops(alloc, declarations, fresh, around, stmt)?;
                out.push(changed)?;
            }
            Ok(Stmt::Block(out))
        }
        Stmt::Declare {
            key,
            variable,
            value,
        } => declared_by_loops(alloc, declarations, fresh, around, key, variable, value),
        Stmt::Assign { key, target, value } => {
            assigned_by_loops(alloc, declarations, fresh, around, key, target, value)
        }
        Stmt::For {
            key,
            place,
            head,
            filter,
            body,
        } => {
            let (iterators, body) = inside(alloc, head.iterator, around, Box::into_inner(body))?;
            let changed = by_loops(alloc, declarations, fresh, &iterators, body);
            drop(iterators);
            let body = Box::new(alloc, changed?)?;
            Ok(Stmt::For {
                key,
                place,
                head,
                filter,
                body,
            })
        }
        Stmt::If { key, test, yes, no } => {
            let changed = by_loops(alloc, declarations, fresh, around, Box::into_inner(yes))?;
            let yes = Box::new(alloc, changed)?;
            let changed = by_loops(alloc, declarations, fresh, around, Box::into_inner(no))?;
            let no = Box::new(alloc, changed)?;
            Ok(Stmt::If { key, test, yes, no })
        }
        Stmt::While {
            key,
            place,
            test,
            body,
        } => {
            let changed = by_loops(alloc, declarations, fresh, around, Box::into_inner(body))?;
            let body = Box::new(alloc, changed)?;
            Ok(Stmt::While {
                key,
                place,
                test,
                body,
            })
        }
        Stmt::Do {
            key,
            place,
            body,
            test,
        } => {
            let changed = by_loops(alloc, declarations, fresh, around, Box::into_inner(body))?;
            let body = Box::new(alloc, changed)?;
            Ok(Stmt::Do {
                key,
                place,
                body,
                test,
            })
        }
        other => Ok(other),
    }
}
