//! Expressions as those of an image.

ghost use Rattle.std.specs.Prelude.{◌≡◌, IfOk, map, option_map};
ghost use Rattle.gm_ast.specs.Tree.{expr_of};
ghost use Rattle.gm_image.specs.Term as Term;
ghost use Rattle.gm_image.specs.Views.{term};
ghost use Rattle.gm_layouts.specs.Where.{where_of};
ghost use Rattle.gm_lowering.specs.Blocks as Blocks;
ghost use Rattle.gm_lowering.specs.Terms as Terms;
ghost use Rattle.gm_lowering.specs.Terms.{place_if};
ghost use Rattle.gm_forms.specs.Order as Order;
ghost use Rattle.gm_terms.specs.Environments.{env_of};
ghost use Rattle.gm_message.specs.Views.{as_load};

use gm_ast::tree::{Direction, Expr, Key};
use gm_base::{NoMemory, Place};
use gm_facts::faults::{can_fail1, can_fail2};
use gm_image::Expr as Lowered;
use gm_layouts::{Layout, next};
use gm_message::{Load, is_global, is_register, variable_at};
use gm_places::Places;
use gm_value::{Op1, Op2, VType, Value};
use std::alloc::Global;

/// Where the leaves of an expression are found.
#[derive(Clone, Copy)]
pub enum Stand<'a> {
    /// In the master list.
    Master,
    /// At a vertex that stands for an iterator.
    Own {
        node: u32,
    },
    /// At a vertex in an each, by its iterator and the neighbour's.
    Each {
        node: u32,
        neighbour: u32,
    },
    /// At the receiver of a message, by the sender's iterator and its own, with what the message carries.
    Receiver {
        sender: u32,
        node: u32,
        loads: &'a [Load],
    },
}

/// What turns an expression into one of an image: where variables lie, the places, and where its leaves are found.
#[derive(Clone, Copy)]
pub struct Environment<'a> {
    pub layout: &'a Layout<'a>,
    pub places: &'a Places,
    pub stand: Stand<'a>,
}

// A scalar in the master list: one of the procedure in its global. What is declared in parallel loops has its first value.
fn phase_scalar(layout: &Layout<'_>, variable: u32) -> Result<Lowered, NoMemory>
    ensures { IfOk result (λ r. term r ≡ Terms.phase_scalar (where_of layout.now) variable) }
{
    let declared = variable_at(layout.declarations(), variable);
    if is_global(declared) {
        Ok(Lowered::Global(layout.global(variable)?))
    } else {
        Ok(Lowered::Const(declared.vtype.zero()))
    }
}

// A scalar at a vertex: a local of a loop in its register.
fn vertex_scalar(layout: &Layout<'_>, variable: u32) -> Result<Lowered, NoMemory>
    ensures { IfOk result (λ r. term r ≡ Terms.vertex_scalar (where_of layout.now) variable) }
{
    if is_register(variable_at(layout.declarations(), variable)) {
        Ok(Lowered::Register(layout.register(variable)?))
    } else {
        phase_scalar(layout, variable)
    }
}

/// A vertex's own degree.
pub fn own_degree(direction: Direction) -> Lowered
    ensures { term result ≡ Terms.own_degree direction }
{
    match direction {
        Direction::Out => Lowered::OutDegree,
        Direction::In => Lowered::InDegree,
    }
}

// The index of a load among some.
fn load_index(loads: &[Load], wanted: Load) -> Result<u32, NoMemory>
    ensures { IfOk result (λ r. r ≡ Blocks.load_index (as_load wanted) (map as_load loads.now)) }
{
    let mut index = 0;
    for load in loads {
        if wanted.is_same(*load) {
            return Ok(index);
        }
        index = next(index)?;
    }
    Ok(index)
}

// A load of a message.
fn message_value(loads: &[Load], wanted: Load) -> Result<Lowered, NoMemory>
    ensures { IfOk result (λ r. term r ≡ Blocks.message_value (map as_load loads.now) (as_load wanted)) }
{
    Ok(Lowered::Message(load_index(loads, wanted)?))
}

impl<'a> Environment<'a> {
    /// A scalar or a node.
    pub fn scalar(&self, variable: u32) -> Result<Lowered, NoMemory>
        ensures { IfOk result (λ r. term r ≡ (env_of self.now).scalar variable) }
    {
        match self.stand {
            Stand::Master => phase_scalar(self.layout, variable),
            Stand::Own { node } => {
                if variable == node {
                    return Ok(Lowered::Id);
                }
                vertex_scalar(self.layout, variable)
            }
            Stand::Each { node, neighbour } => {
                if variable == neighbour {
                    return Ok(Lowered::Neighbour);
                }
                if variable == node {
                    return Ok(Lowered::Id);
                }
                vertex_scalar(self.layout, variable)
            }
            Stand::Receiver {
                sender,
                node,
                loads,
            } => {
                if variable == sender {
                    return message_value(loads, Load::SenderItself);
                }
                if variable == node {
                    return Ok(Lowered::Id);
                }
                vertex_scalar(self.layout, variable)
            }
        }
    }

    /// A property, by the variable through which it is read.
    pub fn property(&self, owner: u32, property: u32) -> Result<Lowered, NoMemory>
        ensures { IfOk result (λ r. term r ≡ (env_of self.now).property owner property) }
    {
        match self.stand {
            Stand::Receiver { sender, loads, .. } => {
                if owner == sender {
                    return message_value(loads, Load::SenderProperty(property));
                }
                Ok(Lowered::Field(self.layout.field(property)?))
            }
            _ => Ok(Lowered::Field(self.layout.field(property)?)),
        }
    }

    /// A degree, by the variable through which it is read.
    pub fn degree(&self, direction: Direction, owner: u32) -> Result<Lowered, NoMemory>
        ensures { IfOk result (λ r. term r ≡ (env_of self.now).degree direction owner) }
    {
        match self.stand {
            Stand::Receiver { sender, loads, .. } => {
                if owner == sender {
                    return message_value(loads, Load::SenderDegree(direction));
                }
                Ok(own_degree(direction))
            }
            _ => Ok(own_degree(direction)),
        }
    }

    /// A property of the edge.
    pub fn edge(&self, property: u32) -> Result<Lowered, NoMemory>
        ensures { IfOk result (λ r. term r ≡ (env_of self.now).edge property) }
    {
        match self.stand {
            Stand::Receiver { loads, .. } => message_value(loads, Load::EdgeValue(property)),
            _ => Ok(Lowered::Column(self.layout.column(property)?)),
        }
    }

    /// The index of a place.
    pub fn place(&self, key: Key, place: Place) -> Result<u32, NoMemory>
        ensures { IfOk result (λ r. r ≡ (env_of self.now).place key place) }
    {
        self.places.index(key, place)
    }

    // The index of a place where something can fault.
    fn place_where(&self, fails: bool, key: Key, place: Place) -> Result<u32, NoMemory>
        ensures { IfOk result (λ r. place_if fails r ≡ place_if fails ((env_of self.now).place key place)) }
    {
        if fails {
            return self.place(key, place);
        }
        Ok(0)
    }
}

// An operation on one value, with the index of its place where it can fault.
fn unary_of(op: Op1, index: u32, a: Box<Lowered>) -> Lowered
    ensures { term result ≡ Term.Unary op (place_if (Order.can_fail1 op) index) (term a.value) }
{
    match op {
        Op1::Neg => Lowered::Neg(index, a),
        Op1::ToI32 => Lowered::ToInt(index, a),
        Op1::ToI64 => Lowered::ToLong(a),
        Op1::Not => Lowered::Not(a),
    }
}

// An operation on two values, with the index of its place where it can fault.
fn binary_of(op: Op2, index: u32, a: Box<Lowered>, b: Box<Lowered>) -> Lowered
    ensures { term result ≡ Term.Binary op (place_if (Order.can_fail2 op) index) (term a.value) (term b.value) }
{
    match op {
        Op2::Add => Lowered::Add(index, a, b),
        Op2::Sub => Lowered::Sub(index, a, b),
        Op2::Mul => Lowered::Mul(index, a, b),
        Op2::Div => Lowered::Div(index, a, b),
        Op2::Rem => Lowered::Rem(index, a, b),
        Op2::Eq => Lowered::Eq(a, b),
        Op2::Ne => Lowered::Ne(a, b),
        Op2::Lt => Lowered::Lt(a, b),
        Op2::Le => Lowered::Le(a, b),
        Op2::Gt => Lowered::Gt(a, b),
        Op2::Ge => Lowered::Ge(a, b),
    }
}

// An operation on one value at its place.
fn lower_unary(
    alloc: Global,
    env: &Environment<'_>,
    key: Key,
    op: Op1,
    place: Place,
    a: Lowered,
) -> Result<Lowered, NoMemory>
    ensures { IfOk result (λ r. term r ≡ Term.Unary op (place_if (Order.can_fail1 op) ((env_of env.now).place key place)) (term a)) }
{
    let index = env.place_where(can_fail1(op), key, place)?;
    let a = Box::new(alloc, a)?;
    Ok(unary_of(op, index, a))
}

// An operation on two values at its place.
fn lower_binary(
    alloc: Global,
    env: &Environment<'_>,
    key: Key,
    op: Op2,
    place: Place,
    a: Lowered,
    b: Lowered,
) -> Result<Lowered, NoMemory>
    ensures { IfOk result (λ r. term r ≡ Term.Binary op (place_if (Order.can_fail2 op) ((env_of env.now).place key place)) (term a) (term b)) }
{
    let index = env.place_where(can_fail2(op), key, place)?;
    let a = Box::new(alloc, a)?;
    let b = Box::new(alloc, b)?;
    Ok(binary_of(op, index, a, b))
}

// A check that a variable holds a node.
fn lower_live(
    alloc: Global,
    env: &Environment<'_>,
    key: Key,
    variable: u32,
    place: Place,
) -> Result<Lowered, NoMemory>
    ensures { IfOk result (λ r. term r ≡ Term.Live ((env_of env.now).place key place) ((env_of env.now).scalar variable)) }
{
    let index = env.place(key, place)?;
    let a = env.scalar(variable)?;
    let a = Box::new(alloc, a)?;
    Ok(Lowered::Live(index, a))
}

// Whether both hold.
fn both_of(alloc: Global, a: Lowered, b: Lowered) -> Result<Lowered, NoMemory>
    ensures { IfOk result (λ r. term r ≡ Term.And (term a) (term b)) }
{
    let a = Box::new(alloc, a)?;
    let b = Box::new(alloc, b)?;
    Ok(Lowered::And(a, b))
}

// Whether one of two holds.
fn either_of(alloc: Global, a: Lowered, b: Lowered) -> Result<Lowered, NoMemory>
    ensures { IfOk result (λ r. term r ≡ Term.Or (term a) (term b)) }
{
    let a = Box::new(alloc, a)?;
    let b = Box::new(alloc, b)?;
    Ok(Lowered::Or(a, b))
}

// One of two by a test.
fn choice_of(alloc: Global, c: Lowered, a: Lowered, b: Lowered) -> Result<Lowered, NoMemory>
    ensures { IfOk result (λ r. term r ≡ Term.Choose (term c) (term a) (term b)) }
{
    let c = Box::new(alloc, c)?;
    let a = Box::new(alloc, a)?;
    let b = Box::new(alloc, b)?;
    Ok(Lowered::Choose(c, a, b))
}

/// An expression with no reduction in it, whose operators have a key, as one of an image. It takes time linear in the
/// expression, and for each operator that can fault the logarithm of the number of places.
pub fn lower_expr(
    alloc: Global,
    env: &Environment<'_>,
    key: Key,
    e: &Expr,
) -> Result<Lowered, NoMemory>
    ensures { IfOk result (λ r. term r ≡ Terms.term (env_of env.now) key (expr_of e.now)) }
{
    match e {
        Expr::Const(value) => Ok(Lowered::Const(*value)),
        Expr::Var { variable, .. } => env.scalar(*variable),
        Expr::Property {
            owner,
            property,
            ..
        } => env.property(*owner, *property),
        Expr::EdgeProperty { property, .. } => env.edge(*property),
        Expr::Degree {
            direction,
            owner,
            ..
        } => env.degree(*direction, *owner),
        Expr::NodeCount => Ok(Lowered::NodeCount),
        Expr::EdgeCount => Ok(Lowered::EdgeCount),
        Expr::Live { variable, place } => lower_live(alloc, env, key, *variable, *place),
        Expr::Unary { op, place, inner } => {
            let a = lower_expr(alloc, env, key, inner)?;
            lower_unary(alloc, env, key, *op, *place, a)
        }
        Expr::Binary {
            op,
            place,
            left,
            right,
        } => {
            let a = lower_expr(alloc, env, key, left)?;
            let b = lower_expr(alloc, env, key, right)?;
            lower_binary(alloc, env, key, *op, *place, a, b)
        }
        Expr::Both(left, right) => {
            let a = lower_expr(alloc, env, key, left)?;
            let b = lower_expr(alloc, env, key, right)?;
            both_of(alloc, a, b)
        }
        Expr::Either(left, right) => {
            let a = lower_expr(alloc, env, key, left)?;
            let b = lower_expr(alloc, env, key, right)?;
            either_of(alloc, a, b)
        }
        Expr::Choose(test, yes, no) => {
            let c = lower_expr(alloc, env, key, test)?;
            let a = lower_expr(alloc, env, key, yes)?;
            let b = lower_expr(alloc, env, key, no)?;
            choice_of(alloc, c, a, b)
        }
        Expr::Fold { .. } => Ok(Lowered::Const(Value::At(None))),
    }
}

/// Some expressions with no reduction in them, in order.
pub fn lower_all(
    alloc: Global,
    env: &Environment<'_>,
    key: Key,
    values: &[Expr],
) -> Result<Vec<Lowered>, NoMemory>
    ensures { IfOk result (λ r. map term r.items ≡ map (Terms.term (env_of env.now) key) (map expr_of values.now)) }
{
    let mut out = Vec::new(alloc);
    for value in values {
        let lowered = lower_expr(alloc, env, key, value)?;
        out.push(lowered)?;
    }
    Ok(out)
}

/// A value that is given, or a type's first value.
pub fn lower_or_zero(
    alloc: Global,
    env: &Environment<'_>,
    key: Key,
    vtype: VType,
    value: &Option<Expr>,
) -> Result<Lowered, NoMemory>
    ensures { IfOk result (λ r. term r ≡ Terms.term_or_zero (env_of env.now) key vtype (option_map expr_of value.now)) }
{
    match value {
        None => Ok(Lowered::Const(vtype.zero())),
        Some(e) => lower_expr(alloc, env, key, e),
    }
}
