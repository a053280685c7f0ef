//! Loops over all nodes as blocks, one for each superstep.

ghost use Rattle.std.specs.Prelude.{◌≡◌, ◌+◌, ◌++◌, ◌∷◌, [], true, false, IfOk, OnOk, length, map, option_map, suc};
ghost use Rattle.gm_ast.specs.Tree.{expr_of, stmt_of};
ghost use Rattle.gm_image.specs.Program as Program;
ghost use Rattle.gm_image.specs.Term as Term;
ghost use Rattle.gm_image.specs.Views.{block, line, term};
ghost use Rattle.gm_layouts.specs.Where.{where_of};
ghost use Rattle.gm_lowering.specs.Blocks as Blocks;
ghost use Rattle.gm_lowering.specs.Bodies as Bodies;
ghost use Rattle.gm_lowering.specs.Places.{segment, spots_in};
ghost use Rattle.gm_lowering.specs.Plans as Plans;
ghost use Rattle.gm_lowering.specs.Terms as Terms;
ghost use Rattle.gm_message.specs.Views.{as_load};
ghost use Rattle.gm_blocks.specs.LoopBlocks as Loops;
ghost use Rattle.gm_blocks.specs.LoopBlocks.{as_inner, as_lowered, handling_block, inner_blocks, inner_kinds};

use crate::firsts::add_zero_lines;
use crate::takings::{Takings, add_taking_block};
use gm_ast::tree::{Domain, Expr, Head, Key, Stmt};
use gm_base::{Items, NoMemory};
use gm_bodies::{Site, add_lines, add_under};
use gm_image::{Block, Expr as Lowered, Handler, VertexLine};
use gm_layouts::{Layout, next, small};
use gm_message::{Load, carried, is_here};
use gm_places::{BodySite, Places, add_spots_in, add_spots_of};
use gm_terms::{Environment, Stand, lower_expr, own_degree};
use std::alloc::Global;

/// The blocks of a loop, one for each superstep, the places of what may fault in them, and the kind of the next message.
#[derive(Drop)]
pub struct LoopBlocks {
    pub blocks: Vec<Block>,
    pub places: Places,
    pub kind: u32,
}

// A loop over all nodes: where variables lie, its first place and the kind of its first message, its iterator, its key and
// its filter.
#[derive(Clone, Copy)]
pub(crate) struct NodeLoop<'a> {
    pub(crate) layout: &'a Layout<'a>,
    pub(crate) base: u32,
    pub(crate) kind: u32,
    pub(crate) node: u32,
    pub(crate) key: Key,
    pub(crate) filter: &'a Expr,
}

// A loop over the neighbours of a node.
#[derive(Clone, Copy)]
pub(crate) struct InnerLoop<'a> {
    pub(crate) key: Key,
    pub(crate) head: Head,
    pub(crate) filter: &'a Expr,
    pub(crate) body: &'a Stmt,
}

// A loop over all nodes with its places, and with what the receivers of its messages read of the sender.
#[derive(Clone, Copy)]
struct Placed<'a> {
    outer: NodeLoop<'a>,
    places: &'a Places,
    loads: &'a [Load],
}

// The places of a loop's own statements.
fn own_places(alloc: Global, outer: &NodeLoop<'_>, body: &Stmt) -> Result<Places, NoMemory>
    ensures { IfOk result (λ r. r ≡ segment outer.now.base (spots_in (expr_of outer.now.filter.now) outer.now.key ++ Bodies.spots_of (where_of outer.now.layout.now) outer.now.node (outer.now.node ∷ []) true (stmt_of body.now))) }
{
    let mut spots = Vec::new(alloc);
    add_spots_in(outer.filter, outer.key, &mut spots)?;
    let site = BodySite {
        layout: outer.layout,
        node: outer.node,
        iterators: &[outer.node],
        at_once: true,
    };
    add_spots_of(&site, body, &mut spots)?;
    Places::new(alloc, outer.base, &spots)
}

// The places of a loop with an inner one, which is evaluated at a node.
fn inner_places(
    alloc: Global,
    outer: &NodeLoop<'_>,
    inner: &InnerLoop<'_>,
    node: u32,
) -> Result<Places, NoMemory>
    ensures { IfOk result (λ r. r ≡ segment outer.now.base (spots_in (expr_of outer.now.filter.now) outer.now.key ++ (spots_in (expr_of inner.now.filter.now) inner.now.key ++ Bodies.spots_of (where_of outer.now.layout.now) node (outer.now.node ∷ inner.now.head.iterator ∷ []) false (stmt_of inner.now.body.now)))) }
{
    let mut spots = Vec::new(alloc);
    add_spots_in(outer.filter, outer.key, &mut spots)?;
    add_spots_in(inner.filter, inner.key, &mut spots)?;
    let site = BodySite {
        layout: outer.layout,
        node,
        iterators: &[outer.node, inner.head.iterator],
        at_once: false,
    };
    add_spots_of(&site, inner.body, &mut spots)?;
    Places::new(alloc, outer.base, &spots)
}

// Lines under the loop's filter.
fn filtered(
    alloc: Global,
    placed: &Placed<'_>,
    lines: Vec<VertexLine>,
) -> Result<Vec<VertexLine>, NoMemory>
    ensures { IfOk result (λ r. map line r.items ≡ Bodies.under (Terms.term (Terms.own_env (where_of placed.now.outer.layout.now) placed.now.places.now placed.now.outer.node) placed.now.outer.key (expr_of placed.now.outer.filter.now)) (map line lines.items)) }
{
    let env = Environment {
        layout: placed.outer.layout,
        places: placed.places,
        stand: Stand::Own {
            node: placed.outer.node,
        },
    };
    let condition = lower_expr(alloc, &env, placed.outer.key, placed.outer.filter)?;
    let mut out = Vec::new(alloc);
    add_under(condition, lines, &mut out)?;
    Ok(out)
}

// The lines of a loop's own statements.
fn own_lines(alloc: Global, placed: &Placed<'_>, body: &Stmt) -> Result<Vec<VertexLine>, NoMemory>
    ensures { IfOk result (λ r. map line r.items ≡ Bodies.lines_of (Blocks.own_site (where_of placed.now.outer.layout.now) placed.now.places.now placed.now.outer.node) placed.now.outer.kind (stmt_of body.now)) }
{
    let env = Environment {
        layout: placed.outer.layout,
        places: placed.places,
        stand: Stand::Own {
            node: placed.outer.node,
        },
    };
    let site = Site {
        env: &env,
        node: placed.outer.node,
        iterators: &[placed.outer.node],
        at_once: true,
    };
    let mut lines = Vec::new(alloc);
    add_lines(alloc, &site, placed.outer.kind, body, &mut lines)?;
    Ok(lines)
}

// The lines of an inner loop at the outer node, for one edge.
fn each_body(
    alloc: Global,
    placed: &Placed<'_>,
    inner: &InnerLoop<'_>,
) -> Result<Vec<VertexLine>, NoMemory>
    ensures { IfOk result (λ r. map line r.items ≡ Bodies.under (Terms.term (Terms.each_env (where_of placed.now.outer.layout.now) placed.now.places.now placed.now.outer.node inner.now.head.iterator) inner.now.key (expr_of inner.now.filter.now)) (Blocks.zero_lines (where_of placed.now.outer.layout.now) (stmt_of inner.now.body.now) ++ Bodies.lines_of (Blocks.each_site (where_of placed.now.outer.layout.now) placed.now.places.now placed.now.outer.node inner.now.head.iterator) placed.now.outer.kind (stmt_of inner.now.body.now))) }
{
    let env = Environment {
        layout: placed.outer.layout,
        places: placed.places,
        stand: Stand::Each {
            node: placed.outer.node,
            neighbour: inner.head.iterator,
        },
    };
    let site = Site {
        env: &env,
        node: placed.outer.node,
        iterators: &[placed.outer.node, inner.head.iterator],
        at_once: false,
    };
    let condition = lower_expr(alloc, &env, inner.key, inner.filter)?;
    let mut lines = Vec::new(alloc);
    add_zero_lines(placed.outer.layout, inner.body, &mut lines)?;
    add_lines(alloc, &site, placed.outer.kind, inner.body, &mut lines)?;
    let mut out = Vec::new(alloc);
    add_under(condition, lines, &mut out)?;
    Ok(out)
}

// The line before those for each edge.
fn each_line(domain: Domain, count: u32) -> VertexLine
    ensures { line result ≡ Program.Each (Blocks.direction_of domain) count }
{
    match domain {
        Domain::InNbrs => VertexLine::EachIn(count),
        _ => VertexLine::EachOut(count),
    }
}

// Lines for each edge.
#[tactic(auto, using(crate::proofs::Loops::as_many_lines))]
fn each_lines(
    alloc: Global,
    domain: Domain,
    lines: Vec<VertexLine>,
) -> Result<Vec<VertexLine>, NoMemory>
    ensures { IfOk result (λ r. map line r.items ≡ Blocks.each_lines domain (map line lines.items)) }
{
    let mut lines = lines;
    let count = small(lines.len())?;
    let mut out = Vec::new(alloc);
    out.push(each_line(domain, count))?;
    out.append(&mut lines)?;
    Ok(out)
}

// What a sender reads of itself or of the edge.
fn load_value(layout: &Layout<'_>, load: Load) -> Result<Lowered, NoMemory>
    ensures { IfOk result (λ r. term r ≡ Blocks.load_term (where_of layout.now) (as_load load)) }
{
    match load {
        Load::SenderItself => Ok(Lowered::Id),
        Load::SenderProperty(property) => Ok(Lowered::Field(layout.field(property)?)),
        Load::SenderDegree(direction) => Ok(own_degree(direction)),
        Load::EdgeValue(property) => Ok(Lowered::Column(layout.column(property)?)),
    }
}

// What a message carries.
fn load_values(alloc: Global, layout: &Layout<'_>, loads: &[Load]) -> Result<Vec<Lowered>, NoMemory>
    ensures { IfOk result (λ r. map term r.items ≡ map (Blocks.load_term (where_of layout.now)) (map as_load loads.now)) }
{
    let mut values = Vec::new(alloc);
    for load in loads {
        values.push(load_value(layout, *load)?)?;
    }
    Ok(values)
}

// The line that sends a message to the neighbour.
fn send_lines(
    alloc: Global,
    layout: &Layout<'_>,
    kind: u32,
    loads: &[Load],
) -> Result<Vec<VertexLine>, NoMemory>
    ensures { IfOk result (λ r. map line r.items ≡ Program.Send kind Term.Neighbour (map (Blocks.load_term (where_of layout.now)) (map as_load loads.now)) ∷ []) }
{
    let values = load_values(alloc, layout, loads)?;
    let mut lines = Vec::new(alloc);
    lines.push(VertexLine::Send {
        kind,
        to: Lowered::Neighbour,
        values: Items::new(values),
    })?;
    Ok(lines)
}

// The lines of an inner loop at the receiver of a message.
fn receiver_lines(
    alloc: Global,
    placed: &Placed<'_>,
    inner: &InnerLoop<'_>,
) -> Result<Vec<VertexLine>, NoMemory>
    ensures { IfOk result (λ r. map line r.items ≡ Bodies.under (Terms.term (Blocks.receiver_env (where_of placed.now.outer.layout.now) placed.now.places.now placed.now.outer.node inner.now.head.iterator (map as_load placed.now.loads.now)) inner.now.key (expr_of inner.now.filter.now)) (Bodies.lines_of (Blocks.receiver_site (where_of placed.now.outer.layout.now) placed.now.places.now placed.now.outer.node inner.now.head.iterator (map as_load placed.now.loads.now)) (suc placed.now.outer.kind) (stmt_of inner.now.body.now))) }
{
    let env = Environment {
        layout: placed.outer.layout,
        places: placed.places,
        stand: Stand::Receiver {
            sender: placed.outer.node,
            node: inner.head.iterator,
            loads: placed.loads,
        },
    };
    let site = Site {
        env: &env,
        node: inner.head.iterator,
        iterators: &[placed.outer.node, inner.head.iterator],
        at_once: false,
    };
    let condition = lower_expr(alloc, &env, inner.key, inner.filter)?;
    let mut lines = Vec::new(alloc);
    add_lines(
        alloc,
        &site,
        next(placed.outer.kind)?,
        inner.body,
        &mut lines,
    )?;
    let mut out = Vec::new(alloc);
    add_under(condition, lines, &mut out)?;
    Ok(out)
}

// A block with no handlers.
fn body_block(alloc: Global, lines: Vec<VertexLine>) -> Block
    ensures { block result ≡ Blocks.body_block (map line lines.items) }
{
    Block {
        handlers: Items::new(Vec::new(alloc)),
        body: Items::new(lines),
    }
}

// The block that handles the messages of a loop.
fn handler_block(alloc: Global, kind: u32, lines: Vec<VertexLine>) -> Result<Block, NoMemory>
    ensures { IfOk result (λ r. block r ≡ handling_block kind (map line lines.items)) }
{
    let mut handlers = Vec::new(alloc);
    handlers.push(Handler {
        kind,
        lines: Items::new(lines),
    })?;
    Ok(Block {
        handlers: Items::new(handlers),
        body: Items::new(Vec::new(alloc)),
    })
}

// The loop over neighbours that a body is.
#[tactic(auto, using(crate::proofs::Loops::inner_of_block))]
fn inner_of(body: &Stmt) -> Option<InnerLoop<'_>>
    ensures { option_map as_inner result ≡ Loops.inner_of (stmt_of body.now) }
{
    match body {
        Stmt::Foreach {
            key,
            head,
            filter,
            body,
            ..
        } => Some(InnerLoop {
            key: *key,
            head: *head,
            filter,
            body,
        }),
        Stmt::Block(_) => None,
        Stmt::Declare { .. }
        | Stmt::DeclareEdge { .. }
        | Stmt::Assign { .. }
        | Stmt::Defer { .. }
        | Stmt::Reduce { .. }
        | Stmt::Group { .. }
        | Stmt::For { .. }
        | Stmt::If { .. }
        | Stmt::While { .. }
        | Stmt::Do { .. }
        | Stmt::InBfs { .. }
        | Stmt::InBfsBoth { .. }
        | Stmt::Return { .. } => None,
    }
}

// Where a loop's reductions are taken, by the iterator of the node that sends.
fn taken_at<'a>(placed: &Placed<'a>, node: u32) -> Takings<'a>
    ensures layout { result.layout.now ≡ placed.now.outer.layout.now }
    ensures places { result.places.now ≡ placed.now.places.now }
    ensures node { result.node ≡ node }
{
    Takings {
        layout: placed.outer.layout,
        places: placed.places,
        node,
    }
}

// A loop of own statements.
fn own_loop(alloc: Global, outer: &NodeLoop<'_>, body: &Stmt) -> Result<LoopBlocks, NoMemory>
    ensures blocks { IfOk result (λ r. as_lowered r ≡ Blocks.own_loop (where_of outer.now.layout.now) outer.now.base outer.now.kind outer.now.node outer.now.key (expr_of outer.now.filter.now) (stmt_of body.now)) }
    ensures kinds { IfOk result (λ r. r.kind ≡ outer.now.kind + length (Plans.aways (where_of outer.now.layout.now).declarations outer.now.node (stmt_of body.now))) }
{
    let places = own_places(alloc, outer, body)?;
    let placed = Placed {
        outer: *outer,
        places: &places,
        loads: &[],
    };
    let own = own_lines(alloc, &placed, body)?;
    let masked = filtered(alloc, &placed, own)?;
    let mut blocks = Vec::new(alloc);
    blocks.push(body_block(alloc, masked))?;
    let takings = taken_at(&placed, outer.node);
    let kind = add_taking_block(alloc, &takings, outer.kind, body, &mut blocks)?;
    Ok(LoopBlocks {
        blocks,
        places,
        kind,
    })
}

// A loop whose inner one is evaluated at the outer node, for each of its edges.
fn each_loop(
    alloc: Global,
    outer: &NodeLoop<'_>,
    inner: &InnerLoop<'_>,
) -> Result<LoopBlocks, NoMemory>
    ensures blocks { IfOk result (λ r. as_lowered r ≡ Blocks.each_loop (where_of outer.now.layout.now) outer.now.base outer.now.kind outer.now.node outer.now.key (expr_of outer.now.filter.now) inner.now.key inner.now.head (expr_of inner.now.filter.now) (stmt_of inner.now.body.now)) }
    ensures kinds { IfOk result (λ r. r.kind ≡ outer.now.kind + length (Plans.aways (where_of outer.now.layout.now).declarations outer.now.node (stmt_of inner.now.body.now))) }
{
    let places = inner_places(alloc, outer, inner, outer.node)?;
    let placed = Placed {
        outer: *outer,
        places: &places,
        loads: &[],
    };
    let edge = each_body(alloc, &placed, inner)?;
    let edges = each_lines(alloc, inner.head.domain, edge)?;
    let masked = filtered(alloc, &placed, edges)?;
    let mut blocks = Vec::new(alloc);
    blocks.push(body_block(alloc, masked))?;
    let takings = taken_at(&placed, outer.node);
    let kind = add_taking_block(alloc, &takings, outer.kind, inner.body, &mut blocks)?;
    Ok(LoopBlocks {
        blocks,
        places,
        kind,
    })
}

// A loop whose inner one is evaluated at the inner node, for each message with what it reads of the outer one.
fn message_loop(
    alloc: Global,
    outer: &NodeLoop<'_>,
    inner: &InnerLoop<'_>,
) -> Result<LoopBlocks, NoMemory>
    ensures blocks { IfOk result (λ r. as_lowered r ≡ Blocks.message_loop (where_of outer.now.layout.now) outer.now.base outer.now.kind outer.now.node outer.now.key (expr_of outer.now.filter.now) inner.now.key inner.now.head (expr_of inner.now.filter.now) (stmt_of inner.now.body.now)) }
    ensures kinds { IfOk result (λ r. r.kind ≡ suc outer.now.kind + length (Plans.aways (where_of outer.now.layout.now).declarations inner.now.head.iterator (stmt_of inner.now.body.now))) }
{
    let loads = carried(alloc, outer.node, inner.filter, inner.body)?;
    let places = inner_places(alloc, outer, inner, inner.head.iterator)?;
    let placed = Placed {
        outer: *outer,
        places: &places,
        loads: &loads,
    };
    let send = send_lines(alloc, outer.layout, outer.kind, &loads)?;
    let edges = each_lines(alloc, inner.head.domain, send)?;
    let masked = filtered(alloc, &placed, edges)?;
    let handled = receiver_lines(alloc, &placed, inner)?;
    let handling = handler_block(alloc, outer.kind, handled)?;
    let taken = next(outer.kind)?;
    let mut blocks = Vec::new(alloc);
    blocks.push(body_block(alloc, masked))?;
    blocks.push(handling)?;
    let takings = taken_at(&placed, inner.head.iterator);
    let kind = add_taking_block(alloc, &takings, taken, inner.body, &mut blocks)?;
    Ok(LoopBlocks {
        blocks,
        places,
        kind,
    })
}

// A loop with an inner one.
fn inner_loop(
    alloc: Global,
    outer: &NodeLoop<'_>,
    inner: &InnerLoop<'_>,
) -> Result<LoopBlocks, NoMemory>
    ensures blocks { IfOk result (λ r. as_lowered r ≡ inner_blocks (where_of outer.now.layout.now) outer.now.base outer.now.kind outer.now.node outer.now.key (expr_of outer.now.filter.now) inner.now.key inner.now.head (expr_of inner.now.filter.now) (stmt_of inner.now.body.now)) }
    ensures kinds { IfOk result (λ r. r.kind ≡ outer.now.kind + inner_kinds (where_of outer.now.layout.now).declarations outer.now.node inner.now.head (expr_of inner.now.filter.now) (stmt_of inner.now.body.now)) }
{
    let declarations = outer.layout.declarations();
    if is_here(
        declarations,
        outer.node,
        inner.head,
        inner.filter,
        inner.body,
    ) {
        let made = each_loop(alloc, outer, inner)?;
        Ok(made)
    } else {
        let made = message_loop(alloc, outer, inner)?;
        Ok(made)
    }
}

/// A loop over all nodes, by its iterator, its key, its filter and its body, whose places begin at an index and whose messages
/// at a kind. It takes time near linear in the loop, and for each local besides the time of the body.
pub fn lower_loop(
    alloc: Global,
    layout: &Layout<'_>,
    base: u32,
    kind: u32,
    node: u32,
    key: Key,
    filter: &Expr,
    body: &Stmt,
) -> Result<LoopBlocks, NoMemory>
    ensures blocks { IfOk result (λ r. as_lowered r ≡ Blocks.loop (where_of layout.now) base kind node key (expr_of filter.now) (stmt_of body.now)) }
    ensures kinds { IfOk result (λ r. r.kind ≡ kind + length (Plans.kinds_of_loop (where_of layout.now).declarations node (stmt_of body.now))) }
{
    let outer = NodeLoop {
        layout,
        base,
        kind,
        node,
        key,
        filter,
    };
    match inner_of(body) {
        Some(inner) => {
            let made = inner_loop(alloc, &outer, &inner)?;
            Ok(made)
        }
        None => {
            let made = own_loop(alloc, &outer, body)?;
            Ok(made)
        }
    }
}
