//! Making the parts of a tree that stand in boxes.

ghost use Rattle.std.specs.Prelude.{◌≡◌, IfOk, [], ◌∷◌, box_value};
ghost use Rattle.gm_ast.specs.Surface.{sequence};
ghost use Rattle.gm_ast.specs.Surface as trees;
ghost use Rattle.gm_ast.specs.SurfaceTree.{name_of, head_of, expr_of, test_of, optional_of, stmt_of, target_of};
ghost use Rattle.std.specs.Prelude.{map, option_map, Some};

use gm_ast::surface::{
    Infix, LoopWord, Name, Prefix, ReductionWord, SpelledExpr, SpelledHead, SpelledStmt,
    SpelledTarget,
};
use gm_base::Place;
use gm_value::Reduce;
use std::alloc::{AllocError, Global};
use std::boxed::Box;

// A part beside two others in boxes. On the way out for want of memory all three are dropped here, so that the callers
// have no tree left to drop.
fn with_both_boxed<P: Drop, A: Drop, B: Drop>(
    alloc: Global,
    part: P,
    first: A,
    second: B,
) -> Result<(P, Box<A>, Box<B>), AllocError>
    ensures part { IfOk result (λ r. r.0 ≡ part) }
    ensures first { IfOk result (λ r. box_value r.1 ≡ first) }
    ensures second { IfOk result (λ r. box_value r.2 ≡ second) }
{
    let first = Box::new(alloc, first)?;
    let second = Box::new(alloc, second)?;
    Ok((part, first, second))
}

/// An expression in parentheses.
pub fn paren(alloc: Global, place: Place, inner: SpelledExpr) -> Result<SpelledExpr, AllocError>
    ensures { IfOk result (λ e. expr_of e ≡ trees.Paren place (expr_of inner)) }
{
    let inner = Box::new(alloc, inner)?;
    Ok(SpelledExpr::Paren { place, inner })
}

/// An operator before an operand.
pub fn prefixed(
    alloc: Global,
    place: Place,
    op: Prefix,
    inner: SpelledExpr,
) -> Result<SpelledExpr, AllocError>
    ensures { IfOk result (λ e. expr_of e ≡ trees.Prefixed place op (expr_of inner)) }
{
    let inner = Box::new(alloc, inner)?;
    Ok(SpelledExpr::Prefix { place, op, inner })
}

/// An operator between two operands.
pub fn infixed(
    alloc: Global,
    place: Place,
    op: Infix,
    left: SpelledExpr,
    right: SpelledExpr,
) -> Result<SpelledExpr, AllocError>
    ensures { IfOk result (λ e. expr_of e ≡ trees.Infixed place op (expr_of left) (expr_of right)) }
{
    let left = Box::new(alloc, left)?;
    let right = Box::new(alloc, right)?;
    Ok(SpelledExpr::Infix {
        place,
        op,
        left,
        right,
    })
}

/// A choice between two values.
pub fn chosen(
    alloc: Global,
    place: Place,
    test: SpelledExpr,
    yes: SpelledExpr,
    no: SpelledExpr,
) -> Result<SpelledExpr, AllocError>
    ensures { IfOk result (λ e. expr_of e ≡ trees.Choose place (expr_of test) (expr_of yes) (expr_of no)) }
{
    let test = Box::new(alloc, test)?;
    let yes = Box::new(alloc, yes)?;
    let no = Box::new(alloc, no)?;
    Ok(SpelledExpr::Choose {
        place,
        test,
        yes,
        no,
    })
}

// A filter or a condition in a box, if there is one.
fn boxed(alloc: Global, test: Option<SpelledExpr>) -> Result<Option<Box<SpelledExpr>>, AllocError>
    ensures { IfOk result (λ e. optional_of e ≡ test_of test) }
{
    match test {
        None => Ok(None),
        Some(test) => Ok(Some(Box::new(alloc, test)?)),
    }
}

/// A reduction.
pub fn reduction(
    alloc: Global,
    place: Place,
    word: ReductionWord,
    head: SpelledHead,
    filter: Option<SpelledExpr>,
    body: Option<SpelledExpr>,
    close: Place,
) -> Result<SpelledExpr, AllocError>
    ensures { IfOk result (λ e. expr_of e ≡ trees.Reduction place word (head_of head) (test_of filter) (test_of body) close) }
{
    let filter = boxed(alloc, filter)?;
    let body = boxed(alloc, body)?;
    Ok(SpelledExpr::Reduction {
        place,
        word,
        head,
        filter,
        body,
        close,
    })
}

/// A reduction assignment of one value to one target.
pub fn reduced(
    alloc: Global,
    target: SpelledTarget,
    reduce: Reduce,
    place: Place,
    value: SpelledExpr,
    iterator: Option<Name>,
) -> Result<SpelledStmt, AllocError>
    ensures { IfOk result (λ s. stmt_of s ≡ trees.Combine (target_of target ∷ []) reduce place (expr_of value ∷ []) (option_map name_of iterator)) }
{
    let mut targets = Vec::new(alloc);
    targets.push(target)?;
    let mut values = Vec::new(alloc);
    values.push(value)?;
    Ok(SpelledStmt::Reduce {
        targets,
        reduce,
        place,
        values,
        iterator,
    })
}

/// A loop over nodes.
pub fn looped(
    alloc: Global,
    place: Place,
    word: LoopWord,
    head: SpelledHead,
    filter: Option<SpelledExpr>,
    body: SpelledStmt,
) -> Result<SpelledStmt, AllocError>
    ensures { IfOk result (λ s. stmt_of s ≡ trees.Loop place word (head_of head) (test_of filter) (stmt_of body)) }
{
    let body = Box::new(alloc, body)?;
    Ok(SpelledStmt::Loop {
        place,
        word,
        head,
        filter,
        body,
    })
}

/// A condition with one branch.
pub fn if_then(
    alloc: Global,
    place: Place,
    test: SpelledExpr,
    yes: SpelledStmt,
) -> Result<SpelledStmt, AllocError>
    ensures { IfOk result (λ s. stmt_of s ≡ trees.If place (expr_of test) (stmt_of yes) trees.Skip) }
{
    let yes = Box::new(alloc, yes)?;
    Ok(SpelledStmt::If {
        place,
        test,
        yes,
        no: None,
    })
}

/// A condition with two branches.
pub fn if_else(
    alloc: Global,
    place: Place,
    test: SpelledExpr,
    yes: SpelledStmt,
    no: SpelledStmt,
) -> Result<SpelledStmt, AllocError>
    ensures { IfOk result (λ s. stmt_of s ≡ trees.If place (expr_of test) (stmt_of yes) (stmt_of no)) }
{
    let (test, yes, no) = with_both_boxed(alloc, test, yes, no)?;
    Ok(SpelledStmt::If {
        place,
        test,
        yes,
        no: Some(no),
    })
}

/// A loop with its test first.
pub fn while_loop(
    alloc: Global,
    place: Place,
    test: SpelledExpr,
    body: SpelledStmt,
) -> Result<SpelledStmt, AllocError>
    ensures { IfOk result (λ s. stmt_of s ≡ trees.While place (expr_of test) (stmt_of body)) }
{
    let body = Box::new(alloc, body)?;
    Ok(SpelledStmt::While { place, test, body })
}

/// A loop with its test last.
pub fn do_loop(
    alloc: Global,
    place: Place,
    body: Vec<SpelledStmt>,
    test: SpelledExpr,
) -> Result<SpelledStmt, AllocError>
    ensures { IfOk result (λ s. stmt_of s ≡ trees.Do place (sequence (map stmt_of body.items)) (expr_of test)) }
{
    let body = Box::new(alloc, SpelledStmt::Block(body))?;
    Ok(SpelledStmt::Do { place, body, test })
}

/// The front of a search: `iterator : graph.Nodes From root`, and a filter.
#[derive(Drop)]
pub struct Front {
    pub iterator: Name,
    pub graph: Name,
    pub root: Name,
    pub filter: Option<SpelledExpr>,
}

/// A search without a part after `InReverse`.
pub fn search(
    alloc: Global,
    place: Place,
    front: Front,
    body: Vec<SpelledStmt>,
) -> Result<SpelledStmt, AllocError>
    ensures { IfOk result (λ s. stmt_of s ≡ trees.InBfs place (name_of front.iterator) (name_of front.graph) (name_of front.root) (test_of front.filter) (sequence (map stmt_of body.items))) }
{
    let body = Box::new(alloc, SpelledStmt::Block(body))?;
    let Front {
        iterator,
        graph,
        root,
        filter,
    } = front;
    Ok(SpelledStmt::InBfs {
        place,
        iterator,
        graph,
        root,
        filter,
        body,
    })
}

/// A search with a part after `InReverse`, the place of which word is `reverse`.
pub fn search_both(
    alloc: Global,
    place: Place,
    front: Front,
    body: Vec<SpelledStmt>,
    reverse: Place,
    back_filter: Option<SpelledExpr>,
    back: Vec<SpelledStmt>,
) -> Result<SpelledStmt, AllocError>
    ensures { IfOk result (λ s. stmt_of s ≡ trees.InBfsBoth place (name_of front.iterator) (name_of front.graph) (name_of front.root) (test_of front.filter) (sequence (map stmt_of body.items)) reverse (test_of back_filter) (sequence (map stmt_of back.items))) }
{
    let parts = (front, back_filter);
    let body = SpelledStmt::Block(body);
    let (parts, body, back) = with_both_boxed(alloc, parts, body, SpelledStmt::Block(back))?;
    let (front, back_filter) = parts;
    let Front {
        iterator,
        graph,
        root,
        filter,
    } = front;
    Ok(SpelledStmt::InBfsBoth {
        place,
        iterator,
        graph,
        root,
        filter,
        body,
        reverse,
        back_filter,
        back,
    })
}
