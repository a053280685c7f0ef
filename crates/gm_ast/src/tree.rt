//! Programs with their names resolved and their types known: the one tree that all passes work on.
//!
//! A variable is an index from 0 into the table of declarations. Each part keeps the key under which its faults
//! are compared and the places that rules and faults name, so that a pass keeps them by moving fields.

use crate::surface::ReductionWord;
use gm_base::{Items, Place};
use gm_value::{Op1, Op2, Reduce, VType, Value};

/// What a variable is. An iterator is a scalar of Node that no statement writes.
#[derive(Clone, Copy, PartialEq, Eq, Debug)]
pub enum Sort {
    Graph,
    Iterator,
    Scalar,
    Edge,
    NodeProperty,
    EdgeProperty,
}

/// What is declared: its sort, the type of the scalar or of the property's values, and how many parallel loops are
/// around the declaration.
#[derive(Clone, Copy, PartialEq, Eq, Debug)]
pub struct Variable {
    pub sort: Sort,
    pub vtype: VType,
    pub depth: u32,
}

/// A row of the table of declarations.
#[derive(Drop)]
pub struct Declaration {
    pub name: Items<u8>,
    pub variable: Variable,
}

/// What stands under the number of one statement: operators and totals of inner reductions, then other operators,
/// then totals of reduction assignments.
#[derive(Clone, Copy, PartialEq, Eq, Debug)]
pub enum Stage {
    Inner,
    Operator,
    Total,
}

/// What the faults of a statement's operators share of the key by which faults are compared: the statement's number
/// in the order of the text, from 0, and the stage.
#[derive(Clone, Copy, PartialEq, Eq, Debug)]
pub struct Key {
    pub statement: u32,
    pub stage: Stage,
}

/// Where a total that overflows stands in the order of faults, and the place that its fault shows.
#[derive(Clone, Copy, PartialEq, Eq, Debug)]
pub struct TotalKey {
    pub key: Key,
    pub place: Place,
    pub shown: Place,
}

/// What a loop or a reduction runs over.
#[derive(Clone, Copy, PartialEq, Eq, Debug)]
pub enum Domain {
    Nodes,
    OutNbrs,
    InNbrs,
    UpNbrs,
    DownNbrs,
}

/// A loop's or a reduction's iterator, its domain, the variable whose nodes or neighbours these are, and the place
/// of that name.
#[derive(Clone, Copy, PartialEq, Eq, Debug)]
pub struct Head {
    pub iterator: u32,
    pub domain: Domain,
    pub owner: u32,
    pub place: Place,
}

/// A reduction's word, the type of its value, the keys of its filter and of its braces, and that of its total, which
/// shows the place of the word.
#[derive(Clone, Copy, PartialEq, Eq, Debug)]
pub struct Fold {
    pub word: ReductionWord,
    pub vtype: VType,
    pub filter: Key,
    pub body: Key,
    pub total: TotalKey,
}

/// Which edges of a node a degree counts.
#[derive(Clone, Copy, PartialEq, Eq, Debug)]
pub enum Direction {
    Out,
    In,
}

/// What an assignment writes, with the place of its first token.
#[derive(Clone, Copy, PartialEq, Eq, Debug)]
pub enum Target {
    Scalar {
        variable: u32,
        place: Place,
    },
    Property {
        owner: u32,
        property: u32,
        place: Place,
    },
}

/// An expression. The place of a read is that of its first token, and that of an operation its operator's. An
/// absent filter is the constant True.
#[derive(Drop)]
pub enum Expr {
    Const(Value),
    Var {
        variable: u32,
        place: Place,
    },
    Property {
        owner: u32,
        property: u32,
        place: Place,
    },
    EdgeProperty {
        edge: u32,
        property: u32,
        place: Place,
    },
    Degree {
        direction: Direction,
        owner: u32,
        place: Place,
    },
    NodeCount,
    EdgeCount,
    /// The node that a variable holds, which faults where that is NIL. No text spells it; passes write it.
    Live {
        variable: u32,
        place: Place,
    },
    Unary {
        op: Op1,
        place: Place,
        inner: Box<Expr>,
    },
    Binary {
        op: Op2,
        place: Place,
        left: Box<Expr>,
        right: Box<Expr>,
    },
    Both(Box<Expr>, Box<Expr>),
    Either(Box<Expr>, Box<Expr>),
    Choose(Box<Expr>, Box<Expr>, Box<Expr>),
    Fold {
        fold: Fold,
        head: Head,
        filter: Box<Expr>,
        body: Box<Expr>,
    },
}

/// A breadth-first search: its iterator, the graph, the variable that holds the root, and the place of the root.
#[derive(Clone, Copy, PartialEq, Eq, Debug)]
pub struct Search {
    pub iterator: u32,
    pub graph: u32,
    pub root: u32,
    pub place: Place,
}

/// A statement. Its key is that of its operators, and its place that of its first token, where a rule may name it.
/// An absent filter is the constant True, and an absent branch an empty block.
#[derive(Drop)]
pub enum Stmt {
    Block(Vec<Stmt>),
    Declare {
        key: Key,
        variable: u32,
        value: Option<Expr>,
    },
    /// A declaration of the edge along which an inner iterator was reached, with the place of the iterator.
    DeclareEdge {
        variable: u32,
        iterator: u32,
        place: Place,
    },
    Assign {
        key: Key,
        target: Target,
        value: Expr,
    },
    Defer {
        key: Key,
        target: Target,
        value: Expr,
    },
    /// A reduction assignment, with as many values as targets.
    Reduce {
        key: Key,
        total: TotalKey,
        reduce: Reduce,
        targets: Vec<Target>,
        values: Vec<Expr>,
    },
    /// A property's values at all nodes. In the value the graph's own variable stands for the node.
    Group {
        key: Key,
        place: Place,
        graph: u32,
        property: u32,
        value: Expr,
    },
    Foreach {
        key: Key,
        place: Place,
        head: Head,
        filter: Expr,
        body: Box<Stmt>,
    },
    For {
        key: Key,
        place: Place,
        head: Head,
        filter: Expr,
        body: Box<Stmt>,
    },
    If {
        key: Key,
        test: Expr,
        yes: Box<Stmt>,
        no: Box<Stmt>,
    },
    While {
        key: Key,
        place: Place,
        test: Expr,
        body: Box<Stmt>,
    },
    Do {
        key: Key,
        place: Place,
        body: Box<Stmt>,
        test: Expr,
    },
    InBfs {
        key: Key,
        place: Place,
        search: Search,
        filter: Expr,
        body: Box<Stmt>,
    },
    /// A search with a part that runs from the greatest level down, which has a key of its own.
    InBfsBoth {
        key: Key,
        place: Place,
        search: Search,
        filter: Expr,
        body: Box<Stmt>,
        back_key: Key,
        back_filter: Expr,
        back: Box<Stmt>,
    },
    Return {
        key: Key,
        place: Place,
        value: Option<Expr>,
    },
}

/// A procedure: its name; the table of declarations, of which the first are the inputs, the graph among them, and
/// the next the outputs; the type of its result; how many statement numbers its keys have; and its body.
#[derive(Drop)]
pub struct Tree {
    pub name: Items<u8>,
    pub declarations: Vec<Declaration>,
    pub inputs: u32,
    pub outputs: u32,
    pub result: Option<VType>,
    pub statements: u32,
    pub body: Stmt,
}
