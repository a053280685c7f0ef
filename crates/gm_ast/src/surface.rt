//! What a text spells: names as they are written, each part with the places that a rule may name.

use gm_base::Place;
use gm_value::{Op2, Reduce, VType};

/// A name as it is written: its bytes, and the place of the first.
#[derive(Drop)]
pub struct Name {
    pub text: Vec<u8>,
    pub place: Place,
}

/// The word of a type that holds no other type. `DGraph` is `Graph`.
#[derive(Clone, Copy, PartialEq, Eq, Debug)]
pub enum TypeWord {
    Int,
    Long,
    Bool,
    Graph,
    Node,
    Edge,
}

/// What bears a property.
#[derive(Clone, Copy, PartialEq, Eq, Debug)]
pub enum Bearer {
    Nodes,
    Edges,
}

/// A property type's own part: the place of its word, what bears it, and the graph that it names.
#[derive(Drop)]
pub struct PropertyLayer {
    pub place: Place,
    pub bearer: Bearer,
    pub graph: Option<Name>,
}

/// A type as it is written: the innermost word, with its place and the graph that it names, and the property types
/// around it, the innermost first. More than one is spelled by no accepted program, but a text may nest as many as
/// it has bytes for.
#[derive(Drop)]
pub struct SpelledType {
    pub place: Place,
    pub word: TypeWord,
    pub graph: Option<Name>,
    pub layers: Vec<PropertyLayer>,
}

/// An operator before its operand.
#[derive(Clone, Copy, PartialEq, Eq, Debug)]
pub enum Prefix {
    Minus,
    Not,
    /// A cast to Int or Long.
    Cast(VType),
}

/// An operator between its operands.
#[derive(Clone, Copy, PartialEq, Eq, Debug)]
pub enum Infix {
    Op(Op2),
    And,
    Or,
}

/// What of a node, or of the graph, a loop or a reduction runs over.
#[derive(Clone, Copy, PartialEq, Eq, Debug)]
pub enum Range {
    Nodes,
    Nbrs,
    OutNbrs,
    InNbrs,
    UpNbrs,
    DownNbrs,
}

/// The word of a reduction.
#[derive(Clone, Copy, PartialEq, Eq, Debug)]
pub enum ReductionWord {
    Sum,
    Product,
    Min,
    Max,
    All,
    Exist,
    Count,
}

/// What a loop or a reduction runs over, as it is written: `iterator: owner.range`.
#[derive(Drop)]
pub struct SpelledHead {
    pub iterator: Name,
    pub owner: Name,
    pub range: Range,
}

/// An expression. The place of an operation is its operator's, that of a cast its parenthesis's, and that of
/// everything else its first token's.
#[derive(Drop)]
pub enum SpelledExpr {
    Number {
        place: Place,
        value: i64,
    },
    Truth {
        place: Place,
        value: bool,
    },
    Nil {
        place: Place,
    },
    /// `INF` or `+INF`.
    Greatest {
        place: Place,
    },
    /// `-INF`.
    Least {
        place: Place,
    },
    Named(Name),
    Member {
        owner: Name,
        property: Name,
    },
    Method {
        owner: Name,
        method: Name,
    },
    Paren {
        place: Place,
        inner: Box<SpelledExpr>,
    },
    Prefix {
        place: Place,
        op: Prefix,
        inner: Box<SpelledExpr>,
    },
    Infix {
        place: Place,
        op: Infix,
        left: Box<SpelledExpr>,
        right: Box<SpelledExpr>,
    },
    /// `test ? yes : no`, with the place of the `?`.
    Choose {
        place: Place,
        test: Box<SpelledExpr>,
        yes: Box<SpelledExpr>,
        no: Box<SpelledExpr>,
    },
    /// A reduction, with the place of its closing brace, or again of its word where it has no braces.
    Reduction {
        place: Place,
        word: ReductionWord,
        head: SpelledHead,
        filter: Option<Box<SpelledExpr>>,
        body: Option<Box<SpelledExpr>>,
        close: Place,
    },
}

/// The left side of an assignment: a name, or a property of one.
#[derive(Drop)]
pub struct SpelledTarget {
    pub owner: Name,
    pub property: Option<Name>,
}

/// The word of a loop: over all nodes at once, or over one after another.
#[derive(Clone, Copy, PartialEq, Eq, Debug)]
pub enum LoopWord {
    Foreach,
    For,
}

/// Where the result of a call goes, with the place of the `=`.
#[derive(Drop)]
pub struct CallResult {
    pub target: SpelledTarget,
    pub equals: Place,
}

/// A statement, with the place of its first token where a rule may name it, and that of its operator. `;` is a
/// block of no statements.
#[derive(Drop)]
pub enum SpelledStmt {
    Block(Vec<SpelledStmt>),
    Declare {
        vtype: SpelledType,
        names: Vec<Name>,
    },
    DeclareAs {
        vtype: SpelledType,
        name: Name,
        equals: Place,
        value: SpelledExpr,
    },
    Assign {
        target: SpelledTarget,
        equals: Place,
        value: SpelledExpr,
    },
    /// `target <= value @ iterator`.
    Defer {
        target: SpelledTarget,
        arrow: Place,
        value: SpelledExpr,
        iterator: Option<Name>,
    },
    /// A reduction assignment, with as many values as targets. So far the grammar gives one of each.
    Reduce {
        targets: Vec<SpelledTarget>,
        reduce: Reduce,
        place: Place,
        values: Vec<SpelledExpr>,
        iterator: Option<Name>,
    },
    Increment {
        target: SpelledTarget,
        place: Place,
    },
    /// A call of a procedure. So far the grammar gives none.
    Call {
        result: Option<CallResult>,
        procedure: Name,
        inputs: Vec<SpelledExpr>,
        outputs: Vec<Name>,
    },
    Loop {
        place: Place,
        word: LoopWord,
        head: SpelledHead,
        filter: Option<SpelledExpr>,
        body: Box<SpelledStmt>,
    },
    If {
        place: Place,
        test: SpelledExpr,
        yes: Box<SpelledStmt>,
        no: Option<Box<SpelledStmt>>,
    },
    While {
        place: Place,
        test: SpelledExpr,
        body: Box<SpelledStmt>,
    },
    Do {
        place: Place,
        body: Box<SpelledStmt>,
        test: SpelledExpr,
    },
    InBfs {
        place: Place,
        iterator: Name,
        graph: Name,
        root: Name,
        filter: Option<SpelledExpr>,
        body: Box<SpelledStmt>,
    },
    /// A search with a part after `InReverse`, with the place of that word.
    InBfsBoth {
        place: Place,
        iterator: Name,
        graph: Name,
        root: Name,
        filter: Option<SpelledExpr>,
        body: Box<SpelledStmt>,
        reverse: Place,
        back_filter: Option<SpelledExpr>,
        back: Box<SpelledStmt>,
    },
    Return {
        place: Place,
        value: Option<SpelledExpr>,
    },
}

/// Parameters of one type.
#[derive(Drop)]
pub struct SpelledGroup {
    pub names: Vec<Name>,
    pub vtype: SpelledType,
}

/// A procedure as it is written.
#[derive(Drop)]
pub struct SpelledProcedure {
    pub name: Name,
    pub inputs: Vec<SpelledGroup>,
    pub outputs: Vec<SpelledGroup>,
    pub result: Option<SpelledType>,
    pub body: Vec<SpelledStmt>,
}
