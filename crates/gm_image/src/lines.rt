//! The lines of vertex programs and of master lists, and the expressions in them. Each variant is one spelling of
//! the image's text, and its parts stand in the order of the spelling. Indices count from 0.

ghost use Rattle.std.specs.Prelude.{◌≡◌, option_map};
ghost use Rattle.gm_image.specs.Views.{line};
ghost use Rattle.gm_image.specs.Items.{direction_of, each_of};

use gm_base::Items;
use gm_value::{Reduce, Value};

/// An expression. The number before the operands of an operation that may fault is the index of its place.
#[derive(Drop)]
pub enum Expr {
    /// `c T v`: a constant. The one of a node is NIL.
    Const(Value),
    /// `g G`: a global.
    Global(u32),
    /// `nn`: how many nodes the graph has, as a value of 32 bits.
    NodeCount,
    /// `ne`: how many edges the graph has, as a value of 32 bits.
    EdgeCount,
    /// `f F`: at a vertex, a field of it.
    Field(u32),
    /// `id`: at a vertex, itself.
    Id,
    /// `out`: at a vertex, its out-degree.
    OutDegree,
    /// `inn`: at a vertex, its in-degree.
    InDegree,
    /// `r R`: at a vertex, a register.
    Register(u32),
    /// `m i`: in a handler, value i of the message.
    Message(u32),
    /// `nb`: in an each, the neighbour.
    Neighbour,
    /// `w W`: in an each over out-edges, the edge's value in a column.
    Column(u32),
    /// `node a`: of a number of 64 bits, the node with that index, NIL where there is none.
    NodeAt(Box<Expr>),
    /// `live P a`: a node that is not NIL; NIL is the fault NilNode.
    Live(u32, Box<Expr>),
    /// `+ P a b`: the sum.
    Add(u32, Box<Expr>, Box<Expr>),
    /// `- P a b`: the difference.
    Sub(u32, Box<Expr>, Box<Expr>),
    /// `* P a b`: the product.
    Mul(u32, Box<Expr>, Box<Expr>),
    /// `/ P a b`: the quotient, cut toward zero.
    Div(u32, Box<Expr>, Box<Expr>),
    /// `% P a b`: the remainder, with the dividend's sign.
    Rem(u32, Box<Expr>, Box<Expr>),
    /// `neg P a`: the number with the other sign.
    Neg(u32, Box<Expr>),
    /// `int P a`: a number of 64 bits as one of 32.
    ToInt(u32, Box<Expr>),
    /// `long a`: a number of 32 bits as one of 64.
    ToLong(Box<Expr>),
    /// `== a b`: whether two values are equal.
    Eq(Box<Expr>, Box<Expr>),
    /// `!= a b`: whether two values differ.
    Ne(Box<Expr>, Box<Expr>),
    /// `< a b`: whether the first is less.
    Lt(Box<Expr>, Box<Expr>),
    /// `> a b`: whether the first is greater.
    Gt(Box<Expr>, Box<Expr>),
    /// `<= a b`: whether the first is at most the second.
    Le(Box<Expr>, Box<Expr>),
    /// `>= a b`: whether the first is at least the second.
    Ge(Box<Expr>, Box<Expr>),
    /// `not a`: the other truth value.
    Not(Box<Expr>),
    /// `&& a b`: whether both hold. The second counts only where the first holds.
    And(Box<Expr>, Box<Expr>),
    /// `|| a b`: whether one holds. The second counts only where the first does not hold.
    Or(Box<Expr>, Box<Expr>),
    /// `? c a b`: where c holds the first, else the second. The other one does not count.
    Choose(Box<Expr>, Box<Expr>, Box<Expr>),
}

/// A line of a vertex program. A reduction names its place and its slots with their values: one slot, or two and
/// more, which take the least or the greatest tuple.
#[derive(Drop)]
pub enum VertexLine {
    /// `set F a`: a field becomes a value.
    SetField(u32, Expr),
    /// `fold OP P F a`, of more slots `pick OP P n F a F a ..`: contributions to fields.
    Fold {
        reduce: Reduce,
        place: u32,
        slots: Items<(u32, Expr)>,
    },
    /// `reg R a`: a register becomes a value.
    SetRegister(u32, Expr),
    /// `put OP P G a`, of more slots `pickput OP P n G a G a ..`: contributions to globals.
    Put {
        reduce: Reduce,
        place: u32,
        slots: Items<(u32, Expr)>,
    },
    /// `send K a v ..`: a message of a kind to a node, none where that is NIL.
    Send {
        kind: u32,
        to: Expr,
        values: Items<Expr>,
    },
    /// `skip n a`: where a is False the next n lines are left out.
    Skip(u32, Expr),
    /// `each out n`: the next n lines run once for each out-edge.
    EachOut(u32),
    /// `each in n`: the next n lines run once for each in-edge.
    EachIn(u32),
}

/// The edges that an each goes over.
#[derive(Clone, Copy, Debug, PartialEq, Eq)]
pub enum Direction {
    /// The edges that begin at the vertex.
    Out,
    /// The edges that end at the vertex.
    In,
}

impl VertexLine {
    /// The edges that an each goes over and how many lines it has, where the line is an each.
    pub fn each(&self) -> Option<(Direction, u32)>
        ensures { option_map (λ e. (direction_of e.0, e.1)) result ≡ each_of (line self.now) }
    {
        match self {
            VertexLine::EachOut(count) => Some((Direction::Out, *count)),
            VertexLine::EachIn(count) => Some((Direction::In, *count)),
            _ => None,
        }
    }
}

/// A line of the master list.
#[derive(Drop)]
pub enum MasterLine {
    /// `set G a`: a global becomes a value.
    SetGlobal(u32, Expr),
    /// `step Q`: one superstep of all vertices with a block.
    Step(u32),
    /// `jump j`: line j is next.
    Jump(u32),
    /// `test j a`: where a is False line j is next.
    Test(u32, Expr),
    /// `loop x a`: where a is True a turn is counted, else line x is next.
    Turn(u32, Expr),
    /// `back h`: line h is next.
    Back(u32),
    /// `end`: the run is done.
    Finish,
}
