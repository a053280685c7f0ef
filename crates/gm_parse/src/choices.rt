//! What a word stands for, if it is one of some words.

ghost use Rattle.std.specs.Prelude.{◌≡◌};
ghost use Rattle.std.specs.Option.{option_and_then};
ghost use Rattle.gm_parse.specs.Choices.{procedure_word, bare_type, element_type, bearer_word, cast_type, range_word, loop_word, value_reduction, test_reduction, reduce_sign, argument_operation, product_infix, sum_infix, relation_infix, equality_infix, and_infix, or_infix, infix_of};

use crate::levels::Level;
use gm_ast::surface::{Bearer, Infix, LoopWord, Range, ReductionWord, TypeWord};
use gm_token::Word;
use gm_value::{Op2, Reduce, VType};

/// The word that begins a procedure.
pub fn procedure_word(next: Option<Word>) -> Option<Word>
    ensures { result ≡ option_and_then procedure_word next }
{
    match next? {
        Word::Procedure => Some(Word::Procedure),
        Word::Proc => Some(Word::Procedure),
        _ => None,
    }
}

/// A type that names no graph.
pub fn bare_type(next: Option<Word>) -> Option<TypeWord>
    ensures { result ≡ option_and_then bare_type next }
{
    match next? {
        Word::IntType => Some(TypeWord::Int),
        Word::LongType => Some(TypeWord::Long),
        Word::BoolType => Some(TypeWord::Bool),
        Word::Graph => Some(TypeWord::Graph),
        Word::DGraph => Some(TypeWord::Graph),
        _ => None,
    }
}

/// A type that may name its graph.
pub fn element_type(next: Option<Word>) -> Option<TypeWord>
    ensures { result ≡ option_and_then element_type next }
{
    match next? {
        Word::Node => Some(TypeWord::Node),
        Word::Edge => Some(TypeWord::Edge),
        _ => None,
    }
}

/// The word of a property type.
pub fn bearer_word(next: Option<Word>) -> Option<Bearer>
    ensures { result ≡ option_and_then bearer_word next }
{
    match next? {
        Word::NP => Some(Bearer::Nodes),
        Word::NodeProp => Some(Bearer::Nodes),
        Word::NodeProperty => Some(Bearer::Nodes),
        Word::EP => Some(Bearer::Edges),
        Word::EdgeProp => Some(Bearer::Edges),
        Word::EdgeProperty => Some(Bearer::Edges),
        _ => None,
    }
}

/// The type of a cast.
pub fn cast_type(next: Option<Word>) -> Option<VType>
    ensures { result ≡ option_and_then cast_type next }
{
    match next? {
        Word::IntType => Some(VType::I32),
        Word::LongType => Some(VType::I64),
        _ => None,
    }
}

/// The word of a range.
pub fn range_word(next: Option<Word>) -> Option<Range>
    ensures { result ≡ option_and_then range_word next }
{
    match next? {
        Word::Nodes => Some(Range::Nodes),
        Word::Nbrs => Some(Range::Nbrs),
        Word::OutNbrs => Some(Range::OutNbrs),
        Word::InNbrs => Some(Range::InNbrs),
        Word::UpNbrs => Some(Range::UpNbrs),
        Word::DownNbrs => Some(Range::DownNbrs),
        _ => None,
    }
}

/// The word of a loop.
pub fn loop_word(next: Option<Word>) -> Option<LoopWord>
    ensures { result ≡ option_and_then loop_word next }
{
    match next? {
        Word::Foreach => Some(LoopWord::Foreach),
        Word::For => Some(LoopWord::For),
        _ => None,
    }
}

/// A reduction with its values in braces.
pub fn value_reduction(next: Option<Word>) -> Option<ReductionWord>
    ensures { result ≡ option_and_then value_reduction next }
{
    match next? {
        Word::Sum => Some(ReductionWord::Sum),
        Word::Product => Some(ReductionWord::Product),
        Word::Min => Some(ReductionWord::Min),
        Word::Max => Some(ReductionWord::Max),
        Word::All => Some(ReductionWord::All),
        _ => None,
    }
}

/// A reduction whose condition in braces may be absent.
pub fn test_reduction(next: Option<Word>) -> Option<ReductionWord>
    ensures { result ≡ option_and_then test_reduction next }
{
    match next? {
        Word::Exist => Some(ReductionWord::Exist),
        Word::Count => Some(ReductionWord::Count),
        _ => None,
    }
}

/// The sign of a reduction assignment.
pub fn reduce_sign(next: Option<Word>) -> Option<Reduce>
    ensures { result ≡ option_and_then reduce_sign next }
{
    match next? {
        Word::PlusAssign => Some(Reduce::Sum),
        Word::StarAssign => Some(Reduce::Product),
        Word::MinAssign => Some(Reduce::Min),
        Word::MaxAssign => Some(Reduce::Max),
        Word::AndAndAssign => Some(Reduce::And),
        Word::AndAssign => Some(Reduce::And),
        Word::OrOrAssign => Some(Reduce::Or),
        Word::OrAssign => Some(Reduce::Or),
        _ => None,
    }
}

/// The sign of an argument reduction.
pub fn argument_operation(next: Option<Word>) -> Option<Reduce>
    ensures { result ≡ option_and_then argument_operation next }
{
    match next? {
        Word::MinAssign => Some(Reduce::Min),
        Word::MaxAssign => Some(Reduce::Max),
        _ => None,
    }
}

/// An operator between factors.
pub fn product_infix(next: Option<Word>) -> Option<Infix>
    ensures { result ≡ option_and_then product_infix next }
{
    match next? {
        Word::Star => Some(Infix::Op(Op2::Mul)),
        Word::Slash => Some(Infix::Op(Op2::Div)),
        Word::Percent => Some(Infix::Op(Op2::Rem)),
        _ => None,
    }
}

/// An operator between summands.
pub fn sum_infix(next: Option<Word>) -> Option<Infix>
    ensures { result ≡ option_and_then sum_infix next }
{
    match next? {
        Word::Plus => Some(Infix::Op(Op2::Add)),
        Word::Minus => Some(Infix::Op(Op2::Sub)),
        _ => None,
    }
}

/// An operator of order.
pub fn relation_infix(next: Option<Word>) -> Option<Infix>
    ensures { result ≡ option_and_then relation_infix next }
{
    match next? {
        Word::Less => Some(Infix::Op(Op2::Lt)),
        Word::Greater => Some(Infix::Op(Op2::Gt)),
        Word::LessEqual => Some(Infix::Op(Op2::Le)),
        Word::GreaterEqual => Some(Infix::Op(Op2::Ge)),
        _ => None,
    }
}

/// An operator of equality.
pub fn equality_infix(next: Option<Word>) -> Option<Infix>
    ensures { result ≡ option_and_then equality_infix next }
{
    match next? {
        Word::Equal => Some(Infix::Op(Op2::Eq)),
        Word::NotEqual => Some(Infix::Op(Op2::Ne)),
        _ => None,
    }
}

/// The operator `&&`.
pub fn and_infix(next: Option<Word>) -> Option<Infix>
    ensures { result ≡ option_and_then and_infix next }
{
    match next? {
        Word::AndAnd => Some(Infix::And),
        _ => None,
    }
}

/// The operator `||`.
pub fn or_infix(next: Option<Word>) -> Option<Infix>
    ensures { result ≡ option_and_then or_infix next }
{
    match next? {
        Word::OrOr => Some(Infix::Or),
        _ => None,
    }
}

/// An operator of this level.
pub fn infix_of(level: Level, next: Option<Word>) -> Option<Infix>
    ensures { result ≡ option_and_then (infix_of level) next }
{
    match level {
        Level::Or => or_infix(next),
        Level::And => and_infix(next),
        Level::Equality => equality_infix(next),
        Level::Relation => relation_infix(next),
        Level::Sum => sum_infix(next),
        Level::Product => product_infix(next),
    }
}
