//! The kinds of values.

ghost use Rattle.std.specs.Prelude.{◌≡◌};
ghost use Rattle.gm_ast.specs.Kinds.{is_number, is_flag, is_number_type, is_flag_type, joint, joint_type, flexible_beside};
ghost use Rattle.gm_ast.specs.Typing.{is_already, is_arithmetic, compares_any, is_value};

use gm_ast::kinds::Kind;
use gm_value::{Op2, VType};

pub fn is_number_type(vtype: VType) -> bool
    ensures { result ≡ is_number_type vtype }
{
    match vtype {
        VType::I32 | VType::I64 => true,
        VType::Flag | VType::Node => false,
    }
}

pub fn is_flag_type(vtype: VType) -> bool
    ensures { result ≡ is_flag_type vtype }
{
    match vtype {
        VType::Flag => true,
        VType::I32 | VType::I64 | VType::Node => false,
    }
}

pub fn is_number(kind: Kind) -> bool
    ensures { result ≡ is_number kind }
{
    match kind {
        Kind::Flexible => true,
        Kind::Of(vtype) => is_number_type(vtype),
        Kind::Edge => false,
    }
}

pub fn is_flag(kind: Kind) -> bool
    ensures { result ≡ is_flag kind }
{
    match kind {
        Kind::Of(vtype) => is_flag_type(vtype),
        Kind::Flexible | Kind::Edge => false,
    }
}

pub fn is_value(kind: Kind) -> bool
    ensures { result ≡ is_value kind }
{
    match kind {
        Kind::Flexible | Kind::Of(_) => true,
        Kind::Edge => false,
    }
}

// Whether a kind is this type of numbers already.
pub fn is_already(vtype: VType, kind: Kind) -> bool
    ensures { result ≡ is_already vtype kind }
{
    match (vtype, kind) {
        (VType::I32, Kind::Of(VType::I32)) | (VType::I64, Kind::Of(VType::I64)) => true,
        _ => false,
    }
}

// The type that two types have in common.
fn joint_type(a: VType, b: VType) -> Option<Kind>
    ensures { result ≡ joint_type a b }
{
    match (a, b) {
        (VType::I32, VType::I32) => Some(Kind::Of(VType::I32)),
        (VType::I32, VType::I64) => Some(Kind::Of(VType::I64)),
        (VType::I64, VType::I32) => Some(Kind::Of(VType::I64)),
        (VType::I64, VType::I64) => Some(Kind::Of(VType::I64)),
        (VType::Flag, VType::Flag) => Some(Kind::Of(VType::Flag)),
        (VType::Node, VType::Node) => Some(Kind::Of(VType::Node)),
        _ => None,
    }
}

fn flexible_beside(kind: Kind) -> Option<Kind>
    ensures { result ≡ flexible_beside kind }
{
    if is_number(kind) { Some(kind) } else { None }
}

// The kind that two kinds have in common.
pub fn joint(a: Kind, b: Kind) -> Option<Kind>
    ensures { result ≡ joint a b }
{
    match (a, b) {
        (Kind::Flexible, other) => flexible_beside(other),
        (Kind::Of(vtype), Kind::Flexible) => flexible_beside(Kind::Of(vtype)),
        (Kind::Of(first), Kind::Of(second)) => joint_type(first, second),
        (Kind::Edge, Kind::Edge) => Some(Kind::Edge),
        _ => None,
    }
}

pub fn is_arithmetic(op: Op2) -> bool
    ensures { result ≡ is_arithmetic op }
{
    match op {
        Op2::Add | Op2::Sub | Op2::Mul | Op2::Div | Op2::Rem => true,
        _ => false,
    }
}

// Whether an operation also takes two Bools or two Nodes.
pub fn compares_any(op: Op2) -> bool
    ensures { result ≡ compares_any op }
{
    match op {
        Op2::Eq | Op2::Ne => true,
        _ => false,
    }
}
