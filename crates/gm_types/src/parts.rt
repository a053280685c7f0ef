//! Expressions that have types, and the rules on the operations over them.

ghost use Rattle.std.specs.Prelude.{◌≡◌, [], ◌++◌, map, Some, IfOk, OnOk, option_map, IsTrue, ◌↔◌, ◌&&◌, if◌then◌else◌};
ghost use Rattle.gm_base.specs.Rules.{lesser, least_from, broken_at};
ghost use Rattle.gm_base.specs.declared.rules.Rule.TheVariants.{T10};
ghost use Rattle.gm_ast.specs.Judged.{ok_of, errs_of, both_of, part_by, broken_by, refused_unless, then_answer};
ghost use Rattle.gm_ast.specs.Kinds as Kinds;
ghost use Rattle.gm_ast.specs.Kinds.{is_flag, as_int, int_of, taken, joint, settled, default_of};
ghost use Rattle.gm_ast.specs.Typing.{cast_part, prefix_part, large_of, paired, compared_as, operation, operation_by, infix_part, choice_by, choice_part};
ghost use Rattle.gm_ast.specs.declared.surface.Infix.TheVariants.{And, Or};
ghost use Rattle.gm_ast.specs.Tree.{expr_of};
ghost use Rattle.gm_ast.specs.Program as Program;
ghost use Rattle.gm_ast.specs.declared.kinds.Kind.TheVariants as Kind;
ghost use Rattle.gm_value.specs.declared.values.VType.TheVariants.{Flag};
ghost use Rattle.gm_types.specs.Parts.{part_of, pair_of};

use crate::kinds::{compares_any, is_already, is_arithmetic, is_flag, is_number, is_value, joint};
use crate::narrow::narrowed;
use crate::notes::{note, note_all};
use gm_ast::kinds::Kind;
use gm_ast::surface::{Infix, Prefix};
use gm_ast::tree::Expr;
use gm_base::{Place, Refusal, Rule};
use gm_value::{Op1, Op2, VType};
use std::alloc::{AllocError, Global};

// An expression that has a type; a flexible one has its numbers as Long, and the places of those that Int does not hold.
#[derive(Drop)]
pub struct Part {
    pub kind: Kind,
    pub core: Expr,
    pub large: Vec<Place>,
}

// A flexible part as an Int, unless one of its numbers is too large.
fn as_int(
    alloc: Global,
    part: Part,
    least: &mut Option<Refusal>,
) -> Result<Option<Expr>, AllocError>
    ensures part { IfOk result (λ r. option_map expr_of r ≡ ok_of (as_int (part_of part))) }
    ensures least { OnOk result (least.new ≡ least_from least.old (errs_of (as_int (part_of part)))) }
{
    if part.large.is_empty() {
        let core = narrowed(alloc, part.core)?;
        return Ok(Some(core));
    }
    note_all(least, Rule::T8, &part.large);
    Ok(None)
}

// A part as one of a kind that it shares with another.
pub fn taken(
    alloc: Global,
    kind: Kind,
    place: Place,
    part: Part,
    least: &mut Option<Refusal>,
) -> Result<Option<Expr>, AllocError>
    ensures part { IfOk result (λ r. option_map expr_of r ≡ ok_of (taken kind place (part_of part))) }
    ensures least { OnOk result (least.new ≡ least_from least.old (errs_of (taken kind place (part_of part)))) }
{
    match (kind, part.kind) {
        (Kind::Of(VType::I32), Kind::Flexible) => as_int(alloc, part, least),
        (Kind::Of(VType::I64), Kind::Of(VType::I32)) => {
            let inner = Box::new(alloc, part.core)?;
            Ok(Some(Expr::Unary {
                op: Op1::ToI64,
                place,
                inner,
            }))
        }
        _ => Ok(Some(part.core)),
    }
}

// A part where nothing beside it gives a type.
pub fn settled(alloc: Global, part: Part) -> Result<Part, AllocError>
    ensures { IfOk result (λ r. part_of r ≡ settled (part_of part)) }
{
    match part.kind {
        Kind::Flexible => {
            if part.large.is_empty() {
                let core = narrowed(alloc, part.core)?;
                Ok(Part {
                    kind: Kind::Of(VType::I32),
                    core,
                    large: Vec::new(alloc),
                })
            } else {
                Ok(Part {
                    kind: Kind::Of(VType::I64),
                    core: part.core,
                    large: Vec::new(alloc),
                })
            }
        }
        _ => Ok(part),
    }
}

// A number as a number of a type; a number of that type stays as it is.
fn cast(alloc: Global, vtype: VType, place: Place, part: Part) -> Result<Part, AllocError>
    ensures { IfOk result (λ r. part_of r ≡ cast_part vtype place (part_of part)) }
{
    if is_already(vtype, part.kind) {
        return Ok(part);
    }
    match vtype {
        VType::I32 => {
            let inner = Box::new(alloc, part.core)?;
            Ok(Part {
                kind: Kind::Of(VType::I32),
                core: Expr::Unary {
                    op: Op1::ToI32,
                    place,
                    inner,
                },
                large: Vec::new(alloc),
            })
        }
        VType::I64 => {
            let inner = Box::new(alloc, part.core)?;
            Ok(Part {
                kind: Kind::Of(VType::I64),
                core: Expr::Unary {
                    op: Op1::ToI64,
                    place,
                    inner,
                },
                large: Vec::new(alloc),
            })
        }
        VType::Flag | VType::Node => Ok(part),
    }
}

// An operator before its operand.
fn prefix_of(
    alloc: Global,
    place: Place,
    op: Prefix,
    part: Part,
    least: &mut Option<Refusal>,
) -> Result<Option<Part>, AllocError>
    ensures part { IfOk result (λ r. option_map part_of r ≡ ok_of (prefix_part place op (part_of part))) }
    ensures least { OnOk result (least.new ≡ least_from least.old (errs_of (prefix_part place op (part_of part)))) }
{
    match op {
        Prefix::Minus => {
            if is_number(part.kind) {
                let inner = Box::new(alloc, part.core)?;
                return Ok(Some(Part {
                    kind: part.kind,
                    core: Expr::Unary {
                        op: Op1::Neg,
                        place,
                        inner,
                    },
                    large: part.large,
                }));
            }
        }
        Prefix::Not => {
            if is_flag(part.kind) {
                let inner = Box::new(alloc, part.core)?;
                return Ok(Some(Part {
                    kind: part.kind,
                    core: Expr::Unary {
                        op: Op1::Not,
                        place,
                        inner,
                    },
                    large: part.large,
                }));
            }
        }
        Prefix::Cast(vtype) => {
            if is_number(part.kind) {
                let number = settled(alloc, part)?;
                let changed = cast(alloc, vtype, place, number)?;
                return Ok(Some(changed));
            }
        }
    }
    note(least, Rule::T8, place);
    Ok(None)
}

// The large numbers of two parts of a kind.
fn large_of(alloc: Global, kind: Kind, a: &Part, b: &Part) -> Result<Vec<Place>, AllocError>
    ensures { IfOk result (λ r. r.items ≡ large_of kind (a.now.large.items ++ b.now.large.items)) }
{
    let mut large = Vec::new(alloc);
    if kind == Kind::Flexible {
        large.extend_from_slice(&a.large)?;
        large.extend_from_slice(&b.large)?;
    }
    Ok(large)
}

// Two parts as parts of one kind.
fn paired(
    alloc: Global,
    place: Place,
    kind: Kind,
    a: Part,
    b: Part,
    least: &mut Option<Refusal>,
) -> Result<Option<(Expr, Expr)>, AllocError>
    ensures part { IfOk result (λ r. option_map pair_of r ≡ ok_of (paired place kind (part_of a) (part_of b))) }
    ensures least { OnOk result (least.new ≡ least_from least.old (errs_of (paired place kind (part_of a) (part_of b)))) }
{
    match taken(alloc, kind, place, a, least)? {
        None => Ok(None),
        Some(left) => match taken(alloc, kind, place, b, least)? {
            None => Ok(None),
            Some(right) => Ok(Some((left, right))),
        },
    }
}

// The kind that flexible parts take where they are compared.
fn compared_as(kind: Kind, large: &[Place]) -> Kind
    ensures { result ≡ compared_as kind large.now }
{
    match kind {
        Kind::Flexible => {
            if large.is_empty() {
                Kind::Of(VType::I32)
            } else {
                Kind::Of(VType::I64)
            }
        }
        other => other,
    }
}

// An operation on operands as parts of one kind.
fn binary(
    alloc: Global,
    place: Place,
    op: Op2,
    kind: Kind,
    a: Part,
    b: Part,
    least: &mut Option<Refusal>,
) -> Result<Option<Expr>, AllocError>
    ensures part { IfOk result (λ r. option_map expr_of r ≡ ok_of (then_answer (paired place kind (part_of a) (part_of b)) (λ p. Program.Binary op place p.0 p.1))) }
    ensures least { OnOk result (least.new ≡ least_from least.old (errs_of (paired place kind (part_of a) (part_of b)))) }
{
    match paired(alloc, place, kind, a, b, least)? {
        None => Ok(None),
        Some((left, right)) => {
            let left = Box::new(alloc, left)?;
            let right = Box::new(alloc, right)?;
            Ok(Some(Expr::Binary {
                op,
                place,
                left,
                right,
            }))
        }
    }
}

// An operation that gives a number.
fn arithmetic(
    alloc: Global,
    place: Place,
    op: Op2,
    kind: Kind,
    a: Part,
    b: Part,
    least: &mut Option<Refusal>,
) -> Result<Option<Part>, AllocError>
    ensures part { IfOk result (λ r. option_map part_of r ≡ ok_of (then_answer (paired place kind (part_of a) (part_of b)) (λ p. record { kind = kind; core = Program.Binary op place p.0 p.1; large = large_of kind (a.large.items ++ b.large.items) }))) }
    ensures least { OnOk result (least.new ≡ least_from least.old (errs_of (paired place kind (part_of a) (part_of b)))) }
{
    let large = large_of(alloc, kind, &a, &b)?;
    match binary(alloc, place, op, kind, a, b, least)? {
        None => Ok(None),
        Some(core) => Ok(Some(Part { kind, core, large })),
    }
}

// An operation that compares.
fn comparison(
    alloc: Global,
    place: Place,
    op: Op2,
    kind: Kind,
    a: Part,
    b: Part,
    least: &mut Option<Refusal>,
) -> Result<Option<Part>, AllocError>
    ensures part { IfOk result (λ r. option_map part_of r ≡ ok_of (then_answer (paired place (compared_as kind (large_of kind (a.large.items ++ b.large.items))) (part_of a) (part_of b)) (λ p. record { kind = Kind.Of Flag; core = Program.Binary op place p.0 p.1; large = [] }))) }
    ensures least { OnOk result (least.new ≡ least_from least.old (errs_of (paired place (compared_as kind (large_of kind (a.large.items ++ b.large.items))) (part_of a) (part_of b)))) }
{
    let large = large_of(alloc, kind, &a, &b)?;
    let common = compared_as(kind, &large);
    match binary(alloc, place, op, common, a, b, least)? {
        None => Ok(None),
        Some(core) => Ok(Some(Part {
            kind: Kind::Of(VType::Flag),
            core,
            large: Vec::new(alloc),
        })),
    }
}

// An operation whose operands have a kind in common.
fn operation(
    alloc: Global,
    place: Place,
    op: Op2,
    kind: Kind,
    a: Part,
    b: Part,
    least: &mut Option<Refusal>,
) -> Result<Option<Part>, AllocError>
    ensures part { IfOk result (λ r. option_map part_of r ≡ ok_of (operation place op kind (part_of a) (part_of b))) }
    ensures least { OnOk result (least.new ≡ least_from least.old (errs_of (operation place op kind (part_of a) (part_of b)))) }
{
    if is_arithmetic(op) {
        if is_number(kind) {
            return arithmetic(alloc, place, op, kind, a, b, least);
        }
    } else if is_number(kind) || (compares_any(op) && is_value(kind)) {
        return comparison(alloc, place, op, kind, a, b, least);
    }
    note(least, Rule::T8, place);
    Ok(None)
}

// An operation on operands that may have a kind in common.
fn operation_by(
    alloc: Global,
    place: Place,
    op: Op2,
    a: Part,
    b: Part,
    least: &mut Option<Refusal>,
) -> Result<Option<Part>, AllocError>
    ensures part { IfOk result (λ r. option_map part_of r ≡ ok_of (operation_by place op (joint a.kind b.kind) (part_of a) (part_of b))) }
    ensures least { OnOk result (least.new ≡ least_from least.old (errs_of (operation_by place op (joint a.kind b.kind) (part_of a) (part_of b)))) }
{
    match joint(a.kind, b.kind) {
        None => {
            note(least, Rule::T8, place);
            Ok(None)
        }
        Some(kind) => operation(alloc, place, op, kind, a, b, least),
    }
}

// Both of two conditions, or either.
fn connected(alloc: Global, is_both: bool, a: Expr, b: Expr) -> Result<Part, AllocError>
    ensures { IfOk result (λ r. part_of r ≡ Kinds.part_of (Kind.Of Flag) (if is_both then Program.Both (expr_of a) (expr_of b) else Program.Either (expr_of a) (expr_of b))) }
{
    let left = Box::new(alloc, a)?;
    let right = Box::new(alloc, b)?;
    let core = if is_both {
        Expr::Both(left, right)
    } else {
        Expr::Either(left, right)
    };
    Ok(Part {
        kind: Kind::Of(VType::Flag),
        core,
        large: Vec::new(alloc),
    })
}

// Whether both of two operands are conditions.
fn are_flags(a: Kind, b: Kind) -> bool
    ensures { result ≡ (is_flag a && is_flag b) }
{
    is_flag(a) && is_flag(b)
}

// `&&` or `||` between its operands.
fn connection(
    alloc: Global,
    place: Place,
    is_both: bool,
    a: Part,
    b: Part,
    least: &mut Option<Refusal>,
) -> Result<Option<Part>, AllocError>
    ensures part { IfOk result (λ r. option_map part_of r ≡ ok_of (infix_part place (if is_both then And else Or) (part_of a, part_of b))) }
    ensures least { OnOk result (least.new ≡ least_from least.old (errs_of (infix_part place (if is_both then And else Or) (part_of a, part_of b)))) }
{
    if are_flags(a.kind, b.kind) {
        let part = connected(alloc, is_both, a.core, b.core)?;
        return Ok(Some(part));
    }
    note(least, Rule::T8, place);
    Ok(None)
}

// An operator between its operands.
fn infix_of(
    alloc: Global,
    place: Place,
    op: Infix,
    a: Part,
    b: Part,
    least: &mut Option<Refusal>,
) -> Result<Option<Part>, AllocError>
    ensures part { IfOk result (λ r. option_map part_of r ≡ ok_of (infix_part place op (part_of a, part_of b))) }
    ensures least { OnOk result (least.new ≡ least_from least.old (errs_of (infix_part place op (part_of a, part_of b)))) }
{
    match op {
        Infix::Op(op) => operation_by(alloc, place, op, a, b, least),
        Infix::And => connection(alloc, place, true, a, b, least),
        Infix::Or => connection(alloc, place, false, a, b, least),
    }
}

// A choice between two expressions.
fn choose(alloc: Global, test: Expr, yes: Expr, no: Expr) -> Result<Expr, AllocError>
    ensures { IfOk result (λ r. expr_of r ≡ Program.Choose (expr_of test) (expr_of yes) (expr_of no)) }
{
    let test = Box::new(alloc, test)?;
    let yes = Box::new(alloc, yes)?;
    let no = Box::new(alloc, no)?;
    Ok(Expr::Choose(test, yes, no))
}

// A choice between two parts as parts of one kind.
fn chosen(
    alloc: Global,
    place: Place,
    kind: Kind,
    test: Expr,
    a: Part,
    b: Part,
    least: &mut Option<Refusal>,
) -> Result<Option<Part>, AllocError>
    ensures part { IfOk result (λ r. option_map part_of r ≡ ok_of (choice_by place (Some kind) (expr_of test) (part_of a) (part_of b))) }
    ensures least { OnOk result (least.new ≡ least_from least.old (errs_of (paired place kind (part_of a) (part_of b)))) }
{
    let large = large_of(alloc, kind, &a, &b)?;
    match paired(alloc, place, kind, a, b, least)? {
        None => Ok(None),
        Some((yes, no)) => {
            let core = choose(alloc, test, yes, no)?;
            Ok(Some(Part { kind, core, large }))
        }
    }
}

// A choice between two parts.
fn choice_of(
    alloc: Global,
    place: Place,
    test: Expr,
    a: Part,
    b: Part,
    least: &mut Option<Refusal>,
) -> Result<Option<Part>, AllocError>
    ensures part { IfOk result (λ r. option_map part_of r ≡ ok_of (choice_part place (expr_of test, (part_of a, part_of b)))) }
    ensures least { OnOk result (least.new ≡ least_from least.old (errs_of (choice_part place (expr_of test, (part_of a, part_of b))))) }
{
    match joint(a.kind, b.kind) {
        None => {
            note(least, Rule::T8, place);
            Ok(None)
        }
        Some(kind) => chosen(alloc, place, kind, test, a, b, least),
    }
}

// An operator before an operand that may have no type.
pub fn prefix(
    alloc: Global,
    place: Place,
    op: Prefix,
    part: Option<Part>,
    least: &mut Option<Refusal>,
) -> Result<Option<Part>, AllocError>
    ensures part { IfOk result (λ r. option_map part_of r ≡ part_by (option_map part_of part) (prefix_part place op)) }
    ensures least { OnOk result (least.new ≡ least_from least.old (broken_by (option_map part_of part) (prefix_part place op))) }
{
    match part {
        None => Ok(None),
        Some(part) => prefix_of(alloc, place, op, part, least),
    }
}

// An operator between operands that may have no types.
pub fn infix(
    alloc: Global,
    place: Place,
    op: Infix,
    a: Option<Part>,
    b: Option<Part>,
    least: &mut Option<Refusal>,
) -> Result<Option<Part>, AllocError>
    ensures part { IfOk result (λ r. option_map part_of r ≡ part_by (both_of (option_map part_of a) (option_map part_of b)) (infix_part place op)) }
    ensures least { OnOk result (least.new ≡ least_from least.old (broken_by (both_of (option_map part_of a) (option_map part_of b)) (infix_part place op))) }
{
    match a.zip(b) {
        None => Ok(None),
        Some((a, b)) => infix_of(alloc, place, op, a, b, least),
    }
}

// A choice between parts that may have no types.
pub fn choice(
    alloc: Global,
    place: Place,
    test: Option<Expr>,
    a: Option<Part>,
    b: Option<Part>,
    least: &mut Option<Refusal>,
) -> Result<Option<Part>, AllocError>
    ensures part { IfOk result (λ r. option_map part_of r ≡ part_by (both_of (option_map expr_of test) (both_of (option_map part_of a) (option_map part_of b))) (choice_part place)) }
    ensures least { OnOk result (least.new ≡ least_from least.old (broken_by (both_of (option_map expr_of test) (both_of (option_map part_of a) (option_map part_of b))) (choice_part place))) }
{
    match test.zip(a.zip(b)) {
        None => Ok(None),
        Some((test, (yes, no))) => choice_of(alloc, place, test, yes, no, least),
    }
}

// A condition, at the place of its first token.
pub fn condition(start: Place, part: Option<Part>, least: &mut Option<Refusal>) -> Option<Expr>
    ensures part { option_map expr_of result ≡ part_by (option_map part_of part) (λ p. refused_unless (is_flag p.kind) T10 start p.core) }
    ensures least { least.new ≡ least_from least.old (broken_by (option_map part_of part) (λ p. refused_unless (is_flag p.kind) T10 start p.core)) }
{
    let part = part?;
    if is_flag(part.kind) {
        return Some(part.core);
    }
    note(least, Rule::T10, start);
    None
}
