//! What the definitions were not made from: results worked out by hand.

use crate::compare::{same, same_text};
use gm_value::{
    FaultKind, Op1, Op2, Reduce, Total, VType, Value, apply1, apply2, fold_in, fold_tuple,
    taking_goes_by_ranks, total_add, total_close, total_unit, tuples_have_no_order, unit,
};
use std::alloc::{AllocError, Global};
use std::process::Abort;
use std::test::Fail;

const INT_MAX: Value = Value::I32(2147483647);

const INT_MIN: Value = Value::I32(-2147483648);

#[test]
fn operations_give_what_was_worked_out(rt: HostRuntime) {
    let overflow = Err(FaultKind::Overflow);
    let by_zero = Err(FaultKind::DivideByZero);
    let table = [
        (Op2::Add, INT_MAX, Value::I32(1), overflow),
        (
            Op2::Sub,
            INT_MIN,
            Value::I32(-1),
            Ok(Value::I32(-2147483647)),
        ),
        (Op2::Mul, Value::I32(-65536), Value::I32(32768), Ok(INT_MIN)),
        (Op2::Mul, Value::I32(65536), Value::I32(32768), overflow),
        (Op2::Div, Value::I32(-9), Value::I32(4), Ok(Value::I32(-2))),
        (Op2::Div, INT_MIN, Value::I32(-1), overflow),
        (Op2::Div, Value::I64(1), Value::I64(0), by_zero),
        (Op2::Rem, Value::I32(-9), Value::I32(4), Ok(Value::I32(-1))),
        (Op2::Rem, Value::I32(9), Value::I32(-4), Ok(Value::I32(1))),
        (Op2::Rem, INT_MIN, Value::I32(-1), Ok(Value::I32(0))),
        (
            Op2::Eq,
            Value::At(None),
            Value::At(Some(0)),
            Ok(Value::Flag(false)),
        ),
        (
            Op2::Lt,
            Value::I64(-5),
            Value::I64(3),
            Ok(Value::Flag(true)),
        ),
    ];
    for (row, (op, a, b, want)) in table.iter().enumerate() {
        same(&rt, row, apply2(*op, *a, *b), *want);
    }
    let wide = Ok(Value::I64(-2147483648));
    same(&rt, 100, apply1(Op1::Neg, INT_MIN), overflow);
    same(&rt, 101, apply1(Op1::ToI64, INT_MIN), wide);
    let turned = apply1(Op1::Not, Value::Flag(true));
    same(&rt, 102, turned, Ok(Value::Flag(false)));
}

// Adds one more value to a total that has room for it.
fn add(rt: &impl Abort, r: Reduce, total: Total, value: Value) -> Total {
    assert!(rt; total.has_room());
    total_add(r, total, value)
}

// Compares the total of three values, and what it is as a value.
fn check_total(
    rt: &impl Abort,
    row: usize,
    r: Reduce,
    members: [Value; 3],
    want_total: Total,
    want: Result<Value, FaultKind>,
) {
    let [a, b, c] = members;
    let one = add(rt, r, total_unit(r, VType::I32), a);
    let two = add(rt, r, one, b);
    let all = add(rt, r, two, c);
    assert!(rt; all.has_room());
    same(rt, row, all, want_total);
    let held = unit(r, VType::I32);
    same(rt, row, total_close(r, held, all), want);
}

#[test]
fn totals_stay_exact(rt: HostRuntime) {
    let over = Total::Product {
        value: 0,
        over: true,
    };
    let table = [
        (
            Reduce::Sum,
            [INT_MAX, INT_MAX, INT_MIN],
            Total::Sum(2147483646),
            Ok(Value::I32(2147483646)),
        ),
        (
            Reduce::Sum,
            [INT_MAX, INT_MAX, INT_MAX],
            Total::Sum(6442450941),
            Err(FaultKind::Overflow),
        ),
        (
            Reduce::Product,
            [INT_MIN, INT_MIN, INT_MIN],
            over,
            Err(FaultKind::Overflow),
        ),
        (
            Reduce::Product,
            [INT_MIN, INT_MAX, Value::I32(0)],
            Total::Product {
                value: 0,
                over: false,
            },
            Ok(Value::I32(0)),
        ),
        (
            Reduce::Min,
            [INT_MAX, INT_MIN, INT_MAX],
            Total::Small(INT_MIN),
            Ok(INT_MIN),
        ),
    ];
    for (row, (r, members, want_total, want)) in table.iter().enumerate() {
        check_total(&rt, row, *r, *members, *want_total, *want);
    }
}

// A fault's name.
fn name_of(alloc: Global, kind: FaultKind) -> Result<String, AllocError> {
    format!(in alloc; "{kind}")
}

#[test]
fn picks_and_prints(rt: HostRuntime) -> Result<(), Fail> {
    let node = Value::At(Some(0));
    same(&rt, 100, fold_in(Reduce::Max, Value::At(None), node), node);
    same(&rt, 101, unit(Reduce::Max, VType::Node), Value::At(None));
    let table = [
        (FaultKind::DivideByZero, "DivideByZero"),
        (FaultKind::NilNode, "NilNode"),
        (FaultKind::Overflow, "Overflow"),
    ];
    for (row, (kind, want)) in table.iter().enumerate() {
        let text = name_of(rt.alloc(), *kind)?;
        same_text(&rt, row, text.as_str(), want);
    }
    taking_goes_by_ranks::<u8, Value>();
    Ok(())
}

#[test]
fn tuples_are_replaced(rt: HostRuntime) {
    // the held number and node, the new ones, and whether these replace by Min and by Max
    let table = [
        ((7, None), (4, Some(3)), true, false),
        ((4, Some(3)), (4, Some(1)), true, true),
        ((4, Some(1)), (4, Some(3)), false, false),
        ((4, Some(1)), (4, Some(1)), false, false),
        ((4, Some(0)), (4, None), true, true),
        ((4, None), (5, None), false, true),
        ((-4, None), (-5, Some(9)), true, false),
    ];
    for (row, (held, new, by_min, by_max)) in table.iter().enumerate() {
        let first = [Value::I32(held.0), Value::At(held.1)];
        let second = [Value::I32(new.0), Value::At(new.1)];
        let replaces = fold_tuple(Reduce::Min, &first, &second);
        same(&rt, row, replaces, *by_min);
        let replaces = fold_tuple(Reduce::Max, &first, &second);
        same(&rt, row, replaces, *by_max);
    }
    let flags = [Value::I64(1), Value::Flag(true)];
    let lesser = [Value::I64(1), Value::Flag(false)];
    assert!(rt; fold_tuple(Reduce::Max, &flags, &lesser));
    tuples_have_no_order();
}
