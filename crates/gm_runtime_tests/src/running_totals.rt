//! Totals of contributions made by hand, closed over a small store.

ghost use Rattle.std.specs.Prelude.{IsTrue, OnOk};
ghost use Rattle.gm_store.specs.Held.{HasSlot};
ghost use Rattle.gm_totals.specs.Standing.{Within};

use gm_ast::tree::{Key, Stage, TotalKey};
use gm_base::{NoMemory, Place};
use gm_semantics::slots::{Slot, Write};
use gm_store::Store;
use gm_totals::{Closed, Contribution, Totals};
use gm_value::{FaultKind, Reduce, Value};
use std::alloc::Global;
use std::test::Fail;

const INT_MAX: Value = Value::I32(2147483647);

const INT_MIN: Value = Value::I32(-2147483648);

// What the scalar 0 holds at first.
const TEN: Value = Value::I32(10);

// What a statement gives to a slot. The place of its total has the statement's number as its line.
fn gift(statement: u32, reduce: Reduce, slot: Slot, value: Value) -> Contribution {
    let place = Place {
        line: statement,
        col: 5,
    };
    let key = Key {
        statement,
        stage: Stage::Total,
    };
    Contribution {
        total: TotalKey {
            key,
            place,
            shown: place,
        },
        reduce,
        slot,
        value,
    }
}

// What a statement sums up in the scalar 0.
fn added(statement: u32, value: Value) -> Contribution {
    gift(statement, Reduce::Sum, Slot::Scalar(0), value)
}

// A slot of the property 0, which is NIL at each node at first.
fn parent(node: u32) -> Slot {
    Slot::Node { property: 0, node }
}

// Whether the store of the tests, of one scalar and one property at three nodes, has a slot.
fn is_held(slot: Slot) -> bool
    ensures { IsTrue result → HasSlot (record { scalars = 1; rows = 1; nodes = 3 }) slot }
{
    match slot {
        Slot::Scalar(scalar) => scalar == 0,
        Slot::Node { property, node } => property == 0 && node < 3,
    }
}

// Contributions to slots of the store of the tests, given one after another.
fn give_all(totals: &mut Totals, given: &[Contribution]) -> Result<(), NoMemory>
    requires { Within (record { scalars = 1; rows = 1; nodes = 3 }) totals.old }
    ensures { OnOk result (Within (record { scalars = 1; rows = 1; nodes = 3 }) totals.new) }
{
    for contribution in given {
        if !is_held(contribution.slot) {
            return Err(NoMemory);
        }
        totals.give(*contribution)?;
    }
    Ok(())
}

// Contributions closed over the store of the tests, by totals of which others were emptied before.
fn settled(
    alloc: Global,
    emptied: &[Contribution],
    given: &[Contribution],
) -> Result<Closed, NoMemory> {
    let mut store = Store::new(alloc, 3);
    store.add_scalar(TEN)?;
    store.add_row(Value::At(None))?;
    let mut totals = Totals::new(alloc);
    give_all(&mut totals, emptied)?;
    totals.clear();
    give_all(&mut totals, given)?;
    totals.closed(alloc, &store)
}

// The value that the only write gives to the scalar 0, and the line of the fault.
fn scalar_after(
    alloc: Global,
    given: &[Contribution],
) -> Result<(Option<Value>, Option<u32>), NoMemory> {
    let closed = settled(alloc, &[], given)?;
    let value = match closed.writes.as_slice() {
        [
            Write {
                slot: Slot::Scalar(0),
                value,
            },
        ] => Some(*value),
        _ => None,
    };
    Ok((value, closed.fault.map(|fault| fault.place.line)))
}

#[test]
fn scalars_settle_by_statement(rt: HostRuntime) -> Result<(), Fail> {
    let zero = Value::I32(0);
    for (name, given, want, fault) in [
        (
            "fits",
            [added(1, INT_MIN), added(1, INT_MAX), added(1, zero)],
            Value::I32(9),
            None,
        ),
        (
            "overflows in the end",
            [added(1, INT_MAX), added(1, INT_MAX), added(1, INT_MIN)],
            TEN,
            Some(1),
        ),
        (
            "far on the way",
            [
                added(1, INT_MIN),
                added(1, INT_MIN),
                added(1, Value::I64(4294967296)),
            ],
            TEN,
            None,
        ),
        (
            "first statement overflows",
            [added(3, INT_MIN), added(2, INT_MAX), added(3, zero)],
            TEN,
            Some(2),
        ),
        (
            "later statement overflows",
            [added(4, INT_MAX), added(4, INT_MAX), added(1, zero)],
            TEN,
            Some(4),
        ),
        (
            "statements in order",
            [added(7, INT_MAX), added(2, Value::I32(-20)), added(5, zero)],
            Value::I32(2147483637),
            None,
        ),
        (
            "a statement between",
            [
                added(2, zero),
                added(9, Value::I32(1)),
                added(5, Value::I32(2)),
            ],
            Value::I32(13),
            None,
        ),
        (
            "three statements down",
            [
                added(9, INT_MAX),
                added(5, INT_MIN),
                added(2, Value::I32(1)),
            ],
            TEN,
            None,
        ),
    ] {
        let [a, b, c] = given;
        let all = [a, b, c];
        assert_eq!(rt;
            scalar_after(rt.alloc(), &all)?,
            (Some(want), fault),
            "{name}"
        );
    }
    Ok(())
}

#[test]
fn reductions_settle(rt: HostRuntime) -> Result<(), Fail> {
    let slot = Slot::Scalar(0);
    for (reduce, values, want, fault) in [
        (
            Reduce::Product,
            [INT_MAX, INT_MIN, Value::I32(0)],
            Value::I32(0),
            None,
        ),
        (Reduce::Product, [INT_MAX, INT_MAX, INT_MAX], TEN, Some(1)),
        (
            Reduce::Product,
            [Value::I32(3), Value::I32(-2), Value::I32(1)],
            Value::I32(-60),
            None,
        ),
        (
            Reduce::Min,
            [Value::I32(11), Value::I32(-3), Value::I32(4)],
            Value::I32(-3),
            None,
        ),
        (
            Reduce::Min,
            [Value::I32(11), Value::I32(12), Value::I32(13)],
            TEN,
            None,
        ),
        (
            Reduce::Max,
            [Value::I32(11), Value::I32(12), Value::I32(9)],
            Value::I32(12),
            None,
        ),
    ] {
        let [a, b, c] = values;
        let given = [
            gift(1, reduce, slot, a),
            gift(1, reduce, slot, b),
            gift(1, reduce, slot, c),
        ];
        assert_eq!(rt;
            scalar_after(rt.alloc(), &given)?,
            (Some(want), fault),
            "{reduce:?} of {values:?}"
        );
    }
    Ok(())
}

#[test]
fn slots_settle_apart(rt: HostRuntime) -> Result<(), Fail> {
    let last = Value::At(Some(2));
    let given = [
        gift(1, Reduce::Max, parent(2), Value::At(Some(1))),
        added(3, INT_MAX),
        gift(1, Reduce::Max, parent(0), Value::At(None)),
        gift(1, Reduce::Max, parent(2), last),
        gift(2, Reduce::Max, parent(2), Value::At(None)),
        added(2, INT_MAX),
    ];
    let closed = settled(rt.alloc(), &[], &given)?;
    let want = [
        Write {
            slot: parent(0),
            value: Value::At(None),
        },
        Write {
            slot: Slot::Scalar(0),
            value: TEN,
        },
        Write {
            slot: parent(2),
            value: last,
        },
    ];
    assert!(rt; closed.writes.as_slice() == want.as_slice());
    let fault = closed.fault.map(|fault| (fault.kind, fault.key.statement));
    assert_eq!(rt; fault, Some((FaultKind::Overflow, 2)));
    Ok(())
}

// Totals that were emptied hold nothing of what was given before, also at the slots that had contributions.
#[test]
fn totals_are_emptied(rt: HostRuntime) -> Result<(), Fail> {
    let last = Value::At(Some(2));
    let emptied = [
        added(1, TEN),
        gift(1, Reduce::Max, parent(2), last),
        gift(1, Reduce::Max, parent(1), last),
    ];
    let one = Value::At(Some(1));
    let given = [
        gift(2, Reduce::Max, parent(1), one),
        gift(2, Reduce::Max, parent(2), Value::At(None)),
    ];
    let want = [
        Write {
            slot: parent(2),
            value: Value::At(None),
        },
        Write {
            slot: parent(1),
            value: one,
        },
    ];
    let closed = settled(rt.alloc(), &emptied, &given)?;
    assert!(rt; closed.writes.as_slice() == want.as_slice());
    Ok(())
}

#[test]
fn totals_are_empty_until_something_is_given(rt: HostRuntime) -> Result<(), Fail> {
    let mut totals = Totals::new(rt.alloc());
    assert!(rt; totals.is_empty());
    totals.give(added(1, TEN))?;
    assert!(rt; !totals.is_empty());
    totals.clear();
    assert!(rt; totals.is_empty());
    Ok(())
}
