//! Argument reductions given to totals by hand, closed over a small store.

ghost use Rattle.std.specs.Prelude.{◌≡◌, All, IfOk, OnOk};
ghost use Rattle.gm_store.specs.Held.{HasSlot, shape_of};
ghost use Rattle.gm_totals.specs.Standing.{Within};

use gm_ast::tree::{Key, Stage, TotalKey};
use gm_base::{NoMemory, Place};
use gm_semantics::slots::{Slot, Write};
use gm_store::Store;
use gm_totals::{Closed, Contribution, Totals};
use gm_value::{FaultKind, Reduce, Value};
use std::alloc::Global;
use std::test::Fail;

const INT_MAX: Value = Value::I32(2147483647);

// A tuple of a length, a node and a mark, given by a statement.
#[derive(Clone, Copy)]
struct Gift {
    statement: u32,
    reduce: Reduce,
    values: [Value; 3],
}

// The key of a statement's totals. Its place has the statement's number as its line.
fn key(statement: u32) -> TotalKey {
    let place = Place {
        line: statement,
        col: 7,
    };
    TotalKey {
        key: Key {
            statement,
            stage: Stage::Total,
        },
        place,
        shown: place,
    }
}

fn tuple(length: i32, node: Option<u32>, mark: bool) -> [Value; 3] {
    [Value::I32(length), Value::At(node), Value::Flag(mark)]
}

fn least(statement: u32, values: [Value; 3]) -> Gift {
    Gift {
        statement,
        reduce: Reduce::Min,
        values,
    }
}

fn greatest(statement: u32, values: [Value; 3]) -> Gift {
    Gift {
        statement,
        reduce: Reduce::Max,
        values,
    }
}

// The slots of the target: the scalars 0, 1 and 2.
fn target(alloc: Global) -> Result<Vec<Slot>, NoMemory>
    ensures { IfOk result (λ slots. All (HasSlot (record { scalars = 4; rows = 0; nodes = 1 })) slots.items) }
{
    let mut slots = Vec::new(alloc);
    slots.push(Slot::Scalar(0))?;
    slots.push(Slot::Scalar(1))?;
    slots.push(Slot::Scalar(2))?;
    Ok(slots)
}

// Tuples given one after another.
fn give_all(alloc: Global, totals: &mut Totals, given: &[Gift]) -> Result<(), NoMemory>
    requires { Within (record { scalars = 4; rows = 0; nodes = 1 }) totals.old }
    ensures { OnOk result (Within (record { scalars = 4; rows = 0; nodes = 1 }) totals.new) }
{
    for gift in given {
        let slots = target(alloc)?;
        totals.give_tuple(key(gift.statement), gift.reduce, slots, &gift.values)?;
    }
    Ok(())
}

// The store of the tests: a target that holds 10, the node 5 and False, and a scalar that holds the greatest Int.
fn store(alloc: Global) -> Result<Store, NoMemory>
    ensures { IfOk result (λ store. shape_of store ≡ record { scalars = 4; rows = 0; nodes = 1 }) }
{
    let mut store = Store::new(alloc, 1);
    store.add_scalar(Value::I32(10))?;
    store.add_scalar(Value::At(Some(5)))?;
    store.add_scalar(Value::Flag(false))?;
    store.add_scalar(INT_MAX)?;
    Ok(store)
}

// Writes to a store, one after another.
fn write_all(store: &mut Store, writes: &[Write]) -> Result<(), NoMemory>
    requires { All (λ w. HasSlot (shape_of store.old) w.slot) writes.now }
    ensures { OnOk result (shape_of store.new ≡ shape_of store.old) }
{
    for write in writes {
        store.set(write.slot, write.value)?;
    }
    Ok(())
}

// What the target of the tests holds.
fn held(store: &Store) -> [Value; 3]
    requires { shape_of store.now ≡ record { scalars = 4; rows = 0; nodes = 1 } }
{
    [store.scalar(0), store.scalar(1), store.scalar(2)]
}

// What the target holds after tuples.
fn held_after(alloc: Global, given: &[Gift]) -> Result<[Value; 3], NoMemory> {
    let mut store = store(alloc)?;
    let mut totals = Totals::new(alloc);
    give_all(alloc, &mut totals, given)?;
    let closed = totals.closed(alloc, &store)?;
    write_all(&mut store, closed.writes.as_slice())?;
    Ok(held(&store))
}

// A sum that does not fit beside a tuple.
fn with_fault(alloc: Global) -> Result<Closed, NoMemory> {
    let store = store(alloc)?;
    let mut totals = Totals::new(alloc);
    totals.give(Contribution {
        total: key(3),
        reduce: Reduce::Sum,
        slot: Slot::Scalar(3),
        value: Value::I32(1),
    })?;
    give_all(alloc, &mut totals, &[least(4, tuple(1, None, true))])?;
    totals.closed(alloc, &store)
}

#[test]
fn tuples_settle_whole(rt: HostRuntime) -> Result<(), Fail> {
    let held = tuple(10, Some(5), false);
    for (name, given, want) in [
        (
            "a lesser length takes its node with it",
            [
                least(1, tuple(11, Some(0), true)),
                least(1, tuple(9, Some(8), true)),
            ],
            tuple(9, Some(8), true),
        ),
        (
            "the held tuple is the least",
            [
                least(1, tuple(10, Some(6), false)),
                least(1, tuple(10, Some(5), true)),
            ],
            held,
        ),
        (
            "the rest decides a tie",
            [
                least(1, tuple(9, Some(3), false)),
                least(1, tuple(9, Some(2), true)),
            ],
            tuple(9, Some(2), true),
        ),
        (
            "NIL is below all nodes in a tie",
            [
                least(1, tuple(9, Some(0), false)),
                least(1, tuple(9, None, true)),
            ],
            tuple(9, None, true),
        ),
        (
            "False is below True in a tie",
            [
                least(1, tuple(9, Some(4), true)),
                least(1, tuple(9, Some(4), false)),
            ],
            tuple(9, Some(4), false),
        ),
        (
            "the greatest length with the least rest",
            [
                greatest(1, tuple(12, Some(7), false)),
                greatest(1, tuple(12, Some(3), true)),
            ],
            tuple(12, Some(3), true),
        ),
        (
            "the held length is the greatest, and its rest is not the least",
            [
                greatest(1, tuple(10, Some(4), true)),
                greatest(1, tuple(9, None, false)),
            ],
            tuple(10, Some(4), true),
        ),
        (
            "two statements, the later in the text first",
            [
                least(8, tuple(7, Some(1), true)),
                least(2, tuple(7, Some(2), false)),
            ],
            tuple(7, Some(1), true),
        ),
    ] {
        assert_eq!(rt; held_after(rt.alloc(), &given)?, want, "{name}");
    }
    Ok(())
}

// A fault of a slot beside a tuple, which settles all the same.
#[test]
fn a_fault_stands_beside_a_tuple(rt: HostRuntime) -> Result<(), Fail> {
    let closed = with_fault(rt.alloc())?;
    let fault = closed.fault.map(|fault| (fault.kind, fault.place.line));
    assert_eq!(rt; fault, Some((FaultKind::Overflow, 3)));
    assert_eq!(rt; closed.writes.len(), 4);
    Ok(())
}
