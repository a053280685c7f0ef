//! Small stores, written and rolled back with ample memory.

ghost use Rattle.std.specs.Prelude.{◌≡◌, IfOk};
ghost use Rattle.gm_store.specs.Held.{shape_of};

use gm_base::NoMemory;
use gm_semantics::slots::{Slot, Write};
use gm_store::Store;
use gm_value::Value;
use std::alloc::Global;
use std::test::Fail;

const NIL: Value = Value::At(None);

const LAST: Value = Value::At(Some(u32::MAX));

// Two scalars and two properties at three nodes.
fn small(alloc: Global, scalars: [Value; 2], properties: [Value; 2]) -> Result<Store, NoMemory>
    ensures { IfOk result (λ store. shape_of store ≡ record { scalars = 2; rows = 2; nodes = 3 }) }
{
    let mut store = Store::new(alloc, 3);
    store.add_scalar(scalars[0])?;
    store.add_scalar(scalars[1])?;
    store.add_row(properties[0])?;
    store.add_row(properties[1])?;
    Ok(store)
}

// What the slots of a small store hold.
fn shown(store: &Store) -> ([Value; 2], [Value; 3], [Value; 3])
    requires { shape_of store.now ≡ record { scalars = 2; rows = 2; nodes = 3 } }
{
    (
        [store.scalar(0), store.scalar(1)],
        [store.node(0, 0), store.node(0, 1), store.node(0, 2)],
        [store.node(1, 0), store.node(1, 1), store.node(1, 2)],
    )
}

// The slot of a property at a node.
fn at(property: u32, node: u32) -> Slot
    ensures { result ≡ Slot.Node property node }
{
    Slot::Node { property, node }
}

// Whether a property that has one value at first keeps it, and two more that are written at other nodes.
fn keeps(alloc: Global, values: [Value; 3]) -> Result<bool, NoMemory> {
    let mut store = Store::new(alloc, 3);
    store.add_row(values[0])?;
    store.set(at(0, 1), values[1])?;
    store.set(at(0, 2), values[2])?;
    let first = store.node(0, 0) == values[0];
    Ok(first && store.node(0, 1) == values[1] && store.node(0, 2) == values[2])
}

// Each type of value is kept as it is, by itself and with values of other types.
#[test]
fn rows_keep_each_value(rt: HostRuntime) -> Result<(), Fail> {
    let one = Value::I32(1);
    let least = Value::I32(i32::MIN);
    let long = Value::I64(i64::MIN);
    let yes = Value::Flag(true);
    let no = Value::Flag(false);
    let node = Value::At(Some(0));
    let rows = [
        [one, one, least],
        [Value::I64(1), long, Value::I64(1)],
        [yes, no, yes],
        [NIL, node, NIL],
        [node, NIL, Value::At(Some(7))],
        [NIL, node, LAST],
        [LAST, NIL, node],
        [one, Value::I64(1), yes],
        [yes, yes, one],
        [long, node, least],
    ];
    for values in rows {
        assert!(rt; keeps(rt.alloc(), values)?, "{values:?}");
    }
    Ok(())
}

// Rows of one value take no room: sixteen of them at all the nodes that there can be, filled again and again.
#[test]
fn rows_of_one_value_take_no_room(rt: HostRuntime) -> Result<(), Fail> {
    let mut store = Store::new(rt.alloc(), 2_147_483_647);
    for _ in 0..16 {
        store.add_row(Value::I64(5))?;
    }
    assert_eq!(rt; store.nodes(), 2_147_483_647);
    Ok(())
}

// The log has each write in order, with what its slot held before.
#[test]
fn writes_are_logged(rt: HostRuntime) -> Result<(), Fail> {
    let mut store = small(
        rt.alloc(),
        [Value::I32(1), NIL],
        [Value::I64(2), Value::Flag(false)],
    )?;
    store.write(Slot::Scalar(0), Value::I32(3))?;
    store.write(at(0, 1), Value::I64(4))?;
    store.write(at(0, 1), Value::I64(5))?;
    store.set_scalar(1, Value::At(Some(0)));
    store.set(at(1, 2), Value::Flag(true))?;
    let log = [
        Write {
            slot: Slot::Scalar(0),
            value: Value::I32(1),
        },
        Write {
            slot: at(0, 1),
            value: Value::I64(2),
        },
        Write {
            slot: at(0, 1),
            value: Value::I64(4),
        },
    ];
    assert_eq!(rt; store.undo(), log.as_slice());
    assert_eq!(rt; store.read(at(0, 1)), Value::I64(5));
    store.forget();
    assert_eq!(rt; store.mark(), 0);
    Ok(())
}

// Writes over scalars and rows are taken back to each mark; what is not logged stays.
#[test]
fn marks_are_rolled_back_to(rt: HostRuntime) -> Result<(), Fail> {
    let mut store = small(
        rt.alloc(),
        [Value::I32(1), NIL],
        [Value::I64(2), Value::Flag(false)],
    )?;
    store.write(Slot::Scalar(0), Value::I32(3))?;
    store.write(at(0, 1), Value::I64(4))?;
    store.write(at(0, 1), Value::I64(5))?;
    store.write(at(1, 2), Value::I32(6))?;
    store.set_scalar(1, Value::At(Some(0)));
    store.roll_back(2)?;
    let two = Value::I64(2);
    let no = Value::Flag(false);
    let scalars = [Value::I32(3), Value::At(Some(0))];
    assert_eq!(rt;
        shown(&store),
        (scalars, [two, Value::I64(4), two], [no; 3])
    );
    store.roll_back(0)?;
    assert_eq!(rt;
        shown(&store),
        ([Value::I32(1), Value::At(Some(0))], [two; 3], [no; 3])
    );
    Ok(())
}

// A property that was filled and then written is rolled back to what filled it.
#[test]
fn a_filled_property_is_rolled_back_to(rt: HostRuntime) -> Result<(), Fail> {
    let mut store = small(rt.alloc(), [NIL; 2], [Value::I32(1), Value::At(Some(0))])?;
    store.write(at(1, 1), NIL)?;
    store.fill(1, LAST);
    store.write(at(1, 0), Value::At(Some(0)))?;
    store.write(at(1, 2), Value::I32(2))?;
    let one = [Value::I32(1); 3];
    assert_eq!(rt;
        shown(&store),
        ([NIL; 2], one, [Value::At(Some(0)), LAST, Value::I32(2)])
    );
    store.roll_back(1)?;
    assert_eq!(rt; shown(&store), ([NIL; 2], one, [LAST; 3]));
    store.roll_back(0)?;
    assert_eq!(rt;
        shown(&store),
        ([NIL; 2], one, [LAST, Value::At(Some(0)), LAST])
    );
    Ok(())
}
