//! Lists of messages: what is added is read again, and fronts are taken.

ghost use Rattle.std.specs.Prelude.{◌<◌, length};

use crate::compare::{same, same_count};
use gm_base::NoMemory;
use gm_machine::Batch;
use gm_value::Value;
use std::alloc::Global;
use std::process::Abort;
use std::test::Fail;

// The values of a message.
fn values_of(alloc: Global, batch: &Batch, i: usize) -> Result<Vec<Value>, NoMemory> {
    let mut values = Vec::new(alloc);
    if i < batch.messages() {
        for k in 0..batch.value_count(i) {
            values.push(batch.value(i, k))?;
        }
    }
    Ok(values)
}

// Writes the line of a message.
fn put_line(alloc: Global, text: &mut String, batch: &Batch, i: usize) -> Result<(), Fail>
    requires { i < length batch.now }
{
    let values = values_of(alloc, batch, i)?;
    let (to, kind) = (batch.to(i), batch.kind(i));
    let line = format!(in alloc; "{to} {kind} {:?}\n", values.as_slice())?;
    text.push_str(line.as_str())?;
    Ok(())
}

// A line for each message.
fn lines_of(alloc: Global, batch: &Batch) -> Result<String, Fail> {
    let mut text = String::new(alloc);
    for i in 0..batch.messages() {
        put_line(alloc, &mut text, batch, i)?;
    }
    Ok(text)
}

/// Messages and one more. (They are handed over: what a caller still holds is dropped at each of its `?`, and proved so.)
pub(crate) fn with(batch: Batch, to: u32, kind: u32, values: &[Value]) -> Result<Batch, NoMemory> {
    let mut batch = batch;
    batch.add(to, kind, values)?;
    Ok(batch)
}

// Messages of several kinds, some of them with values of other types than others of their kind.
fn few_values(alloc: Global) -> Result<Batch, NoMemory> {
    let batch = with(Batch::empty(alloc), 3, 0, &[Value::I32(-7)])?;
    let batch = with(batch, 0, 1, &[])?;
    let batch = with(
        batch,
        2,
        0,
        &[Value::I64(-9_000_000_000), Value::Flag(true)],
    )?;
    with(batch, 3, 0, &[Value::I32(i32::MIN)])
}

// The same, and behind them two messages of three values.
fn mixed(alloc: Global) -> Result<Batch, NoMemory> {
    let batch = with(
        few_values(alloc)?,
        1,
        2,
        &[
            Value::At(None),
            Value::At(Some(4_294_967_295)),
            Value::I64(i64::MAX),
        ],
    )?;
    with(
        batch,
        1,
        2,
        &[Value::At(Some(0)), Value::At(None), Value::I64(i64::MIN)],
    )
}

// So many messages from the front, or all.
fn front_of(alloc: Global, batch: &mut Batch, count: usize) -> Result<Batch, NoMemory> {
    batch.take_front(alloc, count.min(batch.messages()))
}

// Compares the lines of messages.
fn compare(rt: &(impl Abort + AllocGlobal), batch: &Batch, want: &str) -> Result<(), Fail> {
    let lines = lines_of(rt.alloc(), batch)?;
    same(rt, lines.as_str(), want, "messages");
    Ok(())
}

#[test]
fn messages_are_read_as_they_were_added(rt: HostRuntime) -> Result<(), Fail> {
    let batch = mixed(rt.alloc())?;
    let wanted =
        "3 0 [I32(-7)]\n0 1 []\n2 0 [I64(-9000000000), Flag(true)]\n3 0 [I32(-2147483648)]\n1 2 [At(None), At(Some(4294967295)), I64(9223372036854775807)]\n1 2 [At(Some(0)), At(None), I64(-9223372036854775808)]\n";
    compare(&rt, &batch, wanted)
}

// Takes so many messages from the front, and compares their lines.
fn take(
    rt: &(impl Abort + AllocGlobal),
    batch: &mut Batch,
    count: usize,
    want: &str,
) -> Result<Batch, Fail> {
    let front = front_of(rt.alloc(), batch, count)?;
    compare(rt, &front, want)?;
    Ok(front)
}

// Where the last of three messages goes, if there are so many.
fn last_of_three(batch: &Batch) -> Option<u32> {
    if batch.messages() == 3 {
        Some(batch.to(2))
    } else {
        None
    }
}

// Takes the messages that are left, and compares how many there are, and where the last one goes.
fn take_rest(rt: &(impl Abort + AllocGlobal), batch: &mut Batch) -> Result<(), Fail> {
    let rest = front_of(rt.alloc(), batch, 9)?;
    same_count(rt, rest.messages(), 3, "the rest");
    same_count(rt, batch.messages(), 0, "behind the rest");
    assert!(rt; last_of_three(&rest) == Some(3));
    Ok(())
}

#[test]
fn fronts_are_taken_in_order(rt: HostRuntime) -> Result<(), Fail> {
    let mut batch = mixed(rt.alloc())?;
    let first = take(&rt, &mut batch, 1, "3 0 [I32(-7)]\n")?;
    let wanted = "0 1 []\n2 0 [I64(-9000000000), Flag(true)]\n3 0 [I32(-2147483648)]\n";
    take(&rt, &mut batch, 3, wanted)?;
    batch.append(&first)?;
    take_rest(&rt, &mut batch)
}
