//! Messages in columns, and others behind them.

ghost use Rattle.std.specs.Prelude.{◌<◌, length};

use crate::written::{ints, longs, same};
use gm_base::NoMemory;
use gm_machine::Batch;
use gm_message_columns::{MessageColumns, Messages};
use gm_value::Value;
use std::alloc::Global;
use std::process::Abort;
use std::test::Fail;

// A message, for its text.
#[derive(Debug, Drop)]
struct Row {
    to: u32,
    kind: u32,
    values: Vec<Value>,
}

// The values of a message.
fn values_of(alloc: Global, messages: &Batch, i: usize) -> Result<Vec<Value>, NoMemory>
    requires { i < length messages.now }
{
    let mut values = Vec::new(alloc);
    for k in 0..messages.value_count(i) {
        values.push(messages.value(i, k))?;
    }
    Ok(values)
}

// The messages one by one.
fn rows_of(alloc: Global, messages: Messages) -> Result<Vec<Row>, NoMemory> {
    let messages = messages.into_batch()?;
    let mut rows = Vec::new(alloc);
    for i in 0..messages.messages() {
        rows.push(Row {
            to: messages.to(i),
            kind: messages.kind(i),
            values: values_of(alloc, &messages, i)?,
        })?;
    }
    Ok(rows)
}

// Messages of a kind with one number each.
fn with_ints(
    alloc: Global,
    kind: u32,
    to: &[u32],
    cells: &[i32],
) -> Result<MessageColumns, NoMemory> {
    let column = ints(alloc, cells)?;
    if column.len() != to.len() {
        return Err(NoMemory);
    }
    let mut values = Vec::new(alloc);
    values.push(column)?;
    Ok(MessageColumns::of(kind, Vec::from_slice(alloc, to)?, values))
}

// Messages of a kind with one long number each.
fn with_longs(
    alloc: Global,
    kind: u32,
    to: &[u32],
    cells: &[i64],
) -> Result<MessageColumns, NoMemory> {
    let column = longs(alloc, cells)?;
    if column.len() != to.len() {
        return Err(NoMemory);
    }
    let mut values = Vec::new(alloc);
    values.push(column)?;
    Ok(MessageColumns::of(kind, Vec::from_slice(alloc, to)?, values))
}

// One message with no value.
fn bare(alloc: Global, to: u32, kind: u32) -> Result<Messages, NoMemory> {
    let mut messages = Batch::empty(alloc);
    messages.add(to, kind, &[])?;
    Ok(Messages::of_batch(alloc, messages))
}

// All messages of others behind some, one by one.
fn add_all(messages: &mut Messages, others: &Messages) -> Result<(), NoMemory> {
    for i in 0..others.len() {
        messages.add_from(others, i)?;
    }
    Ok(())
}

// How many messages are in columns, none where others stand behind them.
fn in_columns(messages: &Messages) -> Option<usize> {
    match messages.in_columns() {
        Some(columns) => Some(columns.len()),
        None => None,
    }
}

#[test]
fn messages_of_one_sort_stay_in_columns(rt: HostRuntime) -> Result<(), Fail> {
    let alloc = rt.alloc();
    let some = Messages::of_columns(alloc, with_ints(alloc, 7, &[2, 0], &[5, -6])?);
    let mut all = Messages::empty(alloc);
    add_all(&mut all, &some)?;
    add_all(&mut all, &some)?;
    all.append_columns(with_ints(alloc, 7, &[1], &[9])?)?;
    same(&rt, 0, &in_columns(&all), "Some(5)")?;
    let want =
        "[Row { to: 2, kind: 7, values: [I32(5)] }, Row { to: 0, kind: 7, values: [I32(-6)] }, Row { to: 2, kind: 7, values: [I32(5)] }, Row { to: 0, kind: 7, values: [I32(-6)] }, Row { to: 1, kind: 7, values: [I32(9)] }]";
    same(&rt, 1, &rows_of(alloc, all)?, want)
}

#[test]
fn messages_of_another_sort_stand_behind(rt: HostRuntime) -> Result<(), Fail> {
    let alloc = rt.alloc();
    let mut all = Messages::of_columns(alloc, with_ints(alloc, 7, &[2], &[5])?);
    let kind = Messages::of_columns(alloc, with_ints(alloc, 8, &[3], &[6])?);
    let vtype = Messages::of_columns(alloc, with_longs(alloc, 7, &[4], &[-7])?);
    let sort = Messages::of_columns(alloc, with_ints(alloc, 7, &[5], &[8])?);
    add_all(&mut all, &kind)?;
    add_all(&mut all, &vtype)?;
    add_all(&mut all, &sort)?;
    same(&rt, 0, &in_columns(&all), "None")?;
    let want =
        "[Row { to: 2, kind: 7, values: [I32(5)] }, Row { to: 3, kind: 8, values: [I32(6)] }, Row { to: 4, kind: 7, values: [I64(-7)] }, Row { to: 5, kind: 7, values: [I32(8)] }]";
    same(&rt, 1, &rows_of(alloc, all)?, want)
}

#[test]
fn batches_are_moved_in_or_appended(rt: HostRuntime) -> Result<(), Fail> {
    let alloc = rt.alloc();
    let mut all = Messages::empty(alloc);
    all.append_columns(with_longs(alloc, 1, &[4, 5], &[3, 1 << 40])?)?;
    all.append_batch(bare(alloc, 9, 2)?.into_batch()?)?;
    all.append_batch(bare(alloc, 8, 3)?.into_batch()?)?;
    all.append_columns(with_longs(alloc, 1, &[6], &[7])?)?;
    let want =
        "[Row { to: 4, kind: 1, values: [I64(3)] }, Row { to: 5, kind: 1, values: [I64(1099511627776)] }, Row { to: 9, kind: 2, values: [] }, Row { to: 8, kind: 3, values: [] }, Row { to: 6, kind: 1, values: [I64(7)] }]";
    same(&rt, 0, &rows_of(alloc, all)?, want)
}
