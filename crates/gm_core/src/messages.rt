//! Messages that are copied from batch to batch, and those that wait for their delivery.

ghost use Rattle.std.specs.Prelude.{◌≡◌, ◌<◌, ◌≤◌, ◌-◌, ℕ, [], ◌∷◌, ◌++◌, OnOk, OnErr, IfOk, length, take, drop, replicate, slice_set, slice_index_or};
ghost use Rattle.gm_machine.specs.Vertex.{Message};
ghost use Rattle.gm_core.specs.CoreViews.{row_at};

use gm_base::NoMemory;
use gm_machine::Batch;
use std::alloc::Global;
use std::marker::Model;

/// Copies a message of a batch behind those of another.
pub(crate) fn copy_message(from: &Batch, i: usize, to: &mut Batch) -> Result<(), NoMemory>
    requires { i < length from.now }
    ensures added { OnOk result ((d : Message) → to.new ≡ to.old ++ slice_index_or from.now i d ∷ []) }
    ensures unchanged { OnErr result (to.new ≡ to.old) }
{
    to.add_from(from, i)?;
    Ok(())
}

/// Messages that wait for their delivery, in the order of sending.
#[derive(Drop)]
pub(crate) struct Outgoing {
    messages: Batch,
    front: usize,
}

impl Model for Outgoing {
    ghost use Rattle.std.specs.Prelude.{List, ◌≤◌, drop, length};
    ghost use Rattle.gm_machine.specs.Vertex.{Message};

    ghost Value = { List Message };

    ghost view = { λ o. drop o.front o.messages };

    ghost invariant = { λ o. o.front ≤ length o.messages };
}

impl Outgoing {
    // No message.
    fn empty(alloc: Global) -> Self
        ensures { result ≡ [] }
    {
        Outgoing {
            messages: Batch::empty(alloc),
            front: 0,
        }
    }

    // How many messages wait.
    pub(crate) fn len(&self) -> usize
        ensures { result ≡ length self.now }
    {
        self.messages.messages() - self.front
    }

    // One more message waits.
    pub(crate) fn add(&mut self, from: &Batch, i: usize) -> Result<(), NoMemory>
        requires { i < length from.now }
        ensures { OnOk result ((d : Message) → self.new ≡ self.old ++ slice_index_or from.now i d ∷ []) }
    {
        copy_message(from, i, &mut self.messages)?;
        Ok(())
    }

    // The first so many messages go behind others.
    fn deliver(&mut self, count: usize, incoming: &mut Batch) -> Result<(), NoMemory>
        requires { count ≤ length self.old }
        ensures delivered { OnOk result (incoming.new ≡ incoming.old ++ take count self.old) }
        ensures rest { OnOk result (self.new ≡ drop count self.old) }
    {
        let _all = self.messages.messages();
        let end = self.front + count;
        copy_range(&self.messages, self.front, end, incoming)?;
        self.front = end;
        Ok(())
    }
}

// Copies the messages of a batch from one on and before another behind others.
fn copy_range(from: &Batch, start: usize, end: usize, to: &mut Batch) -> Result<(), NoMemory>
    requires ordered { start ≤ end }
    requires within { end ≤ length from.now }
    ensures { OnOk result (to.new ≡ to.old ++ take (end - start) (drop start from.now)) }
{
    for i in start..end {
        copy_message(from, i, to)?;
    }
    Ok(())
}

/// What a worker has for each worker.
#[derive(Drop)]
pub(crate) struct Outbox {
    rows: Vec<Outgoing>,
}

impl Model for Outbox {
    ghost use Rattle.std.specs.Prelude.{List};
    ghost use Rattle.gm_machine.specs.Vertex.{Message};

    ghost Value = { List (List Message) };

    ghost view = { λ o. o.rows.items };
}

impl Outbox {
    // Nothing for each of so many workers.
    pub(crate) fn empty(alloc: Global, workers: u32) -> Result<Self, NoMemory>
        ensures { IfOk result (λ outbox. outbox ≡ replicate workers []) }
    {
        let mut rows = Vec::new(alloc);
        for worker in 0..workers {
            rows.push(Outgoing::empty(alloc))?;
        }
        Ok(Outbox { rows })
    }

    // For how many workers there are rows.
    pub(crate) fn workers(&self) -> usize
        ensures { result ≡ length self.now }
    {
        self.rows.len()
    }

    // How many messages wait for a worker.
    pub(crate) fn waiting_for(&self, to: usize) -> usize
        requires { to < length self.now }
        ensures { result ≡ length (row_at self.now to) }
    {
        self.rows[to].len()
    }

    // One more message waits for a worker.
    pub(crate) fn add(&mut self, to: usize, from: &Batch, i: usize) -> Result<(), NoMemory>
        requires worker { to < length self.old }
        requires message { i < length from.now }
        ensures { OnOk result ((d : Message) → self.new ≡ slice_set self.old to (row_at self.old to ++ slice_index_or from.now i d ∷ [])) }
    {
        let row = &mut self.rows[to];
        row.add(from, i)?;
        Ok(())
    }

    // The first so many messages for a worker go behind others.
    pub(crate) fn deliver(
        &mut self,
        to: usize,
        count: usize,
        incoming: &mut Batch,
    ) -> Result<(), NoMemory>
        requires worker { to < length self.old }
        requires some { count ≤ length (row_at self.old to) }
        ensures delivered { OnOk result (incoming.new ≡ incoming.old ++ take count (row_at self.old to)) }
        ensures rest { OnOk result (self.new ≡ slice_set self.old to (drop count (row_at self.old to))) }
    {
        let row = &mut self.rows[to];
        row.deliver(count, incoming)?;
        Ok(())
    }
}
