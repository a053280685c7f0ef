//! What the iterations of a parallel loop write at their own nodes.

ghost use Rattle.std.specs.Prelude.{◌≡◌, ◌++◌, All, OnOk};
ghost use Rattle.gm_store.specs.Held.{shape_of, HasSlot};
ghost use Rattle.gm_loops.specs.Own.{is_at, kept, Sets};

use gm_base::NoMemory;
use gm_semantics::slots::{Slot, Write};
use gm_store::Store;

// Whether a slot is at a node.
#[inline(always)]
pub(crate) fn is_at(node: u32, slot: Slot) -> bool
    ensures { result ≡ is_at node slot }
{
    match slot {
        Slot::Scalar(_) => false,
        Slot::Node { node: other, .. } => other == node,
    }
}

// Keeps what the logged writes left at a node, behind what is kept.
pub(crate) fn keep_own(store: &Store, node: u32, own: &mut Vec<Write>) -> Result<(), NoMemory>
    requires { All (λ w. HasSlot (shape_of store.now) w.slot) own.old.items }
    ensures kept { OnOk result (own.new.items ≡ own.old.items ++ kept node store.now store.now.undo) }
    ensures slots { OnOk result (All (λ w. HasSlot (shape_of store.now) w.slot) own.new.items) }
{
    for write in store.undo() {
        if is_at(node, write.slot) {
            let value = store.read(write.slot);
            own.push(Write {
                slot: write.slot,
                value,
            })?;
        }
    }
    Ok(())
}

// Writes in order, of which the last to a slot counts. They are not logged.
pub(crate) fn set_all(store: &mut Store, writes: &[Write]) -> Result<(), NoMemory>
    requires { All (λ w. HasSlot (shape_of store.old) w.slot) writes.now }
    ensures { OnOk result (Sets store.old store.new writes.now) }
{
    for write in writes {
        store.set(write.slot, write.value)?;
    }
    Ok(())
}
