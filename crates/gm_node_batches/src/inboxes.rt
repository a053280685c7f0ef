//! Inboxes of which it is known where they are empty.

ghost use Rattle.std.specs.Prelude.{◌≡◌, IfOk, IsTrue, [], map, replicate};
ghost use Rattle.std.specs.List.{range_with_len};
ghost use Rattle.gm_machine.specs.Machine.{inbox};
ghost use Rattle.gm_node_batches.specs.Inboxes.{AllEmpty};

use gm_base::NoMemory;
use gm_machine::{Batch, Inbox as MessageInbox};
use std::alloc::Global;
use std::marker::Model;

/// The messages that wait for some nodes, in their order. A node is named by its place among them. Where no messages wait
/// for any of them, this is known.
#[derive(Drop)]
pub struct Inbox {
    pub(crate) messages: MessageInbox,
    pub(crate) empty: bool,
}

impl Model for Inbox {
    ghost use Rattle.std.specs.Prelude.{List};
    ghost use Rattle.gm_machine.specs.Vertex.{Message};

    ghost Value = { List (List Message) };

    ghost use Rattle.std.specs.Prelude.{IsTrue};
    ghost use Rattle.gm_node_batches.specs.Inboxes.{AllEmpty};

    ghost view = { λ b. b.messages };

    ghost invariant = { λ b. IsTrue b.empty → AllEmpty b.messages };
}

impl Inbox {
    /// No messages to so many nodes. It keeps the allocator and takes no memory.
    pub fn empty(alloc: Global, places: usize) -> Inbox
        ensures { result ≡ replicate places [] }
    {
        Inbox {
            messages: MessageInbox::empty(alloc, places),
            empty: true,
        }
    }

    /// Messages by the node to which they go, which they name by its place among so many. Those to no such place are
    /// left out.
    pub fn sort(alloc: Global, messages: Batch, places: usize) -> Result<Inbox, NoMemory>
        ensures { IfOk result (λ b. b ≡ map (inbox messages) (range_with_len 0 places)) }
    {
        let empty = messages.messages() == 0;
        let messages = MessageInbox::sort(alloc, messages, places)?;
        Ok(Inbox { messages, empty })
    }
}
