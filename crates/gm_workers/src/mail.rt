//! What workers send to each other.

ghost use Rattle.std.specs.Prelude.{◌≡◌, ◌<◌, [], ◌∷◌, ◌++◌, OnOk};

use gm_base::NoMemory;
use gm_message_columns::Messages;
use gm_posting::Bundle;
use std::alloc::Global;

/// Messages that go from a worker to a worker at once.
#[derive(Drop)]
pub struct Mail {
    pub messages: Messages,
}

impl Bundle for Mail {
    ghost use Rattle.gm_machine.specs.Vertex.{Message};

    ghost Item = { Message };

    ghost items = { λ m. m.messages };

    fn empty(alloc: Global) -> Self {
        Mail {
            messages: Messages::empty(alloc),
        }
    }

    fn len(&self) -> usize {
        self.messages.len()
    }

    fn add_rows(&mut self, from: &Self, rows: &[u32]) -> Result<(), NoMemory> {
        self.messages.add_rows(&from.messages, rows)
    }
}
