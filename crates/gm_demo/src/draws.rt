//! The numbers from which the graph is made.

ghost use Rattle.std.specs.Prelude.{◌≡◌, ◌/◌, ◌^◌};
ghost use Rattle.gm_demo.specs.Draws.{next_held};

// The number that follows a number that is held. What goes beyond 64 bits is cut off.
fn next_draw(held: u64) -> u64
    ensures { result ≡ next_held held }
{
    held.wrapping_mul(6_364_136_223_846_793_005)
        .wrapping_add(1_442_695_040_888_963_407)
}

// A row of draws: the number that is held after the last of them.
#[derive(Clone, Copy, Debug, PartialEq, Eq)]
pub struct Draws {
    pub held: u64,
}

impl Draws {
    // The next draw: the upper 31 bits of the number that is held after it.
    pub fn draw(&mut self) -> u64
        ensures held { self.new.held ≡ next_held self.old.held }
        ensures drawn { result ≡ next_held self.old.held / 2 ^ 33 }
    {
        self.held = next_draw(self.held);
        self.held >> 33
    }
}
