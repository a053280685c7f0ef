// The rule under which the passes of a mailbox share its queue. These types are for the proofs alone.
ghost use Rattle.std.specs.Prelude.{◌≡◌, ◌+◌, [], ◌∷◌, ◌++◌};
ghost use Rattle.gm_mailbox.specs.Known.{known, newcomer, spent};
ghost use Rattle.gm_mailbox.specs.Rule.{Delivers, Shows};

use crossbeam_queue::protocol::{Join, Lesson, Outcome, Protocol, Split};
use std::collections::LinkedList;

// Whether the pass was not yet joined back, its number and what it has sent. Pass 0 knows besides how many were split off,
// the number and the list of each that was joined back, and what was taken. No value of it is made.
pub struct Known<T> {
    pub live: bool,
    pub number: u32,
    pub sent: LinkedList<T>,
    pub splits: u32,
    pub ended: LinkedList<(u32, LinkedList<T>)>,
    pub taken: LinkedList<(u32, T)>,
}

pub struct Merging;

impl<T> Protocol<(u32, T), Known<T>> for Merging {
    ghost use Rattle.gm_mailbox.specs.Known.{newcomer};
    ghost use Rattle.gm_mailbox.specs.Rule.{Delivers};

    ghost holds = { Delivers };

    ghost first = { newcomer 0 };
}

pub struct Splits;

impl<T> Split<Known<T>> for Splits {
    ghost use Rattle.std.specs.Prelude.{◌+◌};
    ghost use Rattle.gm_mailbox.specs.Known.{known, newcomer};

    ghost left = { λ v. known v.number v.sent (v.splits + 1) v.ended v.taken };

    ghost right = { λ v. newcomer (v.splits + 1) };
}

pub struct Joins;

impl<T> Join<Known<T>> for Joins {
    ghost use Rattle.std.specs.Prelude.{◌∷◌};
    ghost use Rattle.gm_mailbox.specs.Known.{known, spent};

    ghost both = { λ v w. known v.number v.sent v.splits ((w.number, w.sent) ∷ v.ended) v.taken };

    ghost spent = { spent };
}

pub struct Sends;

impl<T> Outcome<(u32, T), Known<T>> for Sends {
    ghost use Rattle.std.specs.Prelude.{◌≡◌, [], ◌∷◌, ◌++◌};
    ghost use Rattle.gm_mailbox.specs.Known.{known};

    ghost then = { λ v x w. w ≡ known v.number (v.sent ++ x.1 ∷ []) v.splits v.ended v.taken };
}

pub struct Takes;

impl<T> Outcome<(u32, T), Known<T>> for Takes {
    ghost use Rattle.std.specs.Prelude.{◌≡◌, ◌≤◌, [], ◌∷◌, ◌++◌};
    ghost use Rattle.gm_mailbox.specs.Known.{known};

    ghost then = { λ v x w. (w ≡ known v.number v.sent v.splits v.ended (v.taken ++ x ∷ [])) × (x.0 ≤ v.splits) };
}

impl<T> Lesson<(u32, T), Known<T>> for Takes {
    ghost use Rattle.gm_mailbox.specs.Rule.{Shows};

    ghost fact = { Shows };
}
