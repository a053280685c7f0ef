//! The laws of the core on which other crates rest. Each function's contract is a law, and it does nothing when it is
//! called.

ghost use Rattle.std.specs.Prelude.{◌≡◌, None, Some, [], ◌∷◌, ◌++◌};
ghost use Rattle.gm_core.specs.declared.events.Event.TheVariants.{Compute, Deliver, Arrive, Release};
ghost use Rattle.gm_core.specs.Cores.{end_of};
ghost use Rattle.gm_core.specs.Supersteps.{SuperstepsAreEvents, SuperstepsStand};
ghost use Rattle.gm_core.specs.Laws.{EventsGoBySupersteps, BatchesAreDelivered, EventsEndInTime, ReleasesStand};
ghost use Rattle.gm_core.specs.WorkedEvents.{total, two_nodes, owners, after_events, illegal, computed, first_step, second_step, over, carries};

/// Legal events with so many releases come to the state of the written machine after as many supersteps, with the new
/// fields of the nodes that have computed since. Just after a release the core stands for that state. The core has
/// ended exactly where the machine's whole run takes no more supersteps, and then with the run's end.
pub fn events_go_by_supersteps()
    ensures events { EventsGoBySupersteps }
    ensures releases { ReleasesStand }
    ensures ends { EventsEndInTime }
{}

/// The deliveries read off a merge of sent batches are legal, and leave the batches' messages as the incoming list.
pub fn batches_are_delivered<M>()
    ensures { BatchesAreDelivered M }
{}

/// A superstep whose workers take batches that are, pass by pass, what the others have for them, is legal events of the
/// core: all computes, one delivery for each batch, all arrivals, and the release.
pub fn supersteps_are_events()
    ensures events { SuperstepsAreEvents }
    ensures stands { SuperstepsStand }
{}

/// What the definitions say of some events of two workers, each of which owns a node. It does nothing when it is called.
pub fn events_are_worked()
    ensures legal { illegal (first_step ++ second_step) ≡ None }
    ensures end { end_of total two_nodes owners 2 (after_events (first_step ++ second_step)) ≡ Some over }
    ensures under_way { end_of total two_nodes owners 2 (after_events first_step) ≡ None }
    ensures in_order { (after_events first_step).waiting 1 ≡ carries 7 ∷ carries 5 ∷ carries 5 ∷ [] }
    ensures undelivered { illegal (Compute 0 0 ∷ Arrive 0 ∷ []) ≡ Some 1 }
    ensures idle { illegal (Compute 0 0 ∷ Arrive 1 ∷ []) ≡ Some 1 }
    ensures no_worker { illegal (Arrive 2 ∷ []) ≡ Some 0 }
    ensures twice { illegal (Compute 0 0 ∷ Compute 0 0 ∷ []) ≡ Some 1 }
    ensures not_owned { illegal (Compute 1 0 ∷ []) ≡ Some 0 }
    ensures no_node { illegal (Compute 0 2 ∷ []) ≡ Some 0 }
    ensures nothing { illegal (Compute 0 0 ∷ Deliver 0 1 0 ∷ []) ≡ Some 1 }
    ensures too_many { illegal (Compute 0 0 ∷ Deliver 0 1 3 ∷ []) ≡ Some 1 }
    ensures no_receiver { illegal (Compute 0 0 ∷ Deliver 0 2 1 ∷ []) ≡ Some 1 }
    ensures early { illegal (computed ++ Release ∷ []) ≡ Some 2 }
    ensures past_the_end { illegal (first_step ++ second_step ++ Compute 0 0 ∷ []) ≡ Some 13 }
{}
