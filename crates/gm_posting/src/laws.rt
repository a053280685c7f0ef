// Laws of what workers send each other. Each function's contract is a law, and it does nothing when it is called.

ghost use Rattle.gm_posting.specs.Laws.{PutsArrive};

use crate::gathering::Bundle;

/// Where workers have put items for one another and flushed, and the mailboxes were closed, the items that came to a
/// worker from a sender, early and late, are those that were put for it there, in order.
pub fn what_is_put_arrives<B: Bundle>()
    ensures { PutsArrive B.items }
{}
