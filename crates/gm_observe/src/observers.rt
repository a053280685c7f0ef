//! The trait of those who are told about a run.

ghost use Rattle.std.specs.Prelude.{◌≡◌, ℕ, List, [], ◌∷◌, ◌++◌, OnOk, OnErr};
ghost use Rattle.gm_observe.specs.declared.notes.Note.{Note};

use crate::notes::Note;
use gm_base::NoMemory;

/// One who is told about the supersteps of a run, and reports what it was told. Contracts see the notes that it
/// holds, what it reports, and what it would report of any notes.
pub trait Observer: Drop {
    // the notes that it holds, in the order in which it was told them
    ghost seen: { Self → List Note };

    // the bytes of its report
    ghost says: { Self → List ℕ };

    // the bytes that it reports when it holds these notes
    ghost says_of: { Self → List Note → List ℕ };

    /// Tells it about one superstep. `NoMemory` leaves the notes that it holds as they were.
    fn note(&mut self, n: Note) -> Result<(), NoMemory>
        ensures told { OnOk result (seen self.new ≡ seen self.old ++ n ∷ []) }
        ensures untold { OnErr result (seen self.new ≡ seen self.old) }
        ensures same_way { says_of self.new ≡ says_of self.old };

    /// Writes its report behind what `out` holds. `NoMemory` leaves `out` as it was.
    fn report(&self, out: &mut Vec<u8>) -> Result<(), NoMemory>
        ensures reported { OnOk result (out.new.items ≡ out.old.items ++ says self.now) }
        ensures unreported { OnErr result (out.new.items ≡ out.old.items) }
        ensures of_seen { says self.now ≡ says_of self.now (seen self.now) };
}
