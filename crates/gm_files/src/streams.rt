//! The traits through which the program reads and writes.

ghost use Rattle.std.specs.Prelude.{◌≡◌, ◌≤◌, ℕ, List, Option, OnOk, OnErr, IfOk, length, take};
ghost use Rattle.gm_files.specs.Streams.{Rises, TakesFront, with_more, IsWriteCount};

use gm_base::Failed;

/// Something that gives bytes, from its front to its end. Contracts see the bytes that are left, where the
/// source tells them, and a count of faults, which never falls.
pub trait Source {
    // the bytes that are left, where the source tells them
    ghost left: { Self → Option (List ℕ) };

    // how many faults it has met
    ghost read_faults: { Self → ℕ };

    /// Reads some bytes into the front of `into`, and answers how many; 0 for a buffer that is not empty is the
    /// end of input. `Failed` takes nothing, and comes only where the count of faults rose.
    fn read(&mut self, into: &mut [u8]) -> Result<usize, Failed>
        ensures within { IfOk result (λ k. k ≤ length into.old) }
        ensures taken { IfOk result (λ k. TakesFront (left self.old) (left self.new) into.new k) }
        ensures quiet { OnOk result (read_faults self.new ≡ read_faults self.old) }
        ensures untaken { OnErr result (left self.new ≡ left self.old) }
        ensures failed { OnErr result (Rises (read_faults self.old) (read_faults self.new)) };
}

/// Something that takes bytes. Contracts see the bytes that it has taken, where it tells them, and a count of
/// faults, which never falls.
pub trait Sink {
    // the bytes that were taken so far, where the sink tells them
    ghost taken: { Self → Option (List ℕ) };

    // how many faults it has met
    ghost write_faults: { Self → ℕ };

    /// Takes some bytes from the front of `bytes`, and answers how many: at least one where there is one.
    /// `Failed` takes nothing, and comes only where the count of faults rose.
    fn write(&mut self, bytes: &[u8]) -> Result<usize, Failed>
        ensures count { IfOk result (λ k. IsWriteCount bytes.now k) }
        ensures grown { IfOk result (λ k. taken self.new ≡ with_more (taken self.old) (take k bytes.now)) }
        ensures quiet { OnOk result (write_faults self.new ≡ write_faults self.old) }
        ensures unwritten { OnErr result (taken self.new ≡ taken self.old) }
        ensures failed { OnErr result (Rises (write_faults self.old) (write_faults self.new)) };
}
