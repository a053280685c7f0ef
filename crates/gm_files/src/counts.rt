//! Counts that stop at the greatest number.

ghost use Rattle.std.specs.Prelude.{◌≡◌};
ghost use Rattle.gm_files.specs.Streams.{one_more};

// One more, up to the greatest count.
pub fn next_count(count: u64) -> u64
    ensures { result ≡ one_more count }
{
    count.saturating_add(1)
}
