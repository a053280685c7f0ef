// Letters that workers send, and which come to whom.

ghost use Rattle.std.specs.Prelude.{◌≡◌, ◌<◌, [], ◌∷◌, IfOk};

use gm_base::NoMemory;
use gm_posting::Bundle;
use std::alloc::Global;

// A batch of letters, each a number.
#[derive(Drop)]
pub(crate) struct Letters {
    pub(crate) numbers: Vec<u64>,
}

impl Bundle for Letters {
    ghost use Rattle.std.specs.Prelude.{ℕ};

    ghost Item = { ℕ };

    ghost items = { λ b. b.numbers.items };

    fn empty(alloc: Global) -> Self {
        Letters {
            numbers: Vec::new(alloc),
        }
    }

    fn len(&self) -> usize {
        self.numbers.len()
    }

    fn add_rows(&mut self, from: &Self, rows: &[u32]) -> Result<(), NoMemory> {
        for row in rows {
            self.numbers.push(from.numbers[*row as usize])?;
        }
        Ok(())
    }
}

// One letter.
pub(crate) fn one_letter(alloc: Global, number: u64) -> Result<Letters, NoMemory>
    ensures { IfOk result (λ l. l.numbers.items ≡ number ∷ []) }
{
    let mut numbers = Vec::new(alloc);
    numbers.push(number)?;
    Ok(Letters { numbers })
}

// To whom a worker's letter with this number goes.
pub(crate) fn receiver_of(from: u32, number: u64, workers: u32) -> u32
    requires { 0 < workers }
    ensures { result < workers }
{
    let mixed = number
        .wrapping_add(u64::from(from) << 32)
        .wrapping_mul(0x9E37_79B9_7F4A_7C15)
        >> 40;
    (mixed % u64::from(workers)) as u32
}

// The letters that one worker sends to another, in order, where each sends those below a number.
pub(crate) fn letters_to(
    alloc: Global,
    from: u32,
    to: u32,
    workers: u32,
    each: u64,
) -> Result<Vec<u64>, NoMemory>
    requires { 0 < workers }
{
    let mut numbers = Vec::new(alloc);
    for number in 0..each {
        if receiver_of(from, number, workers) == to {
            numbers.push(number)?;
        }
    }
    Ok(numbers)
}

// Puts the letters of one sender behind others.
pub(crate) fn add_letters(
    numbers: &mut Vec<u64>,
    batches: &[(u32, Letters)],
    from: u32,
) -> Result<(), NoMemory> {
    for (sender, letters) in batches {
        if *sender == from {
            for number in letters.numbers.iter() {
                numbers.push(*number)?;
            }
        }
    }
    Ok(())
}
