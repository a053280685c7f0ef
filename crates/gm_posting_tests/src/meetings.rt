// Gates at which tasks wait, and are counted.

ghost use Rattle.std.specs.Prelude.{◌≡◌};

use gm_base::{Gate, NoMemory};
use gm_shifts::{Task, Turn, run_all};
use std::sync::Wait;
use std::sync::atomic::{AtomicU64, Ordering};
use std::test::Fail;
use std::thread;

// Worker 0 waits until worker 1 has entered.
#[derive(Drop)]
pub(crate) struct Meeting<'a, R: Wait> {
    pub(crate) rt: &'a R,
    pub(crate) come: AtomicU64,
    pub(crate) seen: AtomicU64,
}

impl<'a, R: Wait + Sync> Gate for Meeting<'a, R> {
    fn enter(&self, worker: u32, step: u64) {
        if worker == 1 {
            self.come.store(step, Ordering::SeqCst);
        }
        if worker != 0 {
            return;
        }
        for _ in self.rt.forever() {
            if self.come.load(Ordering::SeqCst) == step {
                self.seen.store(step, Ordering::SeqCst);
                return;
            }
            thread::yield_now();
        }
        unreachable!()
    }
}

// A task that counts its runs, and gives up where it is told.
#[derive(Drop)]
struct Count {
    runs: u64,
    gives_up: bool,
}

impl Task for Count {
    ghost use Rattle.std.specs.Prelude.{◌≡◌, ◌+◌, ◌<◌};

    ghost is_ready = { λ t. t.runs < 100 };

    ghost does = { λ old new. new.runs ≡ old.runs + 1 };

    fn run(&mut self) -> Result<(), NoMemory> {
        self.runs += 1;
        if self.gives_up {
            return Err(NoMemory);
        }
        Ok(())
    }
}

fn counting(gives_up: bool) -> Turn<Count>
    ensures { result.task.runs ≡ 0 }
{
    Turn {
        task: Count { runs: 0, gives_up },
        outcome: Ok(()),
    }
}

#[test]
fn one_waits_for_the_other(rt: HostRuntime) -> Result<(), Fail> {
    let gate = Meeting {
        rt: &rt,
        come: AtomicU64::new(0),
        seen: AtomicU64::new(0),
    };
    let mut turns = [counting(false), counting(true), counting(false)];
    let done = run_all(&rt, &gate, 7, &mut turns);
    assert!(rt; done.is_err());
    assert_eq!(rt; gate.seen.load(Ordering::SeqCst), 7);
    for (place, turn) in turns.iter().enumerate() {
        assert_eq!(rt; turn.task.runs, 1);
        assert_eq!(rt; turn.outcome.is_err(), place == 1);
    }
    Ok(())
}
