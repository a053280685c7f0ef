// Workers that send letters to all, at random, while they take what comes to them.

ghost use Rattle.std.specs.Prelude.{◌≡◌, ◌^◌, ◌<◌, ◌≤◌, ℕ, All, IfOk, OnOk, length, map, slice_index_or};
ghost use Rattle.gm_posting.specs.Gathering.{AreFew};
ghost use Rattle.gm_posting_tests.specs.Exchanges.{IsSame, numbers_of};

use crate::letters::{Letters, add_letters, letters_to, one_letter, receiver_of};
use crate::meetings::Meeting;
use gm_base::{Gate, NoMemory, OpenGate};
use gm_posting::{Mailboxes, Posts, close, flush, gather_nothing, open, put_rows};
use gm_shifts::{Task, Turn, run_all};
use std::alloc::Global;
use std::sync::Wait;
use std::sync::atomic::AtomicU64;
use std::test::Fail;
use std::thread::Threads;

// How many letters each worker sends.
const EACH: u64 = 5_000;

// Takes the batches that wait.
fn take_all<R: Wait>(
    rt: &R,
    mailboxes: &Mailboxes<Letters>,
    posts: &mut Posts<Letters>,
    early: &mut Vec<(u32, Letters)>,
) -> Result<(), NoMemory>
    requires { posts.old.mailboxes ≡ mailboxes.now }
    ensures { OnOk result (IsSame posts.old posts.new) }
{
    for _ in rt.forever() {
        match posts.take(rt, mailboxes) {
            Some(batch) => early.push(batch)?,
            None => return Ok(()),
        }
    }
    unreachable!()
}

// Sends one letter, and takes what has come meanwhile.
fn send_letter<R: Wait>(
    rt: &R,
    alloc: Global,
    mailboxes: &Mailboxes<Letters>,
    posts: &mut Posts<Letters>,
    gathered: &mut [Letters],
    early: &mut Vec<(u32, Letters)>,
    number: u64,
) -> Result<(), NoMemory>
    requires mailboxes { posts.old.mailboxes ≡ mailboxes.now }
    requires wide { length gathered.old ≡ length mailboxes.now }
    requires few { AreFew numbers_of gathered.old }
    ensures { OnOk result (IsSame posts.old posts.new × AreFew numbers_of gathered.new) }
{
    let letter = one_letter(alloc, number)?;
    let to = receiver_of(posts.worker(), number, posts.workers());
    put_rows(rt, alloc, mailboxes, posts, gathered, to, &letter, &[0])?;
    take_all(rt, mailboxes, posts, early)?;
    Ok(())
}

// Sends a letter with each number below a bound.
fn send_letters<R: Wait>(
    rt: &R,
    alloc: Global,
    mailboxes: &Mailboxes<Letters>,
    posts: &mut Posts<Letters>,
    gathered: &mut [Letters],
    early: &mut Vec<(u32, Letters)>,
) -> Result<(), NoMemory>
    requires mailboxes { posts.old.mailboxes ≡ mailboxes.now }
    requires wide { length gathered.old ≡ length mailboxes.now }
    requires few { AreFew numbers_of gathered.old }
    ensures { OnOk result (IsSame posts.old posts.new × AreFew numbers_of gathered.new) }
{
    for number in 0..EACH {
        send_letter(rt, alloc, mailboxes, posts, gathered, early, number)?;
    }
    Ok(())
}

// Sends letters, and what is gathered in the end.
fn send_all<R: Wait>(
    rt: &R,
    alloc: Global,
    mailboxes: &Mailboxes<Letters>,
    posts: &mut Posts<Letters>,
    gathered: &mut [Letters],
    early: &mut Vec<(u32, Letters)>,
) -> Result<(), NoMemory>
    requires mailboxes { posts.old.mailboxes ≡ mailboxes.now }
    requires wide { length gathered.old ≡ length mailboxes.now }
    requires few { AreFew numbers_of gathered.old }
    ensures { OnOk result (IsSame posts.old posts.new) }
{
    send_letters(rt, alloc, mailboxes, posts, gathered, early)?;
    flush(rt, alloc, mailboxes, posts, gathered)?;
    Ok(())
}

// A worker's part.
#[derive(Drop)]
struct Sending<'a, R: Wait> {
    rt: &'a R,
    alloc: Global,
    mailboxes: &'a Mailboxes<Letters>,
    posts: Posts<Letters>,
    early: Vec<(u32, Letters)>,
}

impl<'a, R: Wait> Task for Sending<'a, R> {
    ghost use Rattle.std.specs.Prelude.{◌≡◌};
    ghost use Rattle.gm_posting_tests.specs.Exchanges.{IsSame};

    ghost is_ready = { λ t. t.posts.mailboxes ≡ t.mailboxes.now };

    ghost does = { λ old new. IsSame old.posts new.posts };

    fn run(&mut self) -> Result<(), NoMemory> {
        let mut gathered = gather_nothing(self.alloc, self.posts.workers())?;
        send_all(
            self.rt,
            self.alloc,
            self.mailboxes,
            &mut self.posts,
            gathered.as_mut_slice(),
            &mut self.early,
        )?;
        Ok(())
    }
}

// The workers' parts, before they begin.
fn turns_of<'a, R: Wait>(
    rt: &'a R,
    alloc: Global,
    mailboxes: &'a Mailboxes<Letters>,
    posts: Vec<Posts<Letters>>,
) -> Result<Vec<Turn<Sending<'a, R>>>, NoMemory>
    requires { All (λ p. p.mailboxes ≡ mailboxes.now) posts.items }
    ensures ready { IfOk result (λ turns. All (λ t. t.task.posts.mailboxes ≡ t.task.mailboxes.now) turns.items) }
    ensures posts { IfOk result (λ turns. map (λ t. t.task.posts) turns.items ≡ posts.items) }
{
    let mut turns = Vec::new(alloc);
    for own in posts {
        turns.push(Turn {
            task: Sending {
                rt,
                alloc,
                mailboxes,
                posts: own,
                early: Vec::new(alloc),
            },
            outcome: Ok(()),
        })?;
    }
    Ok(turns)
}

// The workers do their parts.
fn run_turns<'a, G: Gate, R: Threads + Wait + Sync>(
    rt: &R,
    gate: &G,
    turns: &mut [Turn<Sending<'a, R>>],
) -> Result<(), NoMemory>
    requires few { length turns.old < 2 ^ 32 }
    requires ready { All (λ t. t.task.posts.mailboxes ≡ t.task.mailboxes.now) turns.old }
    ensures { OnOk result ((i : ℕ) (d : _) → i < length turns.old → IsSame (slice_index_or turns.old i d).task.posts (slice_index_or turns.new i d).task.posts) }
{
    run_all(rt, gate, 3, turns)
}

// What the workers have after their parts.
fn posts_of<'a, R: Wait>(
    alloc: Global,
    turns: Vec<Turn<Sending<'a, R>>>,
) -> Result<(Vec<Posts<Letters>>, Vec<Vec<(u32, Letters)>>), NoMemory>
    ensures posts { IfOk result (λ r. r.0.items ≡ map (λ t. t.task.posts) turns.entry.items) }
    ensures early { IfOk result (λ r. length r.1.items ≡ length turns.entry.items) }
{
    let mut posts = Vec::new(alloc);
    let mut early = Vec::new(alloc);
    for turn in turns {
        let task = turn.task;
        posts.push(task.posts)?;
        early.push(task.early)?;
    }
    Ok((posts, early))
}

// Workers send letters to one another; answered is what each took early, and what was collected late.
fn exchange<G: Gate, R: Threads + Wait + Sync>(
    rt: &R,
    alloc: Global,
    gate: &G,
    workers: u32,
) -> Result<(Vec<Vec<(u32, Letters)>>, Vec<Vec<(u32, Letters)>>), NoMemory>
    requires { workers ≤ 64 }
    ensures { IfOk result (λ r. (length r.0.items ≡ workers) × (length r.1.items ≡ workers)) }
{
    let (mailboxes, posts) = open(rt, alloc, workers)?;
    let mut turns = turns_of(rt, alloc, &mailboxes, posts)?;
    run_turns(rt, gate, turns.as_mut_slice())?;
    let (posts, early) = posts_of(alloc, turns)?;
    let late = close(rt, alloc, mailboxes, posts)?;
    Ok((early, late))
}

// The letters of one sender among what came to a receiver, early and then late.
fn letters_from(
    alloc: Global,
    early: &[(u32, Letters)],
    late: &[(u32, Letters)],
    from: u32,
) -> Result<Vec<u64>, NoMemory> {
    let mut numbers = Vec::new(alloc);
    add_letters(&mut numbers, early, from)?;
    add_letters(&mut numbers, late, from)?;
    Ok(numbers)
}

#[test]
fn all_arrive_in_order(rt: HostRuntime) -> Result<(), Fail> {
    let alloc = rt.alloc();
    for workers in [1u32, 2, 7, 64] {
        let (early, late) = exchange(&rt, alloc, &OpenGate, workers).expect(&rt, "memory");
        for to in 0..workers {
            for from in 0..workers {
                let place = to as usize;
                let came = letters_from(alloc, &early[place], &late[place], from).expect(
                    &rt, "memory",
                );
                let sent = letters_to(alloc, from, to, workers, EACH).expect(&rt, "memory");
                assert_eq!(rt;
                    came.as_slice(),
                    sent.as_slice(),
                    "{from} to {to} of {workers}"
                );
            }
            for (from, letters) in early[to as usize].iter() {
                assert!(rt; *from < workers);
                assert!(rt; letters.numbers.len() <= 1024);
            }
        }
    }
    Ok(())
}

#[test]
fn workers_meet_at_the_gate(rt: HostRuntime) -> Result<(), Fail> {
    let alloc = rt.alloc();
    let gate = Meeting {
        rt: &rt,
        come: AtomicU64::new(0),
        seen: AtomicU64::new(0),
    };
    let (early, late) = exchange(&rt, alloc, &gate, 2).expect(&rt, "memory");
    let came = letters_from(alloc, &early[1], &late[1], 0).expect(&rt, "memory");
    let sent = letters_to(alloc, 0, 1, 2, EACH).expect(&rt, "memory");
    assert_eq!(rt; came.as_slice(), sent.as_slice());
    Ok(())
}
