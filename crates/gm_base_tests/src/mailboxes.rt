ghost use Rattle.std.specs.Prelude.{◌≡◌, ◌+◌, ◌^◌, ◌<◌, length, vec_len, All, IfOk, OnOk};

use crate::compare::same;
use gm_base::NoMemory;
use gm_mailbox::{Mailbox, Post, make};
use std::alloc::Global;
use std::process::Abort;
use std::sync::Wait;
use std::test::*;
use std::thread;
use std::thread::Threads;

// How many batches each thread sends.
const COUNT: u64 = 100_000;

#[test]
fn each_sender_in_its_order(rt: HostRuntime) -> Result<(), Fail> {
    let alloc = rt.alloc();
    let (mut mailbox, mut zero) = make(alloc).expect(&rt, "memory");
    let mut one = mailbox.split(&rt, &mut zero).expect(&rt, "memory");
    assert!(rt; mailbox.send(&rt, &mut zero, 'a').is_ok());
    assert!(rt; mailbox.send(&rt, &mut zero, 'b').is_ok());
    assert!(rt; mailbox.send(&rt, &mut one, 'c').is_ok());
    mailbox.join_back(&rt, &mut zero, one);
    let batches = mailbox.collect(&rt, alloc, &mut zero).expect(&rt, "memory");
    same(
        &rt,
        0,
        batches.as_slice(),
        [(0, 'a'), (0, 'b'), (1, 'c')].as_slice(),
    );
    let rest = mailbox.collect(&rt, alloc, &mut zero).expect(&rt, "memory");
    assert!(rt; rest.is_empty());
    Ok(())
}

#[test]
fn early_takes_the_front(rt: HostRuntime) -> Result<(), Fail> {
    let alloc = rt.alloc();
    let (mut mailbox, mut zero) = make(alloc).expect(&rt, "memory");
    assert!(rt; mailbox.send(&rt, &mut zero, 'a').is_ok());
    same(&rt, 0, mailbox.early(&rt, &mut zero), Some((0, 'a')));
    same(&rt, 1, mailbox.early(&rt, &mut zero), None);
    assert!(rt; mailbox.send(&rt, &mut zero, 'b').is_ok());
    let batches = mailbox.collect(&rt, alloc, &mut zero).expect(&rt, "memory");
    same(&rt, 2, batches.as_slice(), [(0, 'b')].as_slice());
    Ok(())
}

// Splits off as many passes.
fn split_off<R: Wait>(
    rt: &R,
    alloc: Global,
    mailbox: &Mailbox<u64>,
    zero: &mut Post<u64>,
    passes: usize,
) -> Result<Vec<Post<u64>>, NoMemory>
    requires zero { (zero.old.mailbox ≡ mailbox.now) × (zero.old.number ≡ 0) }
    requires room { zero.old.splits + passes < 2 ^ 32 }
    ensures zero { OnOk result (zero.new ≡ record zero.old { splits = zero.old.splits + passes }) }
    ensures len { IfOk result (λ v. vec_len v ≡ passes) }
    ensures posts { IfOk result (λ v. All (λ p. (p.mailbox ≡ mailbox.now) × (0 < p.number)) v.items) }
{
    let mut posts = Vec::new(alloc);
    for _made in 0..passes {
        posts.push(mailbox.split(rt, zero)?)?;
    }
    Ok(posts)
}

// Sends the numbers from `place * COUNT` on. One that comes back is missed by the test.
fn send_numbers<R: Wait>(rt: &R, mailbox: &Mailbox<u64>, place: usize, post: &mut Post<u64>)
    requires { (post.old.mailbox ≡ mailbox.now) × (0 < post.old.number) }
    ensures { (post.new.mailbox ≡ mailbox.now) × (0 < post.new.number) }
{
    let first = (place as u64).wrapping_mul(COUNT);
    for n in 0..COUNT {
        let _ = mailbox.send(rt, post, first.wrapping_add(n));
    }
}

// Sends by each pass in a thread of its own.
fn send_each<R: Threads + Wait + Sync>(rt: &R, mailbox: &Mailbox<u64>, posts: &mut [Post<u64>])
    requires { All (λ p. (p.mailbox ≡ mailbox.now) × (0 < p.number)) posts.old }
    ensures len { length posts.new ≡ length posts.old }
    ensures posts { All (λ p. (p.mailbox ≡ mailbox.now) × (0 < p.number)) posts.new }
{
    thread::for_each_mut(
        rt,
        posts,
        64,
        &|place, post| { send_numbers(rt, mailbox, place, post) },
    );
}

// Joins the passes back.
fn join_all<R: Wait>(rt: &R, mailbox: &Mailbox<u64>, zero: &mut Post<u64>, posts: Vec<Post<u64>>)
    requires zero { (zero.old.mailbox ≡ mailbox.now) × (zero.old.number ≡ 0) }
    requires posts { All (λ p. (p.mailbox ≡ mailbox.now) × (0 < p.number)) posts.items }
    ensures same { (zero.new.mailbox ≡ mailbox.now) × (zero.new.number ≡ 0) × (zero.new.splits ≡ zero.old.splits) }
    ensures ended { length zero.new.ended ≡ length zero.old.ended + vec_len posts }
{
    for post in posts {
        mailbox.join_back(rt, zero, post);
    }
}

// What as many threads sent, each by a pass of its own.
fn gather<R: Threads + Wait + Sync>(
    rt: &R,
    alloc: Global,
    passes: usize,
) -> Result<Vec<(u32, u64)>, NoMemory>
    requires { passes < 2 ^ 32 }
{
    let (mut mailbox, mut zero) = make(alloc)?;
    let mut posts = split_off(rt, alloc, &mailbox, &mut zero, passes)?;
    send_each(rt, &mailbox, &mut posts);
    join_all(rt, &mailbox, &mut zero, posts);
    mailbox.collect(rt, alloc, &mut zero)
}

// Counts the batches of each pass, each of which is the next of its pass.
fn count_batches(
    rt: &(impl Abort + AllocGlobal),
    batches: Vec<(u32, u64)>,
) -> Result<Vec<u64>, Fail> {
    let mut next = vec![in rt.alloc(); 0u64; 65]?;
    for (number, batch) in batches {
        let count = next
            .get_mut(number as usize)
            .expect(rt, "the number of a pass");
        let first = u64::from(number).wrapping_sub(1).wrapping_mul(COUNT);
        same(rt, number as usize, batch, first.wrapping_add(*count));
        *count = count.wrapping_add(1);
    }
    Ok(next)
}

#[test]
fn threads_send_many_batches(rt: HostRuntime) -> Result<(), Fail> {
    let alloc = rt.alloc();
    for passes in [2usize, 8, 64] {
        let batches = gather(&rt, alloc, passes).expect(&rt, "memory");
        let counts = count_batches(&rt, batches)?;
        for (number, count) in counts.iter().enumerate() {
            let sends = 1 <= number && number <= passes;
            let wanted = if sends { COUNT } else { 0 };
            same(&rt, number, *count, wanted);
        }
    }
    Ok(())
}
