//! A worker's part in a superstep: its nodes compute, what they send goes to the workers that own the nodes to which it
//! goes, and what comes is taken.

ghost use Rattle.std.specs.Prelude.{◌≡◌, ◌<◌, ◌≤◌, ℕ, [], ◌++◌, None, OnOk, IfOk, length, map, slice_index};
ghost use Rattle.gm_model.specs.Graphs.{HasNode};
ghost use Rattle.gm_machine.specs.Duties.{IsDuty};
ghost use Rattle.gm_posting.specs.Gathering.{Gathers, AreFew, held};
ghost use Rattle.gm_core.specs.Cores.{owner, for_worker};
ghost use Rattle.gm_workers.specs.Dealings.{place_for, placed};
ghost use Rattle.gm_workers.specs.Parts.{messages_in, items_of, Takes, Hands, PartTo, IsDone, IsReady, Did};

use crate::crews::Slot;
use crate::dealing::{Dealing, place_at};
use crate::mail::Mail;
use crate::parting::{no_places, part_mail};
use gm_base::NoMemory;
use gm_machine::{Duty, Fields, Nodes};
use gm_message_columns::{Joining, Messages};
use gm_node_batches::{Inbox, Sent, open, steps_of_nodes};
use gm_posting::{Mailboxes, Posts, flush, gather_nothing, put_rows};
use gm_shifts::Task;
use std::alloc::Global;
use std::mem;
use std::sync::Wait;

// As many messages are gathered before they are dealt out.
const ENOUGH: usize = 1024;

// Puts the messages to what has gathered for the workers that own the nodes to which they go.
fn post_all<R: Wait>(
    rt: &R,
    alloc: Global,
    mailboxes: &Mailboxes<Mail>,
    posts: &mut Posts<Mail>,
    gathered: &mut [Mail],
    parts: &mut [Vec<u32>],
    owners: &[u32],
    mail: &Mail,
) -> Result<(), NoMemory>
    requires mailboxes { posts.old.mailboxes ≡ mailboxes.now }
    requires wide { length gathered.old ≡ length mailboxes.now }
    requires few { AreFew items_of gathered.old }
    requires parts { length parts.old ≡ length mailboxes.now }
    requires owners { (n : ℕ) → owner owners.now n < length mailboxes.now }
    ensures { OnOk result (Gathers items_of (λ to. for_worker owners.now to mail.now.messages) posts.old posts.new gathered.old gathered.new) }
{
    part_mail(owners, mail, parts)?;
    for to in 0..posts.workers() {
        put_rows(
            rt,
            alloc,
            mailboxes,
            posts,
            gathered,
            to,
            mail,
            &parts[to as usize],
        )?;
    }
    Ok(())
}

// Takes the batches that have come.
fn take_all<R: Wait>(
    rt: &R,
    mailboxes: &Mailboxes<Mail>,
    posts: &mut Posts<Mail>,
    came: &mut Vec<(u32, Mail)>,
) -> Result<(), NoMemory>
    requires { posts.old.mailboxes ≡ mailboxes.now }
    ensures { OnOk result (Takes posts.old posts.new came.old.items came.new.items) }
{
    for _ in rt.forever() {
        match posts.take(rt, mailboxes) {
            Some(batch) => came.push(batch)?,
            None => return Ok(()),
        }
    }
    unreachable!()
}

// Deals messages out, and takes what has come.
fn hand_over<R: Wait>(
    rt: &R,
    alloc: Global,
    mailboxes: &Mailboxes<Mail>,
    posts: &mut Posts<Mail>,
    gathered: &mut [Mail],
    parts: &mut [Vec<u32>],
    owners: &[u32],
    mail: &Mail,
    came: &mut Vec<(u32, Mail)>,
) -> Result<(), NoMemory>
    requires mailboxes { posts.old.mailboxes ≡ mailboxes.now }
    requires wide { length gathered.old ≡ length mailboxes.now }
    requires few { AreFew items_of gathered.old }
    requires parts { length parts.old ≡ length mailboxes.now }
    requires owners { (n : ℕ) → owner owners.now n < length mailboxes.now }
    ensures { OnOk result (Hands (λ to. for_worker owners.now to mail.now.messages) posts.old posts.new gathered.old gathered.new came.old.items came.new.items) }
{
    post_all(rt, alloc, mailboxes, posts, gathered, parts, owners, mail)?;
    take_all(rt, mailboxes, posts, came)?;
    Ok(())
}

// Sends what is left, and takes what has come.
fn hand_rest<R: Wait>(
    rt: &R,
    alloc: Global,
    mailboxes: &Mailboxes<Mail>,
    posts: &mut Posts<Mail>,
    gathered: &mut [Mail],
    came: &mut Vec<(u32, Mail)>,
) -> Result<(), NoMemory>
    requires mailboxes { posts.old.mailboxes ≡ mailboxes.now }
    requires wide { length gathered.old ≡ length mailboxes.now }
    requires few { AreFew items_of gathered.old }
    ensures handed { OnOk result (Hands (λ to. []) posts.old posts.new gathered.old gathered.new came.old.items came.new.items) }
    ensures emptied { OnOk result ((to : ℕ) → held items_of gathered.new to ≡ []) }
{
    flush(rt, alloc, mailboxes, posts, gathered)?;
    take_all(rt, mailboxes, posts, came)?;
    Ok(())
}

// The nodes at the places of a list compute, in their order. What they send is dealt out, and what comes meanwhile is taken.
fn compute_all<R: Wait>(
    rt: &R,
    alloc: Global,
    duty: &Duty,
    owners: &[u32],
    mailboxes: &Mailboxes<Mail>,
    nodes: &[u32],
    inbox: &Inbox,
    fields: &mut Fields,
    posts: &mut Posts<Mail>,
    gathered: &mut [Mail],
    parts: &mut [Vec<u32>],
    came: &mut Vec<(u32, Mail)>,
    sent: &mut Sent,
) -> Result<(), NoMemory>
    requires duty { IsDuty duty.now }
    requires nodes { (place : ℕ) → place < length nodes.now → HasNode duty.now.graph.now (slice_index nodes.now place) }
    requires inbox { length inbox.now ≡ length nodes.now }
    requires fields { length fields.old.rows ≡ length nodes.now }
    requires mailboxes { posts.old.mailboxes ≡ mailboxes.now }
    requires wide { length gathered.old ≡ length mailboxes.now }
    requires few { AreFew items_of gathered.old }
    requires parts { length parts.old ≡ length mailboxes.now }
    requires owners { (n : ℕ) → owner owners.now n < length mailboxes.now }
    requires messages { sent.old.messages ≡ [] }
    requires puts { sent.old.puts ≡ [] }
    requires fault { sent.old.fault ≡ None }
    ensures { OnOk result (PartTo duty.now owners.now nodes.now inbox.now (length nodes.now) fields.old.rows fields.new.rows posts.old posts.new gathered.old gathered.new came.old.items came.new.items sent.new) }
{
    let places = Nodes::These(nodes);
    let mut next = 0;
    'nodes: while next < nodes.len() {
        next = steps_of_nodes(alloc, duty, &places, inbox, fields, next, ENOUGH, sent)?;
        let mail = Mail {
            messages: mem::replace(&mut sent.messages, Messages::empty(alloc)),
        };
        hand_over(
            rt, alloc, mailboxes, posts, gathered, parts, owners, &mail, came,
        )?;
    }
    Ok(())
}

// The nodes compute, and all that they send goes out.
fn compute_and_send<R: Wait>(
    rt: &R,
    alloc: Global,
    duty: &Duty,
    owners: &[u32],
    mailboxes: &Mailboxes<Mail>,
    nodes: &[u32],
    inbox: &Inbox,
    fields: &mut Fields,
    posts: &mut Posts<Mail>,
    gathered: &mut [Mail],
    parts: &mut [Vec<u32>],
    came: &mut Vec<(u32, Mail)>,
    sent: &mut Sent,
) -> Result<(), NoMemory>
    requires duty { IsDuty duty.now }
    requires nodes { (place : ℕ) → place < length nodes.now → HasNode duty.now.graph.now (slice_index nodes.now place) }
    requires inbox { length inbox.now ≡ length nodes.now }
    requires fields { length fields.old.rows ≡ length nodes.now }
    requires mailboxes { posts.old.mailboxes ≡ mailboxes.now }
    requires wide { length gathered.old ≡ length mailboxes.now }
    requires few { AreFew items_of gathered.old }
    requires parts { length parts.old ≡ length mailboxes.now }
    requires owners { (n : ℕ) → owner owners.now n < length mailboxes.now }
    requires messages { sent.old.messages ≡ [] }
    requires puts { sent.old.puts ≡ [] }
    requires fault { sent.old.fault ≡ None }
    ensures { OnOk result (IsDone duty.now owners.now nodes.now inbox.now fields.old.rows fields.new.rows posts.old posts.new gathered.old came.old.items came.new.items sent.new) }
{
    compute_all(
        rt, alloc, duty, owners, mailboxes, nodes, inbox, fields, posts, gathered, parts, came,
        sent,
    )?;
    hand_rest(rt, alloc, mailboxes, posts, gathered, came)?;
    Ok(())
}

// The places of the nodes to which messages go, among a worker's nodes.
fn placed_nodes(
    alloc: Global,
    dealing: &Dealing,
    worker: u32,
    mail: &Mail,
) -> Result<Vec<u32>, NoMemory>
    ensures { IfOk result (λ places. places.items ≡ map (λ m. place_for dealing.now worker m.to) mail.now.messages) }
{
    let count = mail.messages.len();
    let mut places = Vec::with_capacity(alloc, count)?;
    for i in 0..count {
        places.push(place_at(dealing, worker, mail.messages.to(i)))?;
    }
    Ok(places)
}

// Messages behind others, each to its node's place among a worker's nodes.
fn add_placed(
    alloc: Global,
    dealing: &Dealing,
    worker: u32,
    mail: &Mail,
    joining: Joining,
) -> Result<Joining, NoMemory>
    ensures { IfOk result (λ all. all ≡ joining ++ map (placed dealing.now worker) mail.now.messages) }
{
    let places = placed_nodes(alloc, dealing, worker, mail)?;
    let all = joining.with(&places, &mail.messages)?;
    Ok(all)
}

// The messages that wait for a worker's nodes, each to its node's place among them. Each batch is let go once it is read.
fn placed_all(
    alloc: Global,
    dealing: &Dealing,
    worker: u32,
    waiting: Vec<(u32, Mail)>,
) -> Result<Messages, NoMemory>
    ensures { IfOk result (λ messages. messages ≡ map (placed dealing.now worker) (messages_in waiting.items)) }
{
    let mut joining = Joining::empty(alloc);
    for (_, mail) in waiting {
        joining = add_placed(alloc, dealing, worker, &mail, joining)?;
    }
    joining.into_messages()
}

/// What a worker has in a superstep: what all workers share, its slot, its passes, and what its nodes put.
#[derive(Drop)]
pub struct Part<'a, R: Wait> {
    pub rt: &'a R,
    pub alloc: Global,
    pub duty: Duty<'a>,
    pub dealing: &'a Dealing,
    pub mailboxes: &'a Mailboxes<Mail>,
    pub slot: Slot,
    pub posts: Posts<Mail>,
    pub sent: Sent,
}

// A worker's nodes compute; what they send is dealt out and sent, and what comes is taken.
fn work<R: Wait>(
    rt: &R,
    alloc: Global,
    duty: &Duty,
    dealing: &Dealing,
    mailboxes: &Mailboxes<Mail>,
    slot: &mut Slot,
    posts: &mut Posts<Mail>,
    sent: &mut Sent,
) -> Result<(), NoMemory>
    requires { IsReady duty.now dealing.now mailboxes.now slot.old posts.old sent.old }
    ensures { OnOk result (Did duty.now dealing.now slot.old slot.new posts.old posts.new sent.new) }
{
    let waiting = mem::replace(&mut slot.waiting, Vec::new(alloc));
    let messages = placed_all(alloc, dealing, posts.worker(), waiting)?;
    let inbox = open(alloc, duty, &slot.nodes, messages, &mut slot.fields)?;
    let mut gathered = gather_nothing(alloc, posts.workers())?;
    let mut parts = no_places(alloc, posts.workers())?;
    compute_and_send(
        rt,
        alloc,
        duty,
        &dealing.owners,
        mailboxes,
        &slot.nodes,
        &inbox,
        &mut slot.fields,
        posts,
        gathered.as_mut_slice(),
        parts.as_mut_slice(),
        &mut slot.waiting,
        sent,
    )?;
    Ok(())
}

impl<'a, R: Wait> Task for Part<'a, R> {
    ghost use Rattle.gm_workers.specs.Parts.{IsReady, Did};

    ghost is_ready = { λ p. IsReady p.duty p.dealing.now p.mailboxes.now p.slot p.posts p.sent };

    ghost does = { λ old new. Did old.duty old.dealing.now old.slot new.slot old.posts new.posts new.sent };

    fn run(&mut self) -> Result<(), NoMemory> {
        work(
            self.rt,
            self.alloc,
            &self.duty,
            self.dealing,
            self.mailboxes,
            &mut self.slot,
            &mut self.posts,
            &mut self.sent,
        )
    }
}
