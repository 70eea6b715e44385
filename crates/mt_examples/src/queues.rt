//! Posts through a watcher's queue, in order: by one thread, and from one thread to another.
ghost use Rattle.std.specs.Prelude.{◌≡◌, ◌+◌, IfOk, OnOk, IfErr};
ghost use Rattle.std.specs.Arc.{arc_value};
ghost use Rattle.mt_queue.specs.Halves.{AreOneLine};
ghost use Rattle.mt_examples.specs.Sending.{IsFromFirst, IsNext};

use mt_events::opening::{Opening, Parts, Scope};
use mt_events::post::{Ids, Post};
use mt_info::table::Table;
use mt_queue::Item;
use mt_queue::line::{Line, make_line};
use mt_queue::meeting::{finish, meet};
use mt_queue::receiver::Receiver;
use mt_queue::sender::{Full, Sender};
use mt_skel::fault::Fault;
use std::alloc::Global;
use std::sync::{Arc, Wait};
use std::test::Fail;
use std::thread;
use std::thread::Threads;

/// How many posts go from one thread to the other.
const MANY: u64 = 10_000;

/// How often each thread tries before it gives up.
const TURNS: u64 = 100_000_000;

/// What a watcher of namespace 1 finds if nothing was done yet.
fn opening(alloc: Global) -> Opening
    ensures { IsFromFirst result }
{
    Opening {
        scope: Scope::One(1),
        parts: Parts::new(Vec::new(alloc)),
    }
}

/// The halves of a line that is opened for this watcher.
fn opened(alloc: Global, line: Line) -> (Sender, Receiver)
    ensures next { IsNext 1 result.0 }
    ensures line { AreOneLine result.0 result.1 }
{
    line.open(opening(alloc))
}

/// The post of this number of namespace 1.
fn post(alloc: Global, number: u64) -> Result<Item, Fault>
    ensures { IfOk result (λ x. ((arc_value x).space ≡ 1) × ((arc_value x).number ≡ number)) }
{
    let mut gone = Vec::new(alloc);
    gone.push(number)?;
    let Some(gone) = Ids::from_vec(gone) else {
        return Err(Fault::BadLine);
    };
    let Some(post) = Post::new(1, number, gone, Table::new(Vec::new(alloc))) else {
        return Err(Fault::BadLine);
    };
    Ok(Arc::new(alloc, post)?)
}

/// Sends a post, the one with the next number.
fn send<R: Wait>(rt: &R, sender: &mut Sender, number: u64, post: Item) -> Result<(), Full>
    requires post { ((arc_value post).space ≡ 1) × ((arc_value post).number ≡ number) }
    requires next { IsNext number sender.old }
    ensures line { sender.new.line ≡ sender.old.line }
    ensures ok { OnOk result (IsNext (number + 1) sender.new) }
    ensures full { IfErr result (λ e. (arc_value e.post ≡ arc_value post) × (sender.new ≡ sender.old)) }
{
    sender.push(rt, post)
}

/// Sends the posts 1 to 3. The number of the one that is handed back; 0 if none is.
fn fill<R: Wait>(rt: &R, alloc: Global, sender: &mut Sender) -> Result<u64, Fault>
    requires { IsNext 1 sender.old }
    ensures { sender.new.line ≡ sender.old.line }
{
    'posts: for number in 1..4u64 {
        let post = post(alloc, number)?;
        if let Err(full) = send(rt, sender, number, post) {
            return Ok(full.post.number);
        }
    }
    Ok(0)
}

/// The number of a post; 0 if there is none.
fn number_of(post: Option<Item>) -> u64 {
    match post {
        Some(post) => post.number,
        None => 0,
    }
}

/// Whether a line that is opened begins without posts.
fn is_empty(alloc: Global, line: Line) -> bool {
    let (mut sender, mut receiver) = opened(alloc, line);
    meet(&mut sender, &mut receiver) == (0, 0)
}

/// Whether a line for two posts keeps two of three, and gives them in order; and whether it is empty afterwards.
fn is_in_order<R: Wait>(rt: &R, alloc: Global) -> Result<bool, Fault> {
    let line = make_line(alloc, 2)?;
    let (mut sender, mut receiver) = opened(alloc, line);
    let handed_back = fill(rt, alloc, &mut sender)?;
    let first = number_of(receiver.pop(rt));
    let met = meet(&mut sender, &mut receiver);
    let mut tail = finish(sender, receiver);
    let second = number_of(tail.next(rt));
    if tail.next(rt).is_some() {
        return Ok(false);
    }
    let empty = is_empty(alloc, tail.line());
    Ok(handed_back == 3 && first == 1 && met == (2, 1) && second == 2 && empty)
}

#[test]
fn a_full_line_hands_a_post_back(rt: HostRuntime) -> Result<(), Fail> {
    let in_order = is_in_order(&rt, rt.alloc())?;
    assert!(rt; in_order);
    Ok(())
}

/// Sends the posts 1 to `count`, each again while the line is full. `false` if it gives up.
fn send_all<R: Wait>(rt: &R, alloc: Global, mut sender: Sender, count: u64) -> Result<bool, Fault>
    requires { IsNext 1 sender }
{
    let mut number = 1;
    let mut held = post(alloc, number)?;
    'turns: for _turn in 0..TURNS {
        match send(rt, &mut sender, number, held) {
            Ok(()) => {
                if number >= count {
                    return Ok(true);
                }
                number += 1;
                held = post(alloc, number)?;
            }
            Err(full) => {
                held = full.post;
                thread::yield_now();
            }
        }
    }
    Ok(false)
}

/// Takes posts until it has `count`. `false` if their numbers are not 1 to `count`, or if it gives up.
fn take_all<R: Wait>(rt: &R, mut receiver: Receiver, count: u64) -> bool {
    let mut taken = 0;
    'turns: for _turn in 0..TURNS {
        if taken >= count {
            return true;
        }
        match receiver.pop(rt) {
            Some(post) => {
                taken += 1;
                if post.number != taken {
                    return false;
                }
            }
            None => thread::yield_now(),
        }
    }
    false
}

/// Whether one thread sends all posts and another takes them in order, through a line for eight
/// posts.
fn are_handed_over<R: Threads + Wait + Sync>(rt: &R, alloc: Global) -> Result<(bool, bool), Fault> {
    let line = make_line(alloc, 8)?;
    let (sender, receiver) = opened(alloc, line);
    let (sent, taken) = thread::join(
        rt,
        move ||
            requires { IsNext 1 sender }
        { send_all(rt, alloc, sender, MANY) },
        move || take_all(rt, receiver, MANY),
    );
    Ok((sent?, taken))
}

#[test]
fn two_threads_hand_posts_over(rt: HostRuntime) -> Result<(), Fail> {
    let (sent, taken) = are_handed_over(&rt, rt.alloc())?;
    assert!(rt; sent);
    assert!(rt; taken);
    Ok(())
}
