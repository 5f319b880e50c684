//! Calls of functions of `dary_heap_uses` that have a precondition, at concrete types, and a handler of the caller's own.
ghost use Rattle.std.specs.Prelude.{IfOk, IsSorted};

use dary_heap_uses::greatest::greatest;
use dary_heap_uses::merge::merge;
use dary_heap_uses::scheduler::Scheduler;
use dary_heap_uses::simulation::{Change, Handler, run};
use dary_heap_uses::timers::TimerQueue;
use std::alloc::{AllocError, Global};
use std::cmp::Reverse;
use std::process::Abort;
use std::test::Fail;

/// A word, which is compared by its length alone.
#[derive(Clone, Copy)]
#[derive_where(PartialEq, Eq, PartialOrd, Ord)]
struct Word {
    len: usize,
    #[derive_where(skip)]
    text: &'static str,
}

/// The word with this text.
fn word_of(text: &'static str) -> Word {
    let len = text.len();
    Word { len, text }
}

/// The items as a sorted list.
fn sorted<T: Ord + Copy>(alloc: Global, items: &[T]) -> Result<Vec<T>, AllocError>
    ensures { IfOk result (λ list. IsSorted T.cmp list.items) }
{
    let mut list = items.to_vec(alloc)?;
    list.sort()?;
    Ok(list)
}

#[test]
fn numbers_ascend(rt: HostRuntime) -> Result<(), Fail> {
    let alloc = rt.alloc();
    let first = sorted(alloc, &[1, 5, 9])?;
    let second = sorted(alloc, &[])?;
    let third = sorted(alloc, &[2, 5])?;
    let fourth = sorted(alloc, &[0])?;
    let lists: Vec<Vec<u32>> = vec![in alloc; first, second, third, fourth]?;
    let merged = merge(alloc, lists)?;
    assert_eq!(rt; merged.as_slice(), [0, 1, 2, 5, 5, 9].as_slice());
    Ok(())
}

#[test]
fn ties_come_in_the_order_of_the_lists(rt: HostRuntime) -> Result<(), Fail> {
    let alloc = rt.alloc();
    let first = sorted(alloc, &[word_of("fig"), word_of("pear"), word_of("plum")])?;
    let second = sorted(alloc, &[word_of("kiwi"), word_of("melon")])?;
    let third = sorted(alloc, &[word_of("nut"), word_of("lime")])?;
    let merged = merge(alloc, vec![in alloc; first, second, third]?)?;
    let wanted = ["fig", "nut", "pear", "plum", "kiwi", "lime", "melon"];
    assert_eq!(rt; merged.len(), wanted.len());
    for (word, text) in merged.iter().zip(wanted) {
        assert_eq!(rt; word.text, text);
    }
    Ok(())
}

/// Submits a job, if not too many came yet.
fn submit(
    rt: &impl Abort,
    scheduler: &mut Scheduler<&'static str>,
    id: usize,
    priority: u32,
    job: &'static str,
) -> bool {
    assert!(rt; scheduler.came() < u64::MAX);
    scheduler.submit(id, priority, job).is_ok()
}

#[test]
fn equal_priorities_come_in_their_order(rt: HostRuntime) -> Result<(), Fail> {
    let mut scheduler = Scheduler::new(rt.alloc());
    scheduler.reserve(5, 5)?;
    let jobs = ["write", "cook", "sweep", "eat", "read"];
    for id in 0..5 {
        assert!(rt; submit(&rt, &mut scheduler, id, [2, 7, 2, 7, 2][id], jobs[id]));
    }
    assert!(rt; scheduler.reprioritise(4, 7));
    assert!(rt; scheduler.cancel(2).is_some_and(|it| it.job == "sweep"));
    for job in ["cook", "eat", "read", "write"] {
        assert!(rt; scheduler.next().is_some_and(|(_, it)| it.job == job));
    }
    assert_eq!(rt; scheduler.len(), 0);
    assert_eq!(rt; scheduler.came(), 5);
    Ok(())
}

/// Two balls that bounce, and how high each comes. Its next bounce is as many moments later, and half as high. When
/// the first lies, it has the second caught.
#[derive(Drop)]
struct Balls {
    alloc: Global,
    heights: [u64; 2],
    bounces: Vec<(usize, u64)>,
}

impl Handler for Balls {
    ghost handles = { λ before event changes after. Unit {0} };

    fn handle(&mut self, name: usize, moment: u64) -> Vec<Change> {
        let _ = self.bounces.push((name, moment));
        let mut changes = Vec::new(self.alloc);
        let height = self.heights[name.min(1)];
        if height > 0 {
            self.heights[name.min(1)] = height / 2;
            let _ = changes.push(Change::Schedule(name, moment.saturating_add(height)));
        } else {
            let _ = changes.push(Change::Revoke(1));
        }
        changes
    }
}

#[test]
fn balls_bounce_in_the_order_of_moments(rt: HostRuntime) -> Result<(), Fail> {
    let mut balls = Balls {
        alloc: rt.alloc(),
        heights: [8, 20],
        bounces: Vec::new(rt.alloc()),
    };
    let mut events = TimerQueue::<3>::new(rt.alloc());
    events.set(0, 0)?;
    events.set(1, 3)?;
    // Bounces at 0, 3 and 8, then at 12 and 14, and no budget for more.
    for (end, budget, handled) in [(9, 100, 3), (100, 2, 2)] {
        let ran = run(&mut events, &mut balls, end, budget).ok();
        assert_eq!(rt; ran, Some(handled));
    }
    assert_eq!(rt; events.moment_of(1), Some(23));
    // The first lies at 15, and the second is caught.
    let last = run(&mut events, &mut balls, 100, 100).ok();
    assert_eq!(rt; last, Some(1));
    assert_eq!(rt; events.len(), 0);
    let bounces = [(0, 0), (1, 3), (0, 8), (0, 12), (0, 14), (0, 15)];
    assert_eq!(rt; balls.bounces.as_slice(), bounces.as_slice());
    Ok(())
}

// The iterator of a vector ends.
#[test]
fn the_two_greatest_of_a_stream_are_kept(rt: HostRuntime) -> Result<(), Fail> {
    let stream = [4, 9, 1, 7].to_vec(rt.alloc())?;
    let mut kept = greatest::<i32, Vec<i32>, 3>(rt.alloc(), stream, 2)?;
    for answer in [Some(Reverse(7)), Some(Reverse(9)), None] {
        assert!(rt; kept.pop() == answer);
    }
    Ok(())
}
