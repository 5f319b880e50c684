//! Calls of public functions that have a precondition, at concrete types, and a judge of the caller's own. Those
//! of the searches are in `keyed`.
ghost use Rattle.std.specs.Cmp.{back_total, int_cmp_total};
ghost use Rattle.std.specs.Ordering.{int_cmp};

use crate::{Host, Tested, same};
use dary_heap::run::{Command, run};
use dary_heap::sift::{
    Judge, Tally, build_with, fix_with, mend_with, pop_to_end_with, pop_with, push_with,
    remove_with, sift_to_bottom_with, sift_up_with,
};
use dary_heap::{BinaryHeap, OctonaryHeap, TernaryHeap};
use std::alloc::AllocError;

// What `into_vec` gives is in heap order at the same arity, as `from_raw_vec` needs it, and the iterators end.
#[test]
fn a_heap_comes_of_its_vector_and_of_an_iterator(rt: HostRuntime) -> Tested {
    let items = BinaryHeap::from([1, 2, 3].to_vec(rt.alloc())?).into_vec();
    same(&rt, items.as_slice(), &[3, 2, 1]);
    let mut heap = BinaryHeap::from_raw_vec(items);
    for answer in [Some(3), Some(2), Some(1), None] {
        same(&rt, heap.pop(), answer);
    }
    let heap: BinaryHeap<i32> = (1..4).collect(rt.alloc())?;
    same(&rt, heap.as_slice(), &[3, 2, 1]);
    let heap: BinaryHeap<i32> = (0..0).collect(rt.alloc())?;
    assert!(rt; heap.is_empty());
    Ok(())
}

// A clone of a number is the same number.
#[test]
fn a_clone_is_a_heap_of_its_own(rt: HostRuntime) -> Tested {
    let heap = BinaryHeap::from([1, 2, 3, 4, 5].to_vec(rt.alloc())?);
    let mut copy = heap.clone()?;
    same(&rt, copy.as_slice(), &[5, 4, 3, 1, 2]);
    same(&rt, copy.pop(), Some(5));
    same(&rt, heap.as_slice(), &[5, 4, 3, 1, 2]);
    assert!(rt; BinaryHeap::<i32>::new(rt.alloc()).clone()?.is_empty());
    Ok(())
}

// A clone of a number is the same number.
#[test]
fn a_clone_is_a_sorted_iterator_of_its_own(rt: HostRuntime) -> Tested {
    let heap = BinaryHeap::from([1, 2, 3].to_vec(rt.alloc())?);
    let mut sorted = heap.clone()?.into_iter_sorted();
    let mut copy = sorted.clone()?;
    same(&rt, sorted.next(), Some(3));
    same(&rt, copy.next(), Some(3));
    Ok(())
}

// A clone of a number is the same number.
#[test]
fn a_clone_is_an_iterator_of_its_own(rt: HostRuntime) -> Tested {
    let heap = BinaryHeap::from([1, 2, 3].to_vec(rt.alloc())?);
    let mut items = heap.into_iter();
    same(&rt, items.next(), Some(3));
    let mut copy = items.clone()?;
    same(&rt, items.next(), Some(2));
    same(&rt, copy.next(), Some(2));
    Ok(())
}

fn is_even(item: &i32) -> bool {
    *item & 1 == 0
}

// A predicate without state, that may be called on any item.
#[test]
fn a_pop_comes_if_the_predicate_returns_true(rt: HostRuntime) -> Tested {
    let mut heap = BinaryHeap::from([1, 2].to_vec(rt.alloc())?);
    for popped in [Some(2), None] {
        same(&rt, heap.pop_if(is_even), popped);
        same(&rt, heap.as_slice(), &[1]);
    }
    Ok(())
}

// A predicate that changes at each call, and may be called on any item after any calls.
#[test]
fn a_predicate_is_asked_about_each_item_in_order(rt: HostRuntime) -> Tested {
    let mut heap = OctonaryHeap::from([-10, -5, 1, 2, 4, 13].to_vec(rt.alloc())?);
    same(&rt, heap.as_slice(), &[13, -5, 1, 2, 4, -10]);
    let mut asked = Vec::new(rt.alloc());
    heap.retain(|item| {
        let _ = asked.push(*item);
        is_even(item)
    });
    same(&rt, asked.as_slice(), &[13, -5, 1, 2, 4, -10]);
    for answer in [Some(4), Some(2), Some(-10), None] {
        same(&rt, heap.pop(), answer);
    }
    Ok(())
}

// The iterators of an array may be called, and end.
#[test]
fn items_come_in_by_value_and_by_reference(rt: HostRuntime) -> Tested {
    let mut heap = BinaryHeap::from([3, 1, 2].to_vec(rt.alloc())?);
    heap.extend([9, 8])?;
    same(&rt, heap.as_slice(), &[9, 8, 2, 1, 3]);
    heap = BinaryHeap::from([3, 1, 2].to_vec(rt.alloc())?);
    heap.extend([9, 8].iter())?;
    same(&rt, heap.as_slice(), &[9, 8, 2, 1, 3]);
    // It is built whole.
    heap = BinaryHeap::from([2].to_vec(rt.alloc())?);
    heap.extend([5, 9, 7])?;
    same(&rt, heap.as_slice(), &[9, 7, 2, 5]);
    Ok(())
}

/// Mends a slice from a start, which is tested first, and compares the slice and the comparisons made.
fn mend<const D: usize>(
    rt: &impl Host,
    before: &[i32],
    start: usize,
    after: &[i32],
    made: u64,
) -> Tested {
    let mut items = before.to_vec(rt.alloc())?;
    let mut judge = Tally::new();
    assert!(rt; start <= items.len());
    mend_with::<i32, Tally, D>(&mut items, start, &mut judge);
    let seen = (items.as_slice(), judge.made());
    assert_eq!(rt; seen, (after, made), "{before:?} from {start}");
    Ok(())
}

#[test]
fn a_tail_is_taken_into_the_heap_order(rt: HostRuntime) -> Tested {
    // It is built whole. Sifting up would give `[9, 7, 5, 2]`.
    mend::<2>(&rt, &[2, 5, 9, 7], 1, &[9, 7, 2, 5], 3)?;
    mend::<2>(&rt, &[3, 1, 2, 9, 8], 3, &[9, 8, 2, 1, 3], 4)?;
    mend::<2>(&rt, &[3, 1, 2], 3, &[3, 1, 2], 0)?;
    mend::<8>(&rt, &[13, 1, 4], 1, &[13, 1, 4], 2)?;
    let (before, after) = ([3, 1, 2, 3, -10, 43, 5, -20], [43, 1, 2, 3, -10, 3, 5, -20]);
    mend::<8>(&rt, &before, 5, &after, 3)
}

// Each predicate may be called on any item.
#[test]
fn a_run_gives_a_reply_to_each_command(rt: HostRuntime) -> Tested {
    let mut heap = TernaryHeap::<i32>::new(rt.alloc());
    let at_least_5 = |item: &i32| *item >= 5;
    let commands = vec![in rt.alloc();
        Command::Push(4),
        Command::Push(4),
        Command::Ask(at_least_5),
        Command::Pop,
        Command::Len,
        Command::Pop,
        Command::Pop,
        Command::Ask(at_least_5),
    ]?;
    let replies = run(rt.alloc(), &mut heap, commands).map_err(|_| AllocError)?;
    let shown = format!(in rt.alloc(); "{replies:?}")?;
    let wanted = "[Pushed, Pushed, Asked(Some(false)), Popped(Some(4)), Len(1), Popped(Some(4)), \
        Popped(None), Asked(None)]";
    same(&rt, shown.as_str(), wanted);
    Ok(())
}

// Of fewer than two items none moves.
#[test]
fn the_first_item_goes_to_the_end(rt: HostRuntime) -> Tested {
    let mut items = [5, 3, 4, 1, 2];
    let mut judge = Tally::new();
    pop_to_end_with::<i32, Tally, 2>(&mut items, &mut judge);
    same(&rt, items, [4, 3, 2, 1, 5]);
    same(&rt, judge.made(), 2);
    items[0] = 0;
    for len in [4, 1, 0] {
        pop_to_end_with::<i32, Tally, 2>(&mut items[..len], &mut judge);
        same(&rt, items, [3, 1, 2, 0, 5]);
        same(&rt, judge.made(), 4);
    }
    Ok(())
}

// The place is below the length.
#[test]
fn an_item_is_changed_and_moved_to_the_end(rt: HostRuntime) -> Tested {
    let mut items = [9, 5, 7, 1, 2];
    let mut judge = Tally::new();
    items[1] = 0;
    fix_with::<i32, Tally, 2>(&mut items, 1, &mut judge);
    same(&rt, items, [9, 2, 7, 1, 0]);
    same(&rt, judge.made(), 3);
    remove_with::<i32, Tally, 2>(&mut items, 0, &mut judge);
    same(&rt, items, [7, 2, 0, 1, 9]);
    same(&rt, judge.made(), 5);
    Ok(())
}

// The place is below the length, and there is a first item.
#[test]
fn a_sift_returns_the_place_where_the_item_stops(rt: HostRuntime) -> Tested {
    let mut items = [9, 5, 7, 1, 2];
    let mut judge = Tally::new();
    items[4] = 8;
    let stop = sift_up_with::<i32, Tally, 2>(&mut items, 4, &mut judge);
    same(&rt, stop, 1);
    same(&rt, items, [9, 8, 7, 1, 5]);
    same(&rt, judge.made(), 2);
    items[1] = 0;
    let stop = fix_with::<i32, Tally, 2>(&mut items, 1, &mut judge);
    same(&rt, stop, 4);
    same(&rt, items, [9, 5, 7, 1, 0]);
    same(&rt, judge.made(), 2 + 3);
    items[0] = 4;
    let stop = sift_to_bottom_with::<i32, Tally, 2>(&mut items, &mut judge);
    same(&rt, stop, 2);
    same(&rt, items, [7, 5, 4, 1, 0]);
    same(&rt, judge.made(), 5 + 2);
    Ok(())
}

// The place is found, or tested to be below the length.
#[test]
fn an_item_of_a_heap_is_removed_and_replaced_at_its_place(rt: HostRuntime) -> Tested {
    let mut heap = BinaryHeap::from([9, 5, 7, 1, 2].to_vec(rt.alloc())?);
    if let Some(place) = heap.as_slice().iter().position(|item| *item == 7) {
        same(&rt, heap.remove_at(place), 7);
    }
    same(&rt, heap.as_slice(), &[9, 5, 2, 1]);
    assert!(rt; 3 < heap.len());
    same(&rt, heap.replace_at(3, 6), 1);
    same(&rt, heap.as_slice(), &[9, 6, 2, 5]);
    Ok(())
}

/// Judges numbers by their flipped order, so the least comes first.
#[derive(Drop)]
struct Flipped {
    tally: Tally,
}

impl Judge<i32> for Flipped {
    ghost order = { λ a b. int_cmp b a };

    ghost count = { λ judge. judge.tally };

    ghost total = { back_total int_cmp_total };

    fn at_most(&mut self, a: &i32, b: &i32) -> bool {
        self.tally.at_most(b, a)
    }
}

#[test]
fn a_flipped_judge_gives_the_least_first(rt: HostRuntime) -> Tested {
    let mut items = [5, 1, 4, 2, 3].to_vec(rt.alloc())?;
    let mut judge = Flipped {
        tally: Tally::new(),
    };
    build_with::<_, _, 2>(&mut items, &mut judge);
    compare(&rt, &items, &[1, 2, 4, 5, 3], &judge, 6);
    same(&rt, pop_with::<_, _, 2>(&mut items, &mut judge), Some(1));
    compare(&rt, &items, &[2, 3, 4, 5], &judge, 6 + 3);
    push_with::<_, _, 2>(&mut items, 0, &mut judge)?;
    compare(&rt, &items, &[0, 2, 4, 5, 3], &judge, 6 + 3 + 2);
    Ok(())
}

/// Compares the items and the comparisons made.
fn compare(rt: &impl Host, items: &[i32], wanted: &[i32], judge: &Flipped, made: u64) {
    same(rt, items, wanted);
    same(rt, judge.tally.made(), made);
}

// There is room, and the place is below the length.
#[test]
fn an_item_stops_at_the_place_returned(rt: HostRuntime) -> Tested {
    let mut heap = BinaryHeap::from([9, 5, 7].to_vec(rt.alloc())?);
    heap.reserve(1)?;
    same(&rt, heap.push_returning_place(8), 1);
    assert_eq!(rt; heap.len(), 4);
    same(&rt, heap.replace_at_returning_place(3, 10), (5, 0));
    same(&rt, heap.as_slice(), &[10, 9, 7, 8]);
    Ok(())
}

// The places are below the length.
#[test]
fn a_removal_returns_the_place_of_the_last_item(rt: HostRuntime) -> Tested {
    let mut heap = BinaryHeap::from([9, 5, 7, 1, 2].to_vec(rt.alloc())?);
    assert_eq!(rt; heap.len(), 5);
    same(&rt, heap.raise_at_returning_place(3, 6), Ok((1, 1)));
    same(&rt, heap.raise_at_returning_place(0, 9), Err(9));
    same(&rt, heap.remove_at_returning_place(0), (9, 2));
    same(&rt, heap.as_slice(), &[7, 6, 2, 5]);
    Ok(())
}
