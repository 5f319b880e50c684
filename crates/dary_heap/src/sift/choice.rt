//! The choice of the greatest child of a place, and of the last if several are equal.
//!
//! A row is chosen from without a branch: of two items by their places, of more an item with its place, so that
//! the next comparison waits for no load. But the load of the next row waits for the choice. In slices that are
//! longer than the caches a choice with branches is faster: the processor guesses, and loads the next row early. A
//! wrong guess costs some 20 cycles, and a row from main memory some 300.
ghost use Rattle.std.specs.Prelude.{◌≡◌, ◌+◌, ℕ, List};
ghost use Rattle.std.specs.declared.cmp.Ordering.{Ordering};
ghost use Rattle.dary_heap.specs.sift.Choosing.{Chooses, FindsGreatestChild, HasChildrenFrom, IsBelow, IsGreatestAt};

use super::Judge;
use super::tree::arity;
use crate::hole::Hole;

#[inline(always)]
fn item_at<T>(hole: &Hole<T>, place: usize) -> (usize, &T)
    requires { IsBelow hole.now place (place + 1) }
    ensures { (order : T → T → Ordering)
        → IsGreatestAt order place (place + 1) result.0 result.1.now hole.now.items }
{
    (place, hole.get(place))
}

/// Returns the greater of two items with its place: the second if the two are equal.
#[inline(always)]
fn greater_of<'a, T, J: Judge<T>>(
    a: (usize, &'a T),
    b: (usize, &'a T),
    judge: &mut J,
) -> (usize, &'a T)
    ensures chosen { (items : List T) (first mid end : ℕ)
        → IsGreatestAt J.order first mid a.entry.0 a.entry.1.now items
        → IsGreatestAt J.order mid end b.entry.0 b.entry.1.now items
        → IsGreatestAt J.order first end result.0 result.1.now items }
    ensures counted { J.count judge.new ≡ J.count judge.old + 1 }
{
    if judge.at_most(a.1, b.1) { b } else { a }
}

/// Returns the place of the last greatest of two items. It adds, since the compiler would make a branch of a
/// choice in a loop that makes one alone.
#[inline(always)]
fn place_of_two<T, J: Judge<T>>(hole: &Hole<T>, first: usize, judge: &mut J) -> usize
    requires { IsBelow hole.now first (first + 2) }
    ensures { Chooses J.order first (first + 2) result hole.now.items (J.count judge.old)
        (J.count judge.new) }
{
    first + judge.at_most(hole.get(first), hole.get(first + 1)) as usize
}

/// Returns the last greatest of two items with its place.
#[inline(always)]
fn greatest_of_two<'a, T, J: Judge<T>>(
    hole: &'a Hole<T>,
    first: usize,
    judge: &mut J,
) -> (usize, &'a T)
    requires { IsBelow hole.now first (first + 2) }
    ensures chosen { IsGreatestAt J.order first (first + 2) result.0 result.1.now hole.now.items }
    ensures counted { J.count judge.new ≡ J.count judge.old + 1 }
{
    greater_of(item_at(hole, first), item_at(hole, first + 1), judge)
}

/// Returns the last greatest of three items with its place.
#[inline(always)]
fn greatest_of_three<'a, T, J: Judge<T>>(
    hole: &'a Hole<T>,
    first: usize,
    judge: &mut J,
) -> (usize, &'a T)
    requires { IsBelow hole.now first (first + 3) }
    ensures chosen { IsGreatestAt J.order first (first + 3) result.0 result.1.now hole.now.items }
    ensures counted { J.count judge.new ≡ J.count judge.old + 2 }
{
    let left = greatest_of_two(hole, first, judge);
    greater_of(left, item_at(hole, first + 2), judge)
}

/// Returns the last greatest of four items with its place.
#[inline(always)]
fn greatest_of_four<'a, T, J: Judge<T>>(
    hole: &'a Hole<T>,
    first: usize,
    judge: &mut J,
) -> (usize, &'a T)
    requires { IsBelow hole.now first (first + 4) }
    ensures chosen { IsGreatestAt J.order first (first + 4) result.0 result.1.now hole.now.items }
    ensures counted { J.count judge.new ≡ J.count judge.old + 3 }
{
    let left = greatest_of_two(hole, first, judge);
    let right = greatest_of_two(hole, first + 2, judge);
    greater_of(left, right, judge)
}

/// Returns the last greatest of eight items with its place.
#[inline(always)]
fn greatest_of_eight<'a, T, J: Judge<T>>(
    hole: &'a Hole<T>,
    first: usize,
    judge: &mut J,
) -> (usize, &'a T)
    requires { IsBelow hole.now first (first + 8) }
    ensures chosen { IsGreatestAt J.order first (first + 8) result.0 result.1.now hole.now.items }
    ensures counted { J.count judge.new ≡ J.count judge.old + 7 }
{
    let left = greatest_of_four(hole, first, judge);
    let right = greatest_of_four(hole, first + 4, judge);
    greater_of(left, right, judge)
}

/// Returns the last greatest item from `first` up to `end` with its place.
#[inline(always)]
fn last_greatest<'a, T, J: Judge<T>>(
    hole: &'a Hole<T>,
    first: usize,
    end: usize,
    judge: &mut J,
) -> (usize, &'a T)
    requires { IsBelow hole.now first end }
    ensures chosen { IsGreatestAt J.order first end result.0 result.1.now hole.now.items }
    ensures counted { J.count judge.new + first + 1 ≡ J.count judge.old + end }
{
    let mut best = item_at(hole, first);
    for place in first + 1..end {
        best = greater_of(best, item_at(hole, place), judge);
    }
    best
}

/// Returns the place of the last greatest item from `first` up to `end`, by guesses.
#[inline(always)]
pub(super) fn guessed<T, J: Judge<T>>(
    hole: &Hole<T>,
    first: usize,
    end: usize,
    judge: &mut J,
) -> usize
    requires { IsBelow hole.now first end }
    ensures { Chooses J.order first end result hole.now.items (J.count judge.old)
        (J.count judge.new) }
{
    let mut best = first;
    for place in first + 1..end {
        if judge.at_most(hole.get(best), hole.get(place)) {
            best = place;
        }
    }
    best
}

/// Returns the last greatest child of the hole, which is at `at` of `len` places and whose children begin at
/// `first`.
#[inline(always)]
pub(super) fn greatest_child<T, J: Judge<T>, const D: usize>(
    hole: &Hole<T>,
    at: usize,
    first: usize,
    len: usize,
    judge: &mut J,
) -> usize
    requires { HasChildrenFrom D hole.now at first len }
    ensures { FindsGreatestChild J.order D hole.now result (J.count judge.old) (J.count judge.new) }
{
    let arity = arity::<D>();
    if at < (len - 1) / arity {
        return match D {
            2 => place_of_two(hole, first, judge),
            3 => greatest_of_three(hole, first, judge).0,
            4 => greatest_of_four(hole, first, judge).0,
            8 => greatest_of_eight(hole, first, judge).0,
            _ => last_greatest(hole, first, first + arity, judge).0,
        };
    }

    // The row is the last, and cut off by the end: of a row of two one item is left.
    if D <= 2 {
        return first;
    }
    match len - first {
        1 => first,
        2 => place_of_two(hole, first, judge),
        3 => greatest_of_three(hole, first, judge).0,
        _ => last_greatest(hole, first, len, judge).0,
    }
}
