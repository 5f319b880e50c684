//! Moves of one item of a slice, along its path of the tree.
//!
//! Of the other items only those on the path between the two places have moved, each by one level.
ghost use Rattle.std.specs.Prelude.{◌≡◌, ◌≢◌, ◌+◌, ◌-◌, ◌<◌, ◌↔◌, ℕ, length, take, slice_get, Some, IsTrue};
ghost use Rattle.std.specs.Bool.{OnTrue, OnFalse};
ghost use Rattle.std.specs.declared.cmp.Ordering.TheVariants.{Greater};
ghost use Rattle.dary_heap.specs.Bag.{IsSameBag};
ghost use Rattle.dary_heap.specs.Bounds.{RisesWithin, fix_bound, pop_bound, push_bound, sink_bound};
ghost use Rattle.dary_heap.specs.HeapOrder.{depth, HasGreaterChild, IsHeapOrdered, IsHeapOrderedBelowRoot, IsHeapOrderedButAt, TakesLastGreatestChild};
ghost use Rattle.dary_heap.specs.Path.{GoesTo, GoesUp};
ghost use Rattle.dary_heap.specs.hole.Hole.{IsSameSlice};
ghost use Rattle.dary_heap.specs.sift.Moving.{SiftsToBottom};

use super::Judge;
use super::paths::{
    should_guess, sift_down, sift_hole_to_bottom, sift_hole_to_bottom_by_guesses, sift_up,
};
use crate::hole::{Slots, with_slots};

/// Moves the first item down while a child of its place is strictly greater, and returns `true` if it moved.
///
/// A slice that is heap ordered for the judge, except that the first item may be exceeded by its
/// children, is heap ordered afterwards. If the item moved, the first place holds what stood at the
/// last of its children that no other exceeds; otherwise the slice is unchanged. On an empty slice
/// it returns `false`. The call takes at most as many comparisons as the arity times the depth of
/// the last place, and at most one more than a pop of as many items may take.
///
/// # Examples
///
/// ```
/// use dary_heap::sift::{ByOrd, sink_with};
/// let mut items = [0, 4, 3, 1, 2];
/// assert!(rt; sink_with::<_, _, 2>(&mut items, &mut ByOrd::new()));
/// assert_eq!(rt; items, [4, 2, 3, 1, 0]);
/// ```
pub fn sink_with<T, J: Judge<T>, const D: usize>(items: &mut [T], judge: &mut J) -> bool
    ensures bag { IsSameBag items.old items.new }
    ensures moved { IsTrue result ↔ HasGreaterChild J.order D 0 items.old }
    ensures last_greatest { OnTrue result (TakesLastGreatestChild J.order D 0 items.old items.new) }
    ensures unchanged { OnFalse result (items.new ≡ items.old) }
    ensures path { (to : ℕ) × GoesTo D 0 to items.old items.new }
    ensures ordered { IsHeapOrderedBelowRoot J.order D items.old
        → IsHeapOrdered J.order D items.new }
    ensures counted { RisesWithin (J.count judge.old) (J.count judge.new)
        (sink_bound D (length items.old)) }

    // From arity 2 on this says more if the last place is the first of its depth.
    ensures tight { RisesWithin (J.count judge.old) (J.count judge.new)
        (pop_bound D (length items.old) + 1) }
{
    if items.is_empty() {
        return false;
    }
    sift_down::<T, J, D>(items, 0, judge) != 0
}

/// Moves the first item of a slice to the bottom along greatest children, without comparing it, and then up while it
/// is strictly greater than its parent's item. Returns the place where it stops.
///
/// A slice that is heap ordered for the judge, except that the first item may be exceeded by its children, is heap
/// ordered afterwards. The items on the path to the place where the item stops go up a level each, and the others stay.
/// For an item that belongs near the bottom, as the last one of a heap does, this takes fewer comparisons than
/// [`sink_with`]. It takes at most the arity times the depth of the last place.
///
/// # Preconditions
///
/// - The slice isn't empty.
///
/// # Examples
///
/// ```
/// use dary_heap::sift::{ByOrd, sift_to_bottom_with};
/// let mut items = [3, 9, 5, 1, 2];
/// assert_eq!(rt; sift_to_bottom_with::<_, _, 2>(&mut items, &mut ByOrd::new()), 1);
/// assert_eq!(rt; items, [9, 3, 5, 1, 2]);
/// ```
pub fn sift_to_bottom_with<T, J: Judge<T>, const D: usize>(items: &mut [T], judge: &mut J) -> usize
    requires { 0 < length items.old }
    ensures within { result < length items.new }
    ensures path { GoesUp D result 0 items.new items.old }
    ensures bag { IsSameBag items.old items.new }
    ensures ordered { IsHeapOrderedBelowRoot J.order D items.old
        → IsHeapOrdered J.order D items.new }
    ensures counted { RisesWithin (J.count judge.old) (J.count judge.new)
        (sink_bound D (length items.old)) }
{
    let len = items.len();
    let guesses = should_guess::<T, D>(items);
    with_slots(
        items,
        judge,
        |slots, judge: &mut J| -> (Slots<T>, usize)
            requires { (0 < length slots.items) × (len ≡ length slots.items) }
            ensures same_slice { IsSameSlice slots result.0 }
            ensures sifted { SiftsToBottom J.order D result.1 slots.items result.0.items
                (J.count judge.old) (J.count judge.new) }
        {
            let (hole, item) = slots.take(0);
            if guesses {
                sift_hole_to_bottom_by_guesses::<T, J, D>(hole, len, item, judge)
            } else {
                sift_hole_to_bottom::<T, J, D>(hole, 0, len, item, judge)
            }
        },
    )
}

/// Moves the last item of a slice up, so that it joins the heap order of the items before it.
///
/// A slice whose other items are heap ordered for the judge is heap ordered afterwards. The last item goes up while
/// it is strictly greater than its parent's item, as [`push_with`](super::push_with) moves the item that it adds. So the first item
/// stays the first unless the last is strictly greater. An empty slice stays as it is. The call takes at most as
/// many comparisons as the last place is deep.
///
/// # Examples
///
/// ```
/// use dary_heap::sift::{ByOrd, rise_with};
/// let mut items = [5, 3, 4, 6];
/// rise_with::<_, _, 2>(&mut items, &mut ByOrd::new());
/// assert_eq!(rt; items, [6, 5, 4, 3]);
/// ```
pub fn rise_with<T, J: Judge<T>, const D: usize>(items: &mut [T], judge: &mut J)
    ensures bag { IsSameBag items.old items.new }
    ensures ordered { IsHeapOrdered J.order D (take (length items.old - 1) items.old)
        → IsHeapOrdered J.order D items.new }
    ensures first { (f x : T) → slice_get items.old 0 ≡ Some f
        → slice_get items.old (length items.old - 1) ≡ Some x → J.order x f ≢ Greater
        → slice_get items.new 0 ≡ Some f }
    ensures path { (to : ℕ) × GoesUp D (length items.old - 1) to items.old items.new }
    ensures counted { RisesWithin (J.count judge.old) (J.count judge.new)
        (push_bound D (length items.old - 1)) }
{
    if items.len() < 2 {
        return;
    }
    let last = items.len() - 1;
    sift_up::<T, J, D>(items, last, judge);
}

/// Moves the item at a place up while it is strictly greater than its parent's item. Returns the place where it stops.
///
/// If the slice is heap ordered for the judge but for that item, and no child of the place is strictly greater, it is
/// heap ordered afterwards. The items that the item passes go down a level each, and the others stay. The call takes at
/// most as many comparisons as the place is deep.
///
/// # Preconditions
///
/// - `place` is below the length.
///
/// # Examples
///
/// ```
/// use dary_heap::sift::{ByOrd, sift_up_with};
/// let mut items = [9, 5, 7, 8, 2];
/// assert_eq!(rt; sift_up_with::<_, _, 2>(&mut items, 3, &mut ByOrd::new()), 1);
/// assert_eq!(rt; items, [9, 8, 7, 5, 2]);
/// ```
#[inline]
pub fn sift_up_with<T, J: Judge<T>, const D: usize>(
    items: &mut [T],
    place: usize,
    judge: &mut J,
) -> usize
    requires { place < length items.old }
    ensures within { result < length items.new }
    ensures path { GoesUp D place result items.old items.new }
    ensures bag { IsSameBag items.old items.new }
    ensures ordered { IsHeapOrderedButAt J.order D place items.old
        → (HasGreaterChild J.order D place items.old → ⊥) → IsHeapOrdered J.order D items.new }
    ensures counted { RisesWithin (J.count judge.old) (J.count judge.new) (depth D place) }
{
    if place == 0 {
        return place;
    }
    sift_up::<T, J, D>(items, place, judge)
}

/// Repairs the heap order of a slice after the item at a place was changed. Returns the place where the item stops.
///
/// If only the item at `place` of a slice that is heap ordered for the judge was overwritten, the slice is heap
/// ordered afterwards. The item goes up while it is strictly greater than its parent's item. If it isn't
/// greater to begin with, it goes down while a child is strictly greater. A slice that is heap ordered already
/// stays as it is. The call takes at most as many comparisons as the place is deep, and the arity for each level
/// from there down to that of the last place.
///
/// If it went up, the items that it passed are a level lower, and if it went down, a level higher. The others stay.
///
/// # Preconditions
///
/// - `place` is below the length.
///
/// # Examples
///
/// ```
/// use dary_heap::sift::{ByOrd, fix_with};
/// let mut items = [9, 5, 7, 1, 2];
/// items[1] = 0;
/// assert_eq!(rt; fix_with::<_, _, 2>(&mut items, 1, &mut ByOrd::new()), 4);
/// assert_eq!(rt; items, [9, 2, 7, 1, 0]);
/// ```
#[inline]
pub fn fix_with<T, J: Judge<T>, const D: usize>(
    items: &mut [T],
    place: usize,
    judge: &mut J,
) -> usize
    requires { place < length items.old }
    ensures within { result < length items.new }
    ensures path { GoesTo D place result items.old items.new }
    ensures bag { IsSameBag items.old items.new }
    ensures ordered { IsHeapOrderedButAt J.order D place items.old
        → IsHeapOrdered J.order D items.new }
    ensures unchanged { IsHeapOrdered J.order D items.old → items.new ≡ items.old }
    ensures counted { RisesWithin (J.count judge.old) (J.count judge.new)
        (fix_bound D (length items.old) place) }
{
    if place != 0 {
        let stop = sift_up::<T, J, D>(items, place, judge);
        if stop != place {
            return stop;
        }
    }
    sift_down::<T, J, D>(items, place, judge)
}
