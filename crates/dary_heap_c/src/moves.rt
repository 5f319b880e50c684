//! Moves of entries along the paths of the tree, with the array of places kept.
//!
//! `places[value]` is the place of the entry with that value. It may be any number if no entry has the value. A value
//! past the end of `places` has no place. A caller in C may give any array, so each index into it is checked: what is
//! promised of the entries holds whatever the places are.
ghost use Rattle.std.specs.Prelude.{◌≡◌, ◌-◌, ◌<◌, ◌↔◌, ℕ, length, set, slice_get, take, IsTrue};
ghost use Rattle.dary_heap.specs.Bag.{IsSameBag};
ghost use Rattle.dary_heap.specs.Bounds.{RisesWithin, fix_bound, pop_bound, push_bound};
ghost use Rattle.dary_heap.specs.HeapOrder.{IsHeapOrdered, IsHeapOrderedButAt};
ghost use Rattle.dary_heap.specs.Path.{GivesPlace, GoesTo, GoesUp};
ghost use Rattle.dary_heap_c.specs.Places.{AreRight, AreRightOffPath, HasKeyAt, HaveKeys, IsFree, Rights};

use crate::entry::Entry;
use dary_heap::sift::{Judge, fix_with, parent, sift_to_bottom_with, sift_up_with};

/// Returns `true` if there is an entry at the place, and its value has a place.
pub fn has_key_at(entries: &[Entry], place: usize, places: &[usize]) -> bool
    ensures { IsTrue result ↔ HasKeyAt (length places.now) place entries.now }
{
    place < entries.len() && (entries[place].value as usize) < places.len()
}

/// Writes the place of the entry with a value, if the value has one.
#[inline(always)]
fn note(places: &mut [usize], value: u64, place: usize)
    ensures { places.new ≡ set places.old value place }
{
    let at = value as usize;
    if at < places.len() {
        places[at] = place;
    }
}

/// Writes the places of the entries on the path from `low` up to `high`.
#[inline]
fn write_path<const D: usize>(entries: &[Entry], places: &mut [usize], low: usize, high: usize)
    requires { low < length entries.now }
    ensures right { HaveKeys (length places.old) entries.now
        → AreRightOffPath D low high entries.now places.old → AreRight entries.now places.new }
    ensures others { (value : ℕ) → IsFree value entries.now
        → slice_get places.new value ≡ slice_get places.old value }
{
    let mut at = low;
    loop {
        note(places, entries[at].value, at);
        if at <= high {
            return;
        }
        at = parent::<D>(at);
    }
}

/// Adds the last entry to the heap of those before it.
pub fn push_keyed<J: Judge<Entry>, const D: usize>(
    entries: &mut [Entry],
    places: &mut [usize],
    judge: &mut J,
)
    requires { 0 < length entries.old }
    ensures bag { IsSameBag entries.old entries.new }
    ensures ordered { IsHeapOrdered J.order D (take (length entries.old - 1) entries.old)
        → IsHeapOrdered J.order D entries.new }
    ensures counted { RisesWithin (J.count judge.old) (J.count judge.new)
        (push_bound D (length entries.old - 1)) }
    ensures path { (to : ℕ) × GoesUp D (length entries.old - 1) to entries.old entries.new }
    ensures rights { Rights (length entries.old - 1) entries.old entries.new places.old places.new }
{
    let last = entries.len() - 1;
    let stop = sift_up_with::<_, J, D>(entries, last, judge);
    write_path::<D>(entries, places, last, stop);
}

/// Repairs a heap whose entry at a place was overwritten.
pub fn fix_keyed<J: Judge<Entry>, const D: usize>(
    entries: &mut [Entry],
    place: usize,
    places: &mut [usize],
    judge: &mut J,
)
    requires { place < length entries.old }
    ensures bag { IsSameBag entries.old entries.new }
    ensures ordered { IsHeapOrderedButAt J.order D place entries.old
        → IsHeapOrdered J.order D entries.new }
    ensures kept { IsHeapOrdered J.order D entries.old → entries.new ≡ entries.old }
    ensures path { (to : ℕ) × GoesTo D place to entries.old entries.new }
    ensures counted { RisesWithin (J.count judge.old) (J.count judge.new)
        (fix_bound D (length entries.old) place) }
    ensures rights { Rights place entries.old entries.new places.old places.new }
{
    let stop = fix_with::<_, J, D>(entries, place, judge);
    write_path::<D>(entries, places, place.max(stop), place.min(stop));
}

/// Moves the entry at a place of a heap behind the others, which are a heap afterwards.
pub fn remove_keyed<J: Judge<Entry>, const D: usize>(
    entries: &mut [Entry],
    place: usize,
    places: &mut [usize],
    judge: &mut J,
)
    requires { place < length entries.old }
    ensures bag { IsSameBag entries.old entries.new }
    ensures last { slice_get entries.new (length entries.new - 1) ≡ slice_get entries.old place }
    ensures ordered { IsHeapOrderedButAt J.order D place entries.old
        → IsHeapOrdered J.order D (take (length entries.new - 1) entries.new) }
    ensures path { (to : ℕ) × GivesPlace D place to entries.old entries.new }
    ensures counted { RisesWithin (J.count judge.old) (J.count judge.new)
        (fix_bound D (length entries.old - 1) place) }
    ensures rights { Rights place entries.old entries.new places.old places.new }
{
    let end = entries.len() - 1;
    entries.swap(place, end);
    let Some((removed, rest)) = entries.split_last_mut() else {
        return;
    };
    note(places, removed.value, end);
    if place != end {
        fix_keyed::<J, D>(rest, place, places, judge);
    }
}

/// Moves the first entry of a heap behind the others, which are a heap afterwards.
pub fn pop_keyed<J: Judge<Entry>, const D: usize>(
    entries: &mut [Entry],
    places: &mut [usize],
    judge: &mut J,
)
    requires { 0 < length entries.old }
    ensures bag { IsSameBag entries.old entries.new }
    ensures last { slice_get entries.new (length entries.new - 1) ≡ slice_get entries.old 0 }
    ensures ordered { IsHeapOrdered J.order D entries.old
        → IsHeapOrdered J.order D (take (length entries.new - 1) entries.new) }
    ensures path { (to : ℕ) × GivesPlace D 0 to entries.old entries.new }
    ensures counted { RisesWithin (J.count judge.old) (J.count judge.new)
        (pop_bound D (length entries.old)) }
    ensures rights { Rights 0 entries.old entries.new places.old places.new }
{
    let end = entries.len() - 1;
    entries.swap(0, end);
    let Some((popped, rest)) = entries.split_last_mut() else {
        return;
    };
    note(places, popped.value, end);
    if end != 0 {
        let stop = sift_to_bottom_with::<_, J, D>(rest, judge);
        write_path::<D>(rest, places, stop, 0);
    }
}
