//! The table of places: what a call does to it and to the entries.
//!
//! `places[key]` is the place of the entry with that key; of a key without an entry it may be any number. The heap of
//! entries says where it moved one, and only entries on that path have moved. Their places are written afterwards: each
//! once, and none waits for another.
ghost use Rattle.std.specs.Prelude.{ℕ, max, ◌≡◌, ◌+◌, ◌-◌, ◌*◌, ◌<◌, ◌≤◌, ◌∷◌, length, slice_get, vec_len, None, Some, IfSome, IfNone, IfErr, IsOk, is_ok, OnOk, OnErr, slice_index_or};
ghost use Rattle.std.specs.Bool.{OnTrue, OnFalse};
ghost use Rattle.std.specs.Ordering.{flip_args};
ghost use Rattle.dary_heap.specs.Bag.{IsSameBag};
ghost use Rattle.dary_heap.specs.Bounds.{RisesWithin, fix_bound, pop_bound, push_bound};
ghost use Rattle.dary_heap.specs.HeapOrder.{arity, depth};
ghost use Rattle.dary_heap.specs.Path.{IsAbove};
ghost use Rattle.indexed_heap.specs.Entries.{AreDistinct, AreSound, Gets, IsAbsent, IsEntry, IsReached, Raises, by_item};
ghost use Rattle.indexed_heap.specs.Places.{AreRight, AreRightOffPath, HasMoved, MakesRoomFor};

use super::IndexedHeap;
use dary_heap::sift::{Judge, parent};
use std::alloc::AllocError;

/// Writes the places of the entries on the path from `low` up to `high`.
#[inline(always)]
fn write_path<T, const D: usize>(
    entries: &[(usize, T)],
    places: &mut [usize],
    low: usize,
    high: usize,
)
    requires inside { low < length entries.now }
    requires above { IsAbove D high low }
    requires right { AreRightOffPath D low high entries.now places.old }
    ensures { AreRight entries.now places.new }
{
    let mut at = low;
    while high < at {
        places[entries[at].0] = at;
        at = parent::<D>(at);
    }
    places[entries[at].0] = at;
}

/// Writes the places of the entries that moved while one went from `at` to `stop`.
#[inline(always)]
pub(super) fn write_moved<T, const D: usize>(
    entries: &[(usize, T)],
    places: &mut [usize],
    at: usize,
    stop: usize,
)
    requires { HasMoved D at stop entries.now places.old }
    ensures { AreRight entries.now places.new }
{
    write_path::<T, D>(entries, places, at.max(stop), at.min(stop));
}

/// Writes the place of each entry.
pub(super) fn write_places<T>(entries: &[(usize, T)], places: &mut [usize])
    requires distinct { AreDistinct entries.now }
    requires inside { (i : ℕ) (entry : ℕ × T) → slice_get entries.now i ≡ Some entry → entry.0 < length places.old }
    ensures right { AreRight entries.now places.new }
    ensures len { length places.new ≡ length places.old }
{
    for place in 0..entries.len() {
        places[entries[place].0] = place;
    }
}

/// Makes the table of places at least so long.
pub(super) fn widen(places: &mut Vec<usize>, keys: usize) -> Result<(), AllocError>
    ensures kept { (k d : ℕ) → k < vec_len places.old
        → slice_index_or places.new.items k d ≡ slice_index_or places.old.items k d }
    ensures keys { OnOk result (vec_len places.new ≡ max (vec_len places.old) keys) }
    ensures longer { vec_len places.old ≤ vec_len places.new }
    ensures same { keys ≤ vec_len places.old → vec_len places.new ≡ vec_len places.old }
    ensures succeeds { keys ≤ vec_len places.old → IsOk result }
    ensures refused { OnErr result (vec_len places.new ≡ vec_len places.old) }
{
    if keys <= places.len() {
        return Ok(());
    }
    places.resize(keys, 0)
}

impl<T, const D: usize, J: Judge<T>> IndexedHeap<T, D, J> {
    /// Returns the place of the entry with a key.
    #[inline]
    pub(super) fn place_of(&self, key: usize) -> Option<usize>
        ensures found { IfSome result (λ at. IsEntry self.now.entries at key) }
        ensures none { IfNone result (IsAbsent key self.now.entries) }
        ensures keyed { IfSome result (λ at. key < self.now.keys) }
        ensures sound { AreSound J.order D self.now.entries }
    {
        let entries = self.entries.as_slice();
        let at = *self.places.get(key)?;
        if entries.get(at)?.0 == key {
            Some(at)
        } else {
            None
        }
    }

    /// Makes room for one more entry and for the place of a key. Fails if memory allocation fails, or if the key is
    /// `usize::MAX`. It stands out of line, since most heaps have the room.
    #[inline(never)]
    fn make_room(&mut self, key: usize) -> Result<(), AllocError>
        ensures entries { self.new.entries ≡ self.old.entries }
        ensures uncounted { self.new.comparisons ≡ self.old.comparisons }
        ensures room { OnOk result (length self.new.entries < self.new.capacity) }
        ensures made { MakesRoomFor key self.old self.new.capacity self.new.keys (is_ok result) }
    {
        // The prover learns from these two calls that the length is at most the capacity, and that no key is `usize::MAX`.
        let (_entries, _keys) = (self.capacity(), self.key_capacity());
        let Some(keys) = key.checked_add(1) else {
            return Err(AllocError);
        };
        self.reserve(1, keys)
    }

    /// Makes room for one more entry and for the place of a key, or does nothing if there is room. Fails as
    /// [`make_room`](IndexedHeap::make_room) does.
    #[inline(always)]
    fn ensure_room(&mut self, key: usize) -> Result<(), AllocError>
        ensures entries { self.new.entries ≡ self.old.entries }
        ensures sound { AreSound J.order D self.new.entries }
        ensures uncounted { self.new.comparisons ≡ self.old.comparisons }
        ensures room { OnOk result (length self.new.entries < self.new.capacity) }
        ensures made { MakesRoomFor key self.old self.new.capacity self.new.keys (is_ok result) }
    {
        if self.len() < self.capacity() && key < self.key_capacity() {
            return Ok(());
        }
        self.make_room(key)
    }

    /// Adds an entry for a key that has none. Makes room for it only if there is none.
    #[inline(always)]
    pub(super) fn add(&mut self, key: usize, item: T) -> Result<(), T>
        requires { IsAbsent key self.old.entries }
        ensures gets { OnOk result (Gets key item self.old.entries None self.new.entries) }
        ensures sound { AreSound J.order D self.new.entries }
        ensures counted { OnOk result (RisesWithin self.old.comparisons self.new.comparisons
            (push_bound D (length self.old.entries))) }
        ensures made { MakesRoomFor key self.old self.new.capacity self.new.keys (is_ok result) }
        ensures returned { IfErr result (λ back. back ≡ item) }
        ensures unchanged { OnErr result (self.new.entries ≡ self.old.entries) }
        ensures uncounted { OnErr result (self.new.comparisons ≡ self.old.comparisons) }
    {
        let Ok(()) = self.ensure_room(key) else {
            return Err(item);
        };
        let last = self.entries.len();
        let stop = self.entries.push_returning_place((key, item));
        write_moved::<T, D>(
            self.entries.as_slice(),
            self.places.as_mut_slice(),
            last,
            stop,
        );
        Ok(())
    }

    /// Puts another item into the entry of a key, and returns the one that was there. It stands out of line, which keeps
    /// the code of its callers short for a key without an entry.
    #[inline(never)]
    pub(super) fn replace(&mut self, at: usize, key: usize, item: T) -> T
        requires { IsEntry self.old.entries at key }
        ensures gets { Gets key item self.old.entries (Some result) self.new.entries }
        ensures sound { AreSound J.order D self.new.entries }
        ensures counted { RisesWithin self.old.comparisons self.new.comparisons
            (fix_bound D (length self.old.entries) at) }
        ensures capacity { self.new.capacity ≡ self.old.capacity }
        ensures keys { self.new.keys ≡ self.old.keys }
    {
        let (old, stop) = self.entries.replace_at_returning_place(at, (key, item));
        write_moved::<T, D>(
            self.entries.as_slice(),
            self.places.as_mut_slice(),
            at,
            stop,
        );
        old.1
    }

    /// Puts a greater item into the entry of a key. Returns `false`, and drops the item, if it isn't greater.
    pub(super) fn raise_at(&mut self, at: usize, key: usize, item: T) -> bool
    where
        T: Drop,
        requires { IsEntry self.old.entries at key }
        ensures raised { OnTrue result
            (Raises (by_item J.order) key item self.old.entries self.new.entries) }
        ensures reached { OnFalse result (IsReached (by_item J.order) key item self.old.entries
            × (self.new.entries ≡ self.old.entries)) }
        ensures len { length self.new.entries ≡ length self.old.entries }
        ensures sound { AreSound J.order D self.new.entries }
        ensures counted { RisesWithin self.old.comparisons self.new.comparisons (depth D at + 1) }
        ensures once { OnFalse result (RisesWithin self.old.comparisons self.new.comparisons 1) }
        ensures capacity { self.new.capacity ≡ self.old.capacity }
        ensures keys { self.new.keys ≡ self.old.keys }
    {
        let Ok((_, stop)) = self.entries.raise_at_returning_place(at, (key, item)) else {
            return false;
        };
        write_moved::<T, D>(
            self.entries.as_slice(),
            self.places.as_mut_slice(),
            at,
            stop,
        );
        true
    }

    /// Puts a lesser item into the entry of a key. Returns `false`, and drops the item, if it isn't less.
    pub(super) fn lower_at(&mut self, at: usize, key: usize, item: T) -> bool
    where
        T: Drop,
        requires { IsEntry self.old.entries at key }
        ensures lowered { OnTrue result
            (Raises (flip_args (by_item J.order)) key item self.old.entries self.new.entries) }
        ensures reached { OnFalse result (IsReached (flip_args (by_item J.order)) key item self.old.entries
            × (self.new.entries ≡ self.old.entries)) }
        ensures len { length self.new.entries ≡ length self.old.entries }
        ensures sound { AreSound J.order D self.new.entries }
        ensures counted { RisesWithin self.old.comparisons self.new.comparisons
            (arity D * (depth D (length self.old.entries - 1) - depth D at) + 1) }
        ensures once { OnFalse result (RisesWithin self.old.comparisons self.new.comparisons 1) }
        ensures capacity { self.new.capacity ≡ self.old.capacity }
        ensures keys { self.new.keys ≡ self.old.keys }
    {
        let Ok((_, stop)) = self.entries.lower_at_returning_place(at, (key, item)) else {
            return false;
        };
        write_moved::<T, D>(
            self.entries.as_slice(),
            self.places.as_mut_slice(),
            at,
            stop,
        );
        true
    }

    /// Takes an entry out. Built into its callers, of which one takes out the first entry.
    #[inline(always)]
    pub(super) fn take_out(&mut self, at: usize) -> (usize, T)
        requires { at < length self.old.entries }
        ensures taken { slice_get self.old.entries at ≡ Some result }
        ensures gone { IsAbsent result.0 self.new.entries }
        ensures bag { IsSameBag self.old.entries (result ∷ self.new.entries) }
        ensures len { length self.new.entries + 1 ≡ length self.old.entries }
        ensures sound { AreSound J.order D self.new.entries }
        ensures counted { RisesWithin self.old.comparisons self.new.comparisons
            (pop_bound D (length self.old.entries)) }
        ensures leaves_room { length self.new.entries < self.new.capacity }
        ensures keyed { result.0 < self.new.keys }
        ensures capacity { self.new.capacity ≡ self.old.capacity }
        ensures keys { self.new.keys ≡ self.old.keys }
    {
        let (entry, stop) = self.entries.remove_at_returning_place(at);
        if self.entries.len() <= at {
            return entry;
        }
        write_moved::<T, D>(
            self.entries.as_slice(),
            self.places.as_mut_slice(),
            at,
            stop,
        );
        entry
    }
}
