//! Calls that tell where an item came to stand: for a caller who keeps the place of each, as an indexed heap does.
//!
//! Each moves one item along the path between two places of the tree. The others on that path move by one level, and
//! no item elsewhere moves. So the places to be written are those from the lower of the two up to the other one.
//! `fix_with`, `sift_up_with` and `sift_to_bottom_with` of [`sift`](crate::sift) return the place too.
//!
//! `proofs/Path.antt` has laws of the path, and `proofs/Placing.antt` of a table of places: it is right for all items off
//! the path (`went`, `went_up`, `went_down`), and for each once the places of those on the path are written, from the
//! lower end on (`noted_next`, `noted_last`).
ghost use Rattle.std.specs.Prelude.{◌≡◌, ◌≢◌, ◌+◌, ◌-◌, ◌*◌, ◌<◌, ◌≤◌, [], ◌∷◌, ◌++◌, length, set, slice_get, Some, IfOk, IfErr, OnErr};
ghost use Rattle.std.specs.Fn.{FnOnceTakesAtMut};
ghost use Rattle.std.specs.List.{swap_remove};
ghost use Rattle.std.specs.declared.cmp.Ordering.TheVariants.{Greater};
ghost use Rattle.dary_heap.specs.Bag.{IsSameBag};
ghost use Rattle.dary_heap.specs.Bounds.{RisesWithin, fix_bound, push_bound};
ghost use Rattle.dary_heap.specs.HeapOrder.{IsHeapOrdered, arity, depth};
ghost use Rattle.dary_heap.specs.Path.{GoesTo, GoesUp};
ghost use Rattle.dary_heap.specs.BagState.{front, front_with};
ghost use Rattle.dary_heap.specs.Updating.{IsUpdated};

use super::DaryHeap;
use crate::sift::{
    Judge, fix_with, push_reserved_with, sift_down, sift_to_bottom_with, sift_up_with,
};
use std::mem;

impl<T, const D: usize, J: Judge<T>> DaryHeap<T, D, J> {
    /// Adds an item, as [`push`](DaryHeap::push) does, in the room that there is. Returns the place where it stops on
    /// its way up from the end of the slice. It becomes the first only if the heap was empty or it is strictly greater
    /// than the first.
    ///
    /// # Preconditions
    ///
    /// - The length is below the [`capacity`](DaryHeap::capacity). [`reserve`](DaryHeap::reserve) makes room.
    ///
    /// # Examples
    ///
    /// ```
    /// use dary_heap::BinaryHeap;
    /// let mut heap = BinaryHeap::from(vec![in alloc; 9, 5, 7]?);
    /// heap.reserve(1)?;
    /// assert_eq!(rt; heap.push_returning_place(8), 1);
    /// assert_eq!(rt; heap.as_slice(), [9, 8, 7, 5].as_slice());
    /// ```
    #[inline]
    pub fn push_returning_place(&mut self, item: T) -> usize
        requires { length self.old.items < self.old.capacity }
        ensures path { GoesUp D (length self.old.items) result (self.old.items ++ item ∷ [])
            self.new.items }
        ensures bag { IsSameBag (item ∷ self.old.items) self.new.items }
        ensures len { length self.new.items ≡ length self.old.items + 1 }
        ensures ordered { IsHeapOrdered J.order D self.new.items }
        ensures first { front self.new.items
            ≡ Some (front_with J.order item (front self.old.items)) }
        ensures counted { RisesWithin self.old.comparisons self.new.comparisons
            (push_bound D (length self.old.items)) }
        ensures capacity { self.new.capacity ≡ self.old.capacity }
    {
        push_reserved_with::<T, J, D>(&mut self.items, item, &mut self.judge)
    }

    /// Removes the item at a place, as [`remove_at`](DaryHeap::remove_at) does. The last item takes the place, and goes
    /// up or down from there. Returns the item that was removed, and the place where the other one stops.
    ///
    /// If the last item is removed, no item moves, and the place is returned as it was given. The first item is removed
    /// with the comparisons of a [`pop`](DaryHeap::pop).
    ///
    /// # Preconditions
    ///
    /// - `place` is below the length.
    ///
    /// # Examples
    ///
    /// ```
    /// use dary_heap::BinaryHeap;
    /// let mut heap = BinaryHeap::from(vec![in alloc; 9, 5, 7, 1, 2]?);
    /// assert_eq!(rt; heap.remove_at_returning_place(0), (9, 2));
    /// assert_eq!(rt; heap.as_slice(), [7, 5, 2, 1].as_slice());
    /// ```
    // It is built into its callers, since one that removes the first item needs nothing of `fix_with`.
    #[inline(always)]
    pub fn remove_at_returning_place(&mut self, place: usize) -> (T, usize)
        requires { place < length self.old.items }
        ensures item { slice_get self.old.items place ≡ Some result.0 }
        ensures path { GoesTo D place result.1 (swap_remove self.old.items place result.0)
            self.new.items }
        ensures within { place < length self.new.items → result.1 < length self.new.items }
        ensures bag { IsSameBag self.old.items (result.0 ∷ self.new.items) }
        ensures len { length self.new.items ≡ length self.old.items - 1 }
        ensures ordered { IsHeapOrdered J.order D self.new.items }
        ensures counted { RisesWithin self.old.comparisons self.new.comparisons
            (fix_bound D (length self.old.items - 1) place) }

        // If it was the last item, no other moves, and none is compared.
        ensures last { length self.new.items ≤ place
            → (self.new.items ≡ swap_remove self.old.items place result.0)
            × (result.1 ≡ place) × (self.new.comparisons ≡ self.old.comparisons) }
        ensures capacity { self.new.capacity ≡ self.old.capacity }
        ensures leaves_room { length self.new.items < self.new.capacity }
    {
        let item = self.items.swap_remove(place);
        if self.items.len() <= place {
            return (item, place);
        }
        let rest = self.items.as_mut_slice();
        if place == 0 {
            let stop = sift_to_bottom_with::<T, J, D>(rest, &mut self.judge);
            return (item, stop);
        }
        let stop = fix_with::<T, J, D>(rest, place, &mut self.judge);
        (item, stop)
    }

    /// Puts another item at a place, as [`replace_at`](DaryHeap::replace_at) does. Returns the one that was there, and
    /// the place where the new one stops.
    ///
    /// # Preconditions
    ///
    /// - `place` is below the length.
    ///
    /// # Examples
    ///
    /// ```
    /// use dary_heap::BinaryHeap;
    /// let mut heap = BinaryHeap::from(vec![in alloc; 9, 5, 7, 1, 2]?);
    /// assert_eq!(rt; heap.replace_at_returning_place(3, 8), (1, 1));
    /// assert_eq!(rt; heap.as_slice(), [9, 8, 7, 5, 2].as_slice());
    /// ```
    #[inline]
    pub fn replace_at_returning_place(&mut self, place: usize, item: T) -> (T, usize)
        requires { place < length self.old.items }
        ensures item { slice_get self.old.items place ≡ Some result.0 }
        ensures path { GoesTo D place result.1 (set self.old.items place item) self.new.items }
        ensures within { result.1 < length self.new.items }
        ensures bag { IsSameBag (item ∷ self.old.items) (result.0 ∷ self.new.items) }
        ensures len { length self.new.items ≡ length self.old.items }
        ensures ordered { IsHeapOrdered J.order D self.new.items }
        ensures stays { IsHeapOrdered J.order D (set self.old.items place item)
            → self.new.items ≡ set self.old.items place item }
        ensures counted { RisesWithin self.old.comparisons self.new.comparisons
            (fix_bound D (length self.old.items) place) }
        ensures capacity { self.new.capacity ≡ self.old.capacity }
    {
        let old = mem::replace(&mut self.items[place], item);
        let stop = fix_with::<T, J, D>(self.items.as_mut_slice(), place, &mut self.judge);
        (old, stop)
    }

    /// Changes the item at a place by a function, and moves the item up or down to where it belongs. Returns the place where
    /// it stops.
    ///
    /// The function is called once. It may leave any item, and no other item changes. The call takes at most as many
    /// comparisons as [`replace_at`](DaryHeap::replace_at), and the capacity stays the same.
    ///
    /// # Preconditions
    ///
    /// - `place` is below the length.
    /// - `f` may be called on the item at `place`.
    ///
    /// # Examples
    ///
    /// ```
    /// use dary_heap::BinaryHeap;
    /// let mut heap = BinaryHeap::from(vec![in alloc; 9, 5, 7, 1, 2]?);
    /// assert_eq!(rt; heap.update_at_returning_place(3, |item| *item += 7), 1);
    /// assert_eq!(rt; heap.as_slice(), [9, 8, 7, 5, 2].as_slice());
    /// ```
    #[inline]
    pub fn update_at_returning_place<F: FnOnce(&mut T)>(&mut self, place: usize, f: F) -> usize
        requires inside { place < length self.old.items }
        requires callable { (held : T) → slice_get self.old.items place ≡ Some held
            → FnOnceTakesAtMut F.FnOnce f held }
        ensures updated { IsUpdated F.FnOnce f D place result self.old.items self.new.items }
        ensures within { result < length self.new.items }
        ensures len { length self.new.items ≡ length self.old.items }
        ensures ordered { IsHeapOrdered J.order D self.new.items }
        ensures counted { RisesWithin self.old.comparisons self.new.comparisons
            (fix_bound D (length self.old.items) place) }
        ensures capacity { self.new.capacity ≡ self.old.capacity }
    {
        f(&mut self.items[place]);
        fix_with::<T, J, D>(self.items.as_mut_slice(), place, &mut self.judge)
    }

    /// Puts a strictly greater item at a place, and returns the one that was there with the place where the new one
    /// stops on its way up. An item that isn't greater is given back.
    ///
    /// The call takes at most one comparison more than the place is deep. The capacity stays the same.
    ///
    /// # Preconditions
    ///
    /// - `place` is below the length.
    ///
    /// # Errors
    ///
    /// Returns the item if the one at the place is at least as great. Nothing has changed then but the count.
    ///
    /// # Examples
    ///
    /// ```
    /// use dary_heap::BinaryHeap;
    /// let mut heap = BinaryHeap::from(vec![in alloc; 9, 5, 7, 1, 2]?);
    /// assert_eq!(rt; heap.raise_at_returning_place(3, 8), Ok((1, 1)));
    /// assert_eq!(rt; heap.raise_at_returning_place(0, 9), Err(9));
    /// assert_eq!(rt; heap.as_slice(), [9, 8, 7, 5, 2].as_slice());
    /// ```
    #[inline]
    pub fn raise_at_returning_place(&mut self, place: usize, item: T) -> Result<(T, usize), T>
        requires { place < length self.old.items }
        ensures item { IfOk result (λ raised. slice_get self.old.items place ≡ Some raised.0) }
        ensures greater { IfOk result (λ raised. J.order item raised.0 ≡ Greater) }
        ensures path { IfOk result (λ raised. GoesUp D place raised.1
            (set self.old.items place item) self.new.items) }
        ensures bag { IfOk result (λ raised. IsSameBag (item ∷ self.old.items)
            (raised.0 ∷ self.new.items)) }
        ensures len { length self.new.items ≡ length self.old.items }
        ensures ordered { IsHeapOrdered J.order D self.new.items }
        ensures counted { RisesWithin self.old.comparisons self.new.comparisons
            (depth D place + 1) }
        ensures capacity { self.new.capacity ≡ self.old.capacity }

        // It gives back an item that isn't greater, after one comparison, and then none has moved.
        ensures under { OnErr result ((held : T) → slice_get self.old.items place ≡ Some held
            → J.order item held ≢ Greater) }
        ensures once { OnErr result (RisesWithin self.old.comparisons self.new.comparisons 1) }
        ensures returned { IfErr result (λ back. back ≡ item) }
        ensures unchanged { OnErr result (self.new.items ≡ self.old.items) }
    {
        if self.judge.at_most(&item, &self.items[place]) {
            return Err(item);
        }
        let old = mem::replace(&mut self.items[place], item);
        let stop = sift_up_with::<T, J, D>(self.items.as_mut_slice(), place, &mut self.judge);
        Ok((old, stop))
    }

    /// Puts a strictly lesser item at a place, and returns the one that was there with the place where the new one stops
    /// on its way down. An item that isn't less is given back.
    ///
    /// The call takes at most `D` comparisons for each level from the place down to that of the last one, and one more. The
    /// capacity stays the same.
    ///
    /// # Preconditions
    ///
    /// - `place` is below the length.
    ///
    /// # Errors
    ///
    /// Returns the item if it is at least as great as the one at the place. Nothing has changed then but the count.
    ///
    /// # Examples
    ///
    /// ```
    /// use dary_heap::BinaryHeap;
    /// let mut heap = BinaryHeap::from(vec![in alloc; 9, 5, 7, 1, 2]?);
    /// assert_eq!(rt; heap.lower_at_returning_place(0, 3), Ok((9, 2)));
    /// assert_eq!(rt; heap.lower_at_returning_place(1, 5), Err(5));
    /// assert_eq!(rt; heap.as_slice(), [7, 5, 3, 1, 2].as_slice());
    /// ```
    #[inline]
    pub fn lower_at_returning_place(&mut self, place: usize, item: T) -> Result<(T, usize), T>
        requires { place < length self.old.items }
        ensures item { IfOk result (λ lowered. slice_get self.old.items place ≡ Some lowered.0) }
        ensures less { IfOk result (λ lowered. J.order lowered.0 item ≡ Greater) }
        ensures path { IfOk result (λ lowered. GoesTo D place lowered.1
            (set self.old.items place item) self.new.items) }
        ensures within { IfOk result (λ lowered. lowered.1 < length self.new.items) }
        ensures bag { IfOk result (λ lowered. IsSameBag (item ∷ self.old.items)
            (lowered.0 ∷ self.new.items)) }
        ensures len { length self.new.items ≡ length self.old.items }
        ensures ordered { IsHeapOrdered J.order D self.new.items }
        ensures counted { RisesWithin self.old.comparisons self.new.comparisons
            (arity D * (depth D (length self.old.items - 1) - depth D place) + 1) }
        ensures capacity { self.new.capacity ≡ self.old.capacity }

        // It gives back an item that isn't less, after one comparison, and then none has moved.
        ensures above { OnErr result ((held : T) → slice_get self.old.items place ≡ Some held
            → J.order held item ≢ Greater) }
        ensures once { OnErr result (RisesWithin self.old.comparisons self.new.comparisons 1) }
        ensures returned { IfErr result (λ back. back ≡ item) }
        ensures unchanged { OnErr result (self.new.items ≡ self.old.items) }
    {
        if self.judge.at_most(&self.items[place], &item) {
            return Err(item);
        }
        let old = mem::replace(&mut self.items[place], item);
        // (it is less than the old one, so it doesn't go up)
        let stop = sift_down::<T, J, D>(self.items.as_mut_slice(), place, &mut self.judge);
        Ok((old, stop))
    }
}
