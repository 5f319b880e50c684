//! The item at a place of the slice: it is removed, or replaced.
ghost use Rattle.std.specs.Prelude.{◌≡◌, ◌-◌, ◌<◌, ◌∷◌, length, set, slice_get, Some};
ghost use Rattle.dary_heap.specs.Bag.{IsSameBag};
ghost use Rattle.dary_heap.specs.Bounds.{RisesWithin, fix_bound};
ghost use Rattle.dary_heap.specs.HeapOrder.{IsHeapOrdered};

use super::DaryHeap;
use crate::sift::Judge;

impl<T, const D: usize, J: Judge<T>> DaryHeap<T, D, J> {
    /// Removes the item at a place and returns it.
    ///
    /// The place is that of the item in [`as_slice`](DaryHeap::as_slice), where `iter().position(..)` finds it. Each
    /// call that changes the heap may move items to other places. The capacity stays the same. The last item takes
    /// the place, and goes up or down from there. So the call takes at most as many comparisons as the place is deep,
    /// and the arity for each level from there down to that of the last place that remains, which is *O*(log *n*) from
    /// arity 2 on.
    ///
    /// # Preconditions
    ///
    /// - `place` is below the length.
    ///
    /// # Examples
    ///
    /// ```
    /// use dary_heap::BinaryHeap;
    /// let mut heap = BinaryHeap::from(vec![in alloc; 9, 5, 7, 1, 2]?);
    /// if let Some(place) = heap.as_slice().iter().position(|item| *item == 7) {
    ///     assert_eq!(rt; heap.remove_at(place), 7);
    /// }
    /// assert_eq!(rt; heap.as_slice(), [9, 5, 2, 1].as_slice());
    /// ```
    pub fn remove_at(&mut self, place: usize) -> T
        requires { place < length self.old.items }
        ensures item { slice_get self.old.items place ≡ Some result }
        ensures bag { IsSameBag self.old.items (result ∷ self.new.items) }
        ensures len { length self.new.items ≡ length self.old.items - 1 }
        ensures ordered { IsHeapOrdered J.order D self.new.items }
        ensures counted { RisesWithin self.old.comparisons self.new.comparisons
            (fix_bound D (length self.old.items - 1) place) }
        ensures capacity { self.new.capacity ≡ self.old.capacity }
    {
        let (item, _) = self.remove_at_returning_place(place);
        item
    }

    /// Puts another item at a place, and returns the one that was there.
    ///
    /// The place is that of the old item in [`as_slice`](DaryHeap::as_slice), as for
    /// [`remove_at`](DaryHeap::remove_at). The capacity stays the same. The new item goes up or down from the place,
    /// and stays there if the slice is heap ordered with it. So the call takes at most as many comparisons as the
    /// place is deep, and the arity for each level from there down to that of the last place, which is
    /// *O*(log *n*) from arity 2 on.
    ///
    /// # Preconditions
    ///
    /// - `place` is below the length.
    ///
    /// # Examples
    ///
    /// ```
    /// use dary_heap::BinaryHeap;
    /// let mut heap = BinaryHeap::from(vec![in alloc; 9, 5, 7, 1, 2]?);
    /// if let Some(place) = heap.as_slice().iter().position(|item| *item == 1) {
    ///     assert_eq!(rt; heap.replace_at(place, 8), 1);
    /// }
    /// assert_eq!(rt; heap.as_slice(), [9, 8, 7, 5, 2].as_slice());
    /// ```
    ///
    /// A timer that is put off:
    ///
    /// ```
    /// use dary_heap::BinaryHeap;
    /// use std::cmp::Reverse;
    /// let mut timers = BinaryHeap::from(vec![in alloc; Reverse((3, 'a')), Reverse((5, 'b'))]?);
    /// if let Some(place) = timers.as_slice().iter().position(|timer| timer.0.1 == 'a') {
    ///     assert_eq!(rt; timers.replace_at(place, Reverse((9, 'a'))), Reverse((3, 'a')));
    /// }
    /// assert_eq!(rt; timers.peek(), Some(&Reverse((5, 'b'))));
    /// ```
    pub fn replace_at(&mut self, place: usize, item: T) -> T
        requires { place < length self.old.items }
        ensures item { slice_get self.old.items place ≡ Some result }
        ensures bag { IsSameBag (item ∷ self.old.items) (result ∷ self.new.items) }
        ensures len { length self.new.items ≡ length self.old.items }
        ensures ordered { IsHeapOrdered J.order D self.new.items }
        ensures stays { IsHeapOrdered J.order D (set self.old.items place item)
            → self.new.items ≡ set self.old.items place item }
        ensures counted { RisesWithin self.old.comparisons self.new.comparisons
            (fix_bound D (length self.old.items) place) }
        ensures capacity { self.new.capacity ≡ self.old.capacity }
    {
        let (old, _) = self.replace_at_returning_place(place, item);
        old
    }
}
