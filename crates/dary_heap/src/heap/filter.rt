//! Items that leave a heap by a predicate, or all at once.
ghost use Rattle.std.specs.Prelude.{◌≡◌, ◌≤◌, ◌⊎◌, [], ◌∷◌, length, slice_get, vec_capacity, Some, List, Bool, IfSome, IfNone, if◌then◌else◌, None};
ghost use Rattle.std.specs.Fn.{CalledAt, FnOnceTakesAt, FnOnceReturnsAt};
ghost use Rattle.std.specs.List.{items_where_true};
ghost use Rattle.std.specs.List.Retain.{ReturnsInTurn};
ghost use Rattle.dary_heap.specs.Asking.{TakesInTurn};
ghost use Rattle.dary_heap.specs.Bag.{IsSameBag, IsGreatest};
ghost use Rattle.dary_heap.specs.Bounds.{RisesWithin, pop_bound};
ghost use Rattle.dary_heap.specs.Filtering.{IsRetained, first_no};
ghost use Rattle.dary_heap.specs.HeapOrder.{IsHeapOrdered};

use super::DaryHeap;
use crate::sift::{Judge, mend_with};

impl<T, const D: usize, J: Judge<T>> DaryHeap<T, D, J> {
    /// Removes a greatest item and returns it, if the predicate returns `true` for it.
    ///
    /// The predicate is called once, on the item that [`peek`](DaryHeap::peek) returns, and not at all on an empty
    /// heap. If it returns `false`, or the heap is empty, the call returns `None` and nothing changes. It takes at
    /// most as many comparisons as a [`pop`](DaryHeap::pop), and none if it returns `None`.
    ///
    /// # Preconditions
    ///
    /// - `predicate` may be called on the item that `peek` returns.
    ///
    /// # Examples
    ///
    /// ```
    /// use dary_heap::BinaryHeap;
    /// let mut heap = BinaryHeap::from(vec![in alloc; 1, 2]?);
    /// assert_eq!(rt; heap.pop_if(|item| *item & 1 == 0), Some(2));
    /// assert_eq!(rt; heap.pop_if(|item| *item & 1 == 0), None);
    /// ```
    pub fn pop_if<F: FnOnce(&T) -> bool>(&mut self, predicate: F) -> Option<T>
        requires { (item : T) → slice_get self.old.items 0 ≡ Some item
            → FnOnceTakesAt F.FnOnce predicate item }
        ensures empty { self.old.items ≡ [] → result ≡ None }
        ensures asked { (item : T) → slice_get self.old.items 0 ≡ Some item → (answer : Bool)
            × FnOnceReturnsAt F.FnOnce predicate item answer
            × (result ≡ (if answer then Some item else None)) }
        ensures shown { (item : T) → slice_get self.old.items 0 ≡ Some item
            → IsGreatest J.order self.old.items item }
        ensures greatest { IfSome result (IsGreatest J.order self.old.items) }
        ensures bag { IfSome result (λ item. IsSameBag self.old.items (item ∷ self.new.items)) }
        ensures ordered { IsHeapOrdered J.order D self.new.items }
        ensures counted { RisesWithin self.old.comparisons self.new.comparisons
            (pop_bound D (length self.old.items)) }
        ensures capacity { self.new.capacity ≡ self.old.capacity }

        // If nothing is popped nothing changes.
        ensures unchanged { IfNone result (self.new ≡ self.old) }
    {
        if predicate(self.peek()?) {
            self.pop()
        } else {
            None
        }
    }

    /// Keeps the items for which the predicate returns `true`, and drops the others.
    ///
    /// The predicate is called once for each item, in the order of [`as_slice`](DaryHeap::as_slice). If it returns
    /// `true` for all, nothing changes. The capacity stays the same. The call takes as many comparisons as
    /// [`mend_with`](crate::sift::mend_with) of the kept items from the first removed place on, and none if none is
    /// removed.
    ///
    /// # Preconditions
    ///
    /// - `f` may be called on anything and again after each call, or else on the items in that order.
    ///
    /// # Examples
    ///
    /// ```
    /// use dary_heap::BinaryHeap;
    /// let mut heap = BinaryHeap::from(vec![in alloc; 9, 8, 2, 1, 3]?);
    /// heap.retain(|item| *item & 1 == 1);
    /// assert_eq!(rt; heap.as_slice(), [9, 1, 3].as_slice());
    /// ```
    pub fn retain<F: FnMut(&T) -> bool>(&mut self, f: F)
    where
        T: Drop,
        requires { F.IsAlwaysCallable f ⊎ TakesInTurn F.FnMut f self.old.items }
        ensures retained { IsRetained (CalledAt F.FnMut) D f self.old self.new }
        ensures len { length self.new.items ≤ length self.old.items }
        ensures ordered { IsHeapOrdered J.order D self.new.items }
        ensures capacity { self.new.capacity ≡ self.old.capacity }
    {
        let start = keep(&mut self.items, f);
        mend_with::<T, J, D>(self.items.as_mut_slice(), start, &mut self.judge);
    }

    /// Drops all items. The capacity stays the same.
    ///
    /// # Examples
    ///
    /// ```
    /// use dary_heap::BinaryHeap;
    /// let mut heap = BinaryHeap::from(vec![in alloc; 1, 3]?);
    /// heap.clear();
    /// assert!(rt; heap.is_empty());
    /// ```
    pub fn clear(&mut self)
    where
        T: Drop,
        ensures items { self.new.items ≡ [] }
        ensures capacity { self.new.capacity ≡ self.old.capacity }
        ensures uncounted { self.new.comparisons ≡ self.old.comparisons }
    {
        self.items.clear();
    }
}

/// Keeps the items for which `f` returns `true`, in their order, and returns how many stand before the
/// first that was removed.
fn keep<T: Drop, F: FnMut(&T) -> bool>(items: &mut Vec<T>, mut f: F) -> usize
    requires { TakesInTurn F.FnMut f items.old.items }
    ensures kept { (answers : List Bool) × (after : F) × (length answers ≡ length items.old.items)
        × ReturnsInTurn (CalledAt F.FnMut) f answers items.old.items after
        × (items.new.items ≡ items_where_true answers items.old.items)
        × (result ≡ first_no answers) }
    ensures capacity { vec_capacity items.new ≡ vec_capacity items.old }
{
    let mut start = 0;
    while start < items.len() && f(&items[start]) {
        start += 1;
    }
    if start == items.len() {
        return start;
    }
    let mut kept = start;
    for place in start + 1..items.len() {
        let stays = f(&items[place]);
        // An item that goes changes places too, so that there is no branch.
        items.swap(kept, place);
        kept += stays as usize;
    }
    items.truncate(kept);
    start
}
