//! The greatest item, in exchange for another one.
ghost use Rattle.std.specs.Prelude.{◌≡◌, ◌≢◌, ◌+◌, ◌<◌, ◌↔◌, [], ◌∷◌, length, set, Some, IsOk, IfOk, IfErr, OnErr};
ghost use Rattle.std.specs.BinaryHeap.{IsUpperBound};
ghost use Rattle.std.specs.declared.cmp.Ordering.TheVariants.{Less};
ghost use Rattle.dary_heap.specs.Bag.{IsSameBag, IsGreatest};
ghost use Rattle.dary_heap.specs.Bounds.{RisesWithin, pop_bound, sink_bound};
ghost use Rattle.dary_heap.specs.HeapOrder.{IsHeapOrdered};
ghost use Rattle.dary_heap.specs.BagState.{front, push_popped};

use super::DaryHeap;
use crate::sift::{Judge, sink_with};
use std::mem;

impl<T, const D: usize, J: Judge<T>> DaryHeap<T, D, J> {
    /// Pushes an item, and then removes a greatest one and returns it. It allocates no memory, so it can't fail.
    ///
    /// The item itself is returned, and no other moves, if the heap is empty or the item is at least as great as the
    /// one that [`peek`](DaryHeap::peek) returns. Otherwise that one is returned, and the new item goes down from its
    /// place. The capacity stays the same. Python calls this `heappushpop`.
    ///
    /// The call takes one comparison if the item itself is returned, and none on an empty heap. Otherwise it takes one
    /// more than [`replace`](DaryHeap::replace).
    ///
    /// # Examples
    ///
    /// The three greatest of a stream, in a heap whose least item comes first:
    ///
    /// ```
    /// use dary_heap::BinaryHeap;
    /// use std::cmp::Reverse;
    /// let mut kept = BinaryHeap::from(vec![in alloc; Reverse(5), Reverse(2), Reverse(7)]?);
    /// assert_eq!(rt; kept.push_pop(Reverse(4)), Reverse(2));
    /// assert_eq!(rt; kept.push_pop(Reverse(3)), Reverse(3));
    /// assert_eq!(rt; kept.peek(), Some(&Reverse(4)));
    /// ```
    #[inline]
    pub fn push_pop(&mut self, item: T) -> T
        ensures first { result ≡ push_popped J.order item (front self.old.items) }
        ensures greatest { IsGreatest J.order (item ∷ self.old.items) result }
        ensures below_top { IsUpperBound J.order result self.new.items }
        ensures bag { IsSameBag (item ∷ self.old.items) (result ∷ self.new.items) }
        ensures len { length self.new.items ≡ length self.old.items }
        ensures ordered { IsHeapOrdered J.order D self.new.items }
        ensures counted { RisesWithin self.old.comparisons self.new.comparisons
            (sink_bound D (length self.old.items) + 1) }
        ensures capacity { self.new.capacity ≡ self.old.capacity }

        // From arity 2 on this says more if the last place is the first of its depth.
        ensures tight { RisesWithin self.old.comparisons self.new.comparisons
            (pop_bound D (length self.old.items) + 2) }

        // If the item isn't strictly less than the first, no item moves, and it was compared with that one alone.
        ensures unmoved { ((top : T) → front self.old.items ≡ Some top → J.order item top ≢ Less)
            → (self.new.items ≡ self.old.items)
            × RisesWithin self.old.comparisons self.new.comparisons 1 }
        ensures empty { self.old.items ≡ [] → self.new ≡ self.old }
    {
        if self.items.is_empty() || self.judge.at_most(&self.items[0], &item) {
            return item;
        }
        self.replace_first(item)
    }

    /// Removes a greatest item and returns it, and then pushes another one. It allocates no memory.
    ///
    /// The returned item is the one that [`peek`](DaryHeap::peek) returns, even if the new one is greater. The new
    /// item goes down from its place while a child is strictly greater. The capacity stays the same. Python calls
    /// this `heapreplace`. It takes at most as many comparisons as the arity times the depth of the last place, and
    /// at most one more than a [`pop`](DaryHeap::pop) may take.
    ///
    /// # Errors
    ///
    /// Returns the new item if the heap is empty, and then nothing changes.
    ///
    /// # Examples
    ///
    /// ```
    /// use dary_heap::TernaryHeap;
    /// let mut heap = TernaryHeap::from(vec![in alloc; 3, 8, 1]?);
    /// assert_eq!(rt; heap.replace(5), Ok(8));
    /// assert_eq!(rt; heap.replace(9), Ok(5));
    /// assert_eq!(rt; heap.as_slice(), [9, 3, 1].as_slice());
    /// heap.clear();
    /// assert_eq!(rt; heap.replace(4), Err(4));
    /// ```
    #[inline]
    pub fn replace(&mut self, item: T) -> Result<T, T>
        ensures variant { IsOk result ↔ (0 < length self.old.items) }
        ensures first { IfOk result (λ top. front self.old.items ≡ Some top) }
        ensures greatest { IfOk result (IsGreatest J.order self.old.items) }
        ensures above_all { IfOk result (λ top. IsUpperBound J.order top self.old.items) }
        ensures bag { IfOk result (λ top. IsSameBag (item ∷ self.old.items) (top ∷ self.new.items)) }
        ensures len { length self.new.items ≡ length self.old.items }
        ensures ordered { IsHeapOrdered J.order D self.new.items }
        ensures stays { IsHeapOrdered J.order D (set self.old.items 0 item)
            → self.new.items ≡ set self.old.items 0 item }
        ensures counted { RisesWithin self.old.comparisons self.new.comparisons
            (sink_bound D (length self.old.items)) }
        ensures capacity { self.new.capacity ≡ self.old.capacity }

        // From arity 2 on this says more if the last place is the first of its depth.
        ensures tight { RisesWithin self.old.comparisons self.new.comparisons
            (pop_bound D (length self.old.items) + 1) }

        // If there is no item nothing changes.
        ensures returned { IfErr result (λ back. back ≡ item) }
        ensures unchanged { OnErr result (self.new ≡ self.old) }
    {
        if self.items.is_empty() {
            return Err(item);
        }
        Ok(self.replace_first(item))
    }

    /// Puts an item in the place of the first, which is returned, and lets it go down from there.
    fn replace_first(&mut self, item: T) -> T
        requires { 0 < length self.old.items }
        ensures first { front self.old.items ≡ Some result }
        ensures greatest { IsGreatest J.order self.old.items result }
        ensures bag { IsSameBag (item ∷ self.old.items) (result ∷ self.new.items) }
        ensures len { length self.new.items ≡ length self.old.items }
        ensures ordered { IsHeapOrdered J.order D self.new.items }
        ensures stays { IsHeapOrdered J.order D (set self.old.items 0 item)
            → self.new.items ≡ set self.old.items 0 item }
        ensures counted { RisesWithin self.old.comparisons self.new.comparisons
            (sink_bound D (length self.old.items)) }
        ensures tight { RisesWithin self.old.comparisons self.new.comparisons
            (pop_bound D (length self.old.items) + 1) }
        ensures capacity { self.new.capacity ≡ self.old.capacity }
    {
        let first = mem::replace(&mut self.items[0], item);
        sink_with::<T, J, D>(self.items.as_mut_slice(), &mut self.judge);
        first
    }
}
