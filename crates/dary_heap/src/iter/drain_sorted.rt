//! The iterator that pops the items of a heap and leaves it empty.
ghost use Rattle.std.specs.Prelude.{◌≡◌, ◌^◌, ◌<◌, [], length, Some, vec_capacity};
ghost use Rattle.std.specs.Iterator.{item_count};
ghost use Rattle.dary_heap.specs.SizeHints.{HintsExactly};
ghost use Rattle.dary_heap.specs.Bounds.{RisesWithin, pops_bound};
ghost use Rattle.dary_heap.specs.HeapOrder.{IsHeapOrdered};
ghost use Rattle.dary_heap.specs.Popping.{GivesDescending};

use crate::heap::{DaryHeap, pop_ordered};
use crate::sift::{ByOrd, Judge};
use std::fmt;
use std::iter::FusedIterator;

/// An iterator over the items of a heap in descending order. Each `next` is a pop.
///
/// [`DaryHeap::drain_sorted`] returns it. When it is dropped, it pops and drops the items that are left. That takes
/// at most as many comparisons as their pops. If it is forgotten, they stay in the heap.
///
/// # Examples
///
/// ```
/// use dary_heap::BinaryHeap;
/// let mut heap = BinaryHeap::from(vec![in alloc; 2, 9, 4]?);
/// let mut items = heap.drain_sorted();
/// assert_eq!(rt; items.next(), Some(9));
/// assert_eq!(rt; items.next(), Some(4));
/// assert_eq!(rt; items.len(), 1);
/// ```
// Its methods pass the heap's fields to `pop_ordered` and don't call `pop`. Who calls a method of a heap has to prove
// that a heap with this judge has less than 2^63 bytes. A function that takes a heap knows it of its parameter; one that
// takes a type with a reference to a heap doesn't.
pub struct DrainSorted<'a, T: Drop, const D: usize, J: Judge<T> = ByOrd> {
    heap: &'a mut DaryHeap<T, D, J>,
}

impl<'a, T: Drop, const D: usize, J: Judge<T>> Drop for DrainSorted<'a, T, D, J> {
    ghost use Rattle.dary_heap.specs.DrainSorted.{drained_heap};

    fn drop(self)
        ensures items { self.exit.0.now.items ≡ [] }
        ensures capacity { self.exit.0.now.capacity ≡ (drained_heap self.entry).capacity }
        ensures counted { RisesWithin (drained_heap self.entry).comparisons
            self.exit.0.now.comparisons (pops_bound D (length (drained_heap self.entry).items)) }
    {
        let DrainSorted { heap } = self;
        pop_all::<T, J, D>(&mut heap.items, &mut heap.judge);
    }
}

/// Pops the items that a heap's vector has left, and drops them.
fn pop_all<T: Drop, J: Judge<T>, const D: usize>(items: &mut Vec<T>, judge: &mut J)
    requires { IsHeapOrdered J.order D items.old.items }
    ensures items { items.new.items ≡ [] }
    ensures capacity { vec_capacity items.new ≡ vec_capacity items.old }
    ensures counted { RisesWithin (J.count judge.old) (J.count judge.new)
        (pops_bound D (length items.old.items)) }
{
    while let Some(_) = pop_ordered::<T, J, D>(items, judge) {}
}

impl<T, const D: usize, J: Judge<T>> DaryHeap<T, D, J> {
    ghost use Rattle.dary_heap.specs.DrainSorted.{drained_heap, drained_lender, DrainsSorted, KeepsHeapAlong};

    /// Returns an iterator that removes the items in descending order. It allocates no memory.
    ///
    /// Equal items come in the order in which pops return them. Once the iterator is dropped, also
    /// before its end, the heap is empty and keeps its capacity. The call takes no comparison, and
    /// each item at most as many as a [`pop`](DaryHeap::pop), also those that the drop pops.
    ///
    /// # Examples
    ///
    /// ```
    /// use dary_heap::TernaryHeap;
    /// let mut heap = TernaryHeap::from(vec![in alloc; 1, 2, 3, 4, 5]?);
    /// assert_eq!(rt; heap.drain_sorted().next(), Some(5));
    /// assert!(rt; heap.is_empty());
    /// ```
    pub fn drain_sorted(&mut self) -> DrainSorted<'_, T, D, J>
    where
        T: Drop,
        ensures heap { drained_heap result ≡ self.old }
        ensures ordered { IsHeapOrdered J.order D self.old.items }
        ensures fits { length self.old.items < 2 ^ 64 }
        ensures same_reference { drained_lender result ≡ self.entry.ghost_name }
        ensures stays { KeepsHeapAlong J.order result }

        // Calls of `next` give a greatest part of the items in descending order, each once, and up to
        // `None` all of them.
        ensures descending { GivesDescending J.order (DrainsSorted J.order)
            (λ it. (drained_heap it).items) result }
    {
        // It ensures that the heap is ordered.
        let _ = self.as_slice();
        DrainSorted { heap: self }
    }
}

impl<T: Drop, const D: usize, J: Judge<T>> Iterator for DrainSorted<'_, T, D, J> {
    ghost use Rattle.dary_heap.specs.DrainSorted.{drained_heap, DrainsSorted};

    type Item = T;

    ghost next_gives = { DrainsSorted J.order };

    ghost remaining = { item_count (λ it. (drained_heap it).items) };

    fn next(&mut self) -> Option<T> {
        let heap = &mut *self.heap;
        pop_ordered::<T, J, D>(&mut heap.items, &mut heap.judge)
    }

    fn size_hint(&self) -> (usize, Option<usize>)
        ensures { HintsExactly (drained_heap self.now).items result }
    {
        let len = self.len();
        (len, Some(len))
    }
}

impl<T: Drop, const D: usize, J: Judge<T>> ExactSizeIterator for DrainSorted<'_, T, D, J> {
    fn len(&self) -> usize {
        let heap = &*self.heap;
        heap.items.len()
    }
}

impl<T: Drop, const D: usize, J: Judge<T>> FusedIterator for DrainSorted<'_, T, D, J> {}

impl<T: Drop + fmt::Debug, const D: usize, J: Judge<T>> fmt::Debug for DrainSorted<'_, T, D, J> {
    fn fmt<W: fmt::Write>(&self, f: &mut fmt::Formatter<W>) -> fmt::Result {
        let heap = &*self.heap;
        f.debug_tuple("DrainSorted").field(&heap.items).finish()
    }
}
