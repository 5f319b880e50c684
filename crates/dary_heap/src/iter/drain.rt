//! The iterator that empties a heap.
ghost use Rattle.std.specs.Prelude.{◌≡◌, ◌^◌, ◌<◌, length};
ghost use Rattle.std.specs.Borrow.{sem};
ghost use Rattle.std.specs.Iterator.{YieldsFirst, YieldsLast, item_count};
ghost use Rattle.std.specs.Iterator.Runs.{YieldsInOrder, YieldsInReverse};
ghost use Rattle.dary_heap.specs.SizeHints.{HintsExactly};

use super::IntoIter;
use crate::heap::DaryHeap;
use crate::sift::Judge;
use std::iter::FusedIterator;
use std::{fmt, mem};

/// An iterator over the items of a heap, in the order of its slice. The heap is empty afterwards.
///
/// [`DaryHeap::drain`] returns it. A clause sees it by the words of `specs/Drain.antt`: as
/// `drain_rest` the list of the items that are left.
///
/// # Examples
///
/// ```
/// use dary_heap::BinaryHeap;
/// let mut heap = BinaryHeap::from(vec![in alloc; 4, 3, 2, 1]?);
/// let mut items = heap.drain();
/// assert_eq!(rt; items.next(), Some(4));
/// assert_eq!(rt; items.next_back(), Some(1));
/// assert_eq!(rt; items.len(), 2);
/// ```
#[derive(Drop)]
pub struct Drain<'a, T> {
    rest: IntoIter<T>,
    // What the heap has left: no item. It keeps the heap borrowed.
    left: &'a mut [T],
}

impl<T, const D: usize, J: Judge<T>> DaryHeap<T, D, J> {
    ghost use Rattle.dary_heap.specs.Drain.{drain_rest, drain_lender, leaves_emptied};

    /// Removes all items, and returns an iterator over them, in the order in which they were
    /// stored.
    ///
    /// Once the iterator is gone, also if it was dropped early or forgotten, the heap is empty. Its
    /// vector goes to the iterator, so its capacity is 0 then.
    ///
    /// # Examples
    ///
    /// ```
    /// use dary_heap::BinaryHeap;
    /// let mut heap = BinaryHeap::from(vec![in alloc; 1, 3]?);
    /// assert_eq!(rt; heap.drain().next(), Some(3));
    /// assert!(rt; heap.is_empty());
    /// ```
    pub fn drain(&mut self) -> Drain<'_, T>
        // Once the iterator is gone the heap has no items, no room and the same count.
        ensures* emptied { sem 𝓛 (leaves_emptied T.row D.row J.row J.Judge
            self.entry (drain_lender result)) }
        ensures items { drain_rest result ≡ self.old.items }
        ensures fits { length (drain_rest result) < 2 ^ 64 }
        ensures runs { YieldsInOrder (YieldsFirst {A = T} drain_rest) drain_rest }
        ensures runs_back { YieldsInReverse (YieldsLast {A = T} drain_rest) drain_rest }
    {
        let alloc = *self.items.allocator();
        let items = mem::replace(&mut self.items, Vec::new(alloc));
        Drain {
            rest: IntoIter::of(items),
            left: self.items.as_mut_slice(),
        }
    }
}

impl<T: Drop> Iterator for Drain<'_, T> {
    ghost use Rattle.dary_heap.specs.Drain.{drain_rest};

    type Item = T;

    ghost next_gives = { YieldsFirst drain_rest };

    ghost remaining = { item_count drain_rest };

    fn next(&mut self) -> Option<T> {
        self.rest.next()
    }

    fn size_hint(&self) -> (usize, Option<usize>)
        ensures { HintsExactly (drain_rest self.now) result }
    {
        self.rest.size_hint()
    }
}

impl<T: Drop> DoubleEndedIterator for Drain<'_, T> {
    ghost use Rattle.dary_heap.specs.Drain.{drain_rest};

    ghost next_back_gives = { YieldsLast drain_rest };

    fn next_back(&mut self) -> Option<T> {
        self.rest.next_back()
    }
}

impl<T: Drop> ExactSizeIterator for Drain<'_, T> {
    fn len(&self) -> usize {
        self.rest.len()
    }
}

impl<T: Drop> FusedIterator for Drain<'_, T> {}

impl<T: fmt::Debug> fmt::Debug for Drain<'_, T> {
    fn fmt<W: fmt::Write>(&self, f: &mut fmt::Formatter<W>) -> fmt::Result {
        f.debug_tuple("Drain").field(&self.rest.rest).finish()
    }
}
