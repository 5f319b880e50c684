//! The iterator that empties a heap.
ghost use Rattle.std.specs.Prelude.{◌≡◌, ◌^◌, ◌<◌, ℕ, length};
ghost use Rattle.std.specs.Borrow.{sem};
ghost use Rattle.std.specs.Iterator.{YieldsFirst, YieldsLast};
ghost use Rattle.std.specs.Iterator.Runs.{YieldsInOrder, YieldsInReverse};

use crate::heap::IndexedHeap;
use dary_heap::sift::Judge;

/// An iterator over the entries of a heap, in the order in which they were stored. The heap is empty afterwards.
///
/// [`IndexedHeap::drain`] returns it. A clause sees the list of the entries that are left as `drain_rest` of
/// `specs/Drain.antt`.
///
/// # Examples
///
/// ```
/// use indexed_heap::IndexedHeap;
/// let mut heap = IndexedHeap::<_, 4>::new(alloc);
/// heap.insert(8, 1)?;
/// heap.insert(6, 5)?;
/// heap.insert(7, 3)?;
/// let mut entries = heap.drain();
/// assert_eq!(rt; entries.next(), Some((6, 5)));
/// assert_eq!(rt; entries.next_back(), Some((7, 3)));
/// assert_eq!(rt; entries.len(), 1);
/// ```
pub type Drain<'a, T> = dary_heap::Drain<'a, (usize, T)>;

impl<T, const D: usize, J: Judge<T>> IndexedHeap<T, D, J> {
    ghost use Rattle.indexed_heap.specs.Drain.{drain_rest, drain_lender, leaves_emptied};

    /// Removes all entries, and returns an iterator over them, in the order in which they were stored. Makes no
    /// comparison.
    ///
    /// Once the iterator is gone, even if it was dropped early or forgotten, the heap is empty. The iterator takes its
    /// vector, so its capacity is 0 then. It has as much room for [`key_capacity`](IndexedHeap::key_capacity) as before.
    ///
    /// # Examples
    ///
    /// ```
    /// use indexed_heap::IndexedHeap;
    /// let mut heap = IndexedHeap::<_, 4>::new(alloc);
    /// heap.insert(8, 1)?;
    /// assert_eq!(rt; heap.drain().next(), Some((8, 1)));
    /// assert!(rt; heap.is_empty());
    /// assert_eq!(rt; heap.key_capacity(), 9);
    /// ```
    pub fn drain(&mut self) -> Drain<'_, T>
        // Once the iterator is gone the heap has no entries, no room for them, and the same count.
        ensures* emptied { sem 𝓛 (leaves_emptied T.row D.row J.row J.Judge
            self.entry (drain_lender result)) }
        ensures entries { drain_rest result ≡ self.old.entries }
        ensures fits { length (drain_rest result) < 2 ^ 64 }
        ensures runs { YieldsInOrder (YieldsFirst {A = ℕ × T} drain_rest) drain_rest }
        ensures runs_back { YieldsInReverse (YieldsLast {A = ℕ × T} drain_rest) drain_rest }
    {
        self.entries.drain()
    }
}
