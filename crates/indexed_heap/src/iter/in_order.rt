//! The iterator that lends the entries of a heap in descending order.
ghost use Rattle.std.specs.Prelude.{◌≡◌, ℕ, length, min, Some, IfOk, IsOk};
ghost use Rattle.std.specs.Iterator.{at_most};
ghost use Rattle.dary_heap.specs.IterSorted.{ComparesByClone, GivesGreatest, GivesNext, InOrder, StartsInOrder};
ghost use Rattle.dary_heap.specs.SizeHints.{HintsNumber};
ghost use Rattle.indexed_heap.specs.Entries.{by_item};
ghost use Rattle.indexed_heap.specs.Iterating.{shown};

use crate::heap::IndexedHeap;
use crate::judge::ByItem;
use dary_heap::sift::{ByOrd, Judge};
use std::alloc::{AllocError, Global};
use std::fmt;
use std::iter::FusedIterator;
use std::marker::Model;

/// An iterator over the keys of a heap, each with a reference to its item, in descending order of the items. It leaves
/// the entries in the heap.
///
/// [`IndexedHeap::iter_sorted`] returns it. A clause sees it as the entries that it didn't give yet, with the number of
/// those that it still gives.
///
/// # Examples
///
/// ```
/// use indexed_heap::IndexedHeap;
/// let mut heap = IndexedHeap::<_, 4>::new(alloc);
/// heap.insert(8, 1)?;
/// heap.insert(6, 5)?;
/// let mut entries = heap.iter_sorted(alloc, 2)?;
/// assert_eq!(rt; entries.next(), Some((6, &5)));
/// assert_eq!(rt; entries.len(), 1);
/// ```
#[derive(Drop)]
pub struct IterSorted<'a, T, const D: usize, J: Judge<T> = ByOrd> {
    entries: dary_heap::IterSorted<'a, (usize, T), D, ByItem<J>>,
}

impl<'a, T, const D: usize, J: Judge<T>> Model for IterSorted<'a, T, D, J> {
    ghost Value = { InOrder (ℕ × T) };

    ghost view = { λ it. it.entries };
}

impl<T, const D: usize, J: Judge<T>> IndexedHeap<T, D, J> {
    /// Returns an iterator over the keys of the greatest `most` items, or of all if they are fewer, each with a
    /// reference to its item, in descending order of the items. The heap stays as it is.
    ///
    /// Keys of equal items come in any order. It compares as often as
    /// [`DaryHeap::iter_sorted`](dary_heap::DaryHeap::iter_sorted) of as many items, by a clone of the judge.
    ///
    /// # Errors
    ///
    /// Returns `AllocError` if memory allocation fails, here or in the judge's `clone`. Once the iterator is there, it
    /// allocates no more. If `most` is 0 or the heap is empty, nothing is allocated but in that `clone`.
    ///
    /// # Examples
    ///
    /// ```
    /// use indexed_heap::IndexedHeap;
    /// let mut heap = IndexedHeap::<_, 4>::new(alloc);
    /// for (key, item) in [20, 50, 30].into_iter().enumerate() {
    ///     heap.insert(key, item)?;
    /// }
    /// let mut greatest = heap.iter_sorted(alloc, 2)?;
    /// assert_eq!(rt; greatest.next(), Some((1, &50)));
    /// assert_eq!(rt; greatest.next(), Some((2, &30)));
    /// assert_eq!(rt; greatest.next(), None);
    /// assert_eq!(rt; heap.len(), 3);
    /// ```
    pub fn iter_sorted(
        &self,
        alloc: Global,
        most: usize,
    ) -> Result<IterSorted<'_, T, D, J>, AllocError>
    where
        J: Clone + Drop,
        ensures starts { IfOk result (StartsInOrder D most self.now.entries) }
        ensures comparisons { IfOk result
            (ComparesByClone J.is_clone J.count self.now.comparisons) }
        ensures succeeds { min most (length self.now.entries) ≡ 0
            → ((judge : J) → J.count judge ≡ self.now.comparisons → J.is_infallible judge)
            → IsOk result }

        // Calls of `next` show a greatest part of the entries in descending order of the items, and up
        // to `None` as many as `most`, or all.
        ensures greatest { IfOk result (GivesGreatest (shown {T = T}) (by_item J.order) D) }
    {
        Ok(IterSorted {
            entries: self.entries.iter_sorted(alloc, most)?,
        })
    }

    /// Returns an iterator over the keys of the greatest `most` items, as [`iter_sorted`](IndexedHeap::iter_sorted)
    /// does, that compares by the given judge. It is dropped if memory allocation fails.
    ///
    /// # Examples
    ///
    /// ```
    /// use dary_heap::sift::Tally;
    /// use indexed_heap::IndexedHeap;
    /// let mut heap = IndexedHeap::<_, 2, _>::with_judge(alloc, Tally::new());
    /// for (key, item) in [3, 8, 5, 1].into_iter().enumerate() {
    ///     heap.insert(key, item)?;
    /// }
    /// let mut entries = heap.iter_sorted_with(alloc, 2, Tally::new())?;
    /// assert_eq!(rt; entries.next(), Some((1, &8)));
    /// assert_eq!(rt; entries.judge().made(), 1);
    /// ```
    pub fn iter_sorted_with(
        &self,
        alloc: Global,
        most: usize,
        judge: J,
    ) -> Result<IterSorted<'_, T, D, J>, AllocError>
    where
        J: Drop,
        ensures starts { IfOk result (StartsInOrder D most self.now.entries) }
        ensures comparisons { IfOk result (λ it. it.comparisons ≡ J.count judge) }
        ensures succeeds { min most (length self.now.entries) ≡ 0 → IsOk result }
        ensures greatest { IfOk result (GivesGreatest (shown {T = T}) (by_item J.order) D) }
    {
        let judge = ByItem { items: judge };
        Ok(IterSorted {
            entries: self.entries.iter_sorted_with(alloc, most, judge)?,
        })
    }
}

impl<'a, T, const D: usize, J: Judge<T>> IterSorted<'a, T, D, J> {
    /// Returns the judge by which the iterator compares, as to read its count.
    ///
    /// # Examples
    ///
    /// ```
    /// use dary_heap::sift::Tally;
    /// use indexed_heap::IndexedHeap;
    /// let mut heap = IndexedHeap::<_, 2, _>::with_judge(alloc, Tally::new());
    /// heap.insert(6, 5)?;
    /// assert_eq!(rt; heap.iter_sorted_with(alloc, 2, Tally::new())?.judge().made(), 0);
    /// ```
    pub fn judge(&self) -> &J
        ensures { J.count result.now ≡ self.now.comparisons }
    {
        &self.entries.judge().items
    }
}

impl<'a, T, const D: usize, J: Judge<T> + Drop> Iterator for IterSorted<'a, T, D, J> {
    type Item = (usize, &'a T);

    ghost next_gives = { GivesNext (shown {T = T}) (by_item J.order) D };

    ghost remaining = { λ it. at_most it.left };

    fn next(&mut self) -> Option<(usize, &'a T)> {
        match self.entries.next() {
            Some(entry) => Some((entry.0, &entry.1)),
            None => None,
        }
    }

    fn size_hint(&self) -> (usize, Option<usize>)
        ensures { HintsNumber self.now.left result }
    {
        let len = self.len();
        (len, Some(len))
    }
}

impl<'a, T, const D: usize, J: Judge<T> + Drop> ExactSizeIterator for IterSorted<'a, T, D, J> {
    fn len(&self) -> usize {
        self.entries.len()
    }
}

impl<'a, T, const D: usize, J: Judge<T> + Drop> FusedIterator for IterSorted<'a, T, D, J> {}

impl<'a, T: fmt::Debug, const D: usize, J: Judge<T>> fmt::Debug for IterSorted<'a, T, D, J> {
    fn fmt<W: fmt::Write>(&self, f: &mut fmt::Formatter<W>) -> fmt::Result {
        self.entries.fmt(f)
    }
}
