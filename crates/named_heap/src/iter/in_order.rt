//! The iterator that lends the entries of a heap in descending order.
ghost use Rattle.std.specs.Prelude.{◌≡◌, ℕ, length, min, IfOk, IsOk};
ghost use Rattle.std.specs.Iterator.{at_most};
ghost use Rattle.dary_heap.specs.IterSorted.{ComparesByClone, GivesGreatest, GivesNext, StartsInOrder};
ghost use Rattle.dary_heap.specs.SizeHints.{HintsNumber};
ghost use Rattle.named_heap.specs.Entries.{by_item};
ghost use Rattle.named_heap.specs.Iterating.{shown};

use crate::heap::NamedHeap;
use dary_heap::sift::{ByOrd, Judge};
use std::alloc::{AllocError, Global};
use std::hash::{BuildHasher, Hash};
use std::iter::FusedIterator;
use std::marker::Model;

/// An iterator over the names of a heap, each with a reference to its item, in descending order of the items. It leaves
/// the entries in the heap.
///
/// [`NamedHeap::iter_sorted`] returns it. A clause sees it as the entries that it didn't give yet, with the number of
/// those that it still gives.
///
/// # Examples
///
/// ```
/// use named_heap::NamedHeap;
/// let mut heap = NamedHeap::<_, _, 4>::new(alloc);
/// heap.insert("wash", 1)?;
/// heap.insert("cook", 5)?;
/// let mut entries = heap.iter_sorted(alloc, 2)?;
/// assert_eq!(rt; entries.next(), Some((&"cook", &5)));
/// assert_eq!(rt; entries.len(), 1);
/// ```
#[derive(Drop)]
pub struct IterSorted<'a, K, T, const D: usize, J: Judge<T> = ByOrd> {
    names: &'a [K],
    rest: indexed_heap::IterSorted<'a, T, D, J>,
}

impl<'a, K, T, const D: usize, J: Judge<T>> Model for IterSorted<'a, K, T, D, J> {
    ghost use Rattle.std.specs.Prelude.{◌<◌};
    ghost use Rattle.dary_heap.specs.IterSorted.{InOrder};
    ghost use Rattle.named_heap.specs.Names.{AreKeyed, named};

    ghost Value = { InOrder (K × T) };

    ghost view = { λ it. record {
      given = it.rest.given;
      rest = named it.names.now it.rest.rest;
      left = it.rest.left;
      room = it.rest.room;
      comparisons = it.rest.comparisons;
    } };

    ghost invariant = { λ it. 0 < it.rest.left → AreKeyed it.names.now it.rest.rest };
}

impl<K: Eq + Hash, T, const D: usize, J: Judge<T>, S: BuildHasher> NamedHeap<K, T, D, J, S> {
    /// Returns an iterator over the names of the greatest `most` items, or of all if they are fewer, each with a
    /// reference to its item, in descending order of the items. The heap stays as it is.
    ///
    /// Names of equal items come in any order. It compares as often as
    /// [`DaryHeap::iter_sorted`](dary_heap::DaryHeap::iter_sorted) of as many items, by a clone of the judge.
    ///
    /// # Errors
    ///
    /// Returns `AllocError` if memory allocation fails, here or in the judge's `clone`. Once the iterator is there, it
    /// allocates no more. If `most` is 0 or the heap is empty, nothing is allocated but in that `clone`.
    ///
    /// # Examples
    ///
    /// ```
    /// use named_heap::NamedHeap;
    /// let mut heap = NamedHeap::<_, _, 4>::new(alloc);
    /// for (name, item) in [("ann", 20), ("bob", 50), ("cal", 30)] {
    ///     heap.insert(name, item)?;
    /// }
    /// let mut greatest = heap.iter_sorted(alloc, 2)?;
    /// assert_eq!(rt; greatest.next(), Some((&"bob", &50)));
    /// assert_eq!(rt; greatest.next(), Some((&"cal", &30)));
    /// assert_eq!(rt; greatest.next(), None);
    /// assert_eq!(rt; heap.len(), 3);
    /// ```
    pub fn iter_sorted(
        &self,
        alloc: Global,
        most: usize,
    ) -> Result<IterSorted<'_, K, T, D, J>, AllocError>
    where
        J: Clone + Drop,
        ensures starts { IfOk result (StartsInOrder D most self.now.entries) }
        ensures comparisons { IfOk result
            (ComparesByClone J.is_clone J.count self.now.comparisons) }
        ensures succeeds { min most (length self.now.entries) ≡ 0
            → ((judge : J) → J.count judge ≡ self.now.comparisons → J.is_infallible judge)
            → IsOk result }

        // Calls of `next` show a greatest part of the entries in descending order of the items, and up
        // to `None` as many as `most`, or all.
        ensures greatest { IfOk result (GivesGreatest (shown {K = K} {T = T}) (by_item J.order) D) }
    {
        Ok(IterSorted {
            names: self.names.as_slice(),
            rest: self.heap.iter_sorted(alloc, most)?,
        })
    }
}

impl<'a, K, T, const D: usize, J: Judge<T> + Drop> Iterator for IterSorted<'a, K, T, D, J> {
    type Item = (&'a K, &'a T);

    ghost next_gives = { GivesNext (shown {K = K} {T = T}) (by_item J.order) D };

    ghost remaining = { λ it. at_most it.left };

    fn next(&mut self) -> Option<(&'a K, &'a T)> {
        let (key, item) = self.rest.next()?;
        Some((&self.names[key], item))
    }

    fn size_hint(&self) -> (usize, Option<usize>)
        ensures { HintsNumber self.now.left result }
    {
        let len = self.len();
        (len, Some(len))
    }
}

impl<'a, K, T, const D: usize, J: Judge<T> + Drop> ExactSizeIterator
    for IterSorted<'a, K, T, D, J> {
    fn len(&self) -> usize {
        self.rest.len()
    }
}

impl<'a, K, T, const D: usize, J: Judge<T> + Drop> FusedIterator for IterSorted<'a, K, T, D, J> {}
