//! The iterator that lends the entries of a heap.
ghost use Rattle.std.specs.Prelude.{◌≡◌, ◌^◌, ◌<◌, ℕ, [], List, length, ⊤};
ghost use Rattle.std.specs.Slice.Iter.{iter_rest};
ghost use Rattle.std.specs.Iterator.{YieldsFirstBy, YieldsLastBy, item_count};
ghost use Rattle.dary_heap.specs.SizeHints.{HintsExactly};
ghost use Rattle.indexed_heap.specs.Iterating.{ShowsInOrder, ShowsInReverse, shown};

use crate::heap::IndexedHeap;
use dary_heap::sift::Judge;
use std::alloc::AllocError;
use std::iter::FusedIterator;
use std::marker::Model;
use std::{fmt, slice};

/// An iterator over the keys of a heap, each with a reference to its item, in the order in which they are stored.
///
/// [`IndexedHeap::iter`] returns it. A clause sees it as the list of the entries that are left.
///
/// # Examples
///
/// ```
/// use indexed_heap::IndexedHeap;
/// let mut heap = IndexedHeap::<_, 4>::new(alloc);
/// heap.insert(8, 1)?;
/// heap.insert(6, 5)?;
/// let mut sum = 0;
/// for (key, item) in &heap {
///     sum += key * *item;
/// }
/// assert_eq!(rt; sum, 38);
/// ```
#[derive(Drop)]
pub struct Iter<'a, T> {
    rest: slice::Iter<'a, (usize, T)>,
}

impl<'a, T> Model for Iter<'a, T> {
    ghost Value = { List (ℕ × T) };

    ghost view = { λ it. iter_rest it.rest };
}

impl<T, const D: usize, J: Judge<T>> IndexedHeap<T, D, J> {
    /// Returns an iterator over the keys, each with a reference to its item, in the order in which they are stored.
    ///
    /// # Examples
    ///
    /// ```
    /// use indexed_heap::IndexedHeap;
    /// let mut heap = IndexedHeap::<_, 4>::new(alloc);
    /// heap.insert(8, 1)?;
    /// heap.insert(6, 5)?;
    /// let mut entries = heap.iter();
    /// assert_eq!(rt; entries.next(), Some((6, &5)));
    /// assert_eq!(rt; entries.next_back(), Some((8, &1)));
    /// assert_eq!(rt; entries.next(), None);
    /// ```
    pub fn iter(&self) -> Iter<'_, T>
        ensures entries { result ≡ self.now.entries }
        ensures fits { length result < 2 ^ 64 }
        ensures runs { ShowsInOrder T }
        ensures runs_back { ShowsInReverse T }
    {
        Iter {
            rest: self.entries.as_slice().iter(),
        }
    }
}

impl<'a, T> Iterator for Iter<'a, T> {
    type Item = (usize, &'a T);

    ghost next_gives = { YieldsFirstBy shown (λ rest. rest) };

    ghost remaining = { item_count (λ rest. rest) };

    fn next(&mut self) -> Option<(usize, &'a T)> {
        match self.rest.next() {
            Some(entry) => Some((entry.0, &entry.1)),
            None => None,
        }
    }

    fn size_hint(&self) -> (usize, Option<usize>)
        ensures { HintsExactly self.now result }
    {
        let len = self.len();
        (len, Some(len))
    }
}

impl<'a, T> DoubleEndedIterator for Iter<'a, T> {
    ghost next_back_gives = { YieldsLastBy shown (λ rest. rest) };

    fn next_back(&mut self) -> Option<(usize, &'a T)> {
        match self.rest.next_back() {
            Some(entry) => Some((entry.0, &entry.1)),
            None => None,
        }
    }
}

impl<T> ExactSizeIterator for Iter<'_, T> {
    fn len(&self) -> usize {
        self.rest.len()
    }
}

impl<T> FusedIterator for Iter<'_, T> {}

/// Returns another iterator over what is left. It allocates no memory, and doesn't fail.
impl<T> Clone for Iter<'_, T> {
    ghost is_clone = { λ it copy. copy ≡ it };

    ghost is_infallible = { λ _. ⊤ };

    fn clone(&self) -> Result<Self, AllocError> {
        Ok(Iter {
            rest: self.rest.clone()?,
        })
    }
}

/// Returns an iterator over no entries.
///
/// # Examples
///
/// ```
/// use indexed_heap::Iter;
/// assert_eq!(rt; Iter::<i32>::default().next(), None);
/// ```
impl<T> Default for Iter<'_, T> {
    ghost is_default = { λ it. it ≡ [] };

    fn default() -> Self {
        Iter {
            rest: slice::Iter::default(),
        }
    }
}

impl<T: fmt::Debug> fmt::Debug for Iter<'_, T> {
    fn fmt<W: fmt::Write>(&self, f: &mut fmt::Formatter<W>) -> fmt::Result {
        f.debug_tuple("Iter").field(&self.rest.as_slice()).finish()
    }
}

/// Returns an iterator over the keys with references to their items, as [`IndexedHeap::iter`] does.
impl<'a, T, const D: usize, J: Judge<T>> IntoIterator for &'a IndexedHeap<T, D, J> {
    type Item = (usize, &'a T);

    type IntoIter = Iter<'a, T>;

    ghost into_iter_gives = { λ heap it. (it ≡ heap.now.entries) × (length it < 2 ^ 64)
        × ShowsInOrder T × ShowsInReverse T };

    fn into_iter(self) -> Iter<'a, T> {
        self.iter()
    }
}
