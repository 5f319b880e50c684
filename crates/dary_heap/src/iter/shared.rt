//! The iterator that lends the items of a heap.
ghost use Rattle.std.specs.Prelude.{◌≡◌, ◌^◌, ◌<◌, [], List, length, Some, ⊤};
ghost use Rattle.std.specs.Slice.Iter.{iter_rest};
ghost use Rattle.std.specs.Iterator.{YieldsFirstRef, YieldsLastRef, item_count};
ghost use Rattle.std.specs.Iterator.Runs.{YieldsRefsInOrder, YieldsRefsInReverse};
ghost use Rattle.dary_heap.specs.SizeHints.{HintsExactly};

use crate::heap::DaryHeap;
use crate::sift::Judge;
use std::alloc::AllocError;
use std::iter::FusedIterator;
use std::marker::Model;
use std::{fmt, slice};

/// An iterator over references to the items of a heap, in the order in which they are stored.
///
/// [`DaryHeap::iter`] returns it. A clause sees it as the list of the items that are left.
///
/// # Examples
///
/// ```
/// use dary_heap::TernaryHeap;
/// let heap = TernaryHeap::from(vec![in alloc; 1, 2, 3]?);
/// let seen: Vec<i32> = heap.iter().copied().collect(alloc)?;
/// assert_eq!(rt; seen.as_slice(), [3, 2, 1].as_slice());
/// ```
#[derive(Drop)]
pub struct Iter<'a, T> {
    rest: slice::Iter<'a, T>,
}

impl<'a, T> Model for Iter<'a, T> {
    ghost Value = { List T };

    ghost view = { λ it. iter_rest it.rest };
}

impl<T, const D: usize, J: Judge<T>> DaryHeap<T, D, J> {
    /// Returns an iterator over references to the items, in the order in which they are stored.
    ///
    /// # Examples
    ///
    /// ```
    /// use dary_heap::BinaryHeap;
    /// let heap = BinaryHeap::from(vec![in alloc; 4, 3, 2, 1]?);
    /// let mut items = heap.iter();
    /// assert_eq!(rt; items.next(), Some(&4));
    /// assert_eq!(rt; items.next_back(), Some(&1));
    /// assert_eq!(rt; items.len(), 2);
    /// ```
    pub fn iter(&self) -> Iter<'_, T>
        ensures items { result ≡ self.now.items }
        ensures fits { length result < 2 ^ 64 }
        ensures runs { YieldsRefsInOrder (YieldsFirstRef {A = T} (λ rest. rest)) (λ rest. rest) }
        ensures runs_back { YieldsRefsInReverse (YieldsLastRef {A = T} (λ rest. rest))
            (λ rest. rest) }
    {
        Iter {
            rest: self.items.as_slice().iter(),
        }
    }
}

impl<'a, T> Iterator for Iter<'a, T> {
    type Item = &'a T;

    ghost next_gives = { YieldsFirstRef (λ rest. rest) };

    ghost remaining = { item_count (λ rest. rest) };

    fn next(&mut self) -> Option<&'a T> {
        self.rest.next()
    }

    fn size_hint(&self) -> (usize, Option<usize>)
        ensures { HintsExactly self.now result }
    {
        let len = self.len();
        (len, Some(len))
    }
}

impl<'a, T> DoubleEndedIterator for Iter<'a, T> {
    ghost next_back_gives = { YieldsLastRef (λ rest. rest) };

    fn next_back(&mut self) -> Option<&'a T> {
        self.rest.next_back()
    }
}

impl<T> ExactSizeIterator for Iter<'_, T> {
    fn len(&self) -> usize {
        self.rest.len()
    }
}

impl<T> FusedIterator for Iter<'_, T> {}

/// Returns another iterator over what is left. It allocates no memory, and doesn't fail.
///
/// # Examples
///
/// ```
/// use dary_heap::BinaryHeap;
/// let heap = BinaryHeap::from(vec![in alloc; 1, 2, 3]?);
/// let mut items = heap.iter();
/// assert_eq!(rt; items.clone()?.next(), Some(&3));
/// assert_eq!(rt; items.next(), Some(&3));
/// ```
impl<T> Clone for Iter<'_, T> {
    ghost is_clone = { λ it copy. copy ≡ it };

    ghost is_infallible = { λ _. ⊤ };

    fn clone(&self) -> Result<Self, AllocError> {
        Ok(Iter {
            rest: self.rest.clone()?,
        })
    }
}

/// Returns an iterator over no items.
///
/// # Examples
///
/// ```
/// use dary_heap::Iter;
/// assert_eq!(rt; Iter::<i32>::default().next(), None);
/// ```
impl<T> Default for Iter<'_, T> {
    ghost is_default = { λ it. it ≡ [] };

    fn default() -> Self {
        Iter {
            rest: slice::Iter::default(),
        }
    }
}

impl<T: fmt::Debug> fmt::Debug for Iter<'_, T> {
    fn fmt<W: fmt::Write>(&self, f: &mut fmt::Formatter<W>) -> fmt::Result {
        f.debug_tuple("Iter").field(&self.rest.as_slice()).finish()
    }
}

/// Returns an iterator over references to the items, as [`DaryHeap::iter`] does.
///
/// # Examples
///
/// ```
/// use dary_heap::BinaryHeap;
/// let heap = BinaryHeap::from(vec![in alloc; 1, 2, 3]?);
/// let mut sum = 0;
/// for item in &heap {
///     sum += *item;
/// }
/// assert_eq!(rt; sum, 6);
/// ```
impl<'a, T, const D: usize, J: Judge<T>> IntoIterator for &'a DaryHeap<T, D, J> {
    type Item = &'a T;

    type IntoIter = Iter<'a, T>;

    ghost into_iter_gives = { λ heap it. (it ≡ heap.now.items) × (length it < 2 ^ 64)
        × YieldsRefsInOrder (YieldsFirstRef {A = T} (λ rest. rest)) (λ rest. rest)
        × YieldsRefsInReverse (YieldsLastRef {A = T} (λ rest. rest)) (λ rest. rest) };

    fn into_iter(self) -> Iter<'a, T> {
        self.iter()
    }
}
