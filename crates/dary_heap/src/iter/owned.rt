//! The iterator that consumes a heap.
ghost use Rattle.std.specs.Prelude.{◌≡◌, ◌^◌, ◌<◌, [], List, length, Some, Contains, IfOk, IsOk};
ghost use Rattle.std.specs.Iterator.{YieldsFirst, YieldsLast, item_count};
ghost use Rattle.std.specs.Iterator.Runs.{YieldsInOrder, YieldsInReverse};
ghost use Rattle.dary_heap.specs.SizeHints.{HintsExactly};

use crate::heap::DaryHeap;
use crate::sift::Judge;
use std::alloc::AllocError;
use std::collections::VecDeque;
use std::fmt;
use std::iter::FusedIterator;
use std::marker::Model;

/// An iterator over the items of a heap, in the order of its slice.
///
/// The heap's `into_iter` returns it. A clause sees it as the list of the items that are left.
///
/// # Examples
///
/// ```
/// use dary_heap::BinaryHeap;
/// let mut items = BinaryHeap::from(vec![in alloc; 4, 3, 2, 1]?).into_iter();
/// assert_eq!(rt; items.next(), Some(4));
/// assert_eq!(rt; items.next_back(), Some(1));
/// assert_eq!(rt; items.len(), 2);
/// ```
#[derive(Drop)]
pub struct IntoIter<T> {
    pub(super) rest: VecDeque<T>,
}

impl<T> Model for IntoIter<T> {
    ghost Value = { List T };

    ghost view = { λ it. it.rest.items };
}

impl<T> IntoIter<T> {
    pub(super) fn of(items: Vec<T>) -> IntoIter<T>
        ensures items { result ≡ items.items }
        ensures fits { length result < 2 ^ 64 }
    {
        IntoIter {
            rest: VecDeque::from(items),
        }
    }

    /// Returns an iterator over clones of what is left.
    ///
    /// # Preconditions
    ///
    /// - Each item's clone has the same value as the item.
    ///
    /// # Errors
    ///
    /// Returns `AllocError` if memory allocation fails, here or in an item's `clone`. If nothing is left, the call
    /// doesn't fail.
    ///
    /// # Examples
    ///
    /// ```
    /// use dary_heap::BinaryHeap;
    /// let mut items = BinaryHeap::from(vec![in alloc; 1, 2, 3]?).into_iter();
    /// assert_eq!(rt; items.clone()?.next(), Some(3));
    /// assert_eq!(rt; items.next(), Some(3));
    /// ```
    pub fn clone(&self) -> Result<Self, AllocError>
    where
        T: Clone + Drop,
        requires { (x y : T) → Contains self.now x → T.is_clone x y → y ≡ x }
        ensures items { IfOk result (λ copy. copy ≡ self.now) }
        ensures succeeds { self.now ≡ [] → IsOk result }
    {
        if self.rest.is_empty() {
            let rest = VecDeque::new(*self.rest.allocator());
            return Ok(IntoIter { rest });
        }
        let rest = self.rest.clone()?;
        Ok(IntoIter { rest })
    }
}

impl<T: Drop> Iterator for IntoIter<T> {
    type Item = T;

    ghost next_gives = { YieldsFirst (λ rest. rest) };

    ghost remaining = { item_count (λ rest. rest) };

    fn next(&mut self) -> Option<T> {
        self.rest.pop_front()
    }

    fn size_hint(&self) -> (usize, Option<usize>)
        ensures { HintsExactly self.now result }
    {
        let len = self.len();
        (len, Some(len))
    }
}

impl<T: Drop> DoubleEndedIterator for IntoIter<T> {
    ghost next_back_gives = { YieldsLast (λ rest. rest) };

    fn next_back(&mut self) -> Option<T> {
        self.rest.pop_back()
    }
}

impl<T: Drop> ExactSizeIterator for IntoIter<T> {
    fn len(&self) -> usize {
        self.rest.len()
    }
}

impl<T: Drop> FusedIterator for IntoIter<T> {}

impl<T: fmt::Debug> fmt::Debug for IntoIter<T> {
    fn fmt<W: fmt::Write>(&self, f: &mut fmt::Formatter<W>) -> fmt::Result {
        f.debug_tuple("IntoIter").field(&self.rest).finish()
    }
}

/// Returns an iterator over the items, in the order in which they are stored. It allocates no
/// memory.
///
/// # Examples
///
/// ```
/// use dary_heap::BinaryHeap;
/// let heap = BinaryHeap::from(vec![in alloc; 1, 2, 3]?);
/// let items: Vec<i32> = heap.into_iter().collect(alloc)?;
/// assert_eq!(rt; items.as_slice(), [3, 2, 1].as_slice());
/// ```
impl<T: Drop, const D: usize, J: Judge<T> + Drop> IntoIterator for DaryHeap<T, D, J> {
    type Item = T;

    type IntoIter = IntoIter<T>;

    ghost into_iter_gives = { λ heap it. (it ≡ heap.items) × (length it < 2 ^ 64)
        × YieldsInOrder (YieldsFirst {A = T} (λ rest. rest)) (λ rest. rest)
        × YieldsInReverse (YieldsLast {A = T} (λ rest. rest)) (λ rest. rest) };

    fn into_iter(self) -> IntoIter<T> {
        let items = self.into_vec();
        IntoIter::of(items)
    }
}
