//! The iterator that pops the items of a heap.
ghost use Rattle.std.specs.Prelude.{◌≡◌, ◌^◌, ◌<◌, [], length, Some, Contains, IfOk, IsOk};
ghost use Rattle.std.specs.Iterator.{item_count};
ghost use Rattle.dary_heap.specs.SizeHints.{HintsExactly};
ghost use Rattle.dary_heap.specs.Bounds.{RisesWithin, build_bound};
ghost use Rattle.dary_heap.specs.Building.{IsCopiedFreely, IsCopyOf};
ghost use Rattle.dary_heap.specs.Contents.{Contents};
ghost use Rattle.dary_heap.specs.HeapOrder.{IsHeapOrdered};
ghost use Rattle.dary_heap.specs.Popping.{IsPop, GivesDescending};

use crate::heap::DaryHeap;
use crate::sift::{ByOrd, Judge};
use std::alloc::AllocError;
use std::fmt;
use std::iter::FusedIterator;
use std::marker::Model;

/// An iterator over the items of a heap in descending order. Each `next` is a pop.
///
/// [`DaryHeap::into_iter_sorted`] returns it. A clause sees it as the heap that it pops from.
///
/// # Examples
///
/// ```
/// use dary_heap::BinaryHeap;
/// let mut items = BinaryHeap::from(vec![in alloc; 2, 9, 4]?).into_iter_sorted();
/// assert_eq!(rt; items.next(), Some(9));
/// assert_eq!(rt; items.len(), 2);
/// assert_eq!(rt; items.next(), Some(4));
/// ```
#[derive(Drop)]
pub struct IntoIterSorted<T, const D: usize, J: Judge<T> = ByOrd> {
    heap: DaryHeap<T, D, J>,
}

impl<T, const D: usize, J: Judge<T>> Model for IntoIterSorted<T, D, J> {
    ghost Value = { Contents T };

    ghost view = { λ it. it.heap };
}

impl<T, const D: usize, J: Judge<T>> DaryHeap<T, D, J> {
    /// Returns an iterator over the items in descending order. It allocates no memory.
    ///
    /// Equal items come in the order in which pops return them. The call takes no comparison, and
    /// each item that is asked for at most as many as a [`pop`](DaryHeap::pop).
    ///
    /// # Examples
    ///
    /// ```
    /// use dary_heap::QuaternaryHeap;
    /// let heap = QuaternaryHeap::from(vec![in alloc; 1, 2, 3, 4, 5]?);
    /// let greatest: Vec<i32> = heap.into_iter_sorted().take(2).collect(alloc)?;
    /// assert_eq!(rt; greatest.as_slice(), [5, 4].as_slice());
    /// ```
    pub fn into_iter_sorted(self) -> IntoIterSorted<T, D, J>
        ensures heap { result ≡ self }
        ensures ordered { IsHeapOrdered J.order D self.items }
        ensures fits { length self.items < 2 ^ 64 }

        // Calls of `next` give a greatest part of the items in descending order, each once, and up to
        // `None` all of them.
        ensures descending { GivesDescending J.order (IsPop J.order D) (λ heap. heap.items) result }
    {
        IntoIterSorted { heap: self }
    }
}

impl<T: Ord, const D: usize> IntoIterSorted<T, D> {
    /// Returns an iterator over clones of what is left. It takes as many comparisons as
    /// [`DaryHeap::clone`] of what is left.
    ///
    /// # Preconditions
    ///
    /// - Each item's clone has the same value as the item.
    ///
    /// # Errors
    ///
    /// As [`DaryHeap::clone`].
    ///
    /// # Examples
    ///
    /// ```
    /// use dary_heap::BinaryHeap;
    /// let mut items = BinaryHeap::from(vec![in alloc; 2, 9, 4]?).into_iter_sorted();
    /// assert_eq!(rt; items.clone()?.next(), Some(9));
    /// assert_eq!(rt; items.next(), Some(9));
    /// ```
    pub fn clone(&self) -> Result<Self, AllocError>
    where
        T: Clone + Drop,
        requires { (x y : T) → Contains self.now.items x → T.is_clone x y → y ≡ x }
        ensures items { IfOk result (λ copy. copy.items ≡ self.now.items) }
        ensures counted { IfOk result
            (λ copy. RisesWithin 0 copy.comparisons (build_bound D (length self.now.items))) }
        ensures succeeds { self.now.items ≡ [] → IsOk result }
    {
        Ok(IntoIterSorted {
            heap: self.heap.clone()?,
        })
    }
}

/// Copies what is left, for `derive(Clone)` and for a judge of another type than `ByOrd`, as the trait's
/// `clone` of a [`DaryHeap`] does. Otherwise a call `items.clone()` is of [`IntoIterSorted::clone`].
impl<T: Clone, const D: usize, J: Judge<T> + Clone> Clone for IntoIterSorted<T, D, J> {
    ghost is_clone = { IsCopyOf T.is_clone J.is_clone J.count J.order D };

    ghost is_infallible = { IsCopiedFreely J.is_infallible J.count };

    fn clone(&self) -> Result<Self, AllocError> {
        Ok(IntoIterSorted {
            heap: Clone::clone(&self.heap)?,
        })
    }
}

impl<T: Drop, const D: usize, J: Judge<T> + Drop> Iterator for IntoIterSorted<T, D, J> {
    type Item = T;

    ghost next_gives = { IsPop J.order D };

    ghost remaining = { item_count (λ heap. heap.items) };

    fn next(&mut self) -> Option<T> {
        self.heap.pop()
    }

    fn size_hint(&self) -> (usize, Option<usize>)
        ensures { HintsExactly self.now.items result }
    {
        let len = self.len();
        (len, Some(len))
    }
}

impl<T: Drop, const D: usize, J: Judge<T> + Drop> ExactSizeIterator for IntoIterSorted<T, D, J> {
    fn len(&self) -> usize {
        self.heap.len()
    }
}

impl<T: Drop, const D: usize, J: Judge<T> + Drop> FusedIterator for IntoIterSorted<T, D, J> {}

impl<T: fmt::Debug, const D: usize, J: Judge<T>> fmt::Debug for IntoIterSorted<T, D, J> {
    fn fmt<W: fmt::Write>(&self, f: &mut fmt::Formatter<W>) -> fmt::Result {
        f.debug_tuple("IntoIterSorted").field(&self.heap).finish()
    }
}
