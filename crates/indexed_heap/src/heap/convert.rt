//! Copies of heaps, and what a heap shows as text.
ghost use Rattle.std.specs.Prelude.{◌≡◌, ℕ, ◌<◌, Contains, IfOk, IsOk, Some, length, slice_get};
ghost use Rattle.std.specs.Fmt.{debug_list};
ghost use Rattle.indexed_heap.specs.Copying.{IsCopiedFreely, IsEntryCopy};
ghost use Rattle.indexed_heap.specs.Making.{IsNew};
ghost use Rattle.indexed_heap.specs.Showing.{debug_entry};

use super::IndexedHeap;
use super::table::write_places;
use crate::judge::ByItem;
use dary_heap::DaryHeap;
use dary_heap::sift::{ByOrd, Judge};
use std::alloc::{AllocError, Global};
use std::default::{Emptied, MadeWith};
use std::fmt;

impl<T: Ord, const D: usize> IndexedHeap<T, D> {
    /// Returns a copy of the heap: the keys with the items' clones, in the same order.
    ///
    /// # Preconditions
    ///
    /// - Each item's clone has the same value as the item.
    ///
    /// # Errors
    ///
    /// Returns `AllocError` if memory allocation fails, here or in an item's `clone`. The call doesn't fail for a heap
    /// without room for [`key_capacity`](IndexedHeap::key_capacity), such as a new one.
    ///
    /// # Examples
    ///
    /// ```
    /// use indexed_heap::IndexedHeap;
    /// let mut heap = IndexedHeap::<_, 4>::new(alloc);
    /// heap.insert(8, 1)?;
    /// let copy = heap.clone()?;
    /// assert_eq!(rt; heap.remove(8), Some(1));
    /// assert_eq!(rt; copy.get(8), Some(&1));
    /// ```
    pub fn clone(&self) -> Result<Self, AllocError>
    where
        T: Clone + Drop,
        requires { (key : ℕ) (x y : T) → Contains self.now.entries (key, x) → T.is_clone x y → y ≡ x }
        ensures entries { IfOk result (λ copy. copy.entries ≡ self.now.entries) }
        ensures keys { IfOk result (λ copy. copy.keys ≡ self.now.keys) }
        ensures uncounted { IfOk result (λ copy. copy.comparisons ≡ 0) }
        ensures succeeds { self.now.keys ≡ 0 → IsOk result }
    {
        if self.places.is_empty() {
            return Ok(IndexedHeap::new(*self.places.allocator()));
        }
        let places = self.places.clone()?;
        let judge = ByItem {
            items: ByOrd::new(),
        };
        let entries = self.entries.as_slice().to_vec(*self.places.allocator())?;
        Ok(IndexedHeap {
            entries: DaryHeap::from_raw_vec_with(entries, judge),
            places,
        })
    }
}

/// Copies the heap, for `derive(Clone)` and for a judge of another type than `ByOrd`. It is built of the keys with the
/// items' clones by a clone of the judge, with the comparisons of `from` of a vector for a `DaryHeap`. Otherwise a call
/// `heap.clone()` is of [`IndexedHeap::clone`], which makes no comparison.
///
/// # Errors
///
/// Returns `AllocError` if memory allocation fails, here or in the `clone` of an item or the judge. For a heap without
/// room for [`key_capacity`](IndexedHeap::key_capacity), such as a new one, it fails only if the judge's `clone` does.
///
/// # Examples
///
/// ```
/// use dary_heap::sift::{ByOrd, LeastFirst};
/// use indexed_heap::IndexedHeap;
/// let mut timers = IndexedHeap::<_, 4, _>::with_judge(alloc, LeastFirst(ByOrd::new()));
/// timers.insert(3, 50)?;
/// timers.insert(8, 10)?;
/// let mut copy = timers.clone()?;
/// assert_eq!(rt; timers.remove(8), Some(10));
/// assert_eq!(rt; copy.pop(), Some((8, 10)));
/// ```
impl<T: Clone, const D: usize, J: Judge<T> + Clone> Clone for IndexedHeap<T, D, J> {
    ghost is_clone = { IsEntryCopy T.is_clone J.is_clone J.count J.order D };

    ghost is_infallible = { IsCopiedFreely J.is_infallible J.count };

    fn clone(&self) -> Result<Self, AllocError> {
        if self.places.is_empty() {
            let judge = self.judge().clone()?;
            return Ok(IndexedHeap::with_judge(*self.places.allocator(), judge));
        }
        let mut places = self.places.clone()?;
        let entries = Clone::clone(&self.entries)?;
        write_places(entries.as_slice(), places.as_mut_slice());
        Ok(IndexedHeap { entries, places })
    }
}

/// Returns an empty heap, as [`IndexedHeap::new`] does, for `or_default` and for `made_with` of a struct with a heap.
impl<T: Ord, const D: usize> MadeWith<Global> for IndexedHeap<T, D> {
    ghost is_made_with = { λ heap. IsNew heap };

    fn made_with(alloc: Global) -> Self {
        IndexedHeap::new(alloc)
    }
}

/// Returns an empty heap, which `mem::try_take` leaves in place of the one that it takes. It doesn't fail.
///
/// # Examples
///
/// ```
/// use indexed_heap::IndexedHeap;
/// use std::mem;
///
/// let mut heap = IndexedHeap::<_, 4>::new(alloc);
/// heap.insert(8, 1)?;
/// assert_eq!(rt; mem::try_take(&mut heap)?.pop(), Some((8, 1)));
/// assert!(rt; heap.is_empty());
/// ```
impl<T: Ord, const D: usize> Emptied for IndexedHeap<T, D> {
    ghost is_emptied = { λ heap. IsNew heap };

    fn emptied(like: &Self) -> Result<Self, AllocError>
        ensures empty { IfOk result (λ heap. IsNew heap) }
        ensures succeeds { IsOk result }
    {
        Ok(IndexedHeap::new(*like.places.allocator()))
    }
}

/// Writes a list of the entries, as pairs, in the order of [`as_slice`](IndexedHeap::as_slice).
///
/// # Examples
///
/// ```
/// use indexed_heap::IndexedHeap;
/// let mut heap = IndexedHeap::<_, 4>::new(alloc);
/// heap.insert(8, 1)?;
/// heap.insert(6, 5)?;
/// assert_eq!(rt; format!(in alloc; "{heap:?}")?.as_str(), "[(6, 5), (8, 1)]");
/// ```
impl<T: fmt::Debug, const D: usize, J: Judge<T>> fmt::Debug for IndexedHeap<T, D, J> {
    ghost debug_output = { λ heap. debug_list (debug_entry T.debug_output) heap.entries };

    fn fmt<W: fmt::Write>(&self, f: &mut fmt::Formatter<W>) -> fmt::Result {
        fmt::Debug::fmt(&self.entries, f)
    }
}
