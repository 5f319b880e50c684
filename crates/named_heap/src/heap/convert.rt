//! Copies of heaps, empty ones in place of others, and what a heap shows as text.
ghost use Rattle.std.specs.Prelude.{◌≡◌, [], Contains, IfOk, IsOk};
ghost use Rattle.named_heap.specs.Entries.{IsNew};

use super::NamedHeap;
use dary_heap::sift::{ByOrd, Judge};
use std::alloc::{AllocError, Global};
use std::default::{Emptied, MadeWith};
use std::fmt;
use std::hash::{BuildHasher, Hash};

impl<K: Eq + Hash, T: Ord, const D: usize, S: BuildHasher> NamedHeap<K, T, D, ByOrd, S> {
    /// Returns a copy of the heap: clones of the names and the items, in the same order.
    ///
    /// # Preconditions
    ///
    /// - Each name's clone has the same value as the name, and each item's clone the same value as the item.
    ///
    /// # Errors
    ///
    /// Returns `AllocError` if memory allocation fails, here or in the `clone` of a name, an item or the hasher. If there
    /// are no entries, the call fails only if the hasher's `clone` does.
    ///
    /// # Examples
    ///
    /// ```
    /// use named_heap::NamedHeap;
    /// let mut heap = NamedHeap::<_, _, 4>::new(alloc);
    /// heap.insert("wash", 1)?;
    /// let copy = heap.clone()?;
    /// assert_eq!(rt; heap.remove("wash"), Some(("wash", 1)));
    /// assert_eq!(rt; copy.get("wash"), Some(&1));
    /// ```
    pub fn clone(&self) -> Result<Self, AllocError>
    where
        K: Clone + Drop,
        T: Clone + Drop,
        S: Clone,
        requires names { (x y : K) (item : T) → Contains self.now.entries (x, item) → K.is_clone x y → y ≡ x }
        requires items { (name : K) (x y : T) → Contains self.now.entries (name, x) → T.is_clone x y → y ≡ x }
        ensures entries { IfOk result (λ copy. copy.entries ≡ self.now.entries) }
        ensures uncounted { IfOk result (λ copy. copy.comparisons ≡ 0) }
        ensures succeeds { self.now.entries ≡ [] → ((hash_builder : S) → S.is_infallible hash_builder) → IsOk result }
    {
        if self.is_empty() {
            let hash_builder = self.names.hasher().clone()?;
            let alloc = *self.names.allocator();
            return Ok(NamedHeap::with_judge_and_hasher(alloc, ByOrd::new(), hash_builder));
        }
        let names = self.names.clone()?;
        let heap = self.heap.clone()?;
        Ok(NamedHeap { names, heap })
    }
}

/// Returns an empty heap, as [`NamedHeap::new`] does, for `or_default` and for `made_with` of a struct with a heap.
impl<K: Eq + Hash, T: Ord, const D: usize> MadeWith<Global> for NamedHeap<K, T, D> {
    ghost is_made_with = { λ heap. IsNew heap };

    fn made_with(alloc: Global) -> Self {
        NamedHeap::new(alloc)
    }
}

/// Returns an empty heap, which `mem::try_take` leaves in place of the one that it takes. It doesn't fail.
///
/// # Examples
///
/// ```
/// use named_heap::NamedHeap;
/// use std::mem;
///
/// let mut heap = NamedHeap::<_, _, 4>::new(alloc);
/// heap.insert("wash", 1)?;
/// assert_eq!(rt; mem::try_take(&mut heap)?.pop(), Some(("wash", 1)));
/// assert!(rt; heap.is_empty());
/// ```
impl<K: Eq + Hash, T: Ord, const D: usize> Emptied for NamedHeap<K, T, D> {
    ghost is_emptied = { λ heap. IsNew heap };

    fn emptied(like: &Self) -> Result<Self, AllocError>
        ensures empty { IfOk result (λ heap. IsNew heap) }
        ensures succeeds { IsOk result }
    {
        Ok(NamedHeap::new(*like.names.allocator()))
    }
}

/// Writes a map from the names to the items, in the order of [`iter`](NamedHeap::iter).
///
/// # Examples
///
/// ```
/// use named_heap::NamedHeap;
/// let mut heap = NamedHeap::<_, _, 4>::new(alloc);
/// heap.insert(8, 'a')?;
/// heap.insert(6, 'b')?;
/// assert_eq!(rt; format!(in alloc; "{heap:?}")?.as_str(), "{6: 'b', 8: 'a'}");
/// ```
impl<
    K: Eq + Hash + fmt::Debug,
    T: fmt::Debug,
    const D: usize,
    J: Judge<T>,
    S: BuildHasher,
> fmt::Debug for NamedHeap<K, T, D, J, S> {
    fn fmt<W: fmt::Write>(&self, f: &mut fmt::Formatter<W>) -> fmt::Result {
        f.debug_map().entries(self.iter()).finish()
    }
}
