//! The iterator that consumes a heap.
ghost use Rattle.std.specs.Prelude.{◌≡◌, ◌^◌, ◌<◌, ℕ, length};
ghost use Rattle.std.specs.Iterator.{YieldsFirst, YieldsLast};
ghost use Rattle.std.specs.Iterator.Runs.{YieldsInOrder, YieldsInReverse};

use crate::heap::IndexedHeap;
use dary_heap::sift::Judge;

/// An iterator over the entries of a heap, in the order in which they are stored.
///
/// The heap's `into_iter` returns it. A clause sees it as the list of the entries that are left.
///
/// # Examples
///
/// ```
/// use indexed_heap::IndexedHeap;
/// let mut heap = IndexedHeap::<_, 4>::new(alloc);
/// heap.insert(8, 1)?;
/// heap.insert(6, 5)?;
/// let mut entries = heap.into_iter();
/// assert_eq!(rt; entries.len(), 2);
/// assert_eq!(rt; entries.next_back(), Some((8, 1)));
/// assert_eq!(rt; entries.next(), Some((6, 5)));
/// ```
pub type IntoIter<T> = dary_heap::IntoIter<(usize, T)>;

/// Returns an iterator over the entries, in the order in which they are stored. It allocates no memory. Makes no
/// comparison.
///
/// # Examples
///
/// ```
/// use indexed_heap::IndexedHeap;
/// let mut heap = IndexedHeap::<_, 4>::new(alloc);
/// heap.insert(8, 1)?;
/// heap.insert(6, 5)?;
/// let entries: Vec<(usize, i32)> = heap.into_iter().collect(alloc)?;
/// assert_eq!(rt; entries.as_slice(), [(6, 5), (8, 1)].as_slice());
/// ```
impl<T: Drop, const D: usize, J: Judge<T> + Drop> IntoIterator for IndexedHeap<T, D, J> {
    type Item = (usize, T);

    type IntoIter = IntoIter<T>;

    ghost into_iter_gives = { λ heap it. (it ≡ heap.entries) × (length it < 2 ^ 64)
        × YieldsInOrder (YieldsFirst {A = ℕ × T} (λ rest. rest)) (λ rest. rest)
        × YieldsInReverse (YieldsLast {A = ℕ × T} (λ rest. rest)) (λ rest. rest) };

    fn into_iter(self) -> IntoIter<T> {
        let IndexedHeap { entries, .. } = self;
        entries.into_iter()
    }
}
