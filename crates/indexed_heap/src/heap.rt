//! The heap.
//!
//! A clause sees a heap as an `Indexed`: its entries in the order in which they are stored, how many there is room
//! for, below which number keys have a place, and how many comparisons it made. No key has two entries, and the
//! items are heap ordered, so the first entry has a greatest item.
ghost use Rattle.std.specs.Prelude.{◌≡◌, ◌^◌, ◌<◌, [], length, ◌==◌};
ghost use Rattle.indexed_heap.specs.Entries.{AreSound};

use crate::judge::ByItem;
use dary_heap::DaryHeap;
use dary_heap::sift::{ByOrd, Judge};
use std::alloc::Global;
use std::marker::Model;

mod access;
mod append;
mod capacity;
mod change;
mod convert;
mod remove;
mod rename;
mod table;

/// A priority queue of items with keys. [`pop`](IndexedHeap::pop) returns an entry, a key with its item, of which the
/// item is a greatest one: no other is strictly greater.
///
/// A key has one item at most. By its key an item is read, changed and removed, wherever it stands. Keys are numbers
/// of your own, such as those of nodes, of processes, or of places in a vector. The heap keeps a table with a word for
/// each number up to the greatest key so far, so small keys are best. [`reserve`](IndexedHeap::reserve) may make it
/// longer, and a shrink shorter. `usize::MAX` can't be a key: [`insert`](IndexedHeap::insert),
/// [`raise`](IndexedHeap::raise) and [`lower`](IndexedHeap::lower) fail for it.
///
/// The entries lie in one vector, read as a tree in which each place has up to `D` children. Arity 4 is a good
/// choice. Arity 0 acts as arity 1.
///
/// # Examples
///
/// ```
/// use indexed_heap::IndexedHeap;
/// let mut jobs = IndexedHeap::<_, 4>::new(alloc);
/// jobs.insert(7, 20)?;
/// jobs.insert(3, 50)?;
/// jobs.insert(5, 30)?;
/// assert_eq!(rt; jobs.insert(7, 40), Ok(Some(20)));
/// assert_eq!(rt; jobs.remove(3), Some(50));
/// assert_eq!(rt; jobs.pop(), Some((7, 40)));
/// assert_eq!(rt; jobs.pop(), Some((5, 30)));
/// assert_eq!(rt; jobs.pop(), None);
/// ```
///
/// Items in `Reverse` come out least first, and so do those of a heap that [`with_judge`](IndexedHeap::with_judge)
/// makes by `LeastFirst`.
///
/// If memory allocation fails, an insert returns the item, and the entries are as they were. After a
/// [`reserve`](IndexedHeap::reserve) of enough room, or with a key that has an item, no insert fails:
///
/// ```
/// use indexed_heap::IndexedHeap;
/// let mut heap = IndexedHeap::<_, 4>::new(alloc);
/// heap.reserve(1, 10)?;
/// assert_eq!(rt; heap.insert(9, "wash"), Ok(None));
/// assert_eq!(rt; heap.insert(9, "cook"), Ok(Some("wash")));
/// ```
#[derive(Drop)]
pub struct IndexedHeap<T, const D: usize, J: Judge<T> = ByOrd> {
    pub(crate) entries: DaryHeap<(usize, T), D, ByItem<J>>,
    pub(crate) places: Vec<usize>,
}

impl<T, const D: usize, J: Judge<T>> Model for IndexedHeap<T, D, J> {
    ghost use Rattle.std.specs.Prelude.{vec_len};
    ghost use Rattle.indexed_heap.specs.Entries.{Indexed};
    ghost use Rattle.indexed_heap.specs.Places.{AreRight};

    ghost Value = { Indexed T };

    ghost view = { λ heap. record {
      entries = heap.entries.items;
      capacity = heap.entries.capacity;
      keys = vec_len heap.places;
      comparisons = heap.entries.comparisons;
    } };

    ghost invariant = { λ heap. AreRight heap.entries.items heap.places.items };
}

impl<T: Ord, const D: usize> IndexedHeap<T, D> {
    /// Returns an empty heap. Takes *O*(1).
    ///
    /// It allocates no memory before an item is inserted or room is reserved.
    ///
    /// # Examples
    ///
    /// ```
    /// use indexed_heap::IndexedHeap;
    /// let mut heap = IndexedHeap::<_, 4>::new(alloc);
    /// heap.insert(2, 10)?;
    /// assert_eq!(rt; heap.as_slice(), [(2, 10)].as_slice());
    /// ```
    pub fn new(alloc: Global) -> Self
        ensures entries { result.entries ≡ [] }
        ensures capacity { result.capacity ≡ 0 }
        ensures keys { result.keys ≡ 0 }
        ensures uncounted { result.comparisons ≡ 0 }
    {
        IndexedHeap::with_judge(alloc, ByOrd::new())
    }
}

impl<T, const D: usize, J: Judge<T>> IndexedHeap<T, D, J> {
    /// Returns an empty heap that compares items by a judge: any order of your own. Takes *O*(1), without a
    /// comparison.
    ///
    /// # Examples
    ///
    /// ```
    /// use dary_heap::sift::{ByOrd, LeastFirst};
    /// use indexed_heap::IndexedHeap;
    /// let mut heap = IndexedHeap::<_, 4, _>::with_judge(alloc, LeastFirst(ByOrd::new()));
    /// heap.insert(0, 5)?;
    /// heap.insert(1, 2)?;
    /// assert_eq!(rt; heap.peek(), Some((1, &2)));
    /// ```
    pub fn with_judge(alloc: Global, judge: J) -> Self
        ensures entries { result.entries ≡ [] }
        ensures capacity { result.capacity ≡ 0 }
        ensures keys { result.keys ≡ 0 }
        ensures comparisons { result.comparisons ≡ J.count judge }
    {
        IndexedHeap {
            entries: DaryHeap::with_judge(alloc, ByItem { items: judge }),
            places: Vec::new(alloc),
        }
    }

    /// Returns the judge by which the heap compares, for example to read its count.
    ///
    /// # Examples
    ///
    /// ```
    /// use dary_heap::sift::Tally;
    /// use indexed_heap::IndexedHeap;
    /// let mut heap = IndexedHeap::<_, 2, _>::with_judge(alloc, Tally::new());
    /// heap.insert(0, 5)?;
    /// heap.insert(1, 9)?;
    /// assert_eq!(rt; heap.judge().made(), 1);
    /// ```
    pub fn judge(&self) -> &J
        ensures counted { J.count result.now ≡ self.now.comparisons }
    {
        &self.entries.judge().items
    }

    /// Returns the number of entries. Takes *O*(1).
    ///
    /// # Examples
    ///
    /// ```
    /// use indexed_heap::IndexedHeap;
    /// let mut heap = IndexedHeap::<_, 4>::new(alloc);
    /// heap.insert(8, 1)?;
    /// heap.insert(8, 3)?;
    /// assert_eq!(rt; heap.len(), 1);
    /// ```
    pub fn len(&self) -> usize
        ensures len { result ≡ length self.now.entries }
        ensures bounded { result < 2 ^ 63 }
        ensures sound { AreSound J.order D self.now.entries }
    {
        self.entries.len()
    }

    /// Returns `true` if there are no entries. Takes *O*(1).
    ///
    /// # Examples
    ///
    /// ```
    /// use indexed_heap::IndexedHeap;
    /// let mut heap = IndexedHeap::<_, 4>::new(alloc);
    /// assert!(rt; heap.is_empty());
    /// heap.insert(8, 1)?;
    /// assert!(rt; !heap.is_empty());
    /// ```
    pub fn is_empty(&self) -> bool
        ensures empty { result ≡ (length self.now.entries == 0) }
        ensures sound { AreSound J.order D self.now.entries }
    {
        self.entries.is_empty()
    }

    /// Returns the entries in the order in which they are stored. Takes *O*(1).
    ///
    /// No item is strictly greater than that of the parent, which is the entry at `(place - 1) / D`. So the first
    /// item is a greatest one.
    ///
    /// # Examples
    ///
    /// ```
    /// use indexed_heap::IndexedHeap;
    /// let mut heap = IndexedHeap::<_, 2>::new(alloc);
    /// heap.insert(6, 1)?;
    /// heap.insert(4, 9)?;
    /// assert_eq!(rt; heap.as_slice(), [(4, 9), (6, 1)].as_slice());
    /// ```
    pub fn as_slice(&self) -> &[(usize, T)]
        ensures entries { result.now ≡ self.now.entries }
        ensures sound { AreSound J.order D self.now.entries }
    {
        self.entries.as_slice()
    }
}
