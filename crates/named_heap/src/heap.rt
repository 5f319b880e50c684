//! The heap.
//!
//! A clause sees a heap as a `Named`: its entries in the order in which they are stored, how many more names there is
//! room for, and how many comparisons it made. No name has two entries, and the items are heap ordered, so the first
//! entry has a greatest item.
ghost use Rattle.std.specs.Prelude.{◌≡◌, ◌^◌, ◌<◌, [], length, ◌==◌};
ghost use Rattle.named_heap.specs.Entries.{AreSound, IsNew};

use dary_heap::sift::{ByOrd, Judge};
use indexed_heap::IndexedHeap;
use indexmap::IndexSet;
use std::alloc::Global;
use std::hash::{BuildHasher, BuildHasherDefault, FoldHasher, Hash};
use std::marker::Model;

mod access;
mod capacity;
mod change;
mod convert;
mod remove;

/// A priority queue of items with names. [`pop`](NamedHeap::pop) returns an entry, a name with its item, of which the
/// item is a greatest one: no other is strictly greater.
///
/// A name has one item at most. By its name an item is read, changed and removed, wherever it stands. Names are of any
/// type that can be hashed, and are looked up by what is `Equivalent` to one, as a `&str` is to a `String`.
///
/// The entries lie in one vector, read as a tree in which each place has up to `D` children. Arity 4 is a good
/// choice. Arity 0 acts as arity 1.
///
/// # Examples
///
/// ```
/// use named_heap::NamedHeap;
/// let mut jobs = NamedHeap::<_, _, 4>::new(alloc);
/// jobs.insert("wash", 20)?;
/// jobs.insert("cook", 50)?;
/// jobs.insert("read", 30)?;
/// assert_eq!(rt; jobs.insert("wash", 40), Ok(Some(20)));
/// assert_eq!(rt; jobs.remove("cook"), Some(("cook", 50)));
/// assert_eq!(rt; jobs.pop(), Some(("wash", 40)));
/// assert_eq!(rt; jobs.pop(), Some(("read", 30)));
/// assert_eq!(rt; jobs.pop(), None);
/// ```
///
/// Items in `Reverse` come out least first, and so do those of a heap that [`with_judge`](NamedHeap::with_judge)
/// makes by `LeastFirst`.
///
/// If memory allocation fails, an insert returns the name and the item, and the entries are as they were. After a
/// [`reserve`](NamedHeap::reserve) of enough room, or of a name that has an item, no insert fails:
///
/// ```
/// use named_heap::NamedHeap;
/// let mut heap = NamedHeap::<_, _, 4>::new(alloc);
/// heap.reserve(1)?;
/// assert_eq!(rt; heap.insert((3, 'c'), "wash"), Ok(None));
/// assert_eq!(rt; heap.insert((3, 'c'), "cook"), Ok(Some("wash")));
/// ```
#[derive(Drop)]
pub struct NamedHeap<
    K: Eq + Hash,
    T,
    const D: usize,
    J: Judge<T> = ByOrd,
    S: BuildHasher = BuildHasherDefault<FoldHasher>,
> {
    pub(crate) names: IndexSet<K, S>,
    pub(crate) heap: IndexedHeap<T, D, J>,
}

impl<K: Eq + Hash, T, const D: usize, J: Judge<T>, S: BuildHasher> Model
    for NamedHeap<K, T, D, J, S> {
    ghost use Rattle.named_heap.specs.Entries.{Named};
    ghost use Rattle.named_heap.specs.Names.{AreNamed, seen};

    ghost Value = { Named K T };

    ghost view = { λ heap. seen heap.names heap.heap };

    ghost invariant = { λ heap. AreNamed K.eq J.order D heap.names.keys heap.heap.entries };
}

impl<K: Eq + Hash, T: Ord, const D: usize> NamedHeap<K, T, D> {
    /// Returns an empty heap. Takes *O*(1).
    ///
    /// It allocates no memory before an item is inserted or room is reserved.
    ///
    /// # Examples
    ///
    /// ```
    /// use named_heap::NamedHeap;
    /// let mut heap = NamedHeap::<_, _, 4>::new(alloc);
    /// assert_eq!(rt; heap.room(), 0);
    /// heap.insert("wash", 10)?;
    /// assert_eq!(rt; heap.peek(), Some((&"wash", &10)));
    /// ```
    pub fn new(alloc: Global) -> Self
        ensures new { IsNew result }
    {
        NamedHeap::with_judge(alloc, ByOrd::new())
    }
}

impl<K: Eq + Hash, T, const D: usize, J: Judge<T>> NamedHeap<K, T, D, J> {
    /// Returns an empty heap that compares items by a judge: any order of your own. Takes *O*(1), without a
    /// comparison.
    ///
    /// # Examples
    ///
    /// ```
    /// use dary_heap::sift::{ByOrd, LeastFirst};
    /// use named_heap::NamedHeap;
    /// let mut heap = NamedHeap::<_, _, 4, _>::with_judge(alloc, LeastFirst(ByOrd::new()));
    /// heap.insert("wash", 5)?;
    /// heap.insert("cook", 2)?;
    /// assert_eq!(rt; heap.peek(), Some((&"cook", &2)));
    /// ```
    pub fn with_judge(alloc: Global, judge: J) -> Self
        ensures entries { result.entries ≡ [] }
        ensures room { result.room ≡ 0 }
        ensures comparisons { result.comparisons ≡ J.count judge }
    {
        NamedHeap::with_judge_and_hasher(alloc, judge, BuildHasherDefault::new())
    }
}

impl<K: Eq + Hash, T, const D: usize, J: Judge<T>, S: BuildHasher> NamedHeap<K, T, D, J, S> {
    /// Returns an empty heap that compares items by a judge, and hashes names by `hash_builder`. Takes *O*(1), without
    /// a comparison.
    ///
    /// The other constructors take a hasher whose seed is fixed. For names that an attacker picks, take std's
    /// `RandomState`.
    ///
    /// # Examples
    ///
    /// ```
    /// use dary_heap::sift::ByOrd;
    /// use named_heap::NamedHeap;
    /// use std::hash::RandomState;
    /// let hashers = RandomState::new(&rt)?;
    /// let mut heap = NamedHeap::<_, _, 4, ByOrd, RandomState>::with_judge_and_hasher(alloc, ByOrd::new(), hashers);
    /// heap.insert("wash", 5)?;
    /// assert_eq!(rt; heap.get("wash"), Some(&5));
    /// ```
    pub fn with_judge_and_hasher(alloc: Global, judge: J, hash_builder: S) -> Self
        ensures entries { result.entries ≡ [] }
        ensures room { result.room ≡ 0 }
        ensures comparisons { result.comparisons ≡ J.count judge }
    {
        NamedHeap {
            names: IndexSet::with_hasher(alloc, hash_builder),
            heap: IndexedHeap::with_judge(alloc, judge),
        }
    }

    /// Returns the judge by which the heap compares, for example to read its count.
    ///
    /// # Examples
    ///
    /// ```
    /// use dary_heap::sift::Tally;
    /// use named_heap::NamedHeap;
    /// let mut heap = NamedHeap::<_, _, 2, _>::with_judge(alloc, Tally::new());
    /// heap.insert("wash", 5)?;
    /// heap.insert("cook", 9)?;
    /// assert_eq!(rt; heap.judge().made(), 1);
    /// ```
    pub fn judge(&self) -> &J
        ensures counted { J.count result.now ≡ self.now.comparisons }
    {
        self.heap.judge()
    }

    /// Returns the number of entries. Takes *O*(1).
    ///
    /// # Examples
    ///
    /// ```
    /// use named_heap::NamedHeap;
    /// let mut heap = NamedHeap::<_, _, 4>::new(alloc);
    /// heap.insert("wash", 1)?;
    /// heap.insert("wash", 3)?;
    /// assert_eq!(rt; heap.len(), 1);
    /// ```
    pub fn len(&self) -> usize
        ensures len { result ≡ length self.now.entries }
        ensures bounded { result < 2 ^ 63 }
        ensures sound { AreSound K.eq J.order D self.now.entries }
    {
        self.heap.len()
    }

    /// Returns `true` if there are no entries. Takes *O*(1).
    ///
    /// # Examples
    ///
    /// ```
    /// use named_heap::NamedHeap;
    /// let mut heap = NamedHeap::<_, _, 4>::new(alloc);
    /// assert!(rt; heap.is_empty());
    /// heap.insert("wash", 1)?;
    /// assert!(rt; !heap.is_empty());
    /// ```
    pub fn is_empty(&self) -> bool
        ensures empty { result ≡ (length self.now.entries == 0) }
        ensures sound { AreSound K.eq J.order D self.now.entries }
    {
        self.heap.is_empty()
    }
}
