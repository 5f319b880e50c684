//! The iterator that pops the entries of a heap.
ghost use Rattle.std.specs.Prelude.{◌≡◌, ◌^◌, ◌<◌, length};
ghost use Rattle.std.specs.Iterator.{item_count};
ghost use Rattle.dary_heap.specs.Popping.{GivesDescending};
ghost use Rattle.dary_heap.specs.SizeHints.{HintsExactly};
ghost use Rattle.named_heap.specs.Entries.{AreSound, by_item};
ghost use Rattle.named_heap.specs.Iterating.{PopsNext};

use crate::heap::NamedHeap;
use dary_heap::sift::{ByOrd, Judge};
use std::hash::{BuildHasher, BuildHasherDefault, FoldHasher, Hash};
use std::iter::FusedIterator;
use std::marker::Model;

/// An iterator over the entries of a heap in descending order of the items. Each `next` is a pop.
///
/// [`NamedHeap::into_iter_sorted`] returns it. A clause sees it as the heap that it pops from.
///
/// # Examples
///
/// ```
/// use named_heap::NamedHeap;
/// let mut heap = NamedHeap::<_, _, 4>::new(alloc);
/// heap.insert("wash", 1)?;
/// heap.insert("cook", 5)?;
/// let mut entries = heap.into_iter_sorted();
/// assert_eq!(rt; entries.len(), 2);
/// assert_eq!(rt; entries.next(), Some(("cook", 5)));
/// ```
#[derive(Drop)]
pub struct IntoIterSorted<
    K: Eq + Hash,
    T,
    const D: usize,
    J: Judge<T> = ByOrd,
    S: BuildHasher = BuildHasherDefault<FoldHasher>,
> {
    heap: NamedHeap<K, T, D, J, S>,
}

impl<K: Eq + Hash, T, const D: usize, J: Judge<T>, S: BuildHasher> Model
    for IntoIterSorted<K, T, D, J, S> {
    ghost use Rattle.named_heap.specs.Entries.{Named};

    ghost Value = { Named K T };

    ghost view = { λ it. it.heap };
}

impl<K: Eq + Hash, T, const D: usize, J: Judge<T>, S: BuildHasher> NamedHeap<K, T, D, J, S> {
    /// Returns an iterator over the entries in descending order of the items. It allocates no memory.
    ///
    /// Entries of equal items come in the order in which pops return them. The call takes no comparison, and each
    /// `next` at most as many as a [`pop`](NamedHeap::pop).
    ///
    /// # Examples
    ///
    /// ```
    /// use named_heap::NamedHeap;
    /// let mut heap = NamedHeap::<_, _, 4>::new(alloc);
    /// for (name, item) in [("ann", 20), ("bob", 50), ("cal", 30)] {
    ///     heap.insert(name, item)?;
    /// }
    /// let greatest: Vec<(&str, i32)> = heap.into_iter_sorted().take(2).collect(alloc)?;
    /// assert_eq!(rt; greatest.as_slice(), [("bob", 50), ("cal", 30)].as_slice());
    /// ```
    pub fn into_iter_sorted(self) -> IntoIterSorted<K, T, D, J, S>
        ensures heap { result ≡ self }
        ensures sound { AreSound K.eq J.order D self.entries }
        ensures fits { length self.entries < 2 ^ 64 }

        // Calls of `next` give a greatest part of the entries in descending order of the items, each once, and up
        // to `None` all of them.
        ensures descending { GivesDescending (by_item J.order) (PopsNext J.order D)
            (λ heap. heap.entries) result }
    {
        // (`len` is called for its clauses)
        let _len = self.len();
        IntoIterSorted { heap: self }
    }
}

impl<
    K: Eq + Hash + Drop,
    T: Drop,
    const D: usize,
    J: Judge<T> + Drop,
    S: BuildHasher + Drop,
> Iterator for IntoIterSorted<K, T, D, J, S> {
    type Item = (K, T);

    ghost next_gives = { PopsNext J.order D };

    ghost remaining = { item_count (λ heap. heap.entries) };

    fn next(&mut self) -> Option<(K, T)> {
        self.heap.pop()
    }

    fn size_hint(&self) -> (usize, Option<usize>)
        ensures { HintsExactly self.now.entries result }
    {
        let len = self.len();
        (len, Some(len))
    }
}

impl<
    K: Eq + Hash + Drop,
    T: Drop,
    const D: usize,
    J: Judge<T> + Drop,
    S: BuildHasher + Drop,
> ExactSizeIterator for IntoIterSorted<K, T, D, J, S> {
    fn len(&self) -> usize {
        self.heap.len()
    }
}

impl<
    K: Eq + Hash + Drop,
    T: Drop,
    const D: usize,
    J: Judge<T> + Drop,
    S: BuildHasher + Drop,
> FusedIterator for IntoIterSorted<K, T, D, J, S> {}
