//! The iterator that pops the entries of a heap.
ghost use Rattle.std.specs.Prelude.{◌≡◌, ◌^◌, ◌<◌, length};
ghost use Rattle.dary_heap.specs.Popping.{GivesDescending, IsPop};
ghost use Rattle.indexed_heap.specs.Entries.{AreSound, by_item};
ghost use Rattle.indexed_heap.specs.Iterating.{contents};

use crate::heap::IndexedHeap;
use crate::judge::ByItem;
use dary_heap::sift::{ByOrd, Judge};

/// An iterator over the entries of a heap in descending order of the items. Each `next` is a pop.
///
/// [`IndexedHeap::into_iter_sorted`] returns it. A clause sees it as the heap of pairs that it pops from.
///
/// # Examples
///
/// ```
/// use indexed_heap::IndexedHeap;
/// let mut heap = IndexedHeap::<_, 4>::new(alloc);
/// heap.insert(8, 1)?;
/// heap.insert(6, 5)?;
/// let mut entries = heap.into_iter_sorted();
/// assert_eq!(rt; entries.len(), 2);
/// assert_eq!(rt; entries.next(), Some((6, 5)));
/// ```
pub type IntoIterSorted<T, const D: usize, J = ByOrd> = dary_heap::IntoIterSorted<
    (usize, T),
    D,
    ByItem<J>,
>;

impl<T, const D: usize, J: Judge<T>> IndexedHeap<T, D, J> {
    /// Returns an iterator over the entries in descending order of the items. It allocates no memory.
    ///
    /// Entries of equal items come in the order in which pops return them. The call takes no comparison, and each
    /// `next` at most as many as a [`pop`](IndexedHeap::pop).
    ///
    /// # Examples
    ///
    /// ```
    /// use indexed_heap::IndexedHeap;
    /// let mut heap = IndexedHeap::<_, 4>::new(alloc);
    /// for (key, item) in [20, 50, 30].into_iter().enumerate() {
    ///     heap.insert(key, item)?;
    /// }
    /// let greatest: Vec<(usize, i32)> = heap.into_iter_sorted().take(2).collect(alloc)?;
    /// assert_eq!(rt; greatest.as_slice(), [(1, 50), (2, 30)].as_slice());
    /// ```
    #[tactic(auto, using(crate::proofs::Sound::sound))]
    pub fn into_iter_sorted(self) -> IntoIterSorted<T, D, J>
        ensures heap { result ≡ contents self }
        ensures sound { AreSound J.order D self.entries }
        ensures fits { length self.entries < 2 ^ 64 }

        // Calls of `next` give a greatest part of the entries in descending order of the items, each once, and up
        // to `None` all of them.
        ensures descending { GivesDescending (by_item J.order) (IsPop (by_item J.order) D)
            (λ heap. heap.items) result }
    {
        let IndexedHeap { entries, places: _ } = self;
        entries.into_iter_sorted()
    }
}
