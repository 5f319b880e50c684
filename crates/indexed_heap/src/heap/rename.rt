//! An entry that gets another key.
ghost use Rattle.std.specs.Prelude.{◌≡◌, ◌<◌, map};
ghost use Rattle.indexed_heap.specs.Entries.{AreSound, IsAbsent};
ghost use Rattle.indexed_heap.specs.Renaming.{rekeyed};

use super::IndexedHeap;
use dary_heap::sift::Judge;

impl<T, const D: usize, J: Judge<T>> IndexedHeap<T, D, J> {
    /// Gives the entry of a key another key, which has no item so far. If `key` has no item, nothing changes. Takes
    /// *O*(1).
    ///
    /// The entry stays where it is, with its item. This serves callers who number things without gaps: when one leaves,
    /// the last one gets its number.
    ///
    /// # Preconditions
    ///
    /// - `to` has no item.
    /// - `to` is below [`key_capacity`](IndexedHeap::key_capacity). A key is if it ever had an item, up to a shrink.
    ///
    /// # Examples
    ///
    /// ```
    /// use indexed_heap::IndexedHeap;
    /// let mut heap = IndexedHeap::<_, 4>::new(alloc);
    /// for (key, item) in [20, 50, 30].into_iter().enumerate() {
    ///     heap.insert(key, item)?;
    /// }
    /// assert_eq!(rt; heap.remove(0), Some(20));
    /// heap.rename(2, 0);
    /// assert_eq!(rt; heap.get(0), Some(&30));
    /// assert_eq!(rt; heap.get(2), None);
    /// ```
    pub fn rename(&mut self, key: usize, to: usize)
        requires free { IsAbsent to self.old.entries }
        requires room { to < self.old.keys }
        ensures renamed { self.new.entries ≡ map (rekeyed key to) self.old.entries }
        ensures sound { AreSound J.order D self.new.entries }
        ensures capacity { self.new.capacity ≡ self.old.capacity }
        ensures keys { self.new.keys ≡ self.old.keys }
        ensures uncounted { self.new.comparisons ≡ self.old.comparisons }
    {
        let Some(at) = self.place_of(key) else {
            return;
        };
        self.entries.replace_key_at(at, to);
        self.places[to] = at;
    }
}
