//! The entries of another heap, which are inserted all at once.
ghost use Rattle.std.specs.Prelude.{◌≡◌, ℕ, ◌+◌, ◌*◌, ◌<◌, ◌≤◌, ◌⊎◌, [], length, max, IsOk, OnErr, OnOk};
ghost use Rattle.std.specs.Option.{option_or};
ghost use Rattle.dary_heap.specs.Bounds.{RisesWithin, sink_bound};
ghost use Rattle.dary_heap.specs.HeapOrder.{IsHeapOrdered};
ghost use Rattle.indexed_heap.specs.Entries.{AreSound, IsEntry, item_of};

use super::IndexedHeap;
use crate::judge::ByItem;
use dary_heap::DaryHeap;
use dary_heap::sift::Judge;
use std::alloc::AllocError;

impl<T, const D: usize, J: Judge<T>> IndexedHeap<T, D, J> {
    /// Inserts all entries of `other`, and leaves `other` empty. A key that has an item in both heaps gets that of
    /// `other`, and the one that it had is dropped.
    ///
    /// [`key_capacity`](IndexedHeap::key_capacity) is then the greater of the two. `other` keeps its room. Each entry of
    /// `other` takes at most `D` comparisons for each level of the tree, and one more, by the judge of this heap.
    ///
    /// # Errors
    ///
    /// Returns `AllocError` if memory allocation fails. The entries of both heaps are then as they were, no items were
    /// compared, and this heap has as much room or more. It doesn't fail if there is room for the entries of both, and `key_capacity` isn't less than
    /// that of `other`.
    ///
    /// # Examples
    ///
    /// ```
    /// use indexed_heap::IndexedHeap;
    /// let mut jobs = IndexedHeap::<_, 4>::new(alloc);
    /// let mut others = IndexedHeap::<_, 4>::new(alloc);
    /// for (key, item) in [(3, 50), (8, 10)] {
    ///     jobs.insert(key, item)?;
    ///     others.insert(key + 5, item + 20)?;
    /// }
    /// jobs.append(&mut others)?;
    /// assert_eq!(rt; jobs.len(), 3);
    /// assert_eq!(rt; jobs.get(8), Some(&70));
    /// assert!(rt; others.is_empty());
    /// ```
    pub fn append(&mut self, other: &mut Self) -> Result<(), AllocError>
    where
        T: Drop,
        ensures items { OnOk result ((key : ℕ) → item_of key self.new.entries
            ≡ option_or (item_of key other.old.entries) (item_of key self.old.entries)) }
        ensures emptied { OnOk result (other.new.entries ≡ []) }
        ensures len { length self.new.entries ≤ length self.old.entries + length other.old.entries }
        ensures sound { AreSound J.order D self.new.entries }
        ensures counted { RisesWithin self.old.comparisons self.new.comparisons (length other.old.entries
            * (sink_bound D (length self.old.entries + length other.old.entries) + 1)) }
        ensures other_uncounted { other.new.comparisons ≡ other.old.comparisons }
        ensures capacity { self.old.capacity ≤ self.new.capacity }
        ensures kept { length self.old.entries + length other.old.entries ≤ self.old.capacity
            → self.new.capacity ≡ self.old.capacity }
        ensures keys { self.old.keys ≤ self.new.keys }
        ensures keyed { OnOk result (self.new.keys ≡ max self.old.keys other.old.keys) }
        ensures other_capacity { other.new.capacity ≡ other.old.capacity }
        ensures other_keys { other.new.keys ≡ other.old.keys }

        // It fails only if room was missing, and then no entry has moved.
        ensures succeeds { length self.old.entries + length other.old.entries ≤ self.old.capacity
            → other.old.keys ≤ self.old.keys → IsOk result }
        ensures full { OnErr result ((self.old.capacity < length self.old.entries
            + length other.old.entries) ⊎ (self.old.keys < other.old.keys)) }
        ensures unchanged { OnErr result (self.new.entries ≡ self.old.entries) }
        ensures other_unchanged { OnErr result (other.new.entries ≡ other.old.entries) }
        ensures uncounted { OnErr result (self.new.comparisons ≡ self.old.comparisons) }
    {
        self.reserve(other.len(), other.key_capacity())?;
        insert_all(self, &mut other.entries);
        Ok(())
    }
}

/// Moves entries into a heap that has room for each and for its key.
fn insert_all<T: Drop, J: Judge<T>, const D: usize>(
    heap: &mut IndexedHeap<T, D, J>,
    entries: &mut DaryHeap<(usize, T), D, ByItem<J>>,
)
    requires room { length heap.old.entries + length entries.old.items ≤ heap.old.capacity }
    requires keyed { (at key : ℕ) → IsEntry entries.old.items at key → key < heap.old.keys }
    requires sound { AreSound J.order D heap.old.entries }
    ensures items { (key : ℕ) → item_of key heap.new.entries
        ≡ option_or (item_of key entries.old.items) (item_of key heap.old.entries) }
    ensures emptied { entries.new.items ≡ [] }
    ensures len { length heap.new.entries ≤ length heap.old.entries + length entries.old.items }
    ensures sound { AreSound J.order D heap.new.entries }
    ensures counted { RisesWithin heap.old.comparisons heap.new.comparisons (length entries.old.items
        * (sink_bound D (length heap.old.entries + length entries.old.items) + 1)) }
    ensures uncounted { entries.new.comparisons ≡ entries.old.comparisons }
    ensures capacity { heap.new.capacity ≡ heap.old.capacity }
    ensures keys { heap.new.keys ≡ heap.old.keys }
    ensures entries_capacity { entries.new.capacity ≡ entries.old.capacity }
{
    while !entries.is_empty() {
        let last = entries.len() - 1;
        let ((key, item), _) = entries.remove_at_returning_place(last);
        // (there is room, so it doesn't fail)
        let _ = heap.insert(key, item);
    }
}
