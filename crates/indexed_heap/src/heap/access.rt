//! What is read of a heap by key, and its first entry.
ghost use Rattle.std.specs.Prelude.{◌≡◌, ◌<◌, ◌↔◌, length, slice_get, Some, Contains, IsSome, IfSome, IfNone};
ghost use Rattle.std.specs.Bool.{OnTrue, OnFalse};
ghost use Rattle.std.specs.Option.{option_copied};
ghost use Rattle.dary_heap.specs.Bag.{IsGreatest};
ghost use Rattle.indexed_heap.specs.Entries.{AreSound, IsAbsent, by_item, item_of};

use super::IndexedHeap;
use dary_heap::sift::Judge;

impl<T, const D: usize, J: Judge<T>> IndexedHeap<T, D, J> {
    /// Returns a reference to the item of a key, or `None` if it has none. Takes *O*(1).
    ///
    /// # Examples
    ///
    /// ```
    /// use indexed_heap::IndexedHeap;
    /// let mut heap = IndexedHeap::<_, 4>::new(alloc);
    /// heap.insert(3, "wash")?;
    /// assert_eq!(rt; heap.get(3), Some(&"wash"));
    /// assert_eq!(rt; heap.get(2), None);
    /// ```
    pub fn get(&self, key: usize) -> Option<&T>
        ensures item { IfSome result (λ item. Contains self.now.entries (key, item.now)) }
        ensures absent { IfNone result (IsAbsent key self.now.entries) }
        ensures map { option_copied result ≡ item_of key self.now.entries }
    {
        let Some(at) = self.place_of(key) else {
            return None;
        };
        Some(&self.as_slice()[at].1)
    }

    /// Returns `true` if a key has an item. Takes *O*(1).
    ///
    /// # Examples
    ///
    /// ```
    /// use indexed_heap::IndexedHeap;
    /// let mut heap = IndexedHeap::<_, 4>::new(alloc);
    /// heap.insert(3, "wash")?;
    /// assert!(rt; heap.contains_key(3));
    /// assert!(rt; !heap.contains_key(usize::MAX));
    /// ```
    pub fn contains_key(&self, key: usize) -> bool
        ensures present { OnTrue result (IsAbsent key self.now.entries → ⊥) }
        ensures absent { OnFalse result (IsAbsent key self.now.entries) }
    {
        self.place_of(key).is_some()
    }

    /// Returns an entry with a greatest item, or `None` if there are no entries. Takes *O*(1).
    ///
    /// It is the first entry of [`as_slice`](IndexedHeap::as_slice), and the one that the next
    /// [`pop`](IndexedHeap::pop) returns.
    ///
    /// # Examples
    ///
    /// ```
    /// use indexed_heap::IndexedHeap;
    /// let mut heap = IndexedHeap::<_, 4>::new(alloc);
    /// heap.insert(8, 10)?;
    /// heap.insert(6, 70)?;
    /// assert_eq!(rt; heap.peek(), Some((6, &70)));
    /// ```
    pub fn peek(&self) -> Option<(usize, &T)>
        ensures variant { IsSome result ↔ (0 < length self.now.entries) }
        ensures first { IfSome result (λ entry. slice_get self.now.entries 0
            ≡ Some (entry.0, entry.1.now)) }
        ensures greatest { IfSome result (λ entry. IsGreatest (by_item J.order) self.now.entries
            (entry.0, entry.1.now)) }
        ensures sound { AreSound J.order D self.now.entries }
    {
        let (key, item) = self.entries.peek()?;
        Some((*key, item))
    }
}
