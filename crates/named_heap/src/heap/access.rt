//! What is read of a heap by name, and its first entry.
ghost use Rattle.std.specs.Prelude.{◌≡◌, ◌<◌, ◌↔◌, length, slice_get, is_some, option_copied, Some, IsSome, IfSome};
ghost use Rattle.std.specs.Map.{lookup};
ghost use Rattle.dary_heap.specs.Bag.{IsGreatest};
ghost use Rattle.named_heap.specs.Entries.{AreSound, by_item};

use super::NamedHeap;
use dary_heap::sift::Judge;
use indexmap::Equivalent;
use std::hash::{BuildHasher, Hash};

impl<K: Eq + Hash, T, const D: usize, J: Judge<T>, S: BuildHasher> NamedHeap<K, T, D, J, S> {
    /// Returns a reference to the item of a name, or `None` if it has none. Takes *O*(1) on average, without a
    /// comparison.
    ///
    /// # Examples
    ///
    /// ```
    /// use named_heap::NamedHeap;
    /// let mut heap = NamedHeap::<_, _, 4>::new(alloc);
    /// heap.insert((3, 'c'), "wash")?;
    /// assert_eq!(rt; heap.get(&(3, 'c')), Some(&"wash"));
    /// assert_eq!(rt; heap.get(&(3, 'd')), None);
    /// ```
    pub fn get<Q: Equivalent<K>>(&self, name: Q) -> Option<&T>
        ensures item { option_copied result ≡ lookup (Q.equivalent name) self.now.entries }
    {
        let key = self.names.get_index_of(name)?;
        self.heap.get(key)
    }

    /// Returns `true` if a name has an item. Takes *O*(1) on average.
    ///
    /// # Examples
    ///
    /// ```
    /// use named_heap::NamedHeap;
    /// let mut heap = NamedHeap::<_, _, 4>::new(alloc);
    /// heap.insert(7, "wash")?;
    /// assert!(rt; heap.contains_key(&7));
    /// assert!(rt; !heap.contains_key(&8));
    /// ```
    pub fn contains_key<Q: Equivalent<K>>(&self, name: Q) -> bool
        ensures { result ≡ is_some (lookup (Q.equivalent name) self.now.entries) }
    {
        self.get(name).is_some()
    }

    /// Returns an entry with a greatest item, or `None` if there are no entries. Takes *O*(1).
    ///
    /// It is the first entry of [`iter`](NamedHeap::iter), and the one that the next [`pop`](NamedHeap::pop) returns.
    ///
    /// # Examples
    ///
    /// ```
    /// use named_heap::NamedHeap;
    /// let mut heap = NamedHeap::<_, _, 4>::new(alloc);
    /// heap.insert("wash", 10)?;
    /// heap.insert("cook", 70)?;
    /// assert_eq!(rt; heap.peek(), Some((&"cook", &70)));
    /// ```
    pub fn peek(&self) -> Option<(&K, &T)>
        ensures variant { IsSome result ↔ (0 < length self.now.entries) }
        ensures first { IfSome result (λ entry. slice_get self.now.entries 0
            ≡ Some (entry.0.now, entry.1.now)) }
        ensures greatest { IfSome result (λ entry. IsGreatest (by_item J.order) self.now.entries
            (entry.0.now, entry.1.now)) }
        ensures sound { AreSound K.eq J.order D self.now.entries }
    {
        let (key, item) = self.heap.peek()?;
        Some((&self.names.as_slice()[key], item))
    }
}
