//! The key of a pair at a place, in a heap of pairs whose judge compares the other part.
ghost use Rattle.std.specs.Prelude.{◌≡◌, ◌<◌, length, set, slice_get, Some};
ghost use Rattle.dary_heap.specs.HeapOrder.{IsHeapOrdered};

use super::DaryHeap;
use crate::sift::Judge;
use std::mem;

impl<K, T, const D: usize, J: Judge<(K, T)>> DaryHeap<(K, T), D, J> {
    /// Puts another key into the pair at a place, and returns the one that was there. Takes *O*(1).
    ///
    /// No pair moves, and the capacity stays the same. It is for pairs `(key, item)` of a judge that compares items alone.
    ///
    /// # Preconditions
    ///
    /// - `place` is below the length.
    /// - The pairs are heap ordered with the new key. They are with any, if the judge compares no keys.
    ///
    /// # Examples
    ///
    /// ```
    /// use dary_heap::BinaryHeap;
    /// let mut heap = BinaryHeap::from(vec![in alloc; (9, 'a'), (5, 'b')]?);
    /// assert_eq!(rt; heap.replace_key_at(1, 7), 5);
    /// assert_eq!(rt; heap.as_slice(), [(9, 'a'), (7, 'b')].as_slice());
    /// ```
    #[inline]
    pub fn replace_key_at(&mut self, place: usize, key: K) -> K
        requires inside { place < length self.old.items }
        requires ordered { (pair : K × T) → slice_get self.old.items place ≡ Some pair
            → IsHeapOrdered J.order D (set self.old.items place (key, pair.1)) }
        ensures replaced { (pair : K × T) → slice_get self.old.items place ≡ Some pair
            → (result ≡ pair.0) × (self.new.items ≡ set self.old.items place (key, pair.1)) }
        ensures ordered { IsHeapOrdered J.order D self.new.items }
        ensures uncounted { self.new.comparisons ≡ self.old.comparisons }
        ensures capacity { self.new.capacity ≡ self.old.capacity }
    {
        mem::replace(&mut self.items[place].0, key)
    }
}
