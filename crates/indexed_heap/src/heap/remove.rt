//! Entries that leave a heap: that of a key, one with a greatest item, those that a predicate rejects, or all.
ghost use Rattle.std.specs.Prelude.{◌≡◌, ℕ, ◌+◌, ◌-◌, ◌<◌, ◌≤◌, ◌⊎◌, ◌↔◌, [], ◌∷◌, length, slice_get, Some, None, Bool, is_some, IsSome, IfSome, IfNone, if◌then◌else◌};
ghost use Rattle.dary_heap.specs.Bag.{IsSameBag, IsGreatest};
ghost use Rattle.dary_heap.specs.Bounds.{RisesWithin, pop_bound};
ghost use Rattle.dary_heap.specs.Filtering.{IsRetained};
ghost use Rattle.indexed_heap.specs.Entries.{AreSound, IsAbsent, Loses, MayAnswer, MayAsk, by_item, item_of};
ghost use Rattle.indexed_heap.specs.Filtering.{CalledAtEntry, TakesEntriesInTurn, TakesEntry};
ghost use Rattle.indexed_heap.specs.Iterating.{contents};

use super::IndexedHeap;
use super::table::write_places;
use dary_heap::sift::Judge;

impl<T, const D: usize, J: Judge<T>> IndexedHeap<T, D, J> {
    /// Removes the entry of a key and returns its item, or returns `None` if the key has none.
    ///
    /// No other entry changes, and no room is given back, so if it returns an item, an insert of the key can't fail
    /// next. The call takes at most as many comparisons as a [`pop`](IndexedHeap::pop), and none if it returns `None`.
    ///
    /// # Examples
    ///
    /// ```
    /// use indexed_heap::IndexedHeap;
    /// let mut timers = IndexedHeap::<_, 4>::new(alloc);
    /// timers.insert(3, 50)?;
    /// timers.insert(8, 10)?;
    /// assert_eq!(rt; timers.remove(3), Some(50));
    /// assert_eq!(rt; timers.remove(3), None);
    /// assert_eq!(rt; timers.peek(), Some((8, &10)));
    /// ```
    pub fn remove(&mut self, key: usize) -> Option<T>
        ensures loses { Loses key self.old.entries result self.new.entries }
        ensures given { result ≡ item_of key self.old.entries }
        ensures gone { IsAbsent key self.new.entries }
        ensures len { length self.new.entries + (if is_some result then 1 else 0)
            ≡ length self.old.entries }
        ensures leaves_room { IfSome result (λ item. (length self.new.entries < self.new.capacity)
            × (key < self.new.keys)) }
        ensures capacity { self.new.capacity ≡ self.old.capacity }
        ensures keys { self.new.keys ≡ self.old.keys }
        ensures counted { RisesWithin self.old.comparisons self.new.comparisons
            (pop_bound D (length self.old.entries)) }
        ensures sound { AreSound J.order D self.new.entries }

        // If the key has no item nothing changes.
        ensures unchanged { IfNone result (self.new ≡ self.old) }
    {
        let Some(at) = self.place_of(key) else {
            return None;
        };
        Some(self.take_out(at).1)
    }

    /// Removes an entry with a greatest item and returns it, or returns `None` if there are no entries.
    ///
    /// It is the entry that [`peek`](IndexedHeap::peek) returns. No room is given back, so an insert of its key can't
    /// fail next. A pop takes at most as many comparisons as the arity times the depth of the last place that remains,
    /// which is *O*(log *n*) from arity 2 on.
    ///
    /// # Examples
    ///
    /// ```
    /// use indexed_heap::IndexedHeap;
    /// let mut heap = IndexedHeap::<_, 4>::new(alloc);
    /// heap.insert(8, 1)?;
    /// heap.insert(6, 3)?;
    /// assert_eq!(rt; heap.pop(), Some((6, 3)));
    /// assert_eq!(rt; heap.pop(), Some((8, 1)));
    /// assert_eq!(rt; heap.pop(), None);
    /// ```
    pub fn pop(&mut self) -> Option<(usize, T)>
        ensures variant { IsSome result ↔ (0 < length self.old.entries) }
        ensures first { result ≡ slice_get self.old.entries 0 }
        ensures greatest { IfSome result (IsGreatest (by_item J.order) self.old.entries) }
        ensures bag { IfSome result (λ entry. IsSameBag self.old.entries
            (entry ∷ self.new.entries)) }
        ensures gone { IfSome result (λ entry. IsAbsent entry.0 self.new.entries) }
        ensures leaves_room { IfSome result (λ entry. (length self.new.entries < self.new.capacity)
            × (entry.0 < self.new.keys)) }
        ensures len { length self.new.entries ≡ length self.old.entries - 1 }
        ensures capacity { self.new.capacity ≡ self.old.capacity }
        ensures keys { self.new.keys ≡ self.old.keys }
        ensures counted { RisesWithin self.old.comparisons self.new.comparisons
            (pop_bound D (length self.old.entries)) }
        ensures sound { AreSound J.order D self.new.entries }

        // If there is no entry nothing changes.
        ensures unchanged { IfNone result (self.new ≡ self.old) }
    {
        if self.is_empty() {
            return None;
        }
        Some(self.take_out(0))
    }

    /// Removes an entry with a greatest item and returns it, if the predicate returns `true` for its key and its item.
    ///
    /// The predicate is called once, on the entry that [`peek`](IndexedHeap::peek) returns, and not at all if there
    /// are no entries. If it returns `false`, or there are no entries, the call returns `None` and nothing changes.
    /// It takes at most as many comparisons as a [`pop`](IndexedHeap::pop), and none if it returns `None`.
    ///
    /// # Preconditions
    ///
    /// - `predicate` may be called on the entry that `peek` returns.
    ///
    /// # Examples
    ///
    /// ```
    /// use dary_heap::sift::{ByOrd, LeastFirst};
    /// use indexed_heap::IndexedHeap;
    /// let mut deadlines = IndexedHeap::<_, 4, _>::with_judge(alloc, LeastFirst(ByOrd::new()));
    /// deadlines.insert(3, 90)?;
    /// deadlines.insert(5, 40)?;
    /// assert_eq!(rt; deadlines.pop_if(|_, time| *time <= 50), Some((5, 40)));
    /// assert_eq!(rt; deadlines.pop_if(|_, time| *time <= 50), None);
    /// ```
    pub fn pop_if<F: FnOnce(usize, &T) -> bool>(&mut self, predicate: F) -> Option<(usize, T)>
        requires { (entry : ℕ × T) → slice_get self.old.entries 0 ≡ Some entry
            → MayAsk F.FnOnce predicate entry }
        ensures empty { self.old.entries ≡ [] → result ≡ None }
        ensures asked { (entry : ℕ × T) → slice_get self.old.entries 0 ≡ Some entry
            → (answer : Bool) × MayAnswer F.FnOnce predicate entry answer
            × (result ≡ (if answer then Some entry else None)) }
        ensures shown { (entry : ℕ × T) → slice_get self.old.entries 0 ≡ Some entry
            → IsGreatest (by_item J.order) self.old.entries entry }
        ensures greatest { IfSome result (IsGreatest (by_item J.order) self.old.entries) }
        ensures bag { IfSome result (λ entry. IsSameBag self.old.entries
            (entry ∷ self.new.entries)) }
        ensures gone { IfSome result (λ entry. IsAbsent entry.0 self.new.entries) }
        ensures len { length self.new.entries + (if is_some result then 1 else 0)
            ≡ length self.old.entries }
        ensures capacity { self.new.capacity ≡ self.old.capacity }
        ensures keys { self.new.keys ≡ self.old.keys }
        ensures counted { RisesWithin self.old.comparisons self.new.comparisons
            (pop_bound D (length self.old.entries)) }
        ensures sound { AreSound J.order D self.new.entries }

        // If nothing is popped nothing changes.
        ensures unchanged { IfNone result (self.new ≡ self.old) }
    {
        let (key, item) = self.peek()?;
        if predicate(key, item) {
            self.pop()
        } else {
            None
        }
    }

    /// Keeps the entries for which the predicate returns `true` for the key and the item, and drops the others.
    ///
    /// The predicate is called once for each entry, in the order of [`as_slice`](IndexedHeap::as_slice). If it returns
    /// `true` for all, nothing changes. No room is given back. The call takes as many comparisons as `retain` of a
    /// `DaryHeap`, so none if it drops nothing, and writes the place of each entry that is left.
    ///
    /// # Preconditions
    ///
    /// - `f` may be called on each entry in turn, in the order of the slice, whatever it returns.
    ///
    /// # Examples
    ///
    /// ```
    /// use indexed_heap::IndexedHeap;
    /// let mut timers = IndexedHeap::<_, 4>::new(alloc);
    /// for (key, due) in [(3, 50), (8, 10), (5, 30)] {
    ///     timers.insert(key, due)?;
    /// }
    /// timers.retain(|key, due| key != 5 && *due > 20);
    /// assert_eq!(rt; timers.as_slice(), [(3, 50)].as_slice());
    /// assert_eq!(rt; timers.get(8), None);
    /// ```
    pub fn retain<F: FnMut(usize, &T) -> bool>(&mut self, mut f: F)
    where
        T: Drop,
        requires { F.IsAlwaysCallable f ⊎ TakesEntriesInTurn F.FnMut f self.old.entries }
        ensures retained { IsRetained (CalledAtEntry F.FnMut) D f (contents self.old)
            (contents self.new) }
        ensures len { length self.new.entries ≤ length self.old.entries }
        ensures keys { self.new.keys ≡ self.old.keys }
        ensures capacity { self.new.capacity ≡ self.old.capacity }
        ensures sound { AreSound J.order D self.new.entries }
    {
        self.entries.retain(
            |entry: &(usize, T)| -> bool
                requires { TakesEntry F.FnMut f entry.now }
                ensures { CalledAtEntry F.FnMut f.entry entry.now result f.exit }
            { f(entry.0, &entry.1) },
        );
        write_places(self.entries.as_slice(), self.places.as_mut_slice());
    }

    /// Drops all entries. No room is given back.
    ///
    /// # Examples
    ///
    /// ```
    /// use indexed_heap::IndexedHeap;
    /// let mut heap = IndexedHeap::<_, 4>::new(alloc);
    /// heap.insert(8, 1)?;
    /// heap.clear();
    /// assert!(rt; heap.is_empty());
    /// assert_eq!(rt; heap.key_capacity(), 9);
    /// ```
    pub fn clear(&mut self)
    where
        T: Drop,
        ensures entries { self.new.entries ≡ [] }
        ensures capacity { self.new.capacity ≡ self.old.capacity }
        ensures keys { self.new.keys ≡ self.old.keys }
        ensures uncounted { self.new.comparisons ≡ self.old.comparisons }
    {
        self.entries.clear();
    }
}
