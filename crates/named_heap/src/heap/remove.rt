//! Entries that leave a heap: that of a name, or one with a greatest item.
ghost use Rattle.std.specs.Prelude.{◌≡◌, ◌+◌, ◌<◌, ◌≤◌, ◌↔◌, ◌∷◌, [], Bool, true, false, length, slice_get, Some, None, is_some, IsSome, IfSome, IfNone, if◌then◌else◌};
ghost use Rattle.std.specs.Map.{lookup};
ghost use Rattle.std.specs.Option.{option_map};
ghost use Rattle.dary_heap.specs.Bag.{IsGreatest, IsSameBag};
ghost use Rattle.dary_heap.specs.Bounds.{RisesWithin, pop_bound};
ghost use Rattle.named_heap.specs.Entries.{AreSound, MayAnswer, MayAsk, by_item};

use super::NamedHeap;
use crate::names::free;
use dary_heap::sift::Judge;
use indexmap::Equivalent;
use std::hash::{BuildHasher, Hash};

impl<K: Eq + Hash, T, const D: usize, J: Judge<T>, S: BuildHasher> NamedHeap<K, T, D, J, S> {
    /// Removes the entry of a name and returns it, or returns `None` if the name has none.
    ///
    /// No other entry changes. The room doesn't get less, and needn't grow by the name's place ([more](crate#room)). The
    /// call takes at most as many comparisons as a [`pop`](NamedHeap::pop), and none if it returns `None`.
    ///
    /// # Examples
    ///
    /// ```
    /// use named_heap::NamedHeap;
    /// let mut timers = NamedHeap::<_, _, 4>::new(alloc);
    /// timers.insert("tea", 50)?;
    /// timers.insert("eggs", 10)?;
    /// assert_eq!(rt; timers.remove("tea"), Some(("tea", 50)));
    /// assert_eq!(rt; timers.remove("tea"), None);
    /// assert_eq!(rt; timers.peek(), Some((&"eggs", &10)));
    /// ```
    pub fn remove<Q: Equivalent<K>>(&mut self, name: Q) -> Option<(K, T)>
        ensures given { option_map (λ entry. entry.1) result
            ≡ lookup (Q.equivalent name) self.old.entries }
        ensures gone { lookup (Q.equivalent name) self.new.entries ≡ None }
        ensures others { (other : K) → Q.equivalent name other ≡ false
            → lookup (K.eq other) self.new.entries ≡ lookup (K.eq other) self.old.entries }
        ensures named { IfSome result (λ entry. Q.equivalent name entry.0 ≡ true) }
        ensures bag { IfSome result (λ entry. IsSameBag self.old.entries
            (entry ∷ self.new.entries)) }
        ensures len { length self.new.entries + (if is_some result then 1 else 0)
            ≡ length self.old.entries }
        ensures counted { RisesWithin self.old.comparisons self.new.comparisons
            (pop_bound D (length self.old.entries)) }
        ensures sound { AreSound K.eq J.order D self.new.entries }
        ensures room { self.old.room ≤ self.new.room }

        // If the name has no item nothing changes.
        ensures unchanged { IfNone result (self.new ≡ self.old) }
    {
        let key = self.names.get_index_of(name)?;
        let Some(item) = self.heap.remove(key) else {
            unreachable!();
        };
        Some((free(&mut self.names, &mut self.heap, key), item))
    }

    /// Removes an entry with a greatest item and returns it, or returns `None` if there are no entries.
    ///
    /// It is the entry that [`peek`](NamedHeap::peek) returns. The room doesn't get less, and needn't grow by the name's
    /// place ([more](crate#room)). A pop takes at most as many comparisons as the arity times the depth of the last place
    /// that remains, which is *O*(log *n*) from arity 2 on.
    ///
    /// # Examples
    ///
    /// ```
    /// use named_heap::NamedHeap;
    /// let mut heap = NamedHeap::<_, _, 4>::new(alloc);
    /// heap.insert("wash", 1)?;
    /// heap.insert("cook", 3)?;
    /// assert_eq!(rt; heap.pop(), Some(("cook", 3)));
    /// assert_eq!(rt; heap.pop(), Some(("wash", 1)));
    /// assert_eq!(rt; heap.pop(), None);
    /// ```
    pub fn pop(&mut self) -> Option<(K, T)>
        ensures variant { IsSome result ↔ (0 < length self.old.entries) }
        ensures first { result ≡ slice_get self.old.entries 0 }
        ensures greatest { IfSome result (IsGreatest (by_item J.order) self.old.entries) }
        ensures bag { IfSome result (λ entry. IsSameBag self.old.entries
            (entry ∷ self.new.entries)) }
        ensures gone { IfSome result (λ entry. lookup (K.eq entry.0) self.new.entries ≡ None) }
        ensures len { length self.new.entries + (if is_some result then 1 else 0)
            ≡ length self.old.entries }
        ensures counted { RisesWithin self.old.comparisons self.new.comparisons
            (pop_bound D (length self.old.entries)) }
        ensures sound { AreSound K.eq J.order D self.new.entries }
        ensures room { self.old.room ≤ self.new.room }

        // If there is no entry nothing changes.
        ensures unchanged { IfNone result (self.new ≡ self.old) }
    {
        let (key, item) = self.heap.pop()?;
        Some((free(&mut self.names, &mut self.heap, key), item))
    }

    /// Removes an entry with a greatest item and returns it, if the predicate returns `true` for its name and its item.
    ///
    /// The predicate is called once, on the entry that [`peek`](NamedHeap::peek) returns, and not at all if there
    /// are no entries. If it returns `false`, or there are no entries, the call returns `None` and nothing changes.
    /// It takes at most as many comparisons as a [`pop`](NamedHeap::pop), and none if it returns `None`.
    ///
    /// # Preconditions
    ///
    /// - `predicate` may be called on the entry that `peek` returns.
    ///
    /// # Examples
    ///
    /// ```
    /// use dary_heap::sift::{ByOrd, LeastFirst};
    /// use named_heap::NamedHeap;
    /// let mut deadlines = NamedHeap::<_, _, 4, _>::with_judge(alloc, LeastFirst(ByOrd::new()));
    /// deadlines.insert("tea", 90)?;
    /// deadlines.insert("eggs", 40)?;
    /// assert_eq!(rt; deadlines.pop_if(|_, time| *time <= 50), Some(("eggs", 40)));
    /// assert_eq!(rt; deadlines.pop_if(|_, time| *time <= 50), None);
    /// ```
    pub fn pop_if<F: FnOnce(&K, &T) -> bool>(&mut self, predicate: F) -> Option<(K, T)>
        requires { (entry : K × T) → slice_get self.old.entries 0 ≡ Some entry
            → MayAsk F.FnOnce predicate entry }
        ensures empty { self.old.entries ≡ [] → result ≡ None }
        ensures asked { (entry : K × T) → slice_get self.old.entries 0 ≡ Some entry
            → (answer : Bool) × MayAnswer F.FnOnce predicate entry answer
            × (result ≡ (if answer then Some entry else None)) }
        ensures shown { (entry : K × T) → slice_get self.old.entries 0 ≡ Some entry
            → IsGreatest (by_item J.order) self.old.entries entry }
        ensures greatest { IfSome result (IsGreatest (by_item J.order) self.old.entries) }
        ensures bag { IfSome result (λ entry. IsSameBag self.old.entries
            (entry ∷ self.new.entries)) }
        ensures gone { IfSome result (λ entry. lookup (K.eq entry.0) self.new.entries ≡ None) }
        ensures len { length self.new.entries + (if is_some result then 1 else 0)
            ≡ length self.old.entries }
        ensures counted { RisesWithin self.old.comparisons self.new.comparisons
            (pop_bound D (length self.old.entries)) }
        ensures sound { AreSound K.eq J.order D self.new.entries }
        ensures room { self.old.room ≤ self.new.room }

        // If nothing is popped nothing changes.
        ensures unchanged { IfNone result (self.new ≡ self.old) }
    {
        let (name, item) = self.peek()?;
        if predicate(name, item) {
            self.pop()
        } else {
            None
        }
    }

    /// Drops all entries.
    ///
    /// No room is given back: there is room for as many names as there were and as there was room for.
    ///
    /// # Examples
    ///
    /// ```
    /// use named_heap::NamedHeap;
    /// let mut heap = NamedHeap::<_, _, 4>::new(alloc);
    /// heap.insert("wash", 1)?;
    /// heap.clear();
    /// assert!(rt; heap.is_empty());
    /// assert!(rt; heap.room() >= 1);
    /// ```
    pub fn clear(&mut self)
    where
        K: Drop,
        T: Drop,
        ensures entries { self.new.entries ≡ [] }
        ensures room { length self.old.entries + self.old.room ≤ self.new.room }
        ensures uncounted { self.new.comparisons ≡ self.old.comparisons }
    {
        // (both are called for their clauses: what is there has room)
        let (_entries, _keys) = (self.heap.capacity(), self.heap.key_capacity());
        self.heap.clear();
        self.names.clear();
    }
}
