//! Calls that give a name an item.
ghost use Rattle.std.specs.Prelude.{◌≡◌, ℕ, ◌+◌, true, false, length, slice_get, is_some, IfSome, IfNone, IfOk, OnOk, Some, None, if◌then◌else◌};
ghost use Rattle.std.specs.Bool.{OnTrue, OnFalse};
ghost use Rattle.std.specs.Fn.{FnOnceReturnsAt, FnOnceTakesAt, FnOnceTakesAtMut};
ghost use Rattle.std.specs.Map.{lookup};
ghost use Rattle.std.specs.Ordering.{flip_args};
ghost use Rattle.dary_heap.specs.Bounds.{RisesWithin, fix_bound, push_bound, sink_bound};
ghost use Rattle.named_heap.specs.Entries.{AreSound, Changes, Gets, InsertsWithin, IsReached, Raises};
ghost use Rattle.named_heap.specs.Storing.{Stores};
ghost use Rattle.named_heap.specs.Updating.{Updates};

use super::NamedHeap;
use crate::names::number;
use dary_heap::sift::Judge;
use indexmap::Equivalent;
use std::hash::{BuildHasher, Hash};

impl<K: Eq + Hash + Drop, T, const D: usize, J: Judge<T>, S: BuildHasher> NamedHeap<K, T, D, J, S> {
    /// Gives a name an item. Returns the item that the name had, or `None` if it had none. If an equal name is there, it
    /// stays, and the new one is dropped.
    ///
    /// No other entry changes. The call uses at most one place of the [`room`](NamedHeap::room), and none for a name that has
    /// an item.
    ///
    /// For a name without an item the call takes at most as many comparisons as the new place is deep. Otherwise it takes
    /// at most as many as the place of the name's entry is deep, and `D` for each level from there down to that of the
    /// last place. Both are *O*(log *n*) from arity 2 on.
    ///
    /// # Errors
    ///
    /// Returns the name and the item if memory allocation fails. The entries are then as they were. This happens only if
    /// the name has no item, and there is no room.
    ///
    /// # Examples
    ///
    /// ```
    /// use named_heap::NamedHeap;
    /// let mut heap = NamedHeap::<_, _, 4>::new(alloc);
    /// assert_eq!(rt; heap.insert("wash", 10), Ok(None));
    /// assert_eq!(rt; heap.insert("wash", 3), Ok(Some(10)));
    /// assert_eq!(rt; heap.get("wash"), Some(&3));
    /// ```
    pub fn insert(&mut self, name: K, item: T) -> Result<Option<T>, (K, T)>
        ensures gets { IfOk result (λ given. Gets K.eq name item self.old.entries given self.new.entries) }
        ensures given { IfOk result (λ given. given ≡ lookup (K.eq name) self.old.entries) }
        ensures here { OnOk result (lookup (K.eq name) self.new.entries ≡ Some item) }
        ensures others { OnOk result ((other : K) → K.eq name other ≡ false
            → lookup (K.eq other) self.new.entries ≡ lookup (K.eq other) self.old.entries) }
        ensures len { IfOk result (λ given. length self.new.entries
            ≡ length self.old.entries + (if is_some given then 0 else 1)) }
        ensures counted { OnOk result (InsertsWithin K.eq name D self.old.entries self.old.comparisons
            self.new.comparisons) }
        ensures sound { AreSound K.eq J.order D self.new.entries }

        // Which room it uses, and when it fails.
        ensures stores { Stores K.eq name item self.old self.new result }
    {
        let key = match number(&mut self.names, &mut self.heap, name) {
            Ok(key) => key,
            Err(name) => return Err((name, item)),
        };
        match self.heap.insert(key, item) {
            Ok(given) => Ok(given),
            // The name has an item, or there is room for it.
            Err(_) => unreachable!(),
        }
    }

    /// Gives a name an item, unless it has one that is at least as great. Returns `true` if the name has the new item.
    ///
    /// This is *increase-key*. In a heap whose items come out least first, by `LeastFirst` or in `Reverse`, it is
    /// *decrease-key*: it lowers what a name has, as a search for shortest paths does. The call takes at most one comparison
    /// more than an [`insert`](NamedHeap::insert) of a name without an item. If it returns `false`, it took one comparison, the
    /// new item is dropped, and nothing changes but the count. [`lower`](NamedHeap::lower) goes the other way.
    ///
    /// # Errors
    ///
    /// As [`insert`](NamedHeap::insert).
    ///
    /// # Examples
    ///
    /// ```
    /// use named_heap::NamedHeap;
    /// use std::cmp::Reverse;
    /// let mut costs = NamedHeap::<_, _, 4>::new(alloc);
    /// assert_eq!(rt; costs.raise("oslo", Reverse(10)), Ok(true));
    /// assert_eq!(rt; costs.raise("oslo", Reverse(12)), Ok(false));
    /// assert_eq!(rt; costs.raise("oslo", Reverse(4)), Ok(true));
    /// assert_eq!(rt; costs.pop(), Some(("oslo", Reverse(4))));
    /// ```
    pub fn raise(&mut self, name: K, item: T) -> Result<bool, (K, T)>
    where
        T: Drop,
        ensures raised { IfOk result (λ b. OnTrue b
            (Raises K.eq name J.order item self.old.entries self.new.entries)) }
        ensures reached { IfOk result (λ b. OnFalse b (IsReached K.eq name J.order item self.old.entries
            × (self.new.entries ≡ self.old.entries))) }
        ensures len { OnOk result (length self.new.entries ≡ length self.old.entries
            + (if is_some (lookup (K.eq name) self.old.entries) then 0 else 1)) }
        ensures counted { OnOk result (RisesWithin self.old.comparisons self.new.comparisons
            (push_bound D (length self.old.entries) + 1)) }
        ensures once { IfOk result (λ b. OnFalse b (RisesWithin self.old.comparisons self.new.comparisons 1)) }
        ensures sound { AreSound K.eq J.order D self.new.entries }

        // Which room it uses, and when it fails.
        ensures stores { Stores K.eq name item self.old self.new result }
    {
        let key = match number(&mut self.names, &mut self.heap, name) {
            Ok(key) => key,
            Err(name) => return Err((name, item)),
        };
        match self.heap.raise(key, item) {
            Ok(raised) => Ok(raised),
            // The name has an item, or there is room for it.
            Err(_) => unreachable!(),
        }
    }

    /// Gives a name an item, unless it has one that is at most as great. Returns `true` if the name has the new item.
    ///
    /// The call takes at most `D` comparisons for each level of the tree, and one more. If it returns `false`, it took one
    /// comparison, the new item is dropped, and nothing changes but the count.
    ///
    /// # Errors
    ///
    /// As [`insert`](NamedHeap::insert).
    ///
    /// # Examples
    ///
    /// ```
    /// use named_heap::NamedHeap;
    /// let mut jobs = NamedHeap::<_, _, 4>::new(alloc);
    /// assert_eq!(rt; jobs.lower("wash", 10), Ok(true));
    /// assert_eq!(rt; jobs.lower("wash", 12), Ok(false));
    /// assert_eq!(rt; jobs.lower("wash", 4), Ok(true));
    /// assert_eq!(rt; jobs.pop(), Some(("wash", 4)));
    /// ```
    pub fn lower(&mut self, name: K, item: T) -> Result<bool, (K, T)>
    where
        T: Drop,
        ensures lowered { IfOk result (λ b. OnTrue b
            (Raises K.eq name (flip_args J.order) item self.old.entries self.new.entries)) }
        ensures reached { IfOk result (λ b. OnFalse b (IsReached K.eq name (flip_args J.order) item self.old.entries
            × (self.new.entries ≡ self.old.entries))) }
        ensures len { OnOk result (length self.new.entries ≡ length self.old.entries
            + (if is_some (lookup (K.eq name) self.old.entries) then 0 else 1)) }
        ensures counted { OnOk result (RisesWithin self.old.comparisons self.new.comparisons
            (sink_bound D (length self.old.entries) + 1)) }
        ensures once { IfOk result (λ b. OnFalse b (RisesWithin self.old.comparisons self.new.comparisons 1)) }
        ensures sound { AreSound K.eq J.order D self.new.entries }

        // Which room it uses, and when it fails.
        ensures stores { Stores K.eq name item self.old self.new result }
    {
        let key = match number(&mut self.names, &mut self.heap, name) {
            Ok(key) => key,
            Err(name) => return Err((name, item)),
        };
        match self.heap.lower(key, item) {
            Ok(lowered) => Ok(lowered),
            // The name has an item, or there is room for it.
            Err(_) => unreachable!(),
        }
    }
}

impl<K: Eq + Hash, T, const D: usize, J: Judge<T>, S: BuildHasher> NamedHeap<K, T, D, J, S> {
    /// Puts what a function makes of the item of a name in its place. Returns the item that the name had, or `None` if it
    /// has none; then the function isn't called, and nothing changes.
    ///
    /// No other entry changes, and no room is used, so the call doesn't fail. It takes at most as many comparisons as the
    /// place of the name's entry is deep, and `D` for each level from there down to that of the last place, which is
    /// *O*(log *n*) from arity 2 on.
    ///
    /// # Preconditions
    ///
    /// - If the name has an item, `f` may be called on it.
    ///
    /// # Examples
    ///
    /// ```
    /// use named_heap::NamedHeap;
    /// let mut visits = NamedHeap::<_, _, 4>::new(alloc);
    /// visits.insert("ann", 1)?;
    /// visits.insert("bob", 2)?;
    /// assert_eq!(rt; visits.change("ann", |count| count + 5), Some(1));
    /// assert_eq!(rt; visits.change("eve", |count| count + 5), None);
    /// assert_eq!(rt; visits.pop(), Some(("ann", 6)));
    /// ```
    pub fn change<Q: Equivalent<K>, F: FnOnce(&T) -> T>(&mut self, name: Q, f: F) -> Option<T>
        requires { (item : T) → lookup (Q.equivalent name) self.old.entries ≡ Some item
            → FnOnceTakesAt F.FnOnce f item }
        ensures given { result ≡ lookup (Q.equivalent name) self.old.entries }
        ensures changes { IfSome result (λ given. (item : T) × FnOnceReturnsAt F.FnOnce f given item
            × Changes (Q.equivalent name) given item self.old.entries self.new.entries) }
        ensures others { (other : K) → Q.equivalent name other ≡ false
            → lookup (K.eq other) self.new.entries ≡ lookup (K.eq other) self.old.entries }
        ensures counted { (at : ℕ) (entry : K × T) → slice_get self.old.entries at ≡ Some entry
            → Q.equivalent name entry.0 ≡ true
            → RisesWithin self.old.comparisons self.new.comparisons (fix_bound D (length self.old.entries) at) }
        ensures sound { AreSound K.eq J.order D self.new.entries }
        ensures room { self.new.room ≡ self.old.room }

        // If the name has no item nothing changes.
        ensures unchanged { IfNone result (self.new ≡ self.old) }
    {
        let Some(key) = self.names.get_index_of(name) else {
            return None;
        };
        self.heap.change(key, f)
    }

    /// Changes the item of a name by a function, inside the heap. Returns `true` if the name has an item. If it has none, the
    /// function isn't called, and nothing changes.
    ///
    /// The function is called once, and may leave any item. No other entry changes, and no room is used, so the call doesn't
    /// fail. It takes at most as many comparisons as [`change`](NamedHeap::change).
    ///
    /// # Preconditions
    ///
    /// - If the name has an item, `f` may be called on it.
    ///
    /// # Examples
    ///
    /// ```
    /// use named_heap::NamedHeap;
    /// let mut visits = NamedHeap::<_, _, 4>::new(alloc);
    /// visits.insert("ann", 1)?;
    /// visits.insert("bob", 2)?;
    /// assert!(rt; visits.update("ann", |count| *count += 5));
    /// assert!(rt; !visits.update("eve", |count| *count += 5));
    /// assert_eq!(rt; visits.pop(), Some(("ann", 6)));
    /// ```
    pub fn update<Q: Equivalent<K>, F: FnOnce(&mut T)>(&mut self, name: Q, f: F) -> bool
        requires { (item : T) → lookup (Q.equivalent name) self.old.entries ≡ Some item
            → FnOnceTakesAtMut F.FnOnce f item }
        ensures updates { OnTrue result
            (Updates F.FnOnce f (Q.equivalent name) self.old.entries self.new.entries) }
        ensures absent { OnFalse result (lookup (Q.equivalent name) self.old.entries ≡ None) }
        ensures others { (other : K) → Q.equivalent name other ≡ false
            → lookup (K.eq other) self.new.entries ≡ lookup (K.eq other) self.old.entries }
        ensures counted { (at : ℕ) (entry : K × T) → slice_get self.old.entries at ≡ Some entry
            → Q.equivalent name entry.0 ≡ true
            → RisesWithin self.old.comparisons self.new.comparisons (fix_bound D (length self.old.entries) at) }
        ensures sound { AreSound K.eq J.order D self.new.entries }
        ensures room { self.new.room ≡ self.old.room }

        // If the name has no item nothing changes.
        ensures unchanged { OnFalse result (self.new ≡ self.old) }
    {
        let Some(key) = self.names.get_index_of(name) else {
            return false;
        };
        self.heap.update(key, f)
    }
}
