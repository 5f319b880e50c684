//! Calls that give a key an item, or change the one that it has.
ghost use Rattle.std.specs.Prelude.{◌≡◌, ℕ, ◌+◌, length, is_some, Some, IfSome, IfNone, IfOk, OnOk, if◌then◌else◌};
ghost use Rattle.std.specs.Bool.{OnTrue, OnFalse};
ghost use Rattle.std.specs.Fn.{FnOnceReturnsAt, FnOnceReturnsAtMut, FnOnceTakesAt, FnOnceTakesAtMut};
ghost use Rattle.std.specs.Ordering.{flip_args};
ghost use Rattle.dary_heap.specs.Bounds.{RisesWithin, fix_bound, push_bound, sink_bound};
ghost use Rattle.indexed_heap.specs.Entries.{AreSound, Gets, InsertsWithin, IsAbsent, IsEntry, IsReached, Raises, by_item, item_of};
ghost use Rattle.indexed_heap.specs.Storing.{Stores};
ghost use Rattle.indexed_heap.specs.Updating.{Updates};

use super::IndexedHeap;
use super::table::write_moved;
use dary_heap::sift::Judge;

impl<T, const D: usize, J: Judge<T>> IndexedHeap<T, D, J> {
    /// Gives a key an item. Returns the item that the key had, or `None` if it had none.
    ///
    /// No other entry changes. [`key_capacity`](IndexedHeap::key_capacity) is then `key + 1`, or stays if it was more.
    ///
    /// For a key without an item the call takes at most as many comparisons as the new place is deep. Otherwise it takes
    /// at most as many as the place of the key's entry is deep, and `D` for each level from there down to that of the
    /// last place. Both are *O*(log *n*) from arity 2 on.
    ///
    /// # Errors
    ///
    /// Returns the item if memory allocation fails, or if the key is `usize::MAX`. The entries are then as they were, as
    /// is `key_capacity`, and there is as much room for entries or more. This happens only if the key has no item, and the
    /// length has reached the [`capacity`](IndexedHeap::capacity) or the key `key_capacity`.
    ///
    /// # Examples
    ///
    /// ```
    /// use indexed_heap::IndexedHeap;
    /// let mut heap = IndexedHeap::<_, 4>::new(alloc);
    /// assert_eq!(rt; heap.insert(8, 10), Ok(None));
    /// assert_eq!(rt; heap.insert(8, 3), Ok(Some(10)));
    /// assert_eq!(rt; heap.get(8), Some(&3));
    /// assert_eq!(rt; heap.insert(usize::MAX, 5), Err(5));
    /// ```
    pub fn insert(&mut self, key: usize, item: T) -> Result<Option<T>, T>
        ensures gets { IfOk result (λ given. Gets key item self.old.entries given self.new.entries) }
        ensures given { IfOk result (λ given. given ≡ item_of key self.old.entries) }
        ensures len { IfOk result (λ given. length self.new.entries
            ≡ length self.old.entries + (if is_some given then 0 else 1)) }
        ensures counted { OnOk result (InsertsWithin D key self.old.entries self.old.comparisons
            self.new.comparisons) }
        ensures sound { AreSound J.order D self.new.entries }
        ensures stores { Stores key item self.old self.new result }
    {
        let Some(at) = self.place_of(key) else {
            return match self.add(key, item) {
                Ok(()) => Ok(None),
                Err(item) => Err(item),
            };
        };
        Ok(Some(self.replace(at, key, item)))
    }

    /// Gives a key an item, unless it has one that is at least as great. Returns `true` if the key has the new item.
    ///
    /// This is *increase-key*. In a heap whose items come out least first, by `LeastFirst` or in `Reverse`, it is
    /// *decrease-key*: it lowers what a key has, as a search for shortest paths does. [`lower`](IndexedHeap::lower) goes
    /// the other way.
    ///
    /// The call takes at most one comparison more than an [`insert`](IndexedHeap::insert) of a key without an item. If it
    /// returns `false`, it took one comparison, the new item is dropped, and nothing changes but the count.
    ///
    /// # Errors
    ///
    /// As [`insert`](IndexedHeap::insert).
    ///
    /// # Examples
    ///
    /// ```
    /// use dary_heap::sift::{ByOrd, LeastFirst};
    /// use indexed_heap::IndexedHeap;
    /// let mut costs = IndexedHeap::<_, 4, _>::with_judge(alloc, LeastFirst(ByOrd::new()));
    /// assert_eq!(rt; costs.raise(8, 10), Ok(true));
    /// assert_eq!(rt; costs.raise(8, 12), Ok(false));
    /// assert_eq!(rt; costs.raise(8, 4), Ok(true));
    /// assert_eq!(rt; costs.pop(), Some((8, 4)));
    /// ```
    pub fn raise(&mut self, key: usize, item: T) -> Result<bool, T>
    where
        T: Drop,
        ensures raised { IfOk result (λ b. OnTrue b
            (Raises (by_item J.order) key item self.old.entries self.new.entries)) }
        ensures reached { IfOk result (λ b. OnFalse b (IsReached (by_item J.order) key item self.old.entries
            × (self.new.entries ≡ self.old.entries))) }
        ensures len { OnOk result (length self.new.entries ≡ length self.old.entries
            + (if is_some (item_of key self.old.entries) then 0 else 1)) }
        ensures counted { OnOk result (RisesWithin self.old.comparisons self.new.comparisons
            (push_bound D (length self.old.entries) + 1)) }
        ensures once { IfOk result (λ b. OnFalse b (RisesWithin self.old.comparisons self.new.comparisons 1)) }
        ensures sound { AreSound J.order D self.new.entries }
        ensures stores { Stores key item self.old self.new result }
    {
        let Some(at) = self.place_of(key) else {
            return match self.add(key, item) {
                Ok(()) => Ok(true),
                Err(item) => Err(item),
            };
        };
        Ok(self.raise_at(at, key, item))
    }

    /// Gives a key an item, unless it has one that is at most as great. Returns `true` if the key has the new item.
    ///
    /// The call takes at most `D` comparisons for each level of the tree, and one more. If it returns `false`, it took one
    /// comparison, the new item is dropped, and nothing changes but the count.
    ///
    /// # Errors
    ///
    /// As [`insert`](IndexedHeap::insert).
    ///
    /// # Examples
    ///
    /// ```
    /// use indexed_heap::IndexedHeap;
    /// let mut jobs = IndexedHeap::<_, 4>::new(alloc);
    /// assert_eq!(rt; jobs.lower(8, 10), Ok(true));
    /// assert_eq!(rt; jobs.lower(8, 12), Ok(false));
    /// assert_eq!(rt; jobs.lower(8, 4), Ok(true));
    /// assert_eq!(rt; jobs.pop(), Some((8, 4)));
    /// ```
    pub fn lower(&mut self, key: usize, item: T) -> Result<bool, T>
    where
        T: Drop,
        ensures lowered { IfOk result (λ b. OnTrue b
            (Raises (flip_args (by_item J.order)) key item self.old.entries self.new.entries)) }
        ensures reached { IfOk result (λ b. OnFalse b (IsReached (flip_args (by_item J.order)) key item self.old.entries
            × (self.new.entries ≡ self.old.entries))) }
        ensures len { OnOk result (length self.new.entries ≡ length self.old.entries
            + (if is_some (item_of key self.old.entries) then 0 else 1)) }
        ensures counted { OnOk result (RisesWithin self.old.comparisons self.new.comparisons
            (sink_bound D (length self.old.entries) + 1)) }
        ensures once { IfOk result (λ b. OnFalse b (RisesWithin self.old.comparisons self.new.comparisons 1)) }
        ensures sound { AreSound J.order D self.new.entries }
        ensures stores { Stores key item self.old self.new result }
    {
        let Some(at) = self.place_of(key) else {
            return match self.add(key, item) {
                Ok(()) => Ok(true),
                Err(item) => Err(item),
            };
        };
        Ok(self.lower_at(at, key, item))
    }

    /// Puts what a function makes of the item of a key in its place. Returns the item that the key had, or `None` if it
    /// has none; then the function isn't called, and nothing changes.
    ///
    /// No other entry changes, and no room is used, so the call doesn't fail. It looks the key up once, and takes at most as
    /// many comparisons as the place of the key's entry is deep, and `D` for each level from there down to that of the last
    /// place, which is *O*(log *n*) from arity 2 on.
    ///
    /// # Preconditions
    ///
    /// - If the key has an item, `f` may be called on it.
    ///
    /// # Examples
    ///
    /// ```
    /// use indexed_heap::IndexedHeap;
    /// let mut visits = IndexedHeap::<_, 4>::new(alloc);
    /// visits.insert(3, 1)?;
    /// visits.insert(8, 2)?;
    /// assert_eq!(rt; visits.change(3, |count| count + 5), Some(1));
    /// assert_eq!(rt; visits.change(5, |count| count + 5), None);
    /// assert_eq!(rt; visits.pop(), Some((3, 6)));
    /// ```
    pub fn change<F: FnOnce(&T) -> T>(&mut self, key: usize, f: F) -> Option<T>
        requires { (item : T) → item_of key self.old.entries ≡ Some item
            → FnOnceTakesAt F.FnOnce f item }
        ensures given { result ≡ item_of key self.old.entries }
        ensures gets { IfSome result (λ given. (item : T) × FnOnceReturnsAt F.FnOnce f given item
            × Gets key item self.old.entries (Some given) self.new.entries) }
        ensures len { length self.new.entries ≡ length self.old.entries }
        ensures counted { (at : ℕ) → IsEntry self.old.entries at key
            → RisesWithin self.old.comparisons self.new.comparisons
            (fix_bound D (length self.old.entries) at) }
        ensures sound { AreSound J.order D self.new.entries }
        ensures capacity { self.new.capacity ≡ self.old.capacity }
        ensures keys { self.new.keys ≡ self.old.keys }

        // If the key has no item nothing changes.
        ensures unchanged { IfNone result (self.new ≡ self.old) }
    {
        let Some(at) = self.place_of(key) else {
            return None;
        };
        let made = f(&self.as_slice()[at].1);
        Some(self.replace(at, key, made))
    }

    /// Changes the item of a key by a function, inside the heap. Returns `true` if the key has an item. If it has none, the
    /// function isn't called, and nothing changes.
    ///
    /// The function is called once, and may leave any item. No other entry changes, and no room is used, so the call doesn't
    /// fail. It takes as many comparisons as [`change`](IndexedHeap::change) at most.
    ///
    /// # Preconditions
    ///
    /// - If the key has an item, `f` may be called on it.
    ///
    /// # Examples
    ///
    /// ```
    /// use indexed_heap::IndexedHeap;
    /// let mut jobs = IndexedHeap::<_, 4>::new(alloc);
    /// jobs.insert(3, (1, "wash"))?;
    /// jobs.insert(8, (2, "cook"))?;
    /// assert!(rt; jobs.update(3, |job| job.0 = 5));
    /// assert!(rt; !jobs.update(4, |job| job.0 = 9));
    /// assert_eq!(rt; jobs.pop(), Some((3, (5, "wash"))));
    /// ```
    pub fn update<F: FnOnce(&mut T)>(&mut self, key: usize, f: F) -> bool
        requires { (item : T) → item_of key self.old.entries ≡ Some item
            → FnOnceTakesAtMut F.FnOnce f item }
        ensures updates { OnTrue result
            (Updates F.FnOnce f key self.old.entries self.new.entries) }
        ensures absent { OnFalse result (IsAbsent key self.old.entries) }
        ensures len { length self.new.entries ≡ length self.old.entries }
        ensures counted { (at : ℕ) → IsEntry self.old.entries at key
            → RisesWithin self.old.comparisons self.new.comparisons
            (fix_bound D (length self.old.entries) at) }
        ensures sound { AreSound J.order D self.new.entries }
        ensures capacity { self.new.capacity ≡ self.old.capacity }
        ensures keys { self.new.keys ≡ self.old.keys }

        // If the key has no item nothing changes.
        ensures unchanged { OnFalse result (self.new ≡ self.old) }
    {
        let Some(at) = self.place_of(key) else {
            return false;
        };
        let stop = self.entries.update_at_returning_place(
            at,
            |entry: &mut (usize, T)|
                requires { FnOnceTakesAtMut F.FnOnce f entry.old.1 }
                ensures key { entry.new.0 ≡ entry.old.0 }
                ensures item { FnOnceReturnsAtMut F.FnOnce f entry.old.1 tt entry.new.1 }
            { call_on_item(entry, f) },
        );
        write_moved::<T, D>(
            self.entries.as_slice(),
            self.places.as_mut_slice(),
            at,
            stop,
        );
        true
    }
}

/// Calls a function on the item of an entry.
#[inline(always)]
fn call_on_item<T, F: FnOnce(&mut T)>(entry: &mut (usize, T), f: F)
    requires { FnOnceTakesAtMut F.FnOnce f entry.old.1 }
    ensures key { entry.new.0 ≡ entry.old.0 }
    ensures item { FnOnceReturnsAtMut F.FnOnce f entry.old.1 tt entry.new.1 }
{
    f(&mut entry.1);
}
