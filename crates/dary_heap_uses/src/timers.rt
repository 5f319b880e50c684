//! A timer queue: timers with names are set for moments, set again, cancelled, and taken out once they are due. A
//! clause sees a queue as the `Timers` of `specs/Timers.antt`.
ghost use Rattle.std.specs.Prelude.{◌≡◌, ◌==◌, ℕ, ◌+◌, ◌-◌, ◌<◌, ◌≤◌, ◌⊎◌, [], ◌∷◌, All, length, map, max, min, vec_len, vec_capacity, IfSome, IfNone, IfOk, OnOk, OnErr, IsOk};
ghost use Rattle.dary_heap.specs.Bag.{IsSameBag};
ghost use Rattle.dary_heap.specs.Bounds.{RisesWithin, pop_bound, pops_bound};
ghost use Rattle.indexed_heap.specs.Entries.{AreDistinct, Gets, InsertsWithin, IsAbsent, IsEntry, Loses, item_of};
ghost use Rattle.dary_heap_uses.specs.Timers.{Timers, ComeNext, IsFirst, AddsDue, named};

use dary_heap::sift::{ByOrd, LeastFirst};
use indexed_heap::IndexedHeap;
use std::alloc::{AllocError, Global};
use std::marker::Model;

/// The timers that are set, in a heap of arity `D`. Each has a name, which is a small number of your own, and is
/// set for a moment. Of two timers the one for the earlier moment comes first, and if the moments are the same, the one
/// with the lesser name.
///
/// # Examples
///
/// ```
/// use dary_heap_uses::timers::TimerQueue;
/// let mut queue = TimerQueue::<4>::new(alloc);
/// queue.reserve(3, 4)?;
/// queue.set(1, 9)?;
/// queue.set(2, 3)?;
/// queue.set(3, 4)?;
/// assert_eq!(rt; queue.set(1, 5)?, Some(9));
/// assert_eq!(rt; queue.cancel(2), Some(3));
/// assert_eq!(rt; (queue.len(), queue.moment_of(1), queue.moment_of(2)), (2, Some(5), None));
/// let mut due = Vec::new(alloc);
/// queue.take_due(4, &mut due)?;
/// assert_eq!(rt; due.as_slice(), [(3, 4)].as_slice());
/// assert_eq!(rt; queue.take_next(4), None);
/// assert_eq!(rt; (queue.take_next(5), queue.is_empty()), (Some((1, 5)), true));
/// ```
#[derive(Drop)]
pub struct TimerQueue<const D: usize> {
    // Each item is a moment and, to decide between equal moments, the name once more.
    waiting: IndexedHeap<(u64, usize), D, LeastFirst<ByOrd>>,
}

impl<const D: usize> Model for TimerQueue<D> {
    ghost Value = { Timers };

    ghost view = { λ queue. record {
      set = map named queue.waiting.entries;
      room = queue.waiting.capacity;
      names = queue.waiting.keys;
      comparisons = queue.waiting.comparisons;
    } };

    ghost invariant = { λ queue. All (λ entry. entry.1.1 ≡ entry.0) queue.waiting.entries };
}

impl<const D: usize> TimerQueue<D> {
    /// Returns a queue without timers. It allocates no memory.
    pub fn new(alloc: Global) -> Self
        ensures set { result.set ≡ [] }
        ensures room { result.room ≡ 0 }
        ensures names { result.names ≡ 0 }
        ensures uncounted { result.comparisons ≡ 0 }
    {
        TimerQueue {
            waiting: IndexedHeap::with_judge(alloc, LeastFirst(ByOrd::new())),
        }
    }

    /// Returns the number of timers that are set.
    #[tactic(auto, using(crate::proofs::Taking::distinct_named))]
    pub fn len(&self) -> usize
        ensures len { result ≡ length self.now.set }
        ensures once { AreDistinct self.now.set }
    {
        self.waiting.len()
    }

    /// Returns `true` if no timer is set.
    pub fn is_empty(&self) -> bool
        ensures { result ≡ (length self.now.set == 0) }
    {
        self.waiting.is_empty()
    }

    /// Returns the moment for which the timer of a name is set, or `None` if there is none.
    #[tactic(auto, using(crate::proofs::Taking::moment_named))]
    pub fn moment_of(&self, name: usize) -> Option<u64>
        ensures { result ≡ item_of name self.now.set }
    {
        let timer = self.waiting.get(name)?;
        Some(timer.0)
    }

    /// Reserves room for at least `additional` more timers, and for the names below `names` and no others. After `Ok`
    /// that many can be set without an error. If there is room already, it does nothing. Fails if memory allocation
    /// fails, which happens only if some of that room was missing. The timers stay as they are.
    pub fn reserve(&mut self, additional: usize, names: usize) -> Result<(), AllocError>
        ensures set { self.new.set ≡ self.old.set }
        ensures uncounted { self.new.comparisons ≡ self.old.comparisons }
        ensures room { OnOk result (length self.new.set + additional ≤ self.new.room) }
        ensures names { OnOk result (self.new.names ≡ max self.old.names names) }
        ensures grows { (self.old.room ≤ self.new.room) × (self.old.names ≤ self.new.names) }
        ensures kept { length self.old.set + additional ≤ self.old.room
            → self.new.room ≡ self.old.room }
        ensures keyed { names ≤ self.old.names → self.new.names ≡ self.old.names }
        ensures succeeds { length self.old.set + additional ≤ self.old.room
            → names ≤ self.old.names → IsOk result }
    {
        self.waiting.reserve(additional, names)
    }

    /// Sets the timer of a name for a moment, and returns the moment for which it was set before, if it was.
    ///
    /// Fails if memory allocation fails, or if the name is `usize::MAX`. This happens only if the name has no timer,
    /// and all room is in use or the name is past the room for names. The timers stay as they are, and no comparison
    /// is made. For a name that has a timer it allocates no memory.
    #[tactic(auto, using(crate::proofs::Taking::when_set))]
    pub fn set(&mut self, name: usize, moment: u64) -> Result<Option<u64>, AllocError>
        ensures set { IfOk result (λ before. Gets name moment self.old.set before self.new.set) }
        ensures counted { OnOk result (InsertsWithin D name self.old.set self.old.comparisons
            self.new.comparisons) }
        ensures grows { (self.old.room ≤ self.new.room) × (self.old.names ≤ self.new.names) }
        ensures kept { length self.old.set < self.old.room → self.new.room ≡ self.old.room }
        ensures keyed { name < self.old.names → self.new.names ≡ self.old.names }
        ensures names { OnOk result (self.new.names ≡ max self.old.names (name + 1)) }
        ensures same_names { OnErr result (self.new.names ≡ self.old.names) }
        ensures roomy { (at : ℕ) → IsEntry self.old.set at name
            → self.new.room ≡ self.old.room }
        ensures succeeds { length self.old.set < self.old.room → name < self.old.names
            → IsOk result }
        ensures full { OnErr result (IsAbsent name self.old.set
            × ((length self.old.set ≡ self.old.room) ⊎ (self.old.names ≤ name))) }
        ensures unchanged { OnErr result (self.new.set ≡ self.old.set) }
        ensures uncounted { OnErr result (self.new.comparisons ≡ self.old.comparisons) }
    {
        let Ok(before) = self.waiting.insert(name, (moment, name)) else {
            return Err(AllocError);
        };
        Ok(before.map(|timer| timer.0))
    }

    /// Cancels the timer of a name, and returns the moment for which it was set, or `None` if there is none. It
    /// makes at most as many comparisons as a pop of the timers that are set.
    #[tactic(auto, using(crate::proofs::Taking::absent_named, crate::proofs::Taking::taken_named))]
    pub fn cancel(&mut self, name: usize) -> Option<u64>
        ensures cancelled { Loses name self.old.set result self.new.set }
        ensures gone { IsAbsent name self.new.set }
        ensures counted { RisesWithin self.old.comparisons self.new.comparisons
            (pop_bound D (length self.old.set)) }
        ensures room { self.new.room ≡ self.old.room }
        ensures names { self.new.names ≡ self.old.names }
        ensures unchanged { IfNone result (self.new ≡ self.old) }
    {
        let cancelled = self.waiting.remove(name)?;
        Some(cancelled.0)
    }

    /// Returns the timers that are due next, in their order: `most` of them, or all if they are fewer. The queue stays as
    /// it is.
    ///
    /// Fails if memory allocation fails. If no timer is asked for, or none is set, it doesn't fail.
    ///
    /// # Examples
    ///
    /// ```
    /// use dary_heap_uses::timers::TimerQueue;
    /// let mut queue = TimerQueue::<4>::new(alloc);
    /// queue.set(1, 9)?;
    /// queue.set(2, 3)?;
    /// queue.set(3, 4)?;
    /// assert_eq!(rt; queue.coming(alloc, 2)?.as_slice(), [(2, 3), (3, 4)].as_slice());
    /// assert_eq!(rt; queue.len(), 3);
    /// ```
    pub fn coming(&self, alloc: Global, most: usize) -> Result<Vec<(usize, u64)>, AllocError>
        ensures next { IfOk result (λ coming. ComeNext most self.now.set coming.items) }
        ensures succeeds { min most (length self.now.set) ≡ 0 → IsOk result }
    {
        let timers = self.waiting.iter_sorted(alloc, most)?;
        let mut coming = Vec::with_capacity(alloc, timers.len())?;
        for (name, timer) in timers {
            coming.push_reserved((name, timer.0));
        }
        Ok(coming)
    }

    /// Removes the first timer and returns its name and its moment if that has come, and otherwise returns `None`.
    /// It makes at most as many comparisons as a pop of the timers that are set.
    #[tactic(auto, using(crate::proofs::Taking::taken_named))]
    pub fn take_next(&mut self, now: u64) -> Option<(usize, u64)>
        ensures first { IfSome result (IsFirst self.old.set) }
        ensures due { IfSome result (λ timer. timer.1 ≤ now) }
        ensures taken { IfSome result (λ timer. IsSameBag self.old.set (timer ∷ self.new.set)) }
        ensures counted { RisesWithin self.old.comparisons self.new.comparisons
            (pop_bound D (length self.old.set)) }
        ensures room { self.new.room ≡ self.old.room }
        ensures names { self.new.names ≡ self.old.names }
        ensures none_due { IfNone result (All (λ timer. now < timer.1) self.old.set) }
        ensures unchanged { IfNone result (self.new ≡ self.old) }
    {
        let (_, (moment, _)) = self.waiting.peek()?;
        if now < *moment {
            return None;
        }
        let (name, (moment, _)) = self.waiting.pop()?;
        Some((name, moment))
    }

    /// Removes all timers whose moments have come, in their order, and adds them to a list. For each it makes at
    /// most as many comparisons as a pop of the timers that are still set.
    ///
    /// Fails if memory allocation fails, which happens only if the list has no room for all timers that are set.
    /// Nothing has changed then.
    #[tactic(auto, using(crate::proofs::Taking::none_taken))]
    pub fn take_due(&mut self, now: u64, due: &mut Vec<(usize, u64)>) -> Result<(), AllocError>
        ensures taken { OnOk result
            (AddsDue now self.old.set self.new.set due.old.items due.new.items) }
        ensures counted { RisesWithin self.old.comparisons self.new.comparisons
            (pops_bound D (length self.old.set) - pops_bound D (length self.new.set)) }
        ensures room { self.new.room ≡ self.old.room }
        ensures names { self.new.names ≡ self.old.names }
        ensures succeeds { vec_len due.old + length self.old.set ≤ vec_capacity due.old
            → IsOk result }
        ensures unchanged { OnErr result (self.new ≡ self.old) }
        ensures none_added { OnErr result (due.new.items ≡ due.old.items) }
        ensures list_room { OnErr result (vec_capacity due.new ≡ vec_capacity due.old) }
    {
        due.reserve(self.len())?;
        while let Some(timer) = self.take_next(now) {
            due.push_reserved(timer);
        }
        Ok(())
    }
}
