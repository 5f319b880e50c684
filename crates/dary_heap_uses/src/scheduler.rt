//! A scheduler: jobs with ids wait at a priority, which may change, until they are taken out or cancelled. A heap
//! doesn't say which of two equal items comes out first. So each job has a turn, which counts up, beside its priority.
ghost use Rattle.std.specs.Prelude.{◌≡◌, ◌==◌, ℕ, ◌+◌, ◌<◌, ◌≤◌, ◌⊎◌, ◌↔◌, [], ◌∷◌, All, length, map, max, IsOk, IfOk, IfErr, OnOk, OnErr, IsSome, IfSome, IfNone};
ghost use Rattle.std.specs.Bool.{OnTrue, OnFalse};
ghost use Rattle.dary_heap.specs.Bag.{IsSameBag};
ghost use Rattle.indexed_heap.specs.Entries.{Gets, IsAbsent, IsEntry, Loses};
ghost use Rattle.dary_heap_uses.specs.Scheduling.{ComesBefore, HasMoved, IsNumbered, Schedule, submitted, turn_of};

use indexed_heap::IndexedHeap;
use std::alloc::{AllocError, Global};
use std::cmp::Reverse;
use std::marker::Model;

/// A job that waits. The greater one is to come first.
#[derive(Drop)]
#[derive_where(PartialEq, Eq, PartialOrd, Ord)]
pub struct Waiting<J> {
    /// The job with the greatest priority comes out first.
    pub priority: u32,
    /// How many jobs were submitted before it. Of jobs of the same priority the one with the least turn is the
    /// greatest.
    pub turn: Reverse<u64>,
    /// What is to be done.
    #[derive_where(skip)]
    pub job: J,
}

/// Jobs that wait, each with an id, which is a small number of your own. The job of the greatest priority comes
/// first, and of those of the same priority the one that was submitted first.
///
/// # Examples
///
/// ```
/// use dary_heap_uses::scheduler::Scheduler;
/// let mut scheduler = Scheduler::new(alloc);
/// scheduler.reserve(3, 10)?;
/// let _ = scheduler.submit(7, 1, "sweep");
/// let _ = scheduler.submit(8, 1, "wash");
/// let _ = scheduler.submit(9, 5, "cook");
/// assert!(rt; scheduler.reprioritise(8, 6));
/// assert_eq!(rt; scheduler.cancel(9).map(|waiting| waiting.job), Some("cook"));
/// assert_eq!(rt; scheduler.next().map(|(id, waiting)| (id, waiting.job)), Some((8, "wash")));
/// assert_eq!(rt; (scheduler.len(), scheduler.is_empty(), scheduler.came()), (1, false, 3));
/// ```
#[derive(Drop)]
pub struct Scheduler<J> {
    jobs: IndexedHeap<Waiting<J>, 4>,
    came: u64,
}

impl<J> Model for Scheduler<J> {
    ghost Value = { Schedule J };

    ghost view = { λ s. record {
      waiting = s.jobs.entries;
      came = s.came;
      room = s.jobs.capacity;
      ids = s.jobs.keys;
    } };

    ghost invariant = { λ s. IsNumbered (map turn_of s.jobs.entries) s.came };
}

impl<J> Scheduler<J> {
    /// Returns a scheduler without jobs. It allocates no memory.
    #[tactic(auto, unfolding(crate::proofs::Common::IsDistinct))]
    pub fn new(alloc: Global) -> Scheduler<J>
        ensures waiting { result.waiting ≡ [] }
        ensures came { result.came ≡ 0 }
        ensures room { result.room ≡ 0 }
        ensures ids { result.ids ≡ 0 }
    {
        Scheduler {
            jobs: IndexedHeap::new(alloc),
            came: 0,
        }
    }

    /// Returns the number of jobs that wait.
    pub fn len(&self) -> usize
        ensures { result ≡ length self.now.waiting }
    {
        self.jobs.len()
    }

    /// Returns `true` if no job waits.
    pub fn is_empty(&self) -> bool
        ensures { result ≡ (length self.now.waiting == 0) }
    {
        self.jobs.is_empty()
    }

    /// Returns the number of jobs submitted so far.
    pub fn came(&self) -> u64
        ensures { result ≡ self.now.came }
    {
        self.came
    }

    /// Reserves room for at least `additional` more jobs, and for the ids below `ids` and no others. After `Ok` that many
    /// can be submitted without an error. If there is room already, it does nothing. Fails if memory allocation fails,
    /// which happens only if some of that room was missing. The jobs stay as they are.
    pub fn reserve(&mut self, additional: usize, ids: usize) -> Result<(), AllocError>
        ensures waiting { self.new.waiting ≡ self.old.waiting }
        ensures came { self.new.came ≡ self.old.came }
        ensures room { OnOk result (length self.new.waiting + additional ≤ self.new.room) }
        ensures ids { OnOk result (self.new.ids ≡ max self.old.ids ids) }
        ensures grows { (self.old.room ≤ self.new.room) × (self.old.ids ≤ self.new.ids) }
        ensures kept { length self.old.waiting + additional ≤ self.old.room
            → self.new.room ≡ self.old.room }
        ensures keyed { ids ≤ self.old.ids → self.new.ids ≡ self.old.ids }
        ensures succeeds { length self.old.waiting + additional ≤ self.old.room
            → ids ≤ self.old.ids → IsOk result }
    {
        self.jobs.reserve(additional, ids)
    }

    /// Submits a job. If a job of this id waits, the new one takes its place, and the old one is returned. That
    /// allocates no memory. Fewer than `u64::MAX` jobs must have been submitted so far (a precondition).
    ///
    /// Fails with the job if memory allocation fails, or if the id is `usize::MAX`. This happens only if no job of
    /// this id waits, and all room is in use or the id is past the room for ids. The jobs stay as they are.
    pub fn submit(&mut self, id: usize, priority: u32, job: J) -> Result<Option<Waiting<J>>, J>
        requires { self.old.came < u64.MAX }
        ensures waits { IfOk result (λ before. Gets id (submitted priority self.old.came job)
            self.old.waiting before self.new.waiting) }
        ensures came { OnOk result (self.new.came ≡ self.old.came + 1) }
        ensures grows { (self.old.room ≤ self.new.room) × (self.old.ids ≤ self.new.ids) }
        ensures kept { length self.old.waiting < self.old.room → self.new.room ≡ self.old.room }
        ensures keyed { id < self.old.ids → self.new.ids ≡ self.old.ids }
        ensures ids { OnOk result (self.new.ids ≡ max self.old.ids (id + 1)) }
        ensures same_ids { OnErr result (self.new.ids ≡ self.old.ids) }
        ensures roomy { (at : ℕ) → IsEntry self.old.waiting at id
            → self.new.room ≡ self.old.room }
        ensures succeeds { length self.old.waiting < self.old.room → id < self.old.ids
            → IsOk result }
        ensures full { OnErr result (IsAbsent id self.old.waiting
            × ((length self.old.waiting ≡ self.old.room) ⊎ (self.old.ids ≤ id))) }
        ensures returned { IfErr result (λ back. back ≡ job) }
        ensures unchanged { OnErr result (self.new.waiting ≡ self.old.waiting) }
        ensures uncounted { OnErr result (self.new.came ≡ self.old.came) }
    {
        let waiting = Waiting {
            priority,
            turn: Reverse(self.came),
            job,
        };
        match self.jobs.insert(id, waiting) {
            Ok(before) => {
                self.came += 1;
                Ok(before)
            },
            Err(refused) => Err(refused.job),
        }
    }

    /// Removes the job that is to come first and returns it with its id, or returns `None` if no job waits. No job
    /// that is left has a higher priority, or the same and was submitted earlier.
    pub fn next(&mut self) -> Option<(usize, Waiting<J>)>
        ensures variant { IsSome result ↔ (0 < length self.old.waiting) }
        ensures taken { IfSome result (λ entry. IsSameBag self.old.waiting
            (entry ∷ self.new.waiting)) }
        ensures first { IfSome result (λ entry. All (λ other. ComesBefore entry.1 other.1)
            self.new.waiting) }
        ensures came { self.new.came ≡ self.old.came }
        ensures room { self.new.room ≡ self.old.room }
        ensures ids { self.new.ids ≡ self.old.ids }
        ensures unchanged { IfNone result (self.new ≡ self.old) }
    {
        let entry = self.jobs.pop()?;
        Some(entry)
    }

    /// Removes the job of an id and returns it, or returns `None` if none waits.
    pub fn cancel(&mut self, id: usize) -> Option<Waiting<J>>
        ensures cancelled { Loses id self.old.waiting result self.new.waiting }
        ensures gone { IsAbsent id self.new.waiting }
        ensures came { self.new.came ≡ self.old.came }
        ensures room { self.new.room ≡ self.old.room }
        ensures ids { self.new.ids ≡ self.old.ids }
        ensures unchanged { IfNone result (self.new ≡ self.old) }
    {
        self.jobs.remove(id)
    }

    /// Gives the job of an id another priority, at which it keeps its turn. Returns `false` if none waits. It
    /// allocates no memory.
    pub fn reprioritise(&mut self, id: usize, priority: u32) -> bool
        ensures changed { OnTrue result
            (HasMoved id priority self.old.waiting self.new.waiting) }
        ensures absent { OnFalse result (IsAbsent id self.old.waiting) }
        ensures came { self.new.came ≡ self.old.came }
        ensures room { self.new.room ≡ self.old.room }
        ensures ids { self.new.ids ≡ self.old.ids }
        ensures unchanged { OnFalse result (self.new ≡ self.old) }
    {
        self.jobs.update(id, |waiting| waiting.priority = priority)
    }
}
