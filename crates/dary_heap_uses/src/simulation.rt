//! An event simulation over a timer queue, whose timers are the events: they are handled in the order of their
//! moments, and what handles one schedules others, moves them, and revokes them by their names.
ghost use Rattle.std.specs.Prelude.{◌≡◌, ℕ, ◌<◌, ◌≤◌, List, All, length, take, slice_get, Some, IfOk, IfErr};
ghost use Rattle.std.specs.Bool.{OnTrue, OnFalse};
ghost use Rattle.std.specs.List.{FoldsTo};
ghost use Rattle.dary_heap_uses.specs.Simulation.{IsMade, IsNotBefore, IsRun, IsStopped, Lacks, Step};
ghost use Rattle.dary_heap_uses.specs.declared.simulation.Change.{Change};

use crate::timers::TimerQueue;

/// What a handler changes among the events that wait.
#[derive(Clone, Copy, PartialEq, Eq, Debug)]
pub enum Change {
    /// The event of this name waits for this moment from now on, and no longer for the one that it had, if any.
    Schedule(usize, u64),
    /// The event of this name waits no more.
    Revoke(usize),
}

/// What handles the events of a simulation.
pub trait Handler {
    /// The handler before the call, the event (its name and its moment), the changes that it returns, and the handler
    /// after it.
    ghost handles: { Self → ℕ × ℕ → List Change → Self → Type 0 };

    /// Handles an event, and returns the changes that it makes, in their order. It schedules none before the event's
    /// own moment.
    fn handle(&mut self, name: usize, moment: u64) -> Vec<Change>
        ensures handled { handles self.old (name, moment) result.items self.new }
        ensures not_before { All (IsNotBefore moment) result.items };
}

/// A run that stopped at a change that could not be made: memory allocation failed, or the name is `usize::MAX`.
#[derive(Drop)]
pub struct Stopped {
    /// The changes that the event handled last makes.
    pub changes: Vec<Change>,
    /// How many of them were made. The next one could not be.
    pub made: usize,
}

/// Handles the events up to an end in the order of their moments, and those that are scheduled meanwhile, but no more
/// than the budget allows. Returns the number of events that it handled. If that is below the budget, no event up to
/// the end waits any more.
///
/// Fails if a change can't be made, since memory allocation fails or its name is `usize::MAX`. This happens only if at
/// least as many events wait then as there was room for at the start, or if there was no room for the name.
///
/// # Examples
///
/// ```
/// use dary_heap_uses::simulation::{Change, Handler, run};
/// use dary_heap_uses::timers::TimerQueue;
/// use std::alloc::Global;
///
/// /// Event 1 revokes event 9, and each other event schedules event 1 for 5 moments later.
/// #[derive(Drop)]
/// struct Watch(Global);
///
/// impl Handler for Watch {
///     ghost handles = { λ before event changes after. Unit {0} };
///
///     fn handle(&mut self, name: usize, moment: u64) -> Vec<Change> {
///         let mut changes = Vec::new(self.0);
///         let _ = changes.push(match name {
///             1 => Change::Revoke(9),
///             _ => Change::Schedule(1, moment.saturating_add(5)),
///         });
///         changes
///     }
/// }
///
/// let mut events = TimerQueue::<4>::new(alloc);
/// events.set(2, 3)?;
/// events.set(9, 30)?;
/// assert!(rt; run(&mut events, &mut Watch(alloc), 100, 10).is_ok_and(|count| count == 2));
/// assert_eq!(rt; events.len(), 0);
/// ```
#[tactic(auto, using(crate::proofs::Running::none_handled))]
pub fn run<const D: usize, H: Handler>(
    events: &mut TimerQueue<D>,
    handler: &mut H,
    end: u64,
    budget: u64,
) -> Result<u64, Stopped>
    ensures ran { IfOk result (λ count. (steps : List Step) × (length steps ≡ count)
        × IsRun H.handles end (events.old.set, handler.old) steps (events.new.set, handler.new)) }
    ensures within { IfOk result (λ count. count ≤ budget) }
    ensures ended { IfOk result
        (λ count. count < budget → All (λ event. end < event.1) events.new.set) }
    ensures stopped { IfErr result (λ stop. IsStopped H.handles end budget
        (events.old.set, handler.old) stop.changes.items stop.made (events.new.set, handler.new)) }
    ensures full { IfErr result (λ stop. (change : Change)
        × (slice_get stop.changes.items stop.made ≡ Some change)
        × Lacks events.old change events.new.set) }
{
    for handled in 0..budget {
        let Some((name, moment)) = events.take_next(end) else {
            return Ok(handled);
        };
        let changes = handler.handle(name, moment);
        let made = make_all(events, &changes);
        if made < changes.len() {
            return Err(Stopped { changes, made });
        }
    }
    Ok(budget)
}

/// Makes these changes in turn, up to the first that can't be made. Returns how many it made.
fn make_all<const D: usize>(events: &mut TimerQueue<D>, changes: &[Change]) -> usize
    ensures made { FoldsTo IsMade events.old.set (take result changes.now) events.new.set }
    ensures within { result ≤ length changes.now }
    ensures full { result < length changes.now → (change : Change)
        × (slice_get changes.now result ≡ Some change) × Lacks events.old change events.new.set }
    ensures grows { (events.old.room ≤ events.new.room) × (events.old.names ≤ events.new.names) }
{
    for (made, change) in changes.iter().enumerate() {
        if !make(events, *change) {
            return made;
        }
    }
    changes.len()
}

/// Makes a change. Returns `false` if memory allocation fails, or if the name is `usize::MAX`.
fn make<const D: usize>(events: &mut TimerQueue<D>, change: Change) -> bool
    ensures made { OnTrue result (IsMade events.old.set change events.new.set) }
    ensures full { OnFalse result (Lacks events.old change events.new.set) }
    ensures unchanged { OnFalse result (events.new.set ≡ events.old.set) }
    ensures grows { (events.old.room ≤ events.new.room) × (events.old.names ≤ events.new.names) }
{
    match change {
        Change::Schedule(name, moment) => events.set(name, moment).is_ok(),
        Change::Revoke(name) => {
            let _ = events.cancel(name);
            true
        },
    }
}
