//! Lists of commands, and the replies to them.
//!
//! The contract of [`run`] says that the replies and the items are a run of the *bag machine* of
//! `specs/Machine.antt`, which says what a priority queue may reply, and knows no tree and no
//! memory. Its state is a bag of items, which is a multiset, and their *front*, an item that no
//! other exceeds: a question is about the front, and a pop returns it.
ghost use Rattle.std.specs.Prelude.{◌≡◌, ◌⊎◌, ◌++◌, ◌∷◌, [], length, slice_get, All, Bool, Some, None, IfOk, IfErr, IsOk};
ghost use Rattle.std.specs.Fn.{CalledAt, FnOnceTakesAt, FnOnceReturnsAt};
ghost use Rattle.dary_heap.specs.Asking.{MayCall, MayServe, items_in};
ghost use Rattle.dary_heap.specs.HeapOrder.{IsHeapOrdered};
ghost use Rattle.dary_heap.specs.Machine as machine;
ghost use Rattle.dary_heap.specs.Reading as read;
ghost use Rattle.dary_heap.specs.Run.{Runs, Serves, ServesPlain};
ghost use Rattle.dary_heap.specs.TwoArities.{SameRepliesAtTwoArities};

use crate::heap::DaryHeap;
use crate::peek_mut::PeekMut;
use std::alloc::Global;
use std::mem;

/// An act on a greatest item, as through a [`PeekMut`]. While the acts last the item is *on loan*.
#[derive(Debug, Drop)]
pub enum Act<T> {
    /// Writes an item in the place of the one on loan.
    Write(T),
    /// Refreshes, as [`PeekMut::refresh`] does: from then on a greatest item is on loan again.
    Refresh,
}

/// What becomes of the item on loan after the acts.
#[derive(Debug, Drop)]
pub enum End {
    /// It goes back to the heap.
    Drop,
    /// It is removed from the heap.
    Pop,
}

/// What an act shows.
#[derive(Debug, Drop)]
pub enum Seen<T> {
    /// The item that was there before a write.
    Old(T),
    /// What a refresh returned: whether another item was strictly greater.
    Changed(bool),
}

/// A call on a heap. `P` is the type of all predicates of a list, as `fn(&T) -> bool`.
#[derive(Drop)]
pub enum Command<T: Ord, const D: usize, P> {
    /// Adds an item.
    Push(T),
    /// Removes a greatest item.
    Pop,
    /// Removes a greatest item, the one that a pop would remove, if the predicate returns `true` for it. It is called
    /// once at most.
    PopIf(P),
    /// Asks the predicate once about a greatest item, the one that a pop would remove.
    Ask(P),
    /// Counts the items.
    Len,
    /// Keeps the items for which the predicate returns `true`, and drops the others.
    Retain(P),
    /// Adds items.
    Extend(Vec<T>),
    /// Adds the items of another heap.
    Append(DaryHeap<T, D>),
    /// Reserves room for this many more items.
    Reserve(usize),
    /// Shrinks the capacity to this number, or to the length if that is greater.
    Shrink(usize),
    /// Drops all items.
    Clear,
    /// Removes all items, and returns the first in the order of `as_slice`: this many, or all if there are fewer.
    Drain(usize),
    /// Pops all items, and returns the first popped: this many, or all if there are fewer.
    DrainSorted(usize),
    /// Lends a greatest item, the one that a pop would remove, for these acts and this end.
    Loan(Vec<Act<T>>, End),
}

/// What a command led to.
#[derive(Debug, Drop)]
pub enum Reply<T: Ord, const D: usize> {
    /// The item was added.
    Pushed,
    /// Memory allocation failed. This is the item.
    PushRefused(T),
    /// The item that was removed, if one was.
    Popped(Option<T>),
    /// What the predicate returned, if there was an item.
    Asked(Option<bool>),
    /// The number of items.
    Len(usize),
    /// The command was carried out.
    Done,
    /// Memory allocation failed for one of the items. Those before it were added, the others dropped.
    ExtendRefused,
    /// Memory allocation failed. This is the other heap, as it was.
    AppendRefused(DaryHeap<T, D>),
    /// Memory allocation failed, and the heap is as it was.
    Refused,
    /// The items that were asked for.
    Taken(Vec<T>),
    /// What the acts showed, in order, and the item if it was removed at the end; `None` if the heap was empty.
    Loaned(Option<(Vec<Seen<T>>, Option<T>)>),
}

/// Carries the commands out, one after another, and returns one reply to each, in order.
///
/// The replies and the items are a run of the bag machine. Its front is the first item of
/// [`as_slice`](DaryHeap::as_slice), at the start and at the end.
///
/// If there is room for `n` items at the start, or after a [`Command::Reserve`] of `n` that was carried out, the
/// next `n` pushes succeed if only pushes, pops, `Ask` and `Len` come between. If nothing else comes at all, there
/// is room for the rest of them afterwards. Each step keeps the capacity, but for a push, an extend and a reserve
/// without room for all, an append, a shrink, and a drain, which leaves no room. A drain and a loan reserve room for their reply before they begin. On
/// an empty heap they never fail, nor does a drain of no items or a loan without acts.
///
/// # Preconditions
///
/// - Any predicate of the type `P` may be called on anything, and again after each call. Or else that of a
///   [`Command::Ask`] or a [`Command::PopIf`] may be called once, on any item that the heap or the commands hold, and
///   that of a [`Command::Retain`] once on each of them, in any order. `run` calls none more often than that.
///
/// # Errors
///
/// Returns the commands if memory allocation for the replies fails. The heap is then as it was. For
/// no commands nothing is allocated, and the call doesn't fail.
///
/// If memory allocation fails for a single command, its reply says so.
///
/// # Examples
///
/// ```
/// use dary_heap::TernaryHeap;
/// use dary_heap::run::{Act, Command, End, run};
/// use std::alloc::AllocError;
/// let mut heap = TernaryHeap::new(alloc);
/// let commands = vec![in alloc;
///     Command::Push(3),
///     Command::Push(7),
///     Command::Ask(|item: &i32| *item >= 5),
///     Command::Loan(vec![in alloc; Act::Write(2)]?, End::Drop),
///     Command::Pop,
///     Command::Len,
/// ]?;
/// let replies = run(alloc, &mut heap, commands).map_err(|_| AllocError)?;
/// assert_eq!(rt;
///     format!(in alloc; "{replies:?}")?.as_str(),
///     "[Pushed, Pushed, Asked(Some(true)), Loaned(Some(([Old(7)], None))), Popped(Some(3)), Len(1)]"
/// );
/// ```
///
/// # Time
///
/// At most the sum of the comparisons that the commands' calls may take. A [`Command::Retain`] counts as
/// [`mend_with`](crate::sift::mend_with) of all items that are left, a [`Command::DrainSorted`] as pops of all
/// items, and a [`Command::Loan`] as the arity times the depth of the last place, for the end and for each refresh.
pub fn run<T: Ord + Drop, const D: usize, P: FnMut(&T) -> bool>(
    alloc: Global,
    heap: &mut DaryHeap<T, D>,
    commands: Vec<Command<T, D, P>>,
) -> Result<Vec<Reply<T, D>>, Vec<Command<T, D, P>>>
    requires { ((predicate : P) → P.IsAlwaysCallable predicate)
        ⊎ All (MayCall P.FnMut (heap.old.items ++ items_in (read.commands commands.items)))
        (read.commands commands.items) }

    // The replies and the items are a run of the bag machine, within its charges.
    ensures runs { IfOk result (λ replies. Runs T.cmp (CalledAt P.FnMut) D heap.old
        (read.commands commands.items) (read.replies replies.items) heap.new) }
    ensures ordered { IsHeapOrdered T.cmp D heap.new.items }

    // Without memory for the replies nothing is done. No command needs none.
    ensures empty { length commands.items ≡ 0 → IsOk result }
    ensures returned { IfErr result (λ back. back.items ≡ commands.items) }
    ensures unchanged { IfErr result (λ back. heap.new ≡ heap.old) }
{
    // `len` ensures that the heap is ordered, also if there is no command.
    prove!(heap.len() <= heap.capacity());
    let Ok(mut replies) = Vec::with_capacity(alloc, commands.len()) else {
        return Err(commands);
    };
    for command in commands {
        replies.push_reserved(carry_out(alloc, heap, command));
    }
    Ok(replies)
}

/// States a law: the replies are the same at every arity. It does nothing when it runs.
///
/// Two runs of the bag machine by the same commands, from states with the same bag, give the same
/// replies and leave the same bag, if no command holds a predicate or a heap, or drains in slice
/// order, no two different values of the bag and the commands compare equal, and no memory
/// allocation fails. The machine knows no arity, so this holds of what [`run`] returns at any two:
/// the lemma `RunsUnrefused-from` of `proofs/Callers.antt` leads there from its clause `runs`.
///
/// # Examples
///
/// ```
/// use dary_heap::run::two_arities;
/// two_arities::<i32, fn(&i32) -> bool>();
/// ```
pub fn two_arities<T: Ord, P: FnMut(&T) -> bool>()
    ensures { SameRepliesAtTwoArities T.cmp (CalledAt P.FnMut) }
{}

/// Carries one command out.
fn carry_out<T: Ord + Drop, const D: usize, P: FnMut(&T) -> bool>(
    alloc: Global,
    heap: &mut DaryHeap<T, D>,
    command: Command<T, D, P>,
) -> Reply<T, D>
    requires { MayServe P.FnMut heap.old.items (read.command command) }
    ensures { Serves T.cmp (CalledAt P.FnMut) D heap.old (read.command command)
        (read.reply result) heap.new }
{
    match command {
        Command::Push(item) => push(heap, item),
        Command::Pop => pop(heap),
        Command::PopIf(predicate) => Reply::Popped(heap.pop_if(predicate)),
        Command::Ask(predicate) => Reply::Asked(ask(heap, predicate)),
        Command::Len => Reply::Len(heap.len()),
        Command::Retain(predicate) => {
            heap.retain(predicate);
            Reply::Done
        }
        Command::Extend(items) => extend(heap, items),
        Command::Append(other) => append(heap, other),
        Command::Reserve(additional) => reserve(heap, additional),
        Command::Shrink(capacity) => shrink(heap, capacity),
        Command::Clear => {
            heap.clear();
            Reply::Done
        }
        Command::Drain(count) => drain(alloc, heap, count),
        Command::DrainSorted(count) => drain_sorted(alloc, heap, count),
        Command::Loan(acts, end) => loan(alloc, heap, acts, end),
    }
}

fn push<T: Ord, const D: usize>(heap: &mut DaryHeap<T, D>, item: T) -> Reply<T, D>
    ensures { ServesPlain T.cmp D heap.old (machine.Push item) (read.reply result) heap.new }
{
    match heap.push(item) {
        Ok(()) => Reply::Pushed,
        Err(item) => Reply::PushRefused(item),
    }
}

fn pop<T: Ord, const D: usize>(heap: &mut DaryHeap<T, D>) -> Reply<T, D>
    ensures { ServesPlain T.cmp D heap.old machine.Pop (read.reply result) heap.new }
{
    Reply::Popped(heap.pop())
}

/// Returns what the predicate returns for the front, if there is one. As an `FnOnce` it is called once at most.
fn ask<T: Ord, const D: usize, F: FnOnce(&T) -> bool>(
    heap: &DaryHeap<T, D>,
    predicate: F,
) -> Option<bool>
    requires { (item : T) → slice_get heap.now.items 0 ≡ Some item
        → FnOnceTakesAt F.FnOnce predicate item }
    ensures empty { heap.now.items ≡ [] → result ≡ None }
    ensures asked { (item : T) → slice_get heap.now.items 0 ≡ Some item → (answer : Bool)
        × FnOnceReturnsAt F.FnOnce predicate item answer × (result ≡ Some answer) }
    ensures ordered { IsHeapOrdered T.cmp D heap.now.items }
{
    Some(predicate(heap.peek()?))
}

fn extend<T: Ord + Drop, const D: usize>(heap: &mut DaryHeap<T, D>, items: Vec<T>) -> Reply<T, D>
    ensures { ServesPlain T.cmp D heap.old (machine.Extend items.items)
        (read.reply result) heap.new }
{
    match heap.extend(items) {
        Ok(()) => Reply::Done,
        Err(_) => Reply::ExtendRefused,
    }
}

fn append<T: Ord + Drop, const D: usize>(
    heap: &mut DaryHeap<T, D>,
    mut other: DaryHeap<T, D>,
) -> Reply<T, D>
    ensures { ServesPlain T.cmp D heap.old (machine.Append other.items)
        (read.reply result) heap.new }
{
    // `capacity` ensures that no heap has more items than room.
    prove!(heap.len() <= heap.capacity() && other.len() <= other.capacity());
    match heap.append(&mut other) {
        Ok(()) => Reply::Done,
        Err(_) => Reply::AppendRefused(other),
    }
}

fn reserve<T: Ord, const D: usize>(heap: &mut DaryHeap<T, D>, additional: usize) -> Reply<T, D>
    ensures { ServesPlain T.cmp D heap.old (machine.Reserve additional)
        (read.reply result) heap.new }
{
    match heap.reserve(additional) {
        Ok(()) => Reply::Done,
        Err(_) => Reply::Refused,
    }
}

fn shrink<T: Ord, const D: usize>(heap: &mut DaryHeap<T, D>, capacity: usize) -> Reply<T, D>
    ensures { ServesPlain T.cmp D heap.old (machine.Shrink capacity) (read.reply result) heap.new }
{
    match heap.shrink_to(capacity) {
        Ok(()) => Reply::Done,
        Err(_) => Reply::Refused,
    }
}

fn drain<T: Ord + Drop, const D: usize>(
    alloc: Global,
    heap: &mut DaryHeap<T, D>,
    count: usize,
) -> Reply<T, D>
    ensures { ServesPlain T.cmp D heap.old (machine.Drain count) (read.reply result) heap.new }
{
    let count = count.min(heap.len());
    let Ok(mut taken) = Vec::with_capacity(alloc, count) else {
        return Reply::Refused;
    };
    let mut rest = heap.drain();
    for _ in 0..count {
        taken.push_reserved(rest.next().unwrap());
    }
    Reply::Taken(taken)
}

fn drain_sorted<T: Ord + Drop, const D: usize>(
    alloc: Global,
    heap: &mut DaryHeap<T, D>,
    count: usize,
) -> Reply<T, D>
    ensures { ServesPlain T.cmp D heap.old (machine.DrainSorted count)
        (read.reply result) heap.new }
{
    let count = count.min(heap.len());
    let Ok(mut taken) = Vec::with_capacity(alloc, count) else {
        return Reply::Refused;
    };
    let mut items = heap.drain_sorted();
    for _ in 0..count {
        taken.push_reserved(items.next().unwrap());
    }
    Reply::Taken(taken)
}

fn loan<T: Ord + Drop, const D: usize>(
    alloc: Global,
    heap: &mut DaryHeap<T, D>,
    acts: Vec<Act<T>>,
    end: End,
) -> Reply<T, D>
    ensures { ServesPlain T.cmp D heap.old (machine.Loan (read.acts acts.items) (read.ending end))
        (read.reply result) heap.new }
{
    if heap.is_empty() {
        return Reply::Loaned(None);
    }
    let Ok(mut seen) = Vec::with_capacity(alloc, acts.len()) else {
        return Reply::Refused;
    };
    let mut loan = heap.peek_mut().unwrap();
    for act in acts {
        seen.push_reserved(match act {
            Act::Write(item) => Seen::Old(mem::replace(&mut *loan, item)),
            Act::Refresh => Seen::Changed(loan.refresh()),
        });
    }
    let popped = match end {
        End::Drop => {
            drop(loan);
            None
        }
        End::Pop => Some(PeekMut::pop(loan)),
    };
    Reply::Loaned(Some((seen, popped)))
}
