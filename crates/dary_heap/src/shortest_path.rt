//! A search for a cheapest walk in a graph, over a ternary heap.
//!
//! [`shortest_path`] is the search that the documentation of heaps gives as its example. Its
//! contract speaks of walks and of what they cost, by the words of `specs/Walk.antt`, which know
//! nothing of a search. It stands on `new`, `push` and `pop` of the heap alone.
//! [`shortest_path_with`] is the same over a heap that the caller gives, which it clears first.
ghost use Rattle.std.proofs.Common.{rules};
ghost use Rattle.std.specs.Cmp.{partial_order_from_own_ties};
ghost use Rattle.std.specs.Cmp.Rules.{comparing};
ghost use Rattle.std.specs.Ordering.{as_partial_cmp};
ghost use Rattle.std.specs.Prelude.{◌≡◌, ◌+◌, ◌<◌, ◌≤◌, [], ◌∷◌, ◌++◌, IfOk, IfErr, OnOk, IfSome, IfNone, All, length};
ghost use Rattle.std.specs.List.{sum_by};
ghost use Rattle.dary_heap.specs.Bounds.{RisesWithin, search_bound};
ghost use Rattle.dary_heap.specs.shortest_path.Searching.{state_cmp, Relaxes, HasTooLarge};
ghost use Rattle.dary_heap.specs.shortest_path.Examining.{AreExamined, AreExaminedOnce, Pushes};
ghost use Rattle.dary_heap.specs.Walk.{IsWithin, IsLeastCost, IsUnreached, HasCritical, NoneCriticalBelow};
ghost use Rattle.dary_heap.specs.declared.shortest_path.PathRefusal.TheVariants.{NoMemory, CostTooLarge};

use crate::heap::{DaryHeap, TernaryHeap};
use crate::sift::JudgesByOrd;
use std::alloc::{AllocError, AllocFailed, Global};
use std::cmp::Ordering;
use work::Work;

mod work;

/// An edge of a graph, which leaves the node in whose list it stands.
#[derive(Clone, Copy, PartialEq, Eq, Debug)]
pub struct Edge {
    /// The node that it leads to.
    pub node: usize,
    /// What it costs.
    pub cost: usize,
}

/// A node that was reached at a cost.
///
/// The cheaper state is the greater one, so that a heap returns the cheapest first. Of two that
/// cost the same the one of the greater node is the greater.
///
/// # Examples
///
/// ```
/// use dary_heap::TernaryHeap;
/// use dary_heap::shortest_path::State;
/// let state = |cost, position| State { cost, position };
/// let mut heap = TernaryHeap::from(vec![in alloc; state(7, 1), state(2, 5)]?);
/// assert_eq!(rt; heap.pop(), Some(state(2, 5)));
/// ```
#[derive(Clone, Copy, PartialEq, Eq, Debug)]
pub struct State {
    /// What a walk to the node costs.
    pub cost: usize,
    /// The node.
    pub position: usize,
}

impl Ord for State {
    ghost cmp = { state_cmp };

    ghost total = { Prim.search (comparing, rules) };

    ghost matches_partial_cmp = { Prim.search (comparing, rules) };

    ghost matches_eq = { Prim.search (comparing, rules) };

    fn cmp(&self, other: &State) -> Ordering {
        // Costs are compared in reverse.
        other
            .cost
            .cmp(&self.cost)
            .then(self.position.cmp(&other.position))
    }
}

impl PartialOrd for State {
    ghost partial_cmp = { as_partial_cmp state_cmp };

    ghost laws = { partial_order_from_own_ties (Prim.search (comparing, rules))
        (Prim.search (comparing, rules)) };

    fn partial_cmp(&self, other: &State) -> Option<Ordering> {
        Some(self.cmp(other))
    }
}

/// Why a search failed.
#[derive(Clone, Copy, PartialEq, Eq, Debug)]
pub enum PathRefusal {
    /// Memory allocation failed.
    NoMemory,
    /// The cost of a walk reaches `usize::MAX`.
    CostTooLarge,
}

impl From<AllocError> for PathRefusal {
    ghost from_gives = { λ _ refusal. refusal ≡ NoMemory };

    fn from(_: AllocError) -> PathRefusal {
        PathRefusal::NoMemory
    }
}

impl<T: Drop> From<AllocFailed<T>> for PathRefusal {
    ghost from_gives = { λ _ refusal. refusal ≡ NoMemory };

    fn from(_: AllocFailed<T>) -> PathRefusal {
        PathRefusal::NoMemory
    }
}

/// Returns the least cost of a walk from one node to another, or `None` if no walk leads there.
///
/// The nodes are the numbers below the length of `adj_list`, which has for each node the list of
/// the edges that leave it. `goal` may be any number; no walk leads to one that is no node. From
/// `start` to itself the least cost is 0.
///
/// # Preconditions
///
/// - `start` is a node.
/// - The `node` of each edge is a node. If the edges come from an input, test them first.
///
/// # Errors
///
/// Returns [`PathRefusal::NoMemory`] if memory allocation fails: for the table, which has a number
/// for each node, or for the heap of the states that were pushed and not popped yet. Those are
/// never more than the edges of the graph, and one.
///
/// Returns [`PathRefusal::CostTooLarge`] if costs get too large for a `usize`. Call a node other than the goal that
/// a walk reaches *critical* if its least cost, with what one of its edges costs, comes to `usize::MAX` or more. If
/// some critical node's least cost is below that of every walk to the goal, the call fails. It returns this error
/// only if some critical node's least cost is at most that of every walk to the goal. So an edge that costs too
/// much doesn't matter if the node that it leaves is dearer to reach than the goal. With fewer than `2 ^ 32` nodes and
/// costs below `2 ^ 32` no node is critical, though no clause says so.
///
/// # Examples
///
/// ```
/// use dary_heap::shortest_path::{Edge, shortest_path};
/// let from_0 = vec![in alloc; Edge { node: 1, cost: 7 }, Edge { node: 2, cost: 1 }]?;
/// let from_2 = vec![in alloc; Edge { node: 1, cost: 3 }]?;
/// let graph = vec![in alloc; from_0, Vec::new(alloc), from_2]?;
/// assert_eq!(rt; shortest_path(alloc, &graph, 0, 1), Ok(Some(4)));
/// assert_eq!(rt; shortest_path(alloc, &graph, 1, 0), Ok(None));
/// ```
///
/// # Time
///
/// The table is filled once, and nothing else goes over all nodes. The edges of a node are examined
/// once at most. A state is pushed for the start, and at most one for each edge that is examined;
/// each is popped once at most. These pushes and pops take the comparisons of a ternary heap.
pub fn shortest_path(
    alloc: Global,
    adj_list: &Vec<Vec<Edge>>,
    start: usize,
    goal: usize,
) -> Result<Option<usize>, PathRefusal>
    requires graph { IsWithin (length adj_list.now.items) adj_list.now.items }
    requires start { start < length adj_list.now.items }

    // The result is the cost of a walk, and none costs less; or no walk leads to the goal.
    ensures least { IfOk result
        (λ answer. IfSome answer (IsLeastCost adj_list.now.items start goal)) }
    ensures unreached { IfOk result
        (λ answer. IfNone answer (IsUnreached adj_list.now.items start goal)) }

    // If a critical node is cheaper to reach than the goal the call fails, and `CostTooLarge` comes only from
    // one that is no dearer to reach than the goal.
    ensures uncritical { OnOk result (NoneCriticalBelow usize.MAX adj_list.now.items start goal) }
    ensures too_large { IfErr result
        (λ refusal. refusal ≡ CostTooLarge → HasCritical usize.MAX adj_list.now.items start goal) }
{
    let mut heap = TernaryHeap::new(alloc);
    let mut work = Work::new();
    search(alloc, adj_list, start, goal, &mut heap, &mut work)
}

/// The same search over a heap that the caller gives, of any arity: its judge counts the comparisons, and many searches
/// can share its room, which is kept. What it holds before doesn't matter.
///
/// # Preconditions
///
/// Those of [`shortest_path`].
///
/// # Errors
///
/// Those of [`shortest_path`].
///
/// # Examples
///
/// ```
/// use dary_heap::DaryHeap;
/// use dary_heap::shortest_path::{Edge, shortest_path_with};
/// use dary_heap::sift::Tally;
/// let from_0 = vec![in alloc; Edge { node: 1, cost: 7 }, Edge { node: 2, cost: 1 }]?;
/// let from_2 = vec![in alloc; Edge { node: 1, cost: 3 }]?;
/// let graph = vec![in alloc; from_0, Vec::new(alloc), from_2]?;
/// let mut heap = DaryHeap::<_, 4, _>::with_judge(alloc, Tally::new());
/// heap.reserve(3)?;
/// assert_eq!(rt; shortest_path_with(alloc, &graph, 0, 1, &mut heap), Ok(Some(4)));
/// assert_eq!(rt; heap.judge().made(), 2);
/// ```
///
/// # Time
///
/// That of [`shortest_path`], at the arity of the heap.
pub fn shortest_path_with<const D: usize, J: JudgesByOrd<State>>(
    alloc: Global,
    adj_list: &Vec<Vec<Edge>>,
    start: usize,
    goal: usize,
    heap: &mut DaryHeap<State, D, J>,
) -> Result<Option<usize>, PathRefusal>
    requires graph { IsWithin (length adj_list.now.items) adj_list.now.items }
    requires start { start < length adj_list.now.items }
    ensures least { IfOk result
        (λ answer. IfSome answer (IsLeastCost adj_list.now.items start goal)) }
    ensures unreached { IfOk result
        (λ answer. IfNone answer (IsUnreached adj_list.now.items start goal)) }
    ensures uncritical { OnOk result (NoneCriticalBelow usize.MAX adj_list.now.items start goal) }
    ensures too_large { IfErr result
        (λ refusal. refusal ≡ CostTooLarge → HasCritical usize.MAX adj_list.now.items start goal) }
    ensures counted { RisesWithin heap.old.comparisons heap.new.comparisons
        (search_bound D (sum_by (λ row. length row.items) adj_list.now.items)) }
    ensures room { heap.old.capacity ≤ heap.new.capacity }
{
    heap.clear();
    let mut work = Work::new();
    search(alloc, adj_list, start, goal, heap, &mut work)
}

/// The search itself, with the states that wait in this heap, which is empty, and with an account of its work.
fn search<const D: usize, J: JudgesByOrd<State>>(
    alloc: Global,
    adj_list: &Vec<Vec<Edge>>,
    start: usize,
    goal: usize,
    heap: &mut DaryHeap<State, D, J>,
    work: &mut Work,
) -> Result<Option<usize>, PathRefusal>
    requires graph { IsWithin (length adj_list.now.items) adj_list.now.items }
    requires start { start < length adj_list.now.items }
    requires empty { heap.old.items ≡ [] }
    requires unexamined { work.old.examined ≡ [] }
    requires unpushed { work.old.pushes ≡ 0 }
    ensures least { IfOk result
        (λ answer. IfSome answer (IsLeastCost adj_list.now.items start goal)) }
    ensures unreached { IfOk result
        (λ answer. IfNone answer (IsUnreached adj_list.now.items start goal)) }
    ensures uncritical { OnOk result (NoneCriticalBelow usize.MAX adj_list.now.items start goal) }
    ensures too_large { IfErr result
        (λ refusal. refusal ≡ CostTooLarge → HasCritical usize.MAX adj_list.now.items start goal) }

    // The edges of a node are examined once at most, so no more than there are.
    ensures once { AreExaminedOnce adj_list.now.items work.new.examined }
    ensures within { length work.new.examined
        ≤ sum_by (λ row. length row.items) adj_list.now.items }

    // A state is pushed for the start, and at most one for each edge that is examined. Each is popped once
    // at most.
    ensures pushed { work.new.pushes ≤ length work.new.examined + 1 }
    ensures few { length heap.new.items ≤ length work.new.examined + 1 }
    ensures counted { RisesWithin heap.old.comparisons heap.new.comparisons
        (search_bound D (length work.new.examined)) }
    ensures room { heap.old.capacity ≤ heap.new.capacity }
{
    // What a walk to each node was found to cost so far, and the greatest number if none was found.
    let Ok(mut found) = vec![in alloc; usize::MAX; adj_list.len()] else {
        return Err(PathRefusal::NoMemory);
    };
    found[start] = 0;
    work.add_push();
    let Ok(()) = heap.push(State {
        cost: 0,
        position: start,
    }) else {
        return Err(PathRefusal::NoMemory);
    };
    while let Some(State { cost, position }) = heap.pop() {
        if position == goal {
            return Ok(Some(cost));
        }
        // Something cheaper was found for the node since this state was pushed.
        if cost > found[position] {
            continue;
        }
        relax(&adj_list[position], cost, &mut found, heap, work)?;
    }
    Ok(None)
}

/// Examines the edges of a node that is reached at a cost, in their order.
fn relax<const D: usize, J: JudgesByOrd<State>>(
    edges: &Vec<Edge>,
    cost: usize,
    found: &mut Vec<usize>,
    heap: &mut DaryHeap<State, D, J>,
    work: &mut Work,
) -> Result<(), PathRefusal>
    requires { All (λ edge. edge.node < length found.old.items) edges.now.items }
    ensures ok { OnOk result (Relaxes usize.MAX cost edges.now.items
        found.old.items heap.old.items found.new.items heap.new.items) }
    ensures too_large { IfErr result
        (λ refusal. refusal ≡ CostTooLarge → HasTooLarge usize.MAX cost edges.now.items) }
    ensures no_memory { IfErr result
        (λ refusal. refusal ≡ NoMemory → length heap.new.items ≡ heap.new.capacity) }
    ensures once { AreExamined D edges.now.items work.old.examined work.new.examined
        heap.old heap.new }
    ensures pushed { work.new.pushes + length work.old.examined
        ≤ work.old.pushes + length work.new.examined }
    ensures all { OnOk result (work.new.examined ≡ work.old.examined ++ edges.now.items) }
    ensures room { heap.old.capacity ≤ heap.new.capacity }
{
    for edge in edges {
        examine(*edge, cost, found, heap, work)?;
    }
    Ok(())
}

/// Examines one edge of a node that is reached at a cost: if it leads to its end at less than was found,
/// that is found from now on, and waits.
fn examine<const D: usize, J: JudgesByOrd<State>>(
    edge: Edge,
    cost: usize,
    found: &mut Vec<usize>,
    heap: &mut DaryHeap<State, D, J>,
    work: &mut Work,
) -> Result<(), PathRefusal>
    requires { edge.node < length found.old.items }
    ensures ok { OnOk result (Relaxes usize.MAX cost (edge ∷ [])
        found.old.items heap.old.items found.new.items heap.new.items) }
    ensures too_large { IfErr result
        (λ refusal. refusal ≡ CostTooLarge → usize.MAX ≤ cost + edge.cost) }
    ensures no_memory { IfErr result
        (λ refusal. refusal ≡ NoMemory → length heap.new.items ≡ heap.new.capacity) }
    ensures examined { work.new.examined ≡ work.old.examined ++ edge ∷ [] }
    ensures pushed { work.new.pushes ≤ work.old.pushes + 1 }
    ensures pushes { Pushes D 1 heap.old heap.new }
    ensures room { heap.old.capacity ≤ heap.new.capacity }
{
    work.add_edge(&edge);
    // Whether the sum reaches the greatest number, without forming it.
    if edge.cost >= usize::MAX - cost {
        return Err(PathRefusal::CostTooLarge);
    }
    let next = State {
        cost: cost + edge.cost,
        position: edge.node,
    };
    if next.cost < found[next.position] {
        work.add_push();
        let Ok(()) = heap.push(next) else {
            return Err(PathRefusal::NoMemory);
        };
        found[next.position] = next.cost;
    }
    Ok(())
}
