//! The nodes of a shortest path.
ghost use Rattle.std.specs.List.{IsDistinct};
ghost use Rattle.std.specs.Prelude.{[], ◌∷◌, ℕ, ◌≡◌, ◌<◌, ◌≤◌, IfOk, IfErr, OnOk, OnErr, IsOk, IfSome, IfNone, List, length, nat_eq, reverse, vec_capacity};
ghost use Rattle.dary_heap.specs.Walk.{Graph, IsWithin, IsLeastCost, IsUnreached, HasCritical, NoneCriticalBelow};
ghost use Rattle.dary_heap.specs.declared.shortest_path.PathRefusal.TheVariants.{CostTooLarge};
ghost use Rattle.indexed_heap.specs.Ways.{ComesBack, IsNamedFrom, IsWayOf, LeadsBack};

use super::{CostHeap, shortest_paths_into};
use dary_heap::shortest_path::{Edge, PathRefusal};
use dary_heap::sift::{ByOrd, LeastFirst};
use std::alloc::{AllocError, Global};

/// Returns the least cost of a path from one node to another, and the nodes of such a path in their order, both ends
/// included, or `None` if no path leads there.
///
/// The nodes are the numbers below the length of `adj_list`, which has for each node the list of the edges that leave
/// it. `goal` may be any number. No node occurs twice in the path. From `start` to itself the cost is 0, and `start` is
/// the only node.
///
/// # Preconditions
///
/// - `start` is a node.
/// - The `node` of each edge is a node. [`is_graph`](super::is_graph) tests that.
///
/// # Errors
///
/// Returns [`PathRefusal::NoMemory`] if memory allocation fails. That happens before the first step: for two tables
/// with a number for each node, or for a heap with room for each node; or at the end, for the list that is returned.
///
/// Returns [`PathRefusal::CostTooLarge`] if costs get too large for a `usize`, in the cases that `shortest_path` of
/// `dary_heap` states.
///
/// # Examples
///
/// ```
/// use dary_heap::shortest_path::Edge;
/// use indexed_heap::shortest_path::shortest_path_nodes;
/// let from_0 = vec![in alloc; Edge { node: 1, cost: 7 }, Edge { node: 2, cost: 1 }]?;
/// let from_2 = vec![in alloc; Edge { node: 1, cost: 3 }]?;
/// let graph = vec![in alloc; from_0, Vec::new(alloc), from_2]?;
/// // The detour is cheaper.
/// let nodes = vec![in alloc; 0, 2, 1]?;
/// assert_eq!(rt; shortest_path_nodes(alloc, &graph, 0, 1), Ok(Some((4, nodes))));
/// let nodes = vec![in alloc; 1]?;
/// assert_eq!(rt; shortest_path_nodes(alloc, &graph, 1, 1), Ok(Some((0, nodes))));
/// assert_eq!(rt; shortest_path_nodes(alloc, &graph, 1, 0), Ok(None));
/// ```
///
/// # Time
///
/// That of [`shortest_paths_into`], and of [`path_to`] at the end.
pub fn shortest_path_nodes(
    alloc: Global,
    adj_list: &Vec<Vec<Edge>>,
    start: usize,
    goal: usize,
) -> Result<Option<(usize, Vec<usize>)>, PathRefusal>
    requires graph { IsWithin (length adj_list.now.items) adj_list.now.items }
    requires start { start < length adj_list.now.items }
    ensures least { IfOk result
        (λ answer. IfSome answer (λ path. IsLeastCost adj_list.now.items start goal path.0)) }
    ensures way { IfOk result
        (λ answer. IfSome answer (λ path. IsWayOf adj_list.now.items start goal path.1.items path.0)) }
    ensures once { IfOk result (λ answer. IfSome answer (λ path. IsDistinct nat_eq path.1.items)) }
    ensures unreached { IfOk result
        (λ answer. IfNone answer (IsUnreached adj_list.now.items start goal)) }
    ensures uncritical { OnOk result (NoneCriticalBelow usize.MAX adj_list.now.items start goal) }
    ensures too_large { IfErr result
        (λ refusal. refusal ≡ CostTooLarge → HasCritical usize.MAX adj_list.now.items start goal) }
{
    let room = room_for(alloc, adj_list.len()).map_err(|_| PathRefusal::NoMemory)?;
    let (mut dist, mut prev, mut heap) = room;
    let least = shortest_paths_into(adj_list, start, goal, &mut dist, &mut prev, &mut heap)?;
    let Some(cost) = least else {
        return Ok(None);
    };
    let mut path = Vec::new(alloc);
    path_to(&prev, start, goal, &mut path).map_err(|_| PathRefusal::NoMemory)?;
    Ok(Some((cost, path)))
}

/// Returns what a search among so many nodes needs: two tables with a number for each node, and a heap with room for
/// each node.
fn room_for(
    alloc: Global,
    nodes: usize,
) -> Result<(Vec<usize>, Vec<usize>, CostHeap<4>), AllocError>
    ensures dist { IfOk result (λ room. length room.0.items ≡ nodes) }
    ensures prev { IfOk result (λ room. length room.1.items ≡ nodes) }
    ensures room { IfOk result (λ room. nodes ≤ room.2.capacity) }
    ensures keyed { IfOk result (λ room. nodes ≤ room.2.keys) }
{
    let dist = vec![in alloc; 0; nodes]?;
    let prev = vec![in alloc; 0; nodes]?;
    let mut heap = CostHeap::<4>::with_judge(alloc, LeastFirst(ByOrd::new()));
    heap.reserve(nodes, nodes)?;
    Ok((dist, prev, heap))
}

/// Reads the path to a node from the table that a search made. Afterwards `nodes` has the nodes of a path from `start`
/// to `goal`, in their order, both ends included, none of them twice. What `nodes` had before is removed.
///
/// # Preconditions
///
/// - `start` is a number below the length of `prev`.
/// - Read from `goal` on, `prev` comes back to `start`. After [`shortest_paths_into`] from `start`, that holds for each
///   node whose `dist` isn't `usize::MAX`, and for the goal that was found.
///
/// # Errors
///
/// Returns [`AllocError`] if memory allocation fails. Then `nodes` is empty. The call makes one request at most, and
/// none if `nodes` has room for as many numbers as `prev` has.
///
/// # Examples
///
/// ```
/// use indexed_heap::shortest_path::path_to;
/// let mut nodes = vec![in alloc; 9]?;
/// path_to(&[0, 2, 0], 0, 1, &mut nodes)?;
/// assert_eq!(rt; nodes.as_slice(), [0, 2, 1].as_slice());
/// path_to(&[0, 2, 0], 0, 0, &mut nodes)?;
/// assert_eq!(rt; nodes.as_slice(), [0].as_slice());
/// ```
///
/// # Time
///
/// Two passes over the path.
pub fn path_to(
    prev: &[usize],
    start: usize,
    goal: usize,
    nodes: &mut Vec<usize>,
) -> Result<(), AllocError>
    requires start { start < length prev.now }
    requires back { ComesBack prev.now start goal }
    ensures read { (named : List ℕ) → IsNamedFrom prev.now start goal named
        → OnOk result (nodes.new.items ≡ reverse (goal ∷ named)) }
    ensures way { (g : Graph) (cost : ℕ) → LeadsBack g start goal cost prev.now
        → OnOk result (IsWayOf g start goal nodes.new.items cost) }
    ensures once { OnOk result (IsDistinct nat_eq nodes.new.items) }
    ensures empty { OnErr result (nodes.new.items ≡ []) }
    ensures capacity { vec_capacity nodes.old ≤ vec_capacity nodes.new }
    ensures succeeds { length prev.now ≤ vec_capacity nodes.old → IsOk result }
{
    let mut steps = steps_back(prev, start, goal);
    nodes.clear();
    nodes.resize(steps + 1, start)?;
    let mut node = goal;
    while steps > 0 {
        nodes[steps] = node;
        node = prev[node];
        steps -= 1;
    }
    Ok(())
}

/// Returns how many steps lead back from a node to the start.
fn steps_back(prev: &[usize], start: usize, goal: usize) -> usize
    requires start { start < length prev.now }
    requires back { ComesBack prev.now start goal }
    ensures steps { (nodes : List ℕ) → IsNamedFrom prev.now start goal nodes → length nodes ≡ result }
    ensures few { result < length prev.now }
{
    let mut steps = 0;
    let mut node = goal;
    while node != start {
        node = prev[node];
        steps += 1;
    }
    steps
}
