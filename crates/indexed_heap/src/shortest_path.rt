//! Shortest paths by lowering: Dijkstra's search over a heap whose keys are the nodes.
//!
//! [`shortest_path_nodes`] finds the least cost that `shortest_path` of `dary_heap` finds, and returns the nodes of such
//! a path too. If the search finds a cheaper path to a node that waits, it lowers the cost with which the node waits. A
//! node waits once at most, and all memory of the search is allocated before its first step. [`shortest_paths_into`] is
//! the same search in memory that the caller has allocated.
ghost use Rattle.std.specs.List.{sum_by};
ghost use Rattle.std.specs.Prelude.{set, slice_get, slice_index_or, ◌≡◌, ◌+◌, ◌↔◌, ◌<◌, ◌≤◌, IsTrue, IfOk, IfErr, OnOk, OnErr, IfSome, IfNone, All, Some, length};
ghost use Rattle.dary_heap.specs.Bounds.{RisesWithin, push_bound};
ghost use Rattle.dary_heap.specs.Walk.{IsWithin, IsLeastCost, IsUnreached, HasCritical, NoneCriticalBelow};
ghost use Rattle.dary_heap.specs.declared.shortest_path.PathRefusal.TheVariants.{CostTooLarge};
ghost use Rattle.dary_heap.specs.shortest_path.Searching.{HasTooLarge};
ghost use Rattle.indexed_heap.specs.Lowering.{HasSameRoom, IsReady, Lowers, Notes, Waits, raises_bound, search_bound};
ghost use Rattle.indexed_heap.specs.Ways.{AllLeadBack, FindsNearer, LeadsBack};

use crate::heap::IndexedHeap;
use dary_heap::shortest_path::{Edge, PathRefusal};
use dary_heap::sift::{ByOrd, JudgesByOrd, LeastFirst};

mod walks;

pub use walks::{path_to, shortest_path_nodes};

/// Nodes that wait, each with a cost. The cheapest comes out first.
pub type CostHeap<const D: usize, J = ByOrd> = IndexedHeap<usize, D, LeastFirst<J>>;

/// Returns whether each edge leads to a node, which is a precondition of the searches.
///
/// # Examples
///
/// ```
/// use dary_heap::shortest_path::Edge;
/// use indexed_heap::shortest_path::is_graph;
/// let from_0 = vec![in alloc; Edge { node: 1, cost: 7 }]?;
/// let mut graph = vec![in alloc; from_0]?;
/// assert!(rt; !is_graph(&graph));
/// graph.push(Vec::new(alloc))?;
/// assert!(rt; is_graph(&graph));
/// ```
pub fn is_graph(adj_list: &Vec<Vec<Edge>>) -> bool
    ensures { IsTrue result ↔ IsWithin (length adj_list.now.items) adj_list.now.items }
{
    let nodes = adj_list.len();
    adj_list.iter().all(|edges| leads_below(edges, nodes))
}

/// Returns whether each edge leads to a number below `nodes`.
fn leads_below(edges: &Vec<Edge>, nodes: usize) -> bool
    ensures { IsTrue result ↔ All (λ edge. edge.node < nodes) edges.now.items }
{
    edges.iter().all(|edge| edge.node < nodes)
}

/// Returns the least cost of a path from one node to another, or `None` if no path leads there. The call writes the
/// paths that it finds into tables of the caller's, from which [`path_to`] reads the nodes.
///
/// Afterwards `dist` has for each node the cost of a path there, or `usize::MAX` if the search found none, and `prev` has
/// the node before it on such a path. For each node that is nearer than the goal, the cost is the least. If `goal` is no
/// node, the call finds all nodes that a path reaches, each at its least cost.
///
/// What the tables and `heap` hold before doesn't matter. The call allocates no memory, and many searches can share the
/// tables and the heap. By the judge `Tally` the heap counts its comparisons.
///
/// # Preconditions
///
/// - `start` is a node.
/// - The `node` of each edge is a node. [`is_graph`] tests that.
/// - `dist` and `prev` are as long as `adj_list`.
/// - The capacity of `heap` and its number of keys are at least the number of nodes.
///
/// # Errors
///
/// Returns [`PathRefusal::CostTooLarge`], and no other error, if costs get too large for a `usize`, in the cases that
/// `shortest_path` of `dary_heap` states. The contents of the tables are unspecified then.
///
/// # Examples
///
/// ```
/// use dary_heap::shortest_path::Edge;
/// use dary_heap::sift::{ByOrd, LeastFirst};
/// use indexed_heap::shortest_path::{CostHeap, path_to, shortest_paths_into};
/// let from_0 = vec![in alloc; Edge { node: 1, cost: 7 }, Edge { node: 2, cost: 1 }]?;
/// let from_2 = vec![in alloc; Edge { node: 1, cost: 3 }]?;
/// let graph = vec![in alloc; from_0, Vec::new(alloc), from_2]?;
/// let (mut dist, mut prev) = ([0; 3], [0; 3]);
/// let mut heap = CostHeap::<8>::with_judge(alloc, LeastFirst(ByOrd::new()));
/// heap.reserve(3, 3)?;
/// // There is no node 3, and the search finds the paths to all nodes.
/// let cost = shortest_paths_into(&graph, 0, 3, &mut dist, &mut prev, &mut heap);
/// assert_eq!(rt; (cost, dist), (Ok(None), [0, 4, 1]));
/// let mut nodes = Vec::with_capacity(alloc, 3)?;
/// path_to(&prev, 0, 1, &mut nodes)?;
/// assert_eq!(rt; nodes.as_slice(), [0, 2, 1].as_slice());
/// path_to(&prev, 0, 2, &mut nodes)?;
/// assert_eq!(rt; nodes.as_slice(), [0, 2].as_slice());
/// ```
///
/// # Time
///
/// The call fills `dist` once. Each node comes out of the heap once at most. The call puts a cost into the heap, or
/// lowers one there, once for the start, and once at most for each edge.
pub fn shortest_paths_into<const D: usize, J: JudgesByOrd<usize>>(
    adj_list: &Vec<Vec<Edge>>,
    start: usize,
    goal: usize,
    dist: &mut [usize],
    prev: &mut [usize],
    heap: &mut CostHeap<D, J>,
) -> Result<Option<usize>, PathRefusal>
    requires graph { IsWithin (length adj_list.now.items) adj_list.now.items }
    requires start { start < length adj_list.now.items }
    requires dist { length dist.old ≡ length adj_list.now.items }
    requires prev { length prev.old ≡ length adj_list.now.items }
    requires room { length adj_list.now.items ≤ heap.old.capacity }
    requires keyed { length adj_list.now.items ≤ heap.old.keys }
    ensures least { IfOk result
        (λ answer. IfSome answer (IsLeastCost adj_list.now.items start goal)) }
    ensures here { IfOk result (λ answer. IfSome answer
        (λ cost. slice_get dist.new goal ≡ Some cost)) }
    ensures back { IfOk result (λ answer. IfSome answer
        (λ cost. LeadsBack adj_list.now.items start goal cost prev.new)) }
    ensures all_back { OnOk result (AllLeadBack usize.MAX adj_list.now.items start dist.new prev.new) }
    ensures nearer { OnOk result (FindsNearer usize.MAX adj_list.now.items start goal dist.new) }
    ensures unreached { IfOk result
        (λ answer. IfNone answer (IsUnreached adj_list.now.items start goal)) }
    ensures uncritical { OnOk result (NoneCriticalBelow usize.MAX adj_list.now.items start goal) }
    ensures refused { IfErr result (λ refusal. refusal ≡ CostTooLarge) }
    ensures too_large { OnErr result (HasCritical usize.MAX adj_list.now.items start goal) }
    ensures room { HasSameRoom heap.old heap.new }
    ensures counted { RisesWithin heap.old.comparisons heap.new.comparisons
        (search_bound D (length adj_list.now.items) (sum_by (λ row. length row.items) adj_list.now.items)) }
{
    dist.fill(usize::MAX);
    heap.clear();
    wait_at(start, 0, dist, heap);
    while let Some((node, cost)) = heap.pop() {
        if node == goal {
            return Ok(Some(cost));
        }
        relax(&adj_list[node], node, cost, dist, prev, heap)?;
    }
    Ok(None)
}

/// Examines the edges of a node that is reached at a cost. If a path over one of them costs less than what was found for
/// the node that the edge leads to, that node waits with the lower cost from then on, and the node before it is noted.
fn relax<const D: usize, J: JudgesByOrd<usize>>(
    edges: &Vec<Edge>,
    node: usize,
    cost: usize,
    dist: &mut [usize],
    prev: &mut [usize],
    heap: &mut CostHeap<D, J>,
) -> Result<(), PathRefusal>
    requires within { All (λ edge. edge.node < length dist.old) edges.now.items }
    requires ready { IsReady usize.MAX dist.old heap.old }
    requires prev { length prev.old ≡ length dist.old }
    ensures ready { IsReady usize.MAX dist.new heap.new }
    ensures ok { OnOk result (Lowers usize.MAX cost edges.now.items
        dist.old heap.old.entries dist.new heap.new.entries) }
    ensures noted { OnOk result (Notes usize.MAX node cost edges.now.items
        dist.old prev.old dist.new prev.new) }
    ensures refused { IfErr result (λ refusal. refusal ≡ CostTooLarge) }
    ensures too_large { OnErr result (HasTooLarge usize.MAX cost edges.now.items) }
    ensures room { HasSameRoom heap.old heap.new }
    ensures counted { RisesWithin heap.old.comparisons heap.new.comparisons
        (raises_bound D (length dist.old) (length edges.now.items)) }
{
    for edge in edges {
        // Tests whether the sum reaches `usize::MAX`, without overflow.
        if edge.cost >= usize::MAX - cost {
            return Err(PathRefusal::CostTooLarge);
        }
        let next = cost + edge.cost;
        if next < dist[edge.node] {
            wait_at(edge.node, next, dist, heap);
            prev[edge.node] = node;
        }
    }
    Ok(())
}

/// Lowers the cost that was found for a node, which waits with that cost from then on.
fn wait_at<const D: usize, J: JudgesByOrd<usize>>(
    node: usize,
    cost: usize,
    dist: &mut [usize],
    heap: &mut CostHeap<D, J>,
)
    requires within { node < length dist.old }
    requires ready { IsReady usize.MAX dist.old heap.old }
    requires lower { cost < slice_index_or dist.old node usize.MAX }
    ensures dist { dist.new ≡ set dist.old node cost }
    ensures ready { IsReady usize.MAX dist.new heap.new }
    ensures waits { Waits node cost heap.old.entries heap.new.entries }
    ensures room { HasSameRoom heap.old heap.new }
    ensures counted { RisesWithin heap.old.comparisons heap.new.comparisons
        (push_bound D (length dist.old) + 1) }
{
    let Ok(_) = heap.raise(node, cost) else {
        // The node waits already, or fewer nodes wait than there is room for.
        unreachable!();
    };
    dist[node] = cost;
}
