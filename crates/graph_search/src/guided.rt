//! A search with an estimate of what is still to go: A*.
//!
//! Each edge is taken to cost what it costs, and the estimate at its end, less the estimate at its beginning. A cheapest
//! walk stays one, and the search of [`dijkstra`](crate::dijkstra) then takes first the nodes that seem to lie on one.
ghost use Rattle.std.specs.Prelude.{◌≡◌, ◌⊎◌, ℕ, ◌+◌, ◌-◌, ◌<◌, ◌≤◌, Contains, IfOk, IfErr, IfSome, IfNone, OnErr, OnOk, map, true};
ghost use Rattle.std.specs.Fn.{FnReturnsAt};
ghost use Rattle.std.specs.List.{IsDistinct};
ghost use Rattle.dary_heap.specs.declared.shortest_path.PathRefusal.TheVariants.{CostTooLarge};
ghost use Rattle.graph_search.specs.Guided.{HasCriticalGuided, HasDearWay, IsConsistent, NoGoalAtZeroBelow, NoneCriticalGuided, NoneCriticalGuidedBelow, less_estimate, reduced};
ghost use Rattle.graph_search.specs.Laws.{alike_reduced, keeps_reduced};
ghost use Rattle.graph_search.specs.Walk.{HasEdgeBeyond, IsWayToGoal, NoGoal};

use crate::expand::Expand;
use crate::graph::Graph;
use crate::search::search;
use dary_heap::shortest_path::PathRefusal;
use std::alloc::Global;
use std::hash::{BuildHasher, BuildHasherDefault, FoldHasher, Hash};

/// A graph with an estimate: what a walk from a node to a goal costs at least.
pub trait Guide<N: Eq>: Graph<N> {
    /// The estimate at a value.
    ghost estimate: { Self → N → ℕ };

    /// Returns the estimate at a node.
    ///
    /// # Preconditions
    ///
    /// - `node` is a node.
    fn estimate(&self, node: &N) -> usize
        requires node { Self.is_node self.now node.now }
        ensures { result ≡ estimate self.now node.now };

    /// Equal values have the same estimate.
    ghost even: { (graph : Self) (u v : N) → N.eq u v ≡ true → estimate graph u ≡ estimate graph v };

    /// Over an edge of a node the estimate falls by no more than the edge costs.
    ghost consistent: { (graph : Self) → IsConsistent (Self.is_node graph) (Self.edge graph) (estimate graph) };
}

/// The graph with the costs that a guided search goes by.
#[derive(Drop)]
struct Guided<'a, G> {
    graph: &'a G,
}

impl<'a, N: Eq, G: Guide<N>> Expand<N> for Guided<'a, G> {
    ghost is_node = { λ guided. G.is_node guided.graph.now };

    ghost edge = { λ guided. reduced (G.edge guided.graph.now) (G.estimate guided.graph.now) };

    ghost refuses = { λ guided node. HasEdgeBeyond (G.edge guided.graph.now node) 18446744073709551615 0
        ⊎ HasEdgeBeyond (reduced (G.edge guided.graph.now) (G.estimate guided.graph.now) node) 18446744073709551615 0 };

    ghost keeps = { λ guided. keeps_reduced (G.estimate guided.graph.now) (G.keeps guided.graph.now) };

    ghost alike = { λ guided. alike_reduced (G.alike guided.graph.now) (G.even guided.graph.now) };

    fn expand(&self, node: &N, edges: &mut Vec<(N, usize)>) -> Result<(), PathRefusal> {
        self.graph.edges_from(node, edges)?;
        reduce(self.graph, self.graph.estimate(node), edges)?;
        Ok(())
    }
}

/// Makes the costs of the edges of a node those that a guided search goes by. `from` is the estimate at that node.
fn reduce<N: Eq, G: Guide<N>>(
    graph: &G,
    from: usize,
    edges: &mut Vec<(N, usize)>,
) -> Result<(), PathRefusal>
    requires nodes { (e : N × ℕ) → Contains edges.old.items e → G.is_node graph.now e.0 }
    requires falls { (e : N × ℕ) → Contains edges.old.items e → from ≤ e.1 + G.estimate graph.now e.0 }
    ensures reduced { OnOk result (edges.new.items ≡ map (less_estimate (G.estimate graph.now) from) edges.old.items) }
    ensures too_large { OnErr result ((e : N × ℕ) × Contains edges.old.items e
        × (usize.MAX < e.1 + G.estimate graph.now e.0 - from)) }
{
    for edge in edges.iter_mut() {
        let there = graph.estimate(&edge.0);
        let Some(cost) = reduced_cost(edge.1, there, from) else {
            return Err(PathRefusal::CostTooLarge);
        };
        edge.1 = cost;
    }
    Ok(())
}

/// Returns `cost + there - from`, or `None` if that exceeds `usize::MAX`.
fn reduced_cost(cost: usize, there: usize, from: usize) -> Option<usize>
    requires { from ≤ cost + there }
    ensures reduced { IfSome result (λ reduced. reduced ≡ cost + there - from) }
    ensures too_large { IfNone result (usize.MAX < cost + there - from) }
{
    if cost <= from {
        return Some(there - (from - cost));
    }
    (cost - from).checked_add(there)
}

/// Returns the least cost of a walk from `start` to a goal, and the nodes of such a walk in their order, both ends
/// included and each once, or `None` if no walk leads to a goal. The better the estimate, the fewer nodes are examined.
///
/// # Preconditions
///
/// - `start` is a node.
/// - `is_goal` may be called on each node.
/// - The estimate at a goal is 0.
///
/// # Errors
///
/// Returns [`PathRefusal::NoMemory`] if memory allocation fails, here or in [`Graph::edges_from`].
///
/// Returns [`PathRefusal::CostTooLarge`] only if the least cost of a walk to a goal exceeds `usize::MAX`, or there is a
/// critical node: the node is no goal, no goal costs less than the node with its estimate, and one of its edges costs more
/// than `usize::MAX`, or the node's least cost with that of the edge and the estimate at its end exceeds `usize::MAX` with
/// the estimate at `start`.
///
/// The caller's graph is borrowed, and is as before after a failure.
pub fn astar<N: Eq + Hash + Drop, G: Guide<N>, F: Fn(&N) -> bool>(
    alloc: Global,
    graph: &G,
    start: N,
    is_goal: F,
) -> Result<Option<(usize, Vec<N>)>, PathRefusal>
    requires start { G.is_node graph.now start }
    requires goals { F.IsAlwaysCallable is_goal }
    requires zero { (v : N) → G.is_node graph.now v → FnReturnsAt F.Fn is_goal v true → G.estimate graph.now v ≡ 0 }
    ensures way { IfOk result (λ answer. IfSome answer (λ found.
        IsWayToGoal (G.edge graph.now) (FnReturnsAt F.Fn is_goal) start found.1.items found.0)) }
    ensures least { IfOk result (λ answer. IfSome answer (λ found.
        NoGoalAtZeroBelow (G.edge graph.now) (G.estimate graph.now) N.eq (FnReturnsAt F.Fn is_goal) start found.0)) }
    ensures once { IfOk result (λ answer. IfSome answer (λ found. IsDistinct N.eq found.1.items)) }
    ensures unreached { IfOk result (λ answer. IfNone answer
        (NoGoal (G.edge graph.now) N.eq (FnReturnsAt F.Fn is_goal) start)) }
    ensures uncritical { IfOk result (λ answer. IfSome answer (λ found.
        NoneCriticalGuidedBelow (G.edge graph.now) (G.estimate graph.now) N.eq start usize.MAX found.0)) }
    ensures all_uncritical { IfOk result (λ answer. IfNone answer
        (NoneCriticalGuided (G.edge graph.now) (G.estimate graph.now) N.eq start usize.MAX)) }
    ensures too_large { IfErr result (λ refusal. refusal ≡ CostTooLarge
        → HasCriticalGuided (G.edge graph.now) (G.estimate graph.now) N.eq (FnReturnsAt F.Fn is_goal) start usize.MAX
        ⊎ HasDearWay (G.edge graph.now) (G.estimate graph.now) N.eq (FnReturnsAt F.Fn is_goal) start usize.MAX) }
{
    let hash_builder = BuildHasherDefault::<FoldHasher>::new();
    astar_with_hasher(alloc, graph, start, is_goal, hash_builder)
}

/// Searches as [`astar`] does, and hashes nodes by `hash_builder`: std's `RandomState` for nodes that an attacker picks.
///
/// # Preconditions
///
/// - `start` is a node.
/// - `is_goal` may be called on each node.
/// - The estimate at a goal is 0.
///
/// # Errors
///
/// Fails if [`astar`] does.
pub fn astar_with_hasher<
    N: Eq + Hash + Drop,
    G: Guide<N>,
    F: Fn(&N) -> bool,
    S: BuildHasher + Drop,
>(
    alloc: Global,
    graph: &G,
    start: N,
    is_goal: F,
    hash_builder: S,
) -> Result<Option<(usize, Vec<N>)>, PathRefusal>
    requires start { G.is_node graph.now start }
    requires goals { F.IsAlwaysCallable is_goal }
    requires zero { (v : N) → G.is_node graph.now v → FnReturnsAt F.Fn is_goal v true → G.estimate graph.now v ≡ 0 }
    ensures way { IfOk result (λ answer. IfSome answer (λ found.
        IsWayToGoal (G.edge graph.now) (FnReturnsAt F.Fn is_goal) start found.1.items found.0)) }
    ensures least { IfOk result (λ answer. IfSome answer (λ found.
        NoGoalAtZeroBelow (G.edge graph.now) (G.estimate graph.now) N.eq (FnReturnsAt F.Fn is_goal) start found.0)) }
    ensures once { IfOk result (λ answer. IfSome answer (λ found. IsDistinct N.eq found.1.items)) }
    ensures unreached { IfOk result (λ answer. IfNone answer
        (NoGoal (G.edge graph.now) N.eq (FnReturnsAt F.Fn is_goal) start)) }
    ensures uncritical { IfOk result (λ answer. IfSome answer (λ found.
        NoneCriticalGuidedBelow (G.edge graph.now) (G.estimate graph.now) N.eq start usize.MAX found.0)) }
    ensures all_uncritical { IfOk result (λ answer. IfNone answer
        (NoneCriticalGuided (G.edge graph.now) (G.estimate graph.now) N.eq start usize.MAX)) }
    ensures too_large { IfErr result (λ refusal. refusal ≡ CostTooLarge
        → HasCriticalGuided (G.edge graph.now) (G.estimate graph.now) N.eq (FnReturnsAt F.Fn is_goal) start usize.MAX
        ⊎ HasDearWay (G.edge graph.now) (G.estimate graph.now) N.eq (FnReturnsAt F.Fn is_goal) start usize.MAX) }
{
    let from = graph.estimate(&start);
    let found = search(alloc, &Guided { graph }, start, is_goal, hash_builder)?;
    let Some((less, nodes)) = found else {
        return Ok(None);
    };
    if less > usize::MAX - from {
        return Err(PathRefusal::CostTooLarge);
    }
    Ok(Some((less + from, nodes)))
}
