//! What the search itself asks of a graph: its edges by the costs that the search goes by.
ghost use Rattle.std.specs.Prelude.{◌≡◌, ℕ, [], IfErr, OnOk};
ghost use Rattle.dary_heap.specs.declared.shortest_path.PathRefusal.TheVariants.{CostTooLarge};
ghost use Rattle.graph_search.specs.Walk.{AreAlike, HasEdgeBeyond, Keeps, Lists};

use crate::graph::Graph;
use dary_heap::shortest_path::PathRefusal;

/// A graph by the costs that a search goes by. [`Graph`] explains the members that it has too.
pub(crate) trait Expand<N: Eq> {
    ghost is_node: { Self → N → Type 0 };

    ghost edge: { Self → N → N → ℕ → Type 0 };

    /// Of which nodes the edges can't be listed since one costs too much.
    ghost refuses: { Self → N → Type 0 };

    /// Puts the edges that leave a node into an empty list.
    fn expand(&self, node: &N, edges: &mut Vec<(N, usize)>) -> Result<(), PathRefusal>
        requires node { is_node self.now node.now }
        requires empty { edges.old.items ≡ [] }
        ensures lists { OnOk result (Lists N.eq (edge self.now node.now) edges.new.items) }
        ensures too_large { IfErr result (λ refusal. refusal ≡ CostTooLarge → refuses self.now node.now) };

    ghost keeps: { (graph : Self) → Keeps (is_node graph) (edge graph) };

    ghost alike: { (graph : Self) → AreAlike N.eq (edge graph) };
}

/// A graph by its own costs.
#[derive(Drop)]
pub(crate) struct ByCost<'a, G> {
    pub(crate) graph: &'a G,
}

impl<'a, N: Eq, G: Graph<N>> Expand<N> for ByCost<'a, G> {
    ghost is_node = { λ by. G.is_node by.graph.now };

    ghost edge = { λ by. G.edge by.graph.now };

    ghost refuses = { λ by node. HasEdgeBeyond (G.edge by.graph.now node) 18446744073709551615 0 };

    ghost keeps = { λ by. G.keeps by.graph.now };

    ghost alike = { λ by. G.alike by.graph.now };

    fn expand(&self, node: &N, edges: &mut Vec<(N, usize)>) -> Result<(), PathRefusal> {
        self.graph.edges_from(node, edges)
    }
}
