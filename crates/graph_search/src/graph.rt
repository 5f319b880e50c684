//! What a search asks of a graph.
ghost use Rattle.std.specs.Prelude.{◌≡◌, ℕ, [], IfErr, OnOk};
ghost use Rattle.dary_heap.specs.declared.shortest_path.PathRefusal.TheVariants.{CostTooLarge};
ghost use Rattle.graph_search.specs.Walk.{AreAlike, HasEdgeBeyond, Keeps, Lists};

use dary_heap::shortest_path::PathRefusal;

mod lists;

/// A graph whose nodes are values. Nodes that are equal by `==` are one node.
pub trait Graph<N: Eq> {
    /// Which values are nodes.
    ghost is_node: { Self → N → Type 0 };

    /// Whether an edge leads from one value to another at a cost.
    ghost edge: { Self → N → N → ℕ → Type 0 };

    /// Puts the edges that leave a node into an empty list, in any order: for each the node that it leads to, and its
    /// cost. An error ends the search, which returns that error.
    ///
    /// # Preconditions
    ///
    /// - `node` is a node.
    /// - `edges` is empty.
    fn edges_from(&self, node: &N, edges: &mut Vec<(N, usize)>) -> Result<(), PathRefusal>
        requires node { is_node self.now node.now }
        requires empty { edges.old.items ≡ [] }
        ensures lists { OnOk result (Lists N.eq (edge self.now node.now) edges.new.items) }
        ensures too_large { IfErr result
            (λ refusal. refusal ≡ CostTooLarge → HasEdgeBeyond (edge self.now node.now) usize.MAX 0) };

    /// The edges of a node lead to nodes.
    ghost keeps: { (graph : Self) → Keeps (is_node graph) (edge graph) };

    /// Equal values have the same edges.
    ghost alike: { (graph : Self) → AreAlike N.eq (edge graph) };
}
