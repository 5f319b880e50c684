//! A graph that has for each number a list of edges, as the searches over numbers take it.
ghost use Rattle.graph_search.specs.Laws.{alike_listed, keeps_listed};
ghost use Rattle.graph_search.specs.Listed.{IsListed, listed};

use crate::graph::Graph;
use dary_heap::shortest_path::{Edge, PathRefusal};

/// The nodes are the numbers below the length. Each edge has to lead to a node, which `is_graph` of the crate
/// `indexed_heap` tests.
impl Graph<usize> for Vec<Vec<Edge>> {
    ghost is_node = { λ graph. IsListed graph.items };

    ghost edge = { λ graph. listed graph.items };

    ghost keeps = { λ graph. keeps_listed graph.items };

    ghost alike = { λ graph. alike_listed graph.items };

    fn edges_from(&self, node: &usize, edges: &mut Vec<(usize, usize)>) -> Result<(), PathRefusal> {
        for edge in &self[*node] {
            edges.push((edge.node, edge.cost))?;
        }
        Ok(())
    }
}
