//! Searches for a cheapest walk in a graph whose nodes are values of any type, found as the search goes.
//!
//! A node is a place on a map with a direction, the state of a puzzle, or a text. There is no list of the nodes: a
//! [`Graph`] says which edges leave a node, and a search asks only about nodes that the search reaches. [`dijkstra`] goes
//! by what walks cost, and [`astar`] by an estimate of what is still to go too, which a [`Guide`] gives.
//!
//! ```
//! use dary_heap::shortest_path::Edge;
//! use graph_search::dijkstra;
//! let from_0 = vec![in alloc; Edge { node: 1, cost: 7 }, Edge { node: 2, cost: 1 }]?;
//! let from_2 = vec![in alloc; Edge { node: 1, cost: 3 }]?;
//! let graph = vec![in alloc; from_0, Vec::new(alloc), from_2]?;
//! let found = dijkstra(alloc, &graph, 0, |node: &usize| *node == 1)?;
//! assert_eq!(rt; found, Some((4, vec![in alloc; 0, 2, 1]?)));
//! ```
//!
//! Each example of these pages is run as a test: `rt` is the test's `HostRuntime`, `alloc` is `rt.alloc()`, and `?`
//! takes any error.
//!
//! # Time
//!
//! Each node that is reached is put into a hash table once, and taken out of a heap and examined once at most. A cost is
//! put into the heap or lowered there once at most for each edge of a node that was examined.
//!
//! # Nodes that an attacker picks
//!
//! The table's hasher has a fixed seed, so who picks the nodes can pick nodes whose hashes collide. For such nodes take
//! [`dijkstra_with_hasher`] or [`astar_with_hasher`] and std's `RandomState`.
#![tactic(auto)]

mod expand;
pub mod graph;
pub mod guided;
pub mod search;

pub use graph::Graph;
pub use guided::{Guide, astar, astar_with_hasher};
pub use search::{dijkstra, dijkstra_with_hasher};
