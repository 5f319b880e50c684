//! A priority queue of any arity: a heap in one vector, in which each place has up to `D` children.
//!
//! [`DaryHeap::pop`] returns a greatest item, and nothing is lost or doubled. Names and behaviour are those of
//! Rust's crate `dary_heap`, which follows std's `BinaryHeap`. What takes memory takes an allocator or keeps the
//! one that it was made with, and returns a `Result`. `CALLING.md` has a first caller with a proof.
//!
//! ```
//! use dary_heap::TernaryHeap;
//! let mut heap = TernaryHeap::new(alloc);
//! heap.push(1)?;
//! heap.push(5)?;
//! assert_eq!(rt; heap.peek(), Some(&5));
//! assert_eq!(rt; heap.pop(), Some(5));
//! assert_eq!(rt; heap.len(), 1);
//! ```
//!
//! For the least item first take a judge that compares the other way round, or items in `Reverse`:
//!
//! ```
//! use dary_heap::DaryHeap;
//! use dary_heap::sift::{ByOrd, LeastFirst};
//! let mut heap = DaryHeap::<_, 4, _>::with_judge(alloc, LeastFirst(ByOrd::new()));
//! heap.push(5)?;
//! heap.push(1)?;
//! assert_eq!(rt; heap.pop(), Some(1));
//! ```
//!
//! Each example of these pages is run as a test: `rt` is the test's `HostRuntime`, `alloc` is `rt.alloc()`, and `?`
//! takes any error. In a function that fails with `AllocError` write `heap.push(1).map_err(|_| AllocError)?`.
//!
//! # Arities
//!
//! The arities from 2 to 8 have names: [`BinaryHeap`], [`TernaryHeap`], [`QuaternaryHeap`], [`QuinaryHeap`],
//! [`SenaryHeap`], [`SeptenaryHeap`] and [`OctonaryHeap`]. Any other is written `DaryHeap<T, D>`. Arity 1 keeps a
//! sorted vector, and arity 0 acts as arity 1. A greater arity makes the tree flatter: a push takes fewer
//! comparisons, a pop more. This table comes from measurements:
//!
//! | use | arity |
//! |---|---|
//! | items come in and go out again | 4 |
//! | much comes in and little goes out | 8 |
//! | a comparison takes long, items go out again | 2 |
//! | a comparison takes long, most items stay | 8 |
//!
//! # Costs
//!
//! The greatest number of comparisons, for `n` items at an arity `D` of 2 or more:
//!
//! | [push](DaryHeap::push) | [pop](DaryHeap::pop) | [peek](DaryHeap::peek) | `from` of a vector |
//! |---|---|---|---|
//! | *O*(log *n*) | *O*(*D* log *n*) | none | `2 * (n - 1)` |
//!
//! `RULES.md` has the bounds of all calls as numbers, and says which make no comparison. Each call's contract but that
//! of [`into_sorted_vec`](DaryHeap::into_sorted_vec) states its bound, which is proved.
//!
//! # Modules
//!
//! From the bottom up: [`sift`] moves items along the paths of the tree, by a [`Judge`](sift::Judge) that compares
//! items and counts; [`heap`] has the heap, [`peek_mut`] its greatest item for reading and writing, and [`iter`]
//! its iterators; [`run`] carries out lists of commands, and [`shortest_path`] searches a graph.
#![tactic(auto)]

pub mod heap;
mod hole;
pub mod iter;
pub mod peek_mut;
pub mod run;
pub mod shortest_path;
pub mod sift;

pub use heap::{
    BinaryHeap, DaryHeap, OctonaryHeap, QuaternaryHeap, QuinaryHeap, SenaryHeap, SeptenaryHeap,
    TernaryHeap,
};
pub use iter::{Drain, DrainSorted, IntoIter, IntoIterSorted, Iter, IterSorted};
pub use peek_mut::PeekMut;
