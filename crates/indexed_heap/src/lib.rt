//! A priority queue whose items have keys, by which they are read, changed and removed wherever they stand.
//!
//! It serves timers that are cancelled, jobs whose priority changes, and searches that find a cheaper way to a node
//! that waits already. [`IndexedHeap::pop`] returns a greatest item with its key. [`IndexedHeap::insert`],
//! [`raise`](IndexedHeap::raise), [`lower`](IndexedHeap::lower) and [`remove`](IndexedHeap::remove) act on one key, and
//! cost about as much as a push or a pop. What takes memory takes an allocator or keeps the one that it was made with,
//! and returns a `Result`.
//!
//! ```
//! use dary_heap::sift::{ByOrd, LeastFirst};
//! use indexed_heap::IndexedHeap;
//! let mut timers = IndexedHeap::<_, 4, _>::with_judge(alloc, LeastFirst(ByOrd::new()));
//! timers.insert(3, 500)?;
//! timers.insert(7, 200)?;
//! timers.insert(5, 300)?;
//! assert_eq!(rt; timers.remove(7), Some(200));
//! assert_eq!(rt; timers.insert(5, 900), Ok(Some(300)));
//! assert_eq!(rt; timers.pop(), Some((3, 500)));
//! ```
//!
//! Each example of these pages is run as a test: `rt` is the test's `HostRuntime`, `alloc` is `rt.alloc()`, and `?`
//! takes any error.
//!
//! # Keys
//!
//! Keys are small numbers of your own. If you have none, take handles: those that a slab picks, here the kit's.
//!
//! ```
//! use indexed_heap::IndexedHeap;
//! use slab::Slab;
//! let (mut jobs, mut queue) = (Slab::new(alloc), IndexedHeap::<u8, 4>::new(alloc));
//! for (job, priority) in [("wash", 1), ("cook", 5)] {
//!     queue.insert(jobs.insert(job)?, priority)?;
//! }
//! let next = queue.pop().and_then(|(handle, _)| jobs.try_remove(handle));
//! assert_eq!(rt; next, Some("cook"));
//! ```
//!
//! If you have names, as texts, pairs or ids, take a heap of the crate `named_heap`, which finds items by them. It numbers
//! them without gaps: a name that leaves gives its number to the last one, by [`rename`](IndexedHeap::rename).
//!
//! # Costs
//!
//! The greatest number of comparisons, for `n` entries at an arity `D` of 2 or more. The contracts have the exact
//! bounds, at every arity, and they are proved.
//!
//! | method | comparisons, at most |
//! |---|---|
//! | [`insert`](IndexedHeap::insert) of a key without an item | the depth of the new place: *O*(log *n*) |
//! | [`insert`](IndexedHeap::insert) of a key with an item, [`change`](IndexedHeap::change), [`update`](IndexedHeap::update) | the depth of its place, and `D` for each level from there down to that of the last place |
//! | [`raise`](IndexedHeap::raise) | one more than the depth of a new place |
//! | [`lower`](IndexedHeap::lower), each entry of [`append`](IndexedHeap::append) | one more than `D` times the depth of the last place |
//! | [`retain`](IndexedHeap::retain) | as `retain` of a `DaryHeap`, and none if it drops nothing |
//! | [`pop`](IndexedHeap::pop), [`pop_if`](IndexedHeap::pop_if), [`remove`](IndexedHeap::remove) | `D` times the depth of the last place that remains: *O*(log *n*) |
//! | [`shortest_paths_into`](shortest_path::shortest_paths_into) | a `pop` for each node, and a `raise` for the start and each edge |
//! | an item of [`into_iter_sorted`](IndexedHeap::into_iter_sorted) | as `pop` |
//! | an item of [`iter_sorted`](IndexedHeap::iter_sorted), [`iter_sorted_with`](IndexedHeap::iter_sorted_with) | a pop and `D` pushes in a heap of arity 4 of the `1 + (D - 1) * k` that may come after `k` items |
//! | `clone` of the trait `Clone`, for another judge than `ByOrd`; any `clone` of an [`IntoIterSorted`] | `2 * (n - 1)` |
//! | [`get`](IndexedHeap::get), [`peek`](IndexedHeap::peek), [`iter`](IndexedHeap::iter), [`drain`](IndexedHeap::drain), [`rename`](IndexedHeap::rename), [`clone`](IndexedHeap::clone), [`reserve`](IndexedHeap::reserve) and the heap's other methods | none |
//!
//! # Modules
//!
//! [`heap`] has the heap, [`iter`] its iterators, and [`shortest_path`] searches for a shortest path. The entries lie in
//! a heap of the crate `dary_heap`, beside a table of their places, in which each move of an entry is written down.
#![tactic(auto)]

pub mod heap;
pub mod iter;
mod judge;
pub mod shortest_path;

pub use heap::IndexedHeap;
pub use iter::{Drain, IntoIter, IntoIterSorted, Iter, IterSorted};
pub use judge::ByItem;
