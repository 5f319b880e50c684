//! A priority queue whose items have names, by which they are read, changed and removed wherever they stand.
//!
//! It serves jobs, sessions or timers that go by a text, a pair or an id, where an `IndexedHeap` takes small numbers.
//! [`NamedHeap::pop`] returns a greatest item with its name. [`NamedHeap::insert`], [`raise`](NamedHeap::raise),
//! [`update`](NamedHeap::update) and [`remove`](NamedHeap::remove) act on one name, and cost a look-up in a hash table and
//! about as much as a push or a pop. What takes memory takes an allocator or keeps the one that it was made with, and
//! returns a `Result`.
//!
//! ```
//! use named_heap::NamedHeap;
//! let mut jobs = NamedHeap::<_, _, 4>::new(alloc);
//! jobs.insert("wash", 20)?;
//! jobs.insert("cook", 50)?;
//! jobs.insert("read", 30)?;
//! assert_eq!(rt; jobs.insert("wash", 40), Ok(Some(20)));
//! assert_eq!(rt; jobs.remove("cook"), Some(("cook", 50)));
//! assert_eq!(rt; jobs.pop(), Some(("wash", 40)));
//! ```
//!
//! Each example of these pages is run as a test: `rt` is the test's `HostRuntime`, `alloc` is `rt.alloc()`, and `?`
//! takes any error.
//!
//! # Names
//!
//! A name is of any type that is `Eq` and `Hash`. What looks one up takes an `Equivalent` of the crate `indexmap`: a
//! `&K`, a `&str` if names are `String`s, or a `&[T]` if they are `Vec`s.
//!
//! ```
//! use named_heap::NamedHeap;
//! let mut ages = NamedHeap::<String, u8, 4>::new(alloc);
//! ages.insert(String::from_str(alloc, "ann")?, 30)?;
//! assert_eq!(rt; ages.get("ann"), Some(&30));
//! assert_eq!(rt; ages.change("ann", |age| age + 1), Some(30));
//! assert!(rt; !ages.contains_key("bob"));
//! ```
//!
//! # Costs
//!
//! The greatest number of comparisons of items, for `n` entries at an arity `D` of 2 or more. The contracts have the
//! exact bounds, at every arity, and they are proved. Hashing and comparing names is not counted: on average it takes
//! *O*(1) a call.
//!
//! | method | comparisons, at most |
//! |---|---|
//! | [`insert`](NamedHeap::insert) of a name without an item | the depth of the new place: *O*(log *n*) |
//! | [`insert`](NamedHeap::insert) of a name with an item, [`change`](NamedHeap::change), [`update`](NamedHeap::update) | the depth of its place, and `D` for each level from there down to that of the last place |
//! | [`raise`](NamedHeap::raise) | one more than the depth of a new place |
//! | [`lower`](NamedHeap::lower) | one more than `D` times the depth of the last place |
//! | [`pop`](NamedHeap::pop), [`pop_if`](NamedHeap::pop_if), [`remove`](NamedHeap::remove) | `D` times the depth of the last place that remains: *O*(log *n*) |
//! | an item of [`into_iter_sorted`](NamedHeap::into_iter_sorted) | as `pop` |
//! | an item of [`iter_sorted`](NamedHeap::iter_sorted) | a pop and `D` pushes in a heap of arity 4 of the `1 + (D - 1) * k` that may come after `k` items |
//! | [`get`](NamedHeap::get), [`peek`](NamedHeap::peek), [`iter`](NamedHeap::iter), [`clear`](NamedHeap::clear), [`clone`](NamedHeap::clone), [`reserve`](NamedHeap::reserve) and the other methods | none |
//!
//! # Room
//!
//! [`reserve`](NamedHeap::reserve) makes room for new names, and [`room`](NamedHeap::room) says for how many more there
//! is: so many inserts don't fail. An insert of a new name uses one place at most, one of a name that is there none, and no
//! call but a shrink makes the room less otherwise. But a name that leaves needn't give its place back, since the hash table may win it
//! back only when it is built anew. So an insert after a `pop` may have to allocate, also if there were never more
//! entries than were reserved. What has a bound on its memory keeps some room beyond, and calls `reserve` where a failure
//! does no harm; [`clear`](NamedHeap::clear) loses no place.
//!
//! # Names that an attacker picks
//!
//! The default hasher has a fixed seed, so who picks the names can pick ones that collide, and a call then takes *O*(*n*).
//! For such names take a hasher with a random seed:
//!
//! ```
//! use dary_heap::sift::ByOrd;
//! use named_heap::NamedHeap;
//! use std::hash::RandomState;
//! let hashers = RandomState::new(&rt)?;
//! let mut users = NamedHeap::<_, _, 4, ByOrd, RandomState>::with_judge_and_hasher(alloc, ByOrd::new(), hashers);
//! users.insert("eve", 7)?;
//! assert_eq!(rt; users.get("eve"), Some(&7));
//! ```
//!
//! # Modules
//!
//! [`heap`] has the heap, and [`iter`] its iterators. The names lie in an `IndexSet` of the crate `indexmap`. The number
//! that the set gives a name is the key of its item in an `IndexedHeap` of the crate `indexed_heap`. When a name leaves,
//! the last one gets its number, so the numbers stay without gaps.
#![tactic(auto)]

pub mod heap;
pub mod iter;
mod names;

pub use heap::NamedHeap;
pub use iter::{IntoIterSorted, Iter, IterSorted};
