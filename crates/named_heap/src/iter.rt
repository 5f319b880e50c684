//! Iterators over the entries of a heap, in the order in which they are stored or in descending order of the items.
//!
//! | iterator | returned by | entries | order |
//! |---|---|---|---|
//! | [`Iter`] | [`iter`](crate::NamedHeap::iter), a loop over `&heap` | by reference | as stored |
//! | [`IterSorted`] | [`iter_sorted`](crate::NamedHeap::iter_sorted) | by reference | descending, as many as are asked for |
//! | [`IntoIterSorted`] | [`into_iter_sorted`](crate::NamedHeap::into_iter_sorted) | by value | descending |
//!
//! `len` returns how many entries are left to give, and after a `None` each returns `None` again. A clause sees
//! `IntoIterSorted` as the heap that it pops from, `IterSorted` as the `InOrder` of the entries that it didn't give yet,
//! and `Iter` as the list of the entries that are left.

mod in_order;
mod shared;
mod sorted;

pub use in_order::IterSorted;
pub use shared::Iter;
pub use sorted::IntoIterSorted;
