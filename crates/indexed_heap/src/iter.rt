//! Iterators over the entries of a heap, in the order in which they are stored or in descending order of the items.
//!
//! | iterator | returned by | entries | order |
//! |---|---|---|---|
//! | [`Iter`] | [`iter`](crate::IndexedHeap::iter), a loop over `&heap` | by reference | as stored |
//! | [`IntoIter`] | `into_iter`, a loop over a heap | by value | as stored |
//! | [`Drain`] | [`drain`](crate::IndexedHeap::drain) | by value, and the heap stays | as stored |
//! | [`IterSorted`] | [`iter_sorted`](crate::IndexedHeap::iter_sorted) | by reference | descending, as many as are asked for |
//! | [`IntoIterSorted`] | [`into_iter_sorted`](crate::IndexedHeap::into_iter_sorted) | by value | descending |
//!
//! `len` returns how many entries are left to give, and after a `None` each returns `None` again. A clause sees
//! `IntoIterSorted` as the heap that it pops from, `IterSorted` as the `InOrder` of the entries that it didn't give yet,
//! and the others as the list of the entries that are left, which of a `Drain` is `drain_rest`.

mod drain;
mod in_order;
mod owned;
mod shared;
mod sorted;

pub use drain::Drain;
pub use in_order::IterSorted;
pub use owned::IntoIter;
pub use shared::Iter;
pub use sorted::IntoIterSorted;
