//! Iterators over the items of a heap, in the order in which they are stored or in descending order.
//!
//! | iterator | returned by | items | order |
//! |---|---|---|---|
//! | [`Iter`] | [`iter`](crate::DaryHeap::iter), a loop over `&heap` | by reference | as stored, from both ends |
//! | [`IntoIter`] | `into_iter`, a loop over `heap` | by value | as stored, from both ends |
//! | [`Drain`] | [`drain`](crate::DaryHeap::drain) | by value; the heap is empty afterwards | as stored, from both ends |
//! | [`IterSorted`] | [`iter_sorted`](crate::DaryHeap::iter_sorted) | by reference | descending, as many as are asked for |
//! | [`IntoIterSorted`] | [`into_iter_sorted`](crate::DaryHeap::into_iter_sorted) | by value | descending |
//! | [`DrainSorted`] | [`drain_sorted`](crate::DaryHeap::drain_sorted) | by value; the heap is empty after the drop | descending |
//!
//! `len` returns how many items are left to give, and after a `None` each returns `None` again. The first
//! three compare nothing. A clause sees them as the list of the items that are left, `IterSorted` as
//! the items that it didn't give yet, and the last two as the heap that they pop from.

mod drain;
mod drain_sorted;
mod in_order;
mod owned;
mod shared;
mod sorted;

pub use drain::Drain;
pub use drain_sorted::DrainSorted;
pub use in_order::IterSorted;
pub use owned::IntoIter;
pub use shared::Iter;
pub use sorted::IntoIterSorted;
