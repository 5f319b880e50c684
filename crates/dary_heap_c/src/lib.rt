//! Heap algorithms for programs in C, in place on their own arrays: what `std::make_heap` and the functions
//! beside it do in C++, and more, at each arity from 1 to 8. No call takes memory.
//!
//! - [`signed`], [`unsigned`] and [`double`] have the functions on numbers. [`entry`] has those on a key with a value,
//!   and [`sequenced`] those on a key with a sequence number, by which equal keys come out in the order in which they
//!   came in. Each function is there for a max-heap and for a min-heap.
//! - [`keyed`] has those on entries whose places are kept in a second array.
//! - [`in_place`] has the algorithms, for items of any type and any judge, at an arity that is a number.
//! - [`moves`] has the algorithms that keep places.
//! - [`judges`] has the judges.
//!
//! `dary_heap_c.h` documents each function. Its contract names a definition of `specs/InPlace.antt`, with the order by
//! which it compares, and for places one of `specs/Places.antt`. README.md says how to begin.
#![tactic(auto)]

mod double;
mod entry;
mod in_place;
mod judges;
mod keyed;
mod moves;
mod sequenced;
mod signed;
mod unsigned;
