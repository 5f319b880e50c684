//! Callers that are proved, since their proofs show that the contracts of the priority queue serve a caller:
//! calls of functions that have a precondition, at concrete types, a judge of the caller's own, and a call of each
//! function of `indexed_heap`. Those of `dary_heap_uses` are in `dary_heap_uses_tests`.
//!
//! All other tests are run and not proved, and stand in the folder `trials`: of them a proof says only that
//! they are safe.
//!
//! Each expected value comes from the description of the queue, or from the Rust crate `dary_heap`,
//! and never from this crate's own answers.
#![tactic(auto)]

#[cfg(test)]
mod keyed;
#[cfg(test)]
mod preconditions;

#[cfg(test)]
use std::fmt::Debug;
use std::process::Abort;
use std::test::Fail;

/// The handle of a test, which may stop it and allocates.
trait Host: Abort + AllocGlobal {}

impl<A: Abort + AllocGlobal> Host for A {}

/// How a test, or a part of it, ends.
type Tested = Result<(), Fail>;

/// Compares two values, as `assert_eq!` does, whose code is proved anew wherever it stands: a call of this function takes
/// the prover far less time. If they differ, both are told with the name of the test, but no line of it. The caller's
/// proof learns nothing from it, so `assert_eq!` stays where a precondition needs what is compared.
#[cfg(test)]
fn same<T: PartialEq + Debug + Drop>(rt: &impl Host, left: T, right: T) {
    assert_eq!(rt; left, right);
}
