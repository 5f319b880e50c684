//! The greatest item of a heap, to be read, written or taken out.
//!
//! [`PeekMut`] holds the heap's vector, and an empty one stands in the heap until it ends. So no
//! call of it allocates memory.
//!
//! The contracts call a `PeekMut` a *loan*, and its item the one *on loan*. A clause sees a loan by
//! the words of `specs/PeekMut.antt`, and as `exit.0.now` the heap's contents after its end.
//!
//! A function that takes and returns a `PeekMut` has to ensure that its `lender` stays the same. So its caller's proof
//! knows which heap changes when the loan ends. After `mem::forget` a proof knows nothing of the heap. If items hold
//! references, a proof is generated today for the end of a loan's scope, not for `PeekMut::pop` or `drop` by name.
ghost use Rattle.dary_heap.specs.Loan.{IsOnLoan, IsOnLoan-prop, IsExceeded};

use crate::heap::DaryHeap;
use crate::sift::{ByOrd, Judge, sink_with};
use loaned_items::LoanedItems;
use std::mem;

mod loaned_items;
mod methods;

/// The greatest item of a heap, which [`DaryHeap::peek_mut`] returns. It is read and written through `*`. To put another
/// item in its place call [`DaryHeap::replace`] or [`DaryHeap::push_pop`].
///
/// A write may change the item's place in the order. The item counts as written from a call of `deref_mut` until
/// the next [`refresh`](PeekMut::refresh). When the `PeekMut` is dropped, a written item goes down to its place. If
/// no other item is strictly greater than it, no item moves. The heap's capacity stays the same. If a `PeekMut` is
/// forgotten by `mem::forget`, the heap is empty afterwards. It may still be used.
///
/// The drop takes no comparison and leaves the heap as it was if the item was not written, or is
/// the only one. Otherwise it takes at most as many comparisons as the arity times the depth of the
/// last place, and at most one more than a [`pop`](DaryHeap::pop) may take.
///
/// # Examples
///
/// ```
/// use dary_heap::TernaryHeap;
/// let mut heap = TernaryHeap::from(vec![in alloc; 1, 5, 2]?);
/// if let Some(mut greatest) = heap.peek_mut() {
///     *greatest = 0;
/// }
/// assert_eq!(rt; heap.as_slice(), [2, 1, 0].as_slice());
/// ```
// The type of `items` is a parameter, which callers leave out, for the reason that `LoanedItems` gives.
pub struct PeekMut<'a, T, const D: usize, J: Judge<T> = ByOrd, I: LoanedItems<T> = Vec<T>> {
    heap: &'a mut DaryHeap<T, D, J>,
    items: I,
    written: bool,
    ghost on_loan: { IsOnLoan J.order D written (I.list items) } by { IsOnLoan-prop _ _ _ (I.list items) },
}

impl<'a, T: Drop, const D: usize, J: Judge<T>, I: LoanedItems<T>> Drop for PeekMut<'a, T, D, J, I> {
    ghost use Rattle.std.specs.Prelude.{◌≡◌, ◌+◌, false, length};
    ghost use Rattle.dary_heap.specs.Bag.{IsSameBag};
    ghost use Rattle.dary_heap.specs.Bounds.{RisesWithin, pop_bound, sink_bound};
    ghost use Rattle.dary_heap.specs.HeapOrder.{IsHeapOrdered};
    ghost use Rattle.dary_heap.specs.PeekMut.{loaned, is_written};
    ghost use Rattle.dary_heap.specs.BagState.{front};

    fn drop(self)
        ensures bag { IsSameBag (loaned self.entry).items self.exit.0.now.items }
        ensures len { length self.exit.0.now.items ≡ length (loaned self.entry).items }
        ensures ordered { IsHeapOrdered J.order D self.exit.0.now.items }
        ensures counted { RisesWithin (loaned self.entry).comparisons self.exit.0.now.comparisons
            (sink_bound D (length (loaned self.entry).items)) }
        ensures capacity { self.exit.0.now.capacity ≡ (loaned self.entry).capacity }

        // From arity 2 on this says more if the last place is the first of its depth.
        ensures tight { RisesWithin (loaned self.entry).comparisons self.exit.0.now.comparisons
            (pop_bound D (length (loaned self.entry).items) + 1) }

        // What no other item exceeds stays the first, and then no item moves.
        ensures first { (IsExceeded J.order (loaned self.entry).items → ⊥)
            → front self.exit.0.now.items ≡ front (loaned self.entry).items }
        ensures unmoved { (IsExceeded J.order (loaned self.entry).items → ⊥)
            → self.exit.0.now.items ≡ (loaned self.entry).items }

        // If nothing was written, or one item is alone, nothing changes and nothing is compared.
        ensures unwritten { is_written self.entry ≡ false → self.exit.0.now ≡ loaned self.entry }
        ensures alone { length (loaned self.entry).items ≡ 1 → self.exit.0.now ≡ loaned self.entry }
    {
        let PeekMut {
            heap,
            items,
            written,
        } = self;
        let mut items = items.into_vec();
        if written {
            sink_with::<T, J, D>(items.as_mut_slice(), &mut heap.judge);
        }
        mem::swap(&mut heap.items, &mut items);
    }
}
