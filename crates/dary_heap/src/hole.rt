//! The places of a slice, reached by a pointer: all that the crate does with pointers.
//!
//! A sift takes an item out of its place, which is a [`Hole`] then, moves other items into the hole, one
//! after another, and fills it with the item at the end. [`Slots`] and [`Hole`] have five small functions
//! for that, and [`with_slots`] lends the places of a slice.
ghost use Rattle.std.specs.Prelude.{◌≡◌};
ghost use Rattle.std.specs.Borrow.{MutBor};
ghost use Rattle.dary_heap.specs.hole.Hole.{IsSameSlice};
ghost use Rattle.dary_heap.specs.declared.hole.pointers.Slots.{Slots as Whole};

mod pointers;

pub(crate) use pointers::{Hole, Slots};

/// Calls `f` with the places of a slice and with `state`, and returns its result. `f` has to give back the
/// same places, each with an item.
#[inline(always)]
pub(crate) fn with_slots<T, S, R, F: FnOnce(Slots<T>, &mut S) -> (Slots<T>, R)>(
    items: &mut [T],
    state: &mut S,
    f: F,
) -> R
    requires callable { (slots : Whole T) (lent : MutBor S) → slots.items ≡ items.old
        → lent.now ≡ state.old → F.pre f slots lent }
    requires gives_back { (slots : Whole T) (lent : MutBor S) (out : Whole T × R) (left : _)
        → slots.items ≡ items.old → F.post f slots lent out left → IsSameSlice slots out.0 }
    ensures { (slots : Whole T) × (lent : MutBor S) × (back : Whole T) × (left : _)
        × (slots.items ≡ items.old) × (lent.now ≡ state.old)
        × F.post f slots lent (back, result) left
        × (items.new ≡ back.items) × (left.now ≡ state.new) }
{
    let len = items.len();
    let ptr = items.as_mut_ptr();
    let (back, result) = f(Slots { ptr, len }, state);
    let Slots { ptr: _, len: _ } = back;
    result
}
