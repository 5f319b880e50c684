//! Single calls, each in a function with a contract.
ghost use Rattle.std.specs.Ordering.{nat_cmp};
ghost use Rattle.std.specs.Prelude.{◌≡◌, ◌+◌, ◌<◌, ◌≤◌, ◌↔◌, ◌∷◌, [], ℕ, List, All, length, map, min, set, Some, IsSome, IfSome, IfNone, IfOk, IfErr};
ghost use Rattle.dary_heap.specs.Bag.{IsGreatest, IsSameBag};
ghost use Rattle.dary_heap.specs.HeapOrder.{IsHeapOrdered};
ghost use Rattle.dary_heap.specs.Popping.{IsGivenDescending};
ghost use Rattle.dary_heap.specs.BagState.{front};

use dary_heap::sift::{ByOrd, LeastFirst, fix_with};
use dary_heap::{BinaryHeap, DaryHeap, TernaryHeap};
use std::alloc::Global;

/// Returns a heap of one number, or the number if memory allocation fails.
pub fn heap_of(alloc: Global, number: u32) -> Result<TernaryHeap<u32>, u32>
    ensures bag { IfOk result (λ heap. IsSameBag (number ∷ []) heap.items) }
    ensures returned { IfErr result (λ back. back ≡ number) }
{
    let mut heap = TernaryHeap::new(alloc);
    heap.push(number)?;
    Ok(heap)
}

/// Takes the greatest number out if it is at least the bound.
pub fn take_from(heap: &mut TernaryHeap<u32>, bound: u32) -> Option<u32>
    ensures reached { IfSome result (λ number. bound ≤ number) }
    ensures first { (number : ℕ) → front heap.old.items ≡ Some number → bound ≤ number
        → result ≡ Some number }
    ensures bag { IfSome result (λ number. IsSameBag heap.old.items (number ∷ heap.new.items)) }
    ensures unchanged { IfNone result (heap.new ≡ heap.old) }
{
    match heap.peek() {
        Some(number) if bound <= *number => heap.pop(),
        _ => None,
    }
}

/// Lowers each number above the bound to the bound.
pub fn lower(heap: &mut BinaryHeap<u32>, bound: u32)
    ensures lowered { (most : ℕ) → front heap.new.items ≡ Some most → most ≤ bound }
    ensures ordered { IsHeapOrdered nat_cmp 2 heap.new.items }
    ensures len { length heap.new.items ≡ length heap.old.items }
    ensures bag { IsSameBag (map (λ number. min number bound) heap.old.items) heap.new.items }
{
    if let Some(mut greatest) = heap.peek_mut() {
        while bound < *greatest {
            *greatest = bound;
            greatest.refresh();
        }
    }
}

/// Returns the two greatest numbers, or `None` if there are fewer than two. The heap is empty afterwards.
pub fn greatest_two<const D: usize>(heap: &mut DaryHeap<u32, D>) -> Option<(u32, u32)>
    ensures two { IsSome result ↔ (2 ≤ length heap.old.items) }
    ensures greatest { IfSome result (λ two. IsGreatest nat_cmp heap.old.items two.0) }
    ensures given { IfSome result (λ two. (rest : List ℕ)
        × IsGivenDescending nat_cmp heap.old.items (two.0 ∷ two.1 ∷ []) rest) }
    ensures emptied { heap.new.items ≡ [] }
{
    let mut numbers = heap.drain_sorted();
    let first = numbers.next()?;
    let second = numbers.next()?;
    Some((first, second))
}

/// Takes a least number out of a heap whose judge has the order the other way round.
pub fn pop_least<const D: usize>(heap: &mut DaryHeap<u32, D, LeastFirst<ByOrd>>) -> Option<u32>
    ensures some { IsSome result ↔ (0 < length heap.old.items) }
    ensures least { IfSome result (λ number. All (λ other. number ≤ other) heap.new.items) }
    ensures bag { IfSome result (λ number. IsSameBag heap.old.items (number ∷ heap.new.items)) }
    ensures capacity { heap.new.capacity ≡ heap.old.capacity }
    ensures unchanged { IfNone result (heap.new ≡ heap.old) }
{
    heap.pop()
}

/// Puts another number at a place, below the length, of a slice that is heap ordered at arity 4, and leaves
/// it so.
///
/// # Examples
///
/// ```
/// use dary_heap_uses::calling::change;
/// let mut items = [9, 5, 7, 1, 2];
/// change(&mut items, 3, 10);
/// assert_eq!(rt; items, [10, 5, 7, 9, 2]);
/// ```
pub fn change(items: &mut [u64], place: usize, item: u64)
    requires heap { IsHeapOrdered nat_cmp 4 items.old }
    requires there { place < length items.old }
    ensures ordered { IsHeapOrdered nat_cmp 4 items.new }
    ensures changed { IsSameBag (set items.old place item) items.new }
{
    items[place] = item;
    fix_with::<_, _, 4>(items, place, &mut ByOrd::new());
}
