//! The `k` greatest, of a stream and of a heap.
//!
//! For a stream a heap of `Reverse` has the least of the items that are kept at its top. A greater item takes
//! its place by [`push_pop`](DaryHeap::push_pop).
ghost use Rattle.std.specs.Prelude.{◌≡◌, ◌+◌, ◌*◌, ◌≤◌, ◌⊎◌, [], ◌∷◌, ◌++◌, List, length, min, IfOk, IsOk};
ghost use Rattle.std.specs.Iterator.{Drains, IsFinite};
ghost use Rattle.dary_heap.specs.Bounds.{RisesWithin, push_bound, pop_bound};
ghost use Rattle.dary_heap.specs.Popping.{IsGivenDescending};
ghost use Rattle.dary_heap_uses.specs.Keeping.{KeepsGreatest, values};

use dary_heap::DaryHeap;
use std::alloc::{AllocError, Global};
use std::cmp::Reverse;

/// Returns the `k` greatest items of a stream that ends, or all if they are fewer, as a heap whose least
/// item comes out first. Fails if memory allocation fails, and drops all items then. If `k` is 0 it doesn't fail.
///
/// No item that is left out is strictly greater than one that is kept. Of equal items any may stay. For
/// each item it makes at most one comparison with the least that is kept, and in the heap at most as many
/// as a push onto `k` items and a pop from `k` take.
///
/// # Examples
///
/// ```
/// use dary_heap::DaryHeap;
/// use dary_heap_uses::greatest::greatest;
/// use std::cmp::Reverse;
/// let mut kept: DaryHeap<_, 4> = greatest(alloc, [3, 8, 1, 5], 2)?;
/// assert_eq!(rt; kept.pop(), Some(Reverse(5)));
/// assert_eq!(rt; kept.pop(), Some(Reverse(8)));
/// ```
pub fn greatest<T: Ord + Drop, I: IntoIterator<Item = T>, const D: usize>(
    alloc: Global,
    stream: I,
    k: usize,
) -> Result<DaryHeap<Reverse<T>, D>, AllocError>
    requires { (it : I.IntoIter) → I.into_iter_gives stream it → I.IntoIter.can_next it
        × IsFinite (I.IntoIter.remaining it) }
    ensures kept { IfOk result (λ kept. (it : I.IntoIter) × (items : List T)
        × I.into_iter_gives stream it × Drains I.IntoIter.next_gives it items
        × KeepsGreatest T.cmp k items (values kept.items)
        × (kept.comparisons ≤ length items * (push_bound D k + pop_bound D k + 1))) }
    ensures succeeds { k ≡ 0 → IsOk result }
{
    let mut kept = DaryHeap::new(alloc);
    for item in stream {
        if kept.len() < k {
            let Ok(()) = kept.push(Reverse(item)) else {
                return Err(AllocError);
            };
        } else {
            // A least of them all goes.
            kept.push_pop(Reverse(item));
        }
    }
    Ok(kept)
}

/// Returns the `k` greatest items of a heap in descending order, or all if they are fewer. Of equal items
/// any may be left out. Fails if memory allocation fails, and drops all items then. If there are none to return it
/// doesn't fail.
///
/// # Examples
///
/// ```
/// use dary_heap::DaryHeap;
/// use dary_heap_uses::greatest::first_few;
/// let heap = DaryHeap::<_, 3>::from(vec![in alloc; 3, 8, 1, 5]?);
/// assert_eq!(rt; first_few(alloc, heap, 2)?.as_slice(), [8, 5].as_slice());
/// ```
pub fn first_few<T: Ord + Drop, const D: usize>(
    alloc: Global,
    heap: DaryHeap<T, D>,
    k: usize,
) -> Result<Vec<T>, AllocError>
    ensures few { IfOk result (λ few. (left : List T)
        × IsGivenDescending T.cmp heap.items few.items left
        × (length few.items ≡ min k (length heap.items))) }
    ensures succeeds { (k ≡ 0) ⊎ (heap.items ≡ []) → IsOk result }
{
    if k == 0 || heap.is_empty() {
        return Ok(Vec::new(alloc));
    }
    heap.into_iter_sorted().take(k).collect(alloc)
}
