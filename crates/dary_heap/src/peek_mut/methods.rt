//! How a `PeekMut` begins, what may be done with it, and how it ends by a pop.
ghost use Rattle.std.specs.Prelude.{◌≡◌, ◌+◌, ◌-◌, ◌<◌, ◌↔◌, [], ◌∷◌, length, slice_index_or, false, Some, IsSome, IfSome, IsTrue};
ghost use Rattle.std.specs.Bool.{OnFalse};
ghost use Rattle.std.specs.Borrow.{sem, RestsIfNone};
ghost use Rattle.dary_heap.specs.Bag.{IsSameBag};
ghost use Rattle.dary_heap.specs.Bounds.{RisesWithin, pop_bound, sink_bound};
ghost use Rattle.dary_heap.specs.HeapOrder.{IsHeapOrdered};
ghost use Rattle.dary_heap.specs.Loan.{IsExceeded};
ghost use Rattle.dary_heap.specs.PeekMut.{loaned, is_written, lender, left_behind};
ghost use Rattle.dary_heap.specs.BagState.{IsState, front};
ghost use Rattle.dary_heap.specs.contracts.heap.DaryHeap.{the_row as heap_row};

use super::PeekMut;
use crate::heap::DaryHeap;
use crate::sift::{Judge, pop_with, sink_with};
use std::ops::{Deref, DerefMut};
use std::{fmt, mem};

impl<T, const D: usize, J: Judge<T>> DaryHeap<T, D, J> {
    /// Returns a greatest item for reading, writing or taking out, or `None` if the heap is empty.
    ///
    /// It is the item that [`peek`](DaryHeap::peek) returns. [`PeekMut`] says what may be done with
    /// it, and how many comparisons its end takes.
    ///
    /// # Examples
    ///
    /// ```
    /// use dary_heap::QuaternaryHeap;
    /// let mut heap = QuaternaryHeap::from(vec![in alloc; 3, 9, 6]?);
    /// if let Some(mut greatest) = heap.peek_mut() {
    ///     assert_eq!(rt; *greatest, 9);
    ///     *greatest = 5;
    /// }
    /// assert_eq!(rt; heap.peek(), Some(&6));
    /// ```
    pub fn peek_mut(&mut self) -> Option<PeekMut<'_, T, D, J>>
        // If it returns `None` the heap stays as it is.
        ensures* unchanged { sem 𝓛 (RestsIfNone
            (heap_row T.row D.row J.row J.Judge)
            self.entry lender result (λ heap. heap ≡ self.old)) }
        ensures variant { IsSome result ↔ (0 < length self.old.items) }
        ensures loaned { IfSome result (λ loan. loaned loan ≡ self.old) }
        ensures unwritten { IfSome result (λ loan. is_written loan ≡ false) }
        ensures greatest { IfSome result (λ loan. IsState J.order (loaned loan).items) }
        ensures ordered { IfSome result (λ loan. IsHeapOrdered J.order D (loaned loan).items) }

        // The loan's end leaves what it has to this heap, which is empty until then.
        ensures same_reference { IfSome result (λ loan. lender loan ≡ self.entry.ghost_name) }
        ensures emptied { IfSome result (λ loan. (left_behind loan).items ≡ []) }
        ensures unallocated { IfSome result (λ loan. (left_behind loan).capacity ≡ 0) }
    {
        if self.items.is_empty() {
            return None;
        }
        let alloc = *self.items.allocator();
        let items = mem::replace(&mut self.items, Vec::new(alloc));
        Some(PeekMut {
            heap: self,
            items,
            written: false,
        })
    }
}

impl<'a, T: Drop, const D: usize, J: Judge<T>> PeekMut<'a, T, D, J> {
    /// Removes the item from the heap and returns it.
    ///
    /// The value is the one that was written last, even if another item is strictly greater. The heap's capacity
    /// stays the same. The call takes at most as many comparisons as a [`pop`](DaryHeap::pop) of the heap.
    ///
    /// # Examples
    ///
    /// ```
    /// use dary_heap::{BinaryHeap, PeekMut};
    /// let mut heap = BinaryHeap::from(vec![in alloc; 1, 5, 2]?);
    /// if let Some(mut greatest) = heap.peek_mut() {
    ///     *greatest = 0;
    ///     assert_eq!(rt; PeekMut::pop(greatest), 0);
    /// }
    /// assert_eq!(rt; heap.as_slice(), [2, 1].as_slice());
    /// ```
    pub fn pop(this: PeekMut<'a, T, D, J>) -> T
        ensures first { front (loaned this.entry).items ≡ Some result }
        ensures bag { IsSameBag (loaned this.entry).items (result ∷ this.exit.0.now.items) }
        ensures len { length this.exit.0.now.items ≡ length (loaned this.entry).items - 1 }
        ensures ordered { IsHeapOrdered J.order D this.exit.0.now.items }
        ensures counted { RisesWithin (loaned this.entry).comparisons this.exit.0.now.comparisons
            (pop_bound D (length (loaned this.entry).items)) }
        ensures capacity { this.exit.0.now.capacity ≡ (loaned this.entry).capacity }

        // `first` again, in the words of an index: with these a caller's proof also gets at a signed number.
        ensures value { result ≡ slice_index_or (loaned this.entry).items 0 result }
    {
        let PeekMut {
            heap,
            items,
            written: _,
        } = this;
        let mut items = items;
        let item = pop_with::<T, J, D>(&mut items, &mut heap.judge).unwrap();
        mem::swap(&mut heap.items, &mut items);
        item
    }
}

impl<T, const D: usize, J: Judge<T>> PeekMut<'_, T, D, J> {
    /// Lets a written item go down to its place, and returns `true` if another item was strictly greater.
    ///
    /// Afterwards the `PeekMut` is of the item that is now the first, which no other exceeds, and
    /// counts as unwritten. If it returns `false` no item has moved. It takes as many comparisons
    /// as the drop of a [`PeekMut`]: none if the item was not written, or is the only one.
    ///
    /// # Examples
    ///
    /// ```
    /// use dary_heap::BinaryHeap;
    /// let mut heap = BinaryHeap::from(vec![in alloc; 1, 2, 3]?);
    /// if let Some(mut greatest) = heap.peek_mut() {
    ///     *greatest = 0;
    ///     assert!(rt; greatest.refresh());
    ///     assert_eq!(rt; *greatest, 2);
    /// }
    /// ```
    pub fn refresh(&mut self) -> bool
        ensures moved { IsTrue result ↔ IsExceeded J.order (loaned self.old).items }
        ensures bag { IsSameBag (loaned self.old).items (loaned self.new).items }
        ensures len { length (loaned self.new).items ≡ length (loaned self.old).items }
        ensures greatest { IsState J.order (loaned self.new).items }
        ensures ordered { IsHeapOrdered J.order D (loaned self.new).items }
        ensures settled { is_written self.new ≡ false }
        ensures counted { RisesWithin (loaned self.old).comparisons (loaned self.new).comparisons
            (sink_bound D (length (loaned self.old).items)) }
        ensures capacity { (loaned self.new).capacity ≡ (loaned self.old).capacity }
        ensures same_reference { lender self.new ≡ lender self.old }

        // From arity 2 on this says more if the last place is the first of its depth.
        ensures tight { RisesWithin (loaned self.old).comparisons (loaned self.new).comparisons
            (pop_bound D (length (loaned self.old).items) + 1) }

        // If it returns false no item moves. If nothing was written, or one item is alone, nothing is
        // compared either.
        ensures unmoved { OnFalse result ((loaned self.new).items ≡ (loaned self.old).items) }
        ensures unwritten { is_written self.old ≡ false → loaned self.new ≡ loaned self.old }
        ensures alone { length (loaned self.old).items ≡ 1 → loaned self.new ≡ loaned self.old }
    {
        if !self.written {
            return false;
        }
        let heap = &mut *self.heap;
        let moved = sink_with::<T, J, D>(self.items.as_mut_slice(), &mut heap.judge);
        self.written = false;
        moved
    }
}

/// Returns the item: the heap's first one at the start, and then what was written last.
///
/// # Examples
///
/// ```
/// use dary_heap::BinaryHeap;
/// let mut heap = BinaryHeap::from(vec![in alloc; 1, 5, 2]?);
/// assert_eq!(rt; *heap.peek_mut().unwrap(), 5);
/// ```
impl<T, const D: usize, J: Judge<T>> Deref for PeekMut<'_, T, D, J> {
    type Target = T;

    ghost deref_gives = { λ loan item. front (loaned loan).items ≡ Some item };

    fn deref(&self) -> &T {
        &self.items[0]
    }
}

/// Returns the item for writing. From this call on it counts as written.
///
/// # Examples
///
/// ```
/// use dary_heap::BinaryHeap;
/// let mut heap = BinaryHeap::from(vec![in alloc; 1, 5, 2]?);
/// *heap.peek_mut().unwrap() = 3;
/// assert_eq!(rt; heap.as_slice(), [3, 1, 2].as_slice());
/// ```
impl<T, const D: usize, J: Judge<T>> DerefMut for PeekMut<'_, T, D, J> {
    ghost use Rattle.dary_heap.specs.LoanWrites.{lends_first};

    ghost deref_mut_gives = { λ loan item. front (loaned loan).items ≡ Some item };

    fn deref_mut(&mut self) -> &mut T
        ensures* writes_back { sem 𝓛
            (lends_first T.row D.row J.row J.Judge self.entry result) }
        ensures first { front (loaned self.old).items ≡ Some result.now }
    {
        self.written = true;
        &mut self.items[0]
    }
}

/// Writes the item in a pair of parentheses, as `PeekMut(5)`.
///
/// # Examples
///
/// ```
/// use dary_heap::BinaryHeap;
/// let mut heap = BinaryHeap::from(vec![in alloc; 1, 5, 2]?);
/// let greatest = heap.peek_mut().unwrap();
/// assert_eq!(rt; format!(in alloc; "{greatest:?}")?.as_str(), "PeekMut(5)");
/// ```
impl<T: fmt::Debug, const D: usize, J: Judge<T>> fmt::Debug for PeekMut<'_, T, D, J> {
    fn fmt<W: fmt::Write>(&self, f: &mut fmt::Formatter<W>) -> fmt::Result {
        f.debug_tuple("PeekMut").field(&self.items[0]).finish()
    }
}
