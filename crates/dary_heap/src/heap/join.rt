//! Many items that come into a heap at once.
ghost use Rattle.std.specs.Prelude.{◌≡◌, ◌+◌, ◌<◌, ◌≤◌, ◌++◌, [], length, min, List, map, vec_len, vec_capacity, IsOk, OnOk, OnErr, MatchResult, ⊤};
ghost use Rattle.std.specs.Bool.{OnFalse};
ghost use Rattle.std.specs.Iterator.{ExtendsWithItems, Drains, HoldsAlong, IsFinite};
ghost use Rattle.dary_heap.specs.Appending.{receiving_capacity, moving_capacity};
ghost use Rattle.dary_heap.specs.Bag.{IsSameBag};
ghost use Rattle.dary_heap.specs.Bounds.{RisesWithin, mend_bound};
ghost use Rattle.dary_heap.specs.Extending.{IsExtended, IsExtendedUntilRefused, IsPoured, IsRefusedAfter};
ghost use Rattle.dary_heap.specs.HeapOrder.{IsHeapOrdered};

use super::DaryHeap;
use crate::sift::{Judge, mend_with};
use core::mem::replace_with;
use std::alloc::AllocError;
use std::mem;

impl<T, const D: usize, J: Judge<T>> DaryHeap<T, D, J> {
    /// Moves all items of `other` into this heap, and leaves `other` empty.
    ///
    /// The items of the shorter heap go behind those of the longer one: if `other` is the longer, room is made in its
    /// vector, and then the two exchange their vectors, and so their capacities. If `other` is empty, this heap's slice
    /// stays as it is. This heap makes as many comparisons as [`mend_with`](crate::sift::mend_with) of as many items as
    /// the shorter heap has, and `other` makes none.
    ///
    /// # Errors
    ///
    /// Returns `AllocError` if memory allocation fails, which happens only if the capacity of the
    /// longer heap is less than the sum of the lengths. Both heaps are then as they were.
    ///
    /// # Examples
    ///
    /// ```
    /// use dary_heap::BinaryHeap;
    /// let mut heap = BinaryHeap::from(vec![in alloc; 1, 2]?);
    /// let mut other = BinaryHeap::from(vec![in alloc; 3, 4]?);
    /// heap.append(&mut other)?;
    /// assert_eq!(rt; heap.as_slice(), [4, 3, 2, 1].as_slice());
    /// assert!(rt; other.is_empty());
    /// ```
    pub fn append(&mut self, other: &mut Self) -> Result<(), AllocError>
        ensures bag { OnOk result (IsSameBag (self.old.items ++ other.old.items) self.new.items) }
        ensures emptied { OnOk result (other.new.items ≡ []) }
        ensures len { OnOk result
            (length self.new.items ≡ length self.old.items + length other.old.items) }
        ensures ordered { IsHeapOrdered J.order D self.new.items }
        ensures other_ordered { IsHeapOrdered J.order D other.new.items }
        ensures counted { OnOk result (RisesWithin self.old.comparisons self.new.comparisons
            (mend_bound D (length self.new.items)
            (min (length self.old.items) (length other.old.items)))) }
        ensures uncounted { other.new.comparisons ≡ other.old.comparisons }
        ensures capacity { OnOk result (receiving_capacity self.old other.old ≤ self.new.capacity) }
        ensures same_items { OnOk result (other.old.items ≡ [] → self.new.items ≡ self.old.items) }
        ensures other_capacity { OnOk result
            (other.new.capacity ≡ moving_capacity self.old other.old) }

        // It fails only if the longer heap lacks room, and then nothing has changed.
        ensures succeeds { length self.old.items + length other.old.items
            ≤ receiving_capacity self.old other.old → IsOk result }
        ensures full { OnErr result (receiving_capacity self.old other.old < length self.old.items
            + length other.old.items) }
        ensures unchanged { OnErr result (self.new ≡ self.old) }
        ensures other_unchanged { OnErr result (other.new ≡ other.old) }
    {
        if self.items.len() < other.items.len() {
            let Ok(()) = other.items.reserve(self.items.len()) else {
                return Err(AllocError);
            };
            mem::swap(&mut self.items, &mut other.items);
        } else {
            let Ok(()) = self.items.reserve(other.items.len()) else {
                return Err(AllocError);
            };
        }
        take_in::<T, J, D>(&mut self.items, &mut other.items, &mut self.judge);
        Ok(())
    }
}

/// Moves the items of `others` behind those of a heap that has room for them, and mends.
fn take_in<T, J: Judge<T>, const D: usize>(items: &mut Vec<T>, others: &mut Vec<T>, judge: &mut J)
    requires { vec_len items.old + vec_len others.old ≤ vec_capacity items.old }
    ensures bag { IsSameBag (items.old.items ++ others.old.items) items.new.items }
    ensures emptied { others.new.items ≡ [] }
    ensures same_items { others.old.items ≡ [] → items.new.items ≡ items.old.items }
    ensures ordered { IsHeapOrdered J.order D items.old.items
        → IsHeapOrdered J.order D items.new.items }
    ensures counted { RisesWithin (J.count judge.old) (J.count judge.new)
        (mend_bound D (vec_len items.new) (vec_len others.old)) }
    ensures capacity { vec_capacity items.old ≤ vec_capacity items.new }
    ensures other_capacity { vec_capacity others.new ≡ vec_capacity others.old }
{
    let start = items.len();
    let Ok(()) = items.append(others) else {
        unreachable!()
    };
    mend_with::<T, J, D>(items.as_mut_slice(), start, judge);
}

/// What an iterator gives for an item: the item itself, or a reference to one, which is copied.
trait Element<T>: Drop {
    ghost value: { Self → T };

    fn into_item(self) -> T
        ensures { result ≡ value self };
}

impl<T: Drop> Element<T> for T {
    ghost value = { λ item. item };

    fn into_item(self) -> T {
        self
    }
}

impl<'a, T: Copy> Element<T> for &'a T {
    ghost value = { λ item. item.now };

    fn into_item(self) -> T {
        *self
    }
}

/// Appends items while there is room. Returns `true` if the iterator has ended.
///
/// The vector comes by value, which keeps its length in a register.
fn pour<T, X: Element<T>, I: Iterator<Item = X>>(
    mut items: Vec<T>,
    mut rest: I,
) -> (Vec<T>, (I, bool))
    requires { I.can_next rest × IsFinite (I.remaining rest) }
    ensures came { (xs : List X) × (result.0.items ≡ items.items ++ map X.value xs)
        × (vec_len result.0 ≡ vec_len items + length xs)
        × IsPoured I.can_next I.remaining I.next_gives rest xs result.1.1 result.1.0 }
    ensures full { OnFalse result.1.1 (vec_len result.0 ≡ vec_capacity result.0) }
    ensures capacity { vec_capacity result.0 ≡ vec_capacity items }
{
    while items.len() < items.capacity() {
        let Some(element) = rest.next() else {
            return (items, (rest, true));
        };
        items.push_reserved(element.into_item());
    }
    (items, (rest, false))
}

/// Reserves room for one item and, if there is memory for it, for `others` more, which may not come.
fn make_room<T>(items: &mut Vec<T>, others: usize) -> Result<(), AllocError>
    ensures items { items.new.items ≡ items.old.items }
    ensures len { vec_len items.new ≡ vec_len items.old }
    ensures room { OnOk result (vec_len items.new < vec_capacity items.new) }
    ensures capacity { vec_capacity items.old ≤ vec_capacity items.new }
    ensures same_capacity { OnErr result (vec_capacity items.new ≡ vec_capacity items.old) }
{
    if others == 0 {
        return items.reserve(1);
    }
    let Err(_) = items.reserve(others.saturating_add(1)) else {
        return Ok(());
    };
    items.reserve(1)
}

/// Pushes what the iterator gives, in its order, up to the first item that there is no memory for.
///
/// If the room is used up it reserves for as many as the iterator has left at least.
fn push_all<T: Drop, X: Element<T>, I: Iterator<Item = X>>(
    items: &mut Vec<T>,
    iter: I,
) -> Result<(), AllocError>
    requires { I.can_next iter × IsFinite (I.remaining iter) }
    ensures came { (xs : List X) × (items.new.items ≡ items.old.items ++ map X.value xs)
        × (vec_len items.old + length xs ≤ vec_capacity items.old
        → vec_capacity items.new ≡ vec_capacity items.old)
        × MatchResult result (λ _. Drains I.next_gives iter xs)
        (λ _. IsRefusedAfter I.next_gives iter xs (vec_len items.old) (vec_capacity items.old)) }
    ensures capacity { vec_capacity items.old ≤ vec_capacity items.new }
{
    let mut rest = iter;
    loop {
        let (left, ended) = replace_with(items, rest, pour::<T, X, I>);
        rest = left;
        if ended {
            return Ok(());
        }
        let Some(element) = rest.next() else {
            return Ok(());
        };
        make_room(items, rest.size_hint().0)?;
        items.push_reserved(element.into_item());
    }
}

/// Pushes what the iterator gives, up to the first item that there is no memory for, and mends.
fn extend_heap<T: Drop, X: Element<T>, U: IntoIterator<Item = X>, const D: usize, J: Judge<T>>(
    heap: &mut DaryHeap<T, D, J>,
    iter: U,
) -> Result<(), AllocError>
    requires { (it : U.IntoIter) → U.into_iter_gives iter it → U.IntoIter.can_next it
        × IsFinite (U.IntoIter.remaining it) }
    ensures ran { ExtendsWithItems U.into_iter_gives U.IntoIter.next_gives
        (λ old xs new. IsExtended J.order D old (map X.value xs) new) iter heap.old heap.new result }
    ensures refused { OnErr result (IsExtendedUntilRefused U.into_iter_gives U.IntoIter.next_gives
        X.value J.order D iter heap.old heap.new) }
{
    let start = heap.items.len();
    let iter = iter.into_iter();
    let outcome = push_all(&mut heap.items, iter);
    mend_with::<T, J, D>(heap.items.as_mut_slice(), start, &mut heap.judge);
    outcome
}

/// Adds the items of an iterator, in order, and restores heap order once at the end.
///
/// If the iterator gives none, the slice stays as it is. The call takes as many comparisons as
/// [`mend_with`](crate::sift::mend_with) of the added items.
///
/// # Preconditions
///
/// - The iterator ends.
///
/// # Errors
///
/// Returns `AllocError` if memory allocation fails. The items before the one for which it failed
/// are then in the heap, at least as many as there was room for, and the others are dropped.
///
/// # Examples
///
/// ```
/// use dary_heap::BinaryHeap;
/// let mut heap = BinaryHeap::from(vec![in alloc; 3, 1, 2]?);
/// heap.extend([9, 8])?;
/// assert_eq!(rt; heap.as_slice(), [9, 8, 2, 1, 3].as_slice());
/// ```
impl<T: Drop, const D: usize, J: Judge<T>> Extend<T> for DaryHeap<T, D, J> {
    ghost extend_gives = { λ old xs new. IsExtended J.order D old xs new };

    fn extend<U: IntoIterator<Item = T>>(&mut self, iter: U) -> Result<(), AllocError>
        requires { (it : U.IntoIter) → U.into_iter_gives iter it → U.IntoIter.can_next it
            × IsFinite (U.IntoIter.remaining it) × HoldsAlong U.IntoIter.next_gives it (λ xs. ⊤) }
        ensures ran { ExtendsWithItems U.into_iter_gives U.IntoIter.next_gives
            (λ old xs new. IsExtended J.order D old xs new) iter self.old self.new result }
        ensures refused { OnErr result (IsExtendedUntilRefused U.into_iter_gives
            U.IntoIter.next_gives (λ item. item) J.order D iter self.old self.new) }
    {
        extend_heap(self, iter)
    }
}

/// Adds copies of the items whose references the iterator gives. All else is as for the items themselves.
///
/// # Examples
///
/// ```
/// use dary_heap::BinaryHeap;
/// let mut heap = BinaryHeap::from(vec![in alloc; 3, 1, 2]?);
/// heap.extend(&[9, 8])?;
/// assert_eq!(rt; heap.pop(), Some(9));
/// ```
impl<'a, T: Copy + 'a, const D: usize, J: Judge<T>> Extend<&'a T> for DaryHeap<T, D, J> {
    ghost extend_gives = { λ old xs new. IsExtended J.order D old (map (λ item. item.now) xs) new };

    fn extend<U: IntoIterator<Item = &'a T>>(&mut self, iter: U) -> Result<(), AllocError>
        requires { (it : U.IntoIter) → U.into_iter_gives iter it → U.IntoIter.can_next it
            × IsFinite (U.IntoIter.remaining it) × HoldsAlong U.IntoIter.next_gives it (λ xs. ⊤) }
        ensures ran { ExtendsWithItems U.into_iter_gives U.IntoIter.next_gives
            (λ old xs new. IsExtended J.order D old (map (λ item. item.now) xs) new)
            iter self.old self.new result }
        ensures refused { OnErr result (IsExtendedUntilRefused U.into_iter_gives
            U.IntoIter.next_gives (λ item. item.now) J.order D iter self.old self.new) }
    {
        extend_heap(self, iter)
    }
}
