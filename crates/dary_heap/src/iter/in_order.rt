//! The iterator that lends the items of a heap in descending order.
//!
//! The next item is one of few candidates: the items that weren't given yet and whose parents were, at the start
//! the first item. They wait in a small heap of their own, each with its place, and the one that is given leaves
//! its children in its place.
ghost use Rattle.std.specs.Prelude.{◌≡◌, ◌+◌, ◌-◌, ◌*◌, ◌<◌, ◌≤◌, ◌++◌, ℕ, length, min, vec_capacity, vec_len, Some, IfOk, IsOk, if◌then◌else◌, ◌==◌};
ghost use Rattle.std.specs.Cmp.{on_total};
ghost use Rattle.std.specs.Iterator.{at_most};
ghost use Rattle.std.specs.List.{range_with_len};
ghost use Rattle.dary_heap.specs.Bag.{IsSameBag};
ghost use Rattle.dary_heap.specs.Bounds.{RisesWithin, candidates_bound, push_bound};
ghost use Rattle.dary_heap.specs.HeapOrder.{arity as arity_of, IsHeapOrdered};
ghost use Rattle.dary_heap.specs.IterSorted.{InOrder, StartsInOrder, ComparesByClone, GivesNext, GivesGreatest, lent};
ghost use Rattle.dary_heap.specs.SizeHints.{HintsNumber};
ghost use Rattle.dary_heap.specs.iter.Candidates.{AreCandidates, StandAtPlaces, by_shown, places_of, rest_of};

use crate::heap::{DaryHeap, pop_ordered};
use crate::sift::{ByOrd, Judge, arity, first_child, push_reserved_with};
use std::alloc::{AllocError, Global};
use std::fmt;
use std::iter::FusedIterator;
use std::marker::Model;

/// Compares items by reference, each with its place, by a judge of items.
#[derive(Drop)]
struct ByShown<J> {
    items: J,
}

impl<'a, T, J: Judge<T>> Judge<(&'a T, usize)> for ByShown<J> {
    ghost order = { by_shown J.order };

    ghost count = { λ judge. J.count judge.items };

    ghost total = { on_total (λ candidate. candidate.0.now) J.total };

    fn at_most(&mut self, a: &(&'a T, usize), b: &(&'a T, usize)) -> bool {
        self.items.at_most(a.0, b.0)
    }
}

/// An iterator over references to the items of a heap in descending order, which leaves them there.
///
/// [`DaryHeap::iter_sorted`] returns it. A clause sees it as the items that it didn't give yet, with the number of
/// those that it still gives.
///
/// # Examples
///
/// ```
/// use dary_heap::BinaryHeap;
/// let heap = BinaryHeap::from(vec![in alloc; 2, 9, 4]?);
/// let mut items = heap.iter_sorted(alloc, 2)?;
/// assert_eq!(rt; items.next(), Some(&9));
/// assert_eq!(rt; items.len(), 1);
/// assert_eq!(rt; items.next(), Some(&4));
/// assert_eq!(rt; items.next(), None);
/// ```
#[derive(Drop)]
pub struct IterSorted<'a, T, const D: usize, J: Judge<T> = ByOrd> {
    items: &'a [T],
    candidates: Vec<(&'a T, usize)>,
    judge: ByShown<J>,
    left: usize,
}

impl<'a, T, const D: usize, J: Judge<T>> Model for IterSorted<'a, T, D, J> {
    ghost Value = { InOrder T };

    ghost view = { λ it. record {
      given = length it.items.now
          - length (rest_of D it.items.now it.candidates.items (vec_capacity it.candidates));
      rest = rest_of D it.items.now it.candidates.items (vec_capacity it.candidates);
      left = it.left;
      room = vec_capacity it.candidates;
      comparisons = J.count it.judge.items;
    } };

    ghost invariant = { λ it. AreCandidates J.order D it.items.now it.candidates.items it.left
        (vec_capacity it.candidates) };
}

impl<T, const D: usize, J: Judge<T>> DaryHeap<T, D, J> {
    /// Returns an iterator over references to the greatest `most` items, or to all if they are fewer, in descending
    /// order. The heap stays as it is, and is borrowed until the end of the scope that has the iterator, or until it is
    /// passed to `drop`.
    ///
    /// Equal items come in any order. The iterator compares by a clone of the heap's judge, so nothing is added to
    /// the heap's count. For the first `k` items it takes *O*(*k* *D* log (*k* *D*)), however long the heap is.
    /// `RULES.md` has the bound of each `next` as a number. To see all items of a long heap,
    /// [`into_iter_sorted`](DaryHeap::into_iter_sorted) of a clone takes 0.16 to 0.6 of the time.
    ///
    /// # Errors
    ///
    /// Returns `AllocError` if memory allocation fails, here or in the judge's `clone`. There has to be room for the
    /// items that may come next: at most `1 + (D - 1) * most`, and never more than the heap has. Once the iterator
    /// is there, it allocates no more. If `most` is 0 or the heap is empty, nothing is allocated but in that `clone`.
    ///
    /// # Examples
    ///
    /// ```
    /// use dary_heap::QuaternaryHeap;
    /// let heap = QuaternaryHeap::from(vec![in alloc; 1, 2, 3, 4, 5]?);
    /// let greatest: Vec<i32> = heap.iter_sorted(alloc, 3)?.copied().collect(alloc)?;
    /// assert_eq!(rt; greatest.as_slice(), [5, 4, 3].as_slice());
    /// assert_eq!(rt; heap.len(), 5);
    /// ```
    pub fn iter_sorted(
        &self,
        alloc: Global,
        most: usize,
    ) -> Result<IterSorted<'_, T, D, J>, AllocError>
    where
        J: Clone + Drop,
        ensures starts { IfOk result (StartsInOrder D most self.now.items) }
        ensures comparisons { IfOk result
            (ComparesByClone J.is_clone J.count self.now.comparisons) }
        ensures succeeds { min most (length self.now.items) ≡ 0
            → ((judge : J) → J.count judge ≡ self.now.comparisons → J.is_infallible judge)
            → IsOk result }

        // Calls of `next` show a greatest part of the items in descending order, and up to `None` as
        // many as `most`, or all.
        ensures greatest { IfOk result (GivesGreatest (lent {T = T}) J.order D) }
    {
        self.iter_sorted_with(alloc, most, self.judge.clone()?)
    }

    /// Returns an iterator over references to the greatest `most` items, as [`iter_sorted`](DaryHeap::iter_sorted)
    /// does, that compares by the given judge. It is dropped if memory allocation fails.
    ///
    /// # Examples
    ///
    /// ```
    /// use dary_heap::DaryHeap;
    /// use dary_heap::sift::Tally;
    /// let mut heap = DaryHeap::<_, 2, _>::with_judge(alloc, Tally::new());
    /// heap.extend([3, 8, 5, 1])?;
    /// let mut items = heap.iter_sorted_with(alloc, 2, Tally::new())?;
    /// assert_eq!(rt; items.next(), Some(&8));
    /// assert_eq!(rt; items.judge().made(), 1);
    /// ```
    pub fn iter_sorted_with(
        &self,
        alloc: Global,
        most: usize,
        judge: J,
    ) -> Result<IterSorted<'_, T, D, J>, AllocError>
    where
        J: Drop,
        ensures starts { IfOk result (StartsInOrder D most self.now.items) }
        ensures comparisons { IfOk result (λ it. it.comparisons ≡ J.count judge) }
        ensures succeeds { min most (length self.now.items) ≡ 0 → IsOk result }

        // Calls of `next` show a greatest part of the items in descending order, and up to `None` as
        // many as `most`, or all.
        ensures greatest { IfOk result (GivesGreatest (lent {T = T}) J.order D) }
    {
        let items = self.as_slice();
        let left = most.min(items.len());
        let mut candidates = Vec::with_capacity(alloc, room_for::<D>(left, items.len()))?;
        if left != 0 {
            candidates.push_reserved((&items[0], 0));
        }
        Ok(IterSorted {
            items,
            candidates,
            judge: ByShown { items: judge },
            left,
        })
    }
}

impl<'a, T, const D: usize, J: Judge<T>> IterSorted<'a, T, D, J> {
    /// Returns the judge by which the iterator compares, as to read its count.
    ///
    /// # Examples
    ///
    /// ```
    /// use dary_heap::DaryHeap;
    /// use dary_heap::sift::Tally;
    /// let mut heap = DaryHeap::<_, 2, _>::with_judge(alloc, Tally::new());
    /// heap.extend([3, 8, 5])?;
    /// assert_eq!(rt; heap.iter_sorted_with(alloc, 2, Tally::new())?.judge().made(), 0);
    /// ```
    pub fn judge(&self) -> &J
        ensures { J.count result.now ≡ self.now.comparisons }
    {
        &self.judge.items
    }
}

/// Returns how many candidates there may be once `left` of `len` items are given, and 0 if none is.
fn room_for<const D: usize>(left: usize, len: usize) -> usize
    ensures { result ≡ (if left == 0 then 0 else min len (candidates_bound D left)) }
{
    if left == 0 {
        return 0;
    }
    let bound = (arity::<D>() - 1).saturating_mul(left).saturating_add(1);
    len.min(bound)
}

/// Returns where the children of a place begin and end among `len` places.
fn children<const D: usize>(place: usize, len: usize) -> (usize, usize)
    requires { place < len }
    ensures first { result.0 ≡ min len (place * arity_of D + 1) }
    ensures end { result.1 ≡ min len (place * arity_of D + 1 + arity_of D) }
{
    match first_child::<D>(place, len) {
        Some(first) => (first, first + arity::<D>().min(len - first)),
        None => (len, len),
    }
}

/// Adds the items from `first` up to `end` to the candidates.
fn push_row<'a, T, J: Judge<T>>(
    items: &'a [T],
    first: usize,
    end: usize,
    candidates: &mut Vec<(&'a T, usize)>,
    judge: &mut ByShown<J>,
)
    requires some { first ≤ end }
    requires within { end ≤ length items.now }
    requires room { vec_len candidates.old + (end - first) ≤ vec_capacity candidates.old }
    requires ordered { IsHeapOrdered (by_shown J.order) 4 candidates.old.items }
    ensures places { IsSameBag (range_with_len first (end - first) ++ places_of candidates.old.items)
        (places_of candidates.new.items) }
    ensures stand { StandAtPlaces items.now candidates.old.items
        → StandAtPlaces items.now candidates.new.items }
    ensures ordered { IsHeapOrdered (by_shown J.order) 4 candidates.new.items }
    ensures len { vec_len candidates.new ≡ vec_len candidates.old + (end - first) }
    ensures counted { RisesWithin (J.count judge.old.items) (J.count judge.new.items)
        ((end - first) * push_bound 4 (vec_len candidates.new - 1)) }
    ensures capacity { vec_capacity candidates.new ≡ vec_capacity candidates.old }
{
    for place in first..end {
        push_reserved_with::<_, _, 4>(candidates, (&items[place], place), judge);
    }
}

impl<'a, T, const D: usize, J: Judge<T> + Drop> Iterator for IterSorted<'a, T, D, J> {
    type Item = &'a T;

    ghost next_gives = { GivesNext (lent {T = T}) J.order D };

    ghost remaining = { λ it. at_most it.left };

    fn next(&mut self) -> Option<&'a T> {
        if self.left == 0 {
            return None;
        }
        let (item, place) = pop_ordered::<_, _, 4>(&mut self.candidates, &mut self.judge)?;
        self.left -= 1;
        let (first, end) = children::<D>(place, self.items.len());
        push_row(
            self.items,
            first,
            end,
            &mut self.candidates,
            &mut self.judge,
        );
        Some(item)
    }

    fn size_hint(&self) -> (usize, Option<usize>)
        ensures { HintsNumber self.now.left result }
    {
        (self.left, Some(self.left))
    }
}

impl<'a, T, const D: usize, J: Judge<T> + Drop> ExactSizeIterator for IterSorted<'a, T, D, J> {
    fn len(&self) -> usize {
        self.left
    }
}

impl<'a, T, const D: usize, J: Judge<T> + Drop> FusedIterator for IterSorted<'a, T, D, J> {}

impl<'a, T: fmt::Debug, const D: usize, J: Judge<T>> fmt::Debug for IterSorted<'a, T, D, J> {
    fn fmt<W: fmt::Write>(&self, f: &mut fmt::Formatter<W>) -> fmt::Result {
        f.debug_tuple("IterSorted")
            .field(&self.items)
            .field(&self.left)
            .finish()
    }
}
