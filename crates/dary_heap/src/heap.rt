//! The heap. `RULES.md` has the rules that its calls follow.
//!
//! A clause sees a heap as its `Contents`: its items in the order in which they are stored, how many there is room
//! for, and how many comparisons it made. The slice is always heap ordered, so its first item is a greatest one.
ghost use Rattle.std.specs.Prelude.{◌≡◌, ◌+◌, ◌-◌, ◌^◌, ◌<◌, ◌≤◌, ◌↔◌, [], ◌∷◌, length, slice_get, vec_capacity, Some, IsSome, IfSome, IfNone, OnOk, OnErr, IfErr, IsOk, is_ok, if◌then◌else◌, ◌==◌};
ghost use Rattle.std.specs.BinaryHeap.{IsUpperBound};
ghost use Rattle.std.specs.Option.{option_copied};
ghost use Rattle.dary_heap.specs.Bag.{IsSameBag, IsGreatest};
ghost use Rattle.dary_heap.specs.Bounds.{RisesWithin, push_bound, pop_bound};
ghost use Rattle.dary_heap.specs.Contents.{Contents, contents_of};
ghost use Rattle.dary_heap.specs.HeapOrder.{IsHeapOrdered};
ghost use Rattle.dary_heap.specs.Popping.{IsPop};
ghost use Rattle.dary_heap.specs.BagState.{front, front_with};

use crate::sift::{ByOrd, Judge, pop_with, push_with};
use std::alloc::Global;
use std::marker::Model;

mod capacity;
mod convert;
mod exchange;
mod filter;
mod join;
mod key;
mod place;
mod returning_place;

/// A priority queue. [`pop`](DaryHeap::pop) returns a greatest item: one that no other is strictly greater than.
///
/// The items lie in one vector, read as a tree in which each place has up to `D` children. The
/// [page of the crate](crate) says which arity to take and what each call costs. `D` can't be
/// inferred, so a type alias such as [`BinaryHeap`] is often shorter. Arity 0 acts as arity 1.
///
/// # Examples
///
/// ```
/// use dary_heap::BinaryHeap;
/// let mut scores = BinaryHeap::new(alloc);
/// scores.push(20)?;
/// scores.push(50)?;
/// scores.push(30)?;
/// assert_eq!(rt; scores.pop(), Some(50));
/// assert_eq!(rt; scores.pop(), Some(30));
/// assert_eq!(rt; scores.pop(), Some(20));
/// assert_eq!(rt; scores.pop(), None);
/// ```
///
/// Items in `Reverse` come out least first. [`with_judge`](DaryHeap::with_judge) makes a heap that compares by
/// another [`Judge`] than [`ByOrd`], so in any order of your own. [`ByKey`](crate::sift::ByKey) compares by a key.
///
/// ```
/// use dary_heap::TernaryHeap;
/// use std::cmp::Reverse;
/// let mut heap = TernaryHeap::from(vec![in alloc; Reverse(1), Reverse(5), Reverse(2)]?);
/// assert_eq!(rt; heap.pop(), Some(Reverse(1)));
/// assert_eq!(rt; heap.pop(), Some(Reverse(2)));
/// ```
///
/// If memory allocation fails, a push returns the item, and the heap is as it was. After a
/// [`reserve`](DaryHeap::reserve) of enough room no push fails:
///
/// ```
/// use dary_heap::DaryHeap;
/// let mut heap = DaryHeap::<_, 16>::new(alloc);
/// if let Err(item) = heap.push("wash") {
///     assert_eq!(rt; item, "wash");
/// }
/// heap.reserve(1)?;
/// assert_eq!(rt; heap.push("cook"), Ok(()));
/// ```
#[derive(Drop)]
pub struct DaryHeap<T, const D: usize, J: Judge<T> = ByOrd> {
    pub(crate) items: Vec<T>,
    pub(crate) judge: J,
}

impl<T, const D: usize, J: Judge<T>> Model for DaryHeap<T, D, J> {
    ghost Value = { Contents T };

    ghost view = { λ heap. record {
      items = heap.items.items;
      capacity = vec_capacity heap.items;
      comparisons = J.count heap.judge;
    } };

    ghost invariant = { λ heap. IsHeapOrdered J.order D heap.items.items };
}

/// A heap of arity 2, which is also the arity of std's `BinaryHeap`.
pub type BinaryHeap<T> = DaryHeap<T, 2>;

/// A heap of arity 3.
pub type TernaryHeap<T> = DaryHeap<T, 3>;

/// A heap of arity 4.
pub type QuaternaryHeap<T> = DaryHeap<T, 4>;

/// A heap of arity 5.
pub type QuinaryHeap<T> = DaryHeap<T, 5>;

/// A heap of arity 6.
pub type SenaryHeap<T> = DaryHeap<T, 6>;

/// A heap of arity 7.
pub type SeptenaryHeap<T> = DaryHeap<T, 7>;

/// A heap of arity 8.
pub type OctonaryHeap<T> = DaryHeap<T, 8>;

impl<T: Ord, const D: usize> DaryHeap<T, D> {
    /// Returns an empty heap. Takes *O*(1).
    ///
    /// It allocates no memory before an item is pushed or room is reserved.
    ///
    /// # Examples
    ///
    /// ```
    /// use dary_heap::QuaternaryHeap;
    /// let mut heap = QuaternaryHeap::new(alloc);
    /// heap.push(4)?;
    /// assert_eq!(rt; heap.into_vec().as_slice(), [4].as_slice());
    /// ```
    pub fn new(alloc: Global) -> Self
        ensures items { result.items ≡ [] }
        ensures capacity { result.capacity ≡ 0 }
        ensures uncounted { result.comparisons ≡ 0 }
    {
        DaryHeap::with_judge(alloc, ByOrd::new())
    }
}

impl<T, const D: usize, J: Judge<T>> DaryHeap<T, D, J> {
    /// Returns an empty heap that compares by a judge: any order of your own. Takes *O*(1), without a
    /// comparison.
    ///
    /// # Examples
    ///
    /// ```
    /// use dary_heap::DaryHeap;
    /// use dary_heap::sift::{ByOrd, LeastFirst};
    /// let mut heap = DaryHeap::<_, 3, _>::with_judge(alloc, LeastFirst(ByOrd::new()));
    /// heap.push(5)?;
    /// heap.push(1)?;
    /// assert_eq!(rt; heap.peek(), Some(&1));
    /// ```
    pub fn with_judge(alloc: Global, judge: J) -> Self
        ensures items { result.items ≡ [] }
        ensures capacity { result.capacity ≡ 0 }
        ensures comparisons { result.comparisons ≡ J.count judge }
    {
        DaryHeap {
            items: Vec::new(alloc),
            judge,
        }
    }

    /// Returns the judge by which the heap compares, as to read its count.
    ///
    /// # Examples
    ///
    /// ```
    /// use dary_heap::DaryHeap;
    /// use dary_heap::sift::Tally;
    /// let mut heap = DaryHeap::<_, 2, _>::with_judge(alloc, Tally::new());
    /// heap.push(5)?;
    /// heap.push(9)?;
    /// assert_eq!(rt; heap.judge().made(), 1);
    /// ```
    pub fn judge(&self) -> &J
        ensures { J.count result.now ≡ self.now.comparisons }
    {
        &self.judge
    }

    /// Returns the number of items, which is below `2 ^ 63`. Takes *O*(1).
    ///
    /// # Examples
    ///
    /// ```
    /// use dary_heap::BinaryHeap;
    /// let heap = BinaryHeap::from(vec![in alloc; 1, 3]?);
    /// assert_eq!(rt; heap.len(), 2);
    /// ```
    pub fn len(&self) -> usize
        ensures len { result ≡ length self.now.items }
        ensures bounded { result < 2 ^ 63 }
        ensures ordered { IsHeapOrdered J.order D self.now.items }
    {
        self.items.len()
    }

    /// Returns `true` if the heap has no items. Takes *O*(1).
    ///
    /// # Examples
    ///
    /// ```
    /// use dary_heap::BinaryHeap;
    /// assert!(rt; BinaryHeap::<i32>::new(alloc).is_empty());
    /// assert!(rt; !BinaryHeap::from(vec![in alloc; 3]?).is_empty());
    /// ```
    pub fn is_empty(&self) -> bool
        ensures empty { result ≡ (length self.now.items == 0) }
        ensures ordered { IsHeapOrdered J.order D self.now.items }
    {
        self.items.is_empty()
    }

    /// Returns the number of items that there is room for. It is never less than the length. Takes
    /// *O*(1).
    ///
    /// A push allocates memory only if the length has reached the capacity.
    ///
    /// # Examples
    ///
    /// ```
    /// use dary_heap::OctonaryHeap;
    /// let heap = OctonaryHeap::<i32>::with_capacity(alloc, 100)?;
    /// assert!(rt; heap.capacity() >= 100);
    /// ```
    pub fn capacity(&self) -> usize
        ensures capacity { result ≡ self.now.capacity }
        ensures holds { length self.now.items ≤ result }
    {
        self.items.capacity()
    }

    /// Returns the items in the order in which they are stored. Takes *O*(1).
    ///
    /// The slice is heap ordered: no item is strictly greater than its parent, which is the item at
    /// `(place - 1) / D`. So the first item is a greatest one.
    ///
    /// # Examples
    ///
    /// ```
    /// use dary_heap::TernaryHeap;
    /// let heap = TernaryHeap::from(vec![in alloc; 1, 2, 3, 4]?);
    /// assert_eq!(rt; heap.as_slice(), [4, 2, 3, 1].as_slice());
    /// ```
    pub fn as_slice(&self) -> &[T]
        ensures items { result.now ≡ self.now.items }
        ensures ordered { IsHeapOrdered J.order D self.now.items }
    {
        self.items.as_slice()
    }

    /// Returns a greatest item, or `None` if the heap is empty. Takes *O*(1).
    ///
    /// It is the first item of [`as_slice`](DaryHeap::as_slice), and the one that the next
    /// [`pop`](DaryHeap::pop) returns.
    ///
    /// # Examples
    ///
    /// ```
    /// use dary_heap::BinaryHeap;
    /// let heap = BinaryHeap::from(vec![in alloc; 1, 5, 2]?);
    /// assert_eq!(rt; heap.peek(), Some(&5));
    /// ```
    pub fn peek(&self) -> Option<&T>
        ensures variant { IsSome result ↔ (0 < length self.now.items) }
        ensures first { option_copied result ≡ slice_get self.now.items 0 }
        ensures greatest { IfSome result (λ item. IsGreatest J.order self.now.items item.now) }
        ensures above_all { IfSome result (λ item. IsUpperBound J.order item.now self.now.items) }
        ensures ordered { IsHeapOrdered J.order D self.now.items }
    {
        self.items.as_slice().first()
    }

    /// Adds an item.
    ///
    /// If the heap was empty, or the item is strictly greater than the one that [`peek`](DaryHeap::peek) returned,
    /// `peek` returns the new item from then on. Otherwise it returns the same item as before. A push takes at most
    /// as many comparisons as the new place is deep, which is *O*(log *n*) from arity 2 on.
    ///
    /// # Errors
    ///
    /// Returns the item if memory allocation fails. The heap is then as it was. This happens only
    /// if the length has reached the [`capacity`](DaryHeap::capacity).
    ///
    /// # Examples
    ///
    /// ```
    /// use dary_heap::TernaryHeap;
    /// let mut heap = TernaryHeap::new(alloc);
    /// heap.push(3)?;
    /// heap.push(5)?;
    /// assert_eq!(rt; heap.peek(), Some(&5));
    /// ```
    #[inline]
    pub fn push(&mut self, item: T) -> Result<(), T>
        ensures bag { OnOk result (IsSameBag (item ∷ self.old.items) self.new.items) }
        ensures first { OnOk result
            (front self.new.items ≡ Some (front_with J.order item (front self.old.items))) }
        ensures counted { OnOk result (RisesWithin self.old.comparisons self.new.comparisons
            (push_bound D (length self.old.items))) }
        ensures len { length self.new.items ≡ length self.old.items
            + (if is_ok result then 1 else 0) }
        ensures ordered { IsHeapOrdered J.order D self.new.items }
        ensures capacity { self.old.capacity ≤ self.new.capacity }
        ensures kept { length self.old.items < self.old.capacity
            → self.new.capacity ≡ self.old.capacity }

        // It fails only if the heap is full, and then nothing has changed.
        ensures succeeds { length self.old.items < self.old.capacity → IsOk result }
        ensures full { OnErr result (length self.old.items ≡ self.old.capacity) }
        ensures returned { IfErr result (λ back. back ≡ item) }
        ensures unchanged { OnErr result (self.new ≡ self.old) }
    {
        push_with::<T, J, D>(&mut self.items, item, &mut self.judge)
    }

    /// Removes a greatest item and returns it, or returns `None` if the heap is empty.
    ///
    /// It is the item that [`peek`](DaryHeap::peek) returns. The capacity stays the same. A pop
    /// takes at most as many comparisons as the arity times the depth of the last place that
    /// remains, which is *O*(log *n*) from arity 2 on.
    ///
    /// # Examples
    ///
    /// ```
    /// use dary_heap::QuaternaryHeap;
    /// let mut heap = QuaternaryHeap::from(vec![in alloc; 1, 3]?);
    /// assert_eq!(rt; heap.pop(), Some(3));
    /// assert_eq!(rt; heap.pop(), Some(1));
    /// assert_eq!(rt; heap.pop(), None);
    /// ```
    #[inline]
    pub fn pop(&mut self) -> Option<T>
        ensures variant { IsSome result ↔ (0 < length self.old.items) }
        ensures first { result ≡ slice_get self.old.items 0 }
        ensures greatest { IfSome result (IsGreatest J.order self.old.items) }
        ensures below_top { IfSome result (λ item. IsUpperBound J.order item self.new.items) }
        ensures bag { IfSome result (λ item. IsSameBag self.old.items (item ∷ self.new.items)) }
        ensures len { length self.new.items ≡ length self.old.items - 1 }
        ensures ordered { IsHeapOrdered J.order D self.new.items }
        ensures counted { RisesWithin self.old.comparisons self.new.comparisons
            (pop_bound D (length self.old.items)) }
        ensures capacity { self.new.capacity ≡ self.old.capacity }

        // If there is no item nothing changes.
        ensures unchanged { IfNone result (self.new ≡ self.old) }
    {
        pop_ordered::<T, J, D>(&mut self.items, &mut self.judge)
    }
}

/// Removes a greatest item of a heap's vector and returns it, as [`DaryHeap::pop`] does. An `IterSorted` holds no heap, and
/// a `DrainSorted` can't call `pop`, for the reason that it gives.
#[inline(always)]
pub(crate) fn pop_ordered<T, J: Judge<T>, const D: usize>(
    items: &mut Vec<T>,
    judge: &mut J,
) -> Option<T>
    requires { IsHeapOrdered J.order D items.old.items }
    ensures { IsPop J.order D (contents_of items.old (J.count judge.old)) result
        (contents_of items.new (J.count judge.new)) }
{
    pop_with::<T, J, D>(items, judge)
}
