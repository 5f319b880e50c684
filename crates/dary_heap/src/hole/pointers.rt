//! The places of a slice: all of them, or all but one, the hole.
ghost use Rattle.std.specs.Prelude.{◌≡◌, ◌≢◌, ◌^◌, ◌<◌, ℕ, List, length, slice_index_or, slice_set};
ghost use Rattle.core.specs.Mem.Slots.Ownership.{owned, lent};
ghost use Rattle.dary_heap.specs.hole.Slots.{all_filled, filled_but};

use std::marker::Model;

/// The places of a slice. Each holds its item.
pub(crate) struct Slots<T> {
    pub(super) ptr: *mut T,
    pub(super) len: usize,
    pub(super) ghost items: { List T },
    pub(super) ghost ok: { len ≡ length items },
    pub(super) ghost small: { len < 2 ^ 64 },
}

impl<T> Model for Slots<T> {
    ghost also_owns = { λ a. owned T.row a.ptr a.len a.items (all_filled a.len) };
}

/// The places of a slice. Each but the one at `at`, the hole, holds its item; what `items` has for the hole
/// says nothing.
///
/// It can't be dropped, and neither can the item that was taken out: whoever opens a hole has to fill it.
pub(crate) struct Hole<T> {
    pub(super) ptr: *mut T,
    pub(super) len: usize,
    pub(super) ghost items: { List T },
    pub(super) ghost at: { ℕ },
    pub(super) ghost ok: { (len ≡ length items) × (at < len) },
    pub(super) ghost small: { len < 2 ^ 64 },
}

impl<T> Model for Hole<T> {
    ghost also_owns = { λ a. owned T.row a.ptr a.len a.items (filled_but a.len a.at) };

    ghost also_shares = { λ a _ κ. lent T.row a.ptr a.len a.items (filled_but a.len a.at) κ };
}

impl<T> Slots<T> {
    /// Takes the item at a place out, and returns the hole and it.
    #[inline(always)]
    pub(crate) fn take(self, at: usize) -> (Hole<T>, T)
        requires { at < length self.items }
        ensures slice { result.0.ptr ≡ self.ptr }
        ensures items { result.0.items ≡ self.items }
        ensures at { result.0.at ≡ at }
        ensures taken { result.1 ≡ slice_index_or self.items at result.1 }
    {
        let Slots { ptr, len } = self;
        unsafe {
            let item = ptr.add(at).read();
            (Hole { ptr, len }, item)
        }
    }
}

impl<T> Hole<T> {
    #[inline(always)]
    pub(crate) fn get(&self, place: usize) -> &T
        requires { (place < length self.now.items) × (place ≢ self.now.at) }
        ensures { result.now ≡ slice_index_or self.now.items place result.now }
    {
        unsafe { &*self.ptr.add(place) }
    }

    /// Moves the item at another place into the hole, which is at `at`. The hole is at that place then.
    #[inline(always)]
    pub(crate) fn move_to(&mut self, place: usize, at: usize)
        requires here { at ≡ self.old.at }
        requires other { (place < length self.old.items) × (place ≢ at) }
        ensures slice { self.new.ptr ≡ self.old.ptr }
        ensures items { (x : T)
            → self.new.items ≡ slice_set self.old.items at (slice_index_or self.old.items place x) }
        ensures at { self.new.at ≡ place }
    {
        self.move_or_stay(place, at, place);
    }

    /// Copies the item at another place into the hole, which is at `at`. The hole is at `to` then: the item has moved if
    /// that is its place, and nothing has changed if it is `at`. So no branch is needed where `to` is a choice.
    #[inline(always)]
    pub(crate) fn move_or_stay(&mut self, place: usize, at: usize, to: usize)
        requires here { at ≡ self.old.at }
        requires other { (place < length self.old.items) × (place ≢ at) }
        requires either { to ≢ at → to ≡ place }
        ensures slice { self.new.ptr ≡ self.old.ptr }
        ensures at { self.new.at ≡ to }
        ensures stays { to ≡ at → self.new.items ≡ self.old.items }
        ensures moves { (x : T) → to ≡ place
            → self.new.items ≡ slice_set self.old.items at (slice_index_or self.old.items place x) }
    {
        unsafe { self.ptr.add(at).write(self.ptr.add(place).read()) }
    }

    #[inline(always)]
    pub(crate) fn fill(self, at: usize, item: T) -> Slots<T>
        requires { at ≡ self.at }
        ensures slice { result.ptr ≡ self.ptr }
        ensures items { result.items ≡ slice_set self.items at item }
    {
        let Hole { ptr, len } = self;
        unsafe {
            ptr.add(at).write(item);
            Slots { ptr, len }
        }
    }
}
