//! The judges by which the algorithms compare.
ghost use Rattle.std.specs.Prelude.{◌≡◌};
ghost use Rattle.dary_heap_c.specs.Keys.{by_key, by_key-total, key_then_earlier, key_then_earlier-total, key_then_later, key_then_later-total, total_order, total_order-total, total_order_key};

use crate::entry::Entry;
use crate::sequenced::Sequenced;
use dary_heap::sift::{ByOrd, Judge};
use std::cmp::Reverse;

/// Judges an entry by its key alone, and the bits of a double by the total order of IEEE 754. Of two
/// sequenced items with equal keys the one with the lesser sequence number is the greater.
#[derive(Drop)]
pub struct ByKey {
    keys: ByOrd,
}

impl ByKey {
    /// A judge that made no comparison yet.
    pub fn new() -> ByKey
        ensures { result.keys ≡ 0 }
    {
        ByKey { keys: ByOrd::new() }
    }
}

impl Judge<Entry> for ByKey {
    ghost order = { by_key };

    ghost count = { λ judge. judge.keys };

    ghost total = { by_key-total };

    fn at_most(&mut self, a: &Entry, b: &Entry) -> bool {
        self.keys.at_most(&a.key, &b.key)
    }
}

impl Judge<Sequenced> for ByKey {
    ghost order = { key_then_earlier };

    ghost count = { λ judge. judge.keys };

    ghost total = { key_then_earlier-total };

    fn at_most(&mut self, a: &Sequenced, b: &Sequenced) -> bool {
        let (a, b) = ((a.key, Reverse(a.sequence)), (b.key, Reverse(b.sequence)));
        self.keys.at_most(&a, &b)
    }
}

/// Judges by the keys, and of equal keys the one with the greater sequence number is the greater.
#[derive(Drop)]
pub struct ByLater {
    keys: ByOrd,
}

impl ByLater {
    /// A judge that made no comparison yet.
    pub fn new() -> ByLater
        ensures { result.keys ≡ 0 }
    {
        ByLater { keys: ByOrd::new() }
    }
}

impl Judge<Sequenced> for ByLater {
    ghost order = { key_then_later };

    ghost count = { λ judge. judge.keys };

    ghost total = { key_then_later-total };

    fn at_most(&mut self, a: &Sequenced, b: &Sequenced) -> bool {
        let (a, b) = ((a.key, a.sequence), (b.key, b.sequence));
        self.keys.at_most(&a, &b)
    }
}

/// The place of a double in the total order.
#[inline(always)]
fn key_of(bits: u64) -> i64
    ensures { result ≡ total_order_key bits }
{
    const SIGN: u64 = 1 << 63;
    if bits < SIGN {
        bits as i64
    } else {
        -1 - (bits - SIGN) as i64
    }
}

impl Judge<u64> for ByKey {
    ghost order = { total_order };

    ghost count = { λ judge. judge.keys };

    ghost total = { total_order-total };

    fn at_most(&mut self, a: &u64, b: &u64) -> bool {
        self.keys.at_most(&key_of(*a), &key_of(*b))
    }
}
