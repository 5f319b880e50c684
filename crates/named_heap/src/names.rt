//! Names with their numbers, which are the keys of a heap's entries: what a call does to both.
ghost use Rattle.std.specs.Prelude.{◌≡◌, ◌+◌, ◌<◌, ◌≤◌, true, false, length, slice_get, Some, IsOk, IfErr, IfOk, OnErr, OnOk};
ghost use Rattle.std.specs.List.{IsDistinct, list_any};
ghost use Rattle.indexmap.specs.IndexSet.{spare};
ghost use Rattle.named_heap.specs.Names.{AreNamed, AreNamedBut, HasRoomFor, Numbers, named, room_of};

use dary_heap::sift::Judge;
use indexed_heap::IndexedHeap;
use indexmap::IndexSet;
use std::alloc::AllocError;
use std::hash::{BuildHasher, Hash};

/// Takes a name out whose number has no entry any more. The last name gets its number.
pub(crate) fn free<K: Eq + Hash, T, const D: usize, J: Judge<T>, S: BuildHasher>(
    names: &mut IndexSet<K, S>,
    heap: &mut IndexedHeap<T, D, J>,
    key: usize,
) -> K
    requires but { AreNamedBut K.eq J.order D names.old.keys key heap.old.entries }
    requires room { key < heap.old.keys }
    ensures name { slice_get names.old.keys key ≡ Some result }
    ensures are_named { AreNamed K.eq J.order D names.new.keys heap.new.entries }
    ensures entries { named names.new.keys heap.new.entries ≡ named names.old.keys heap.old.entries }
    ensures len { length names.new.keys + 1 ≡ length names.old.keys }
    ensures entries_len { length heap.new.entries ≡ length heap.old.entries }
    ensures spare { spare names.old ≤ spare names.new }
    ensures capacity { heap.new.capacity ≡ heap.old.capacity }
    ensures keys { heap.new.keys ≡ heap.old.keys }
    ensures uncounted { heap.new.comparisons ≡ heap.old.comparisons }
{
    let Some(name) = names.swap_remove_index(key) else {
        unreachable!();
    };
    heap.rename(names.len(), key);
    name
}

/// Makes room for one more entry, and for the places of so many numbers. It calls nothing if there is room.
#[inline(always)]
fn ensure_room<T, const D: usize, J: Judge<T>>(
    heap: &mut IndexedHeap<T, D, J>,
    numbers: usize,
) -> Result<(), AllocError>
    ensures room { OnOk result ((length heap.new.entries < heap.new.capacity) × (numbers ≤ heap.new.keys)) }
    ensures entries { heap.new.entries ≡ heap.old.entries }
    ensures succeeds { length heap.old.entries < heap.old.capacity → numbers ≤ heap.old.keys → IsOk result }
    ensures capacity { heap.old.capacity ≤ heap.new.capacity }
    ensures keys { heap.old.keys ≤ heap.new.keys }
    ensures uncounted { heap.new.comparisons ≡ heap.old.comparisons }
{
    if heap.len() < heap.capacity() && numbers <= heap.key_capacity() {
        return Ok(());
    }
    heap.reserve(1, numbers)
}

/// Returns the number of a name, which is new if no name is equal: the heap has room for its entry then. If it fails, the
/// name comes back. A name is looked up before any room is made, so that none is if it is there.
pub(crate) fn number<K: Eq + Hash + Drop, T, const D: usize, J: Judge<T>, S: BuildHasher>(
    names: &mut IndexSet<K, S>,
    heap: &mut IndexedHeap<T, D, J>,
    name: K,
) -> Result<usize, K>
    requires unique { IsDistinct K.eq names.old.keys }
    ensures numbers { IfOk result (λ key. Numbers K.eq name key names.old.keys names.new.keys) }
    ensures unique { IsDistinct K.eq names.new.keys }
    ensures room { IfOk result (λ key. HasRoomFor key names.old.keys heap.new) }
    ensures returned { IfErr result (λ back. back ≡ name) }
    ensures unchanged { OnErr result (names.new.keys ≡ names.old.keys) }
    ensures absent { OnErr result (list_any (K.eq name) names.old.keys ≡ false) }
    ensures succeeds { 0 < room_of names.old heap.old → IsOk result }
    ensures spare { spare names.old ≤ spare names.new + 1 }
    ensures kept { list_any (K.eq name) names.old.keys ≡ true
        → (names.new ≡ names.old) × (heap.new ≡ heap.old) }
    ensures entries { heap.new.entries ≡ heap.old.entries }
    ensures capacity { heap.old.capacity ≤ heap.new.capacity }
    ensures keys { heap.old.keys ≤ heap.new.keys }
    ensures uncounted { heap.new.comparisons ≡ heap.old.comparisons }
{
    if let Some(key) = names.get_index_of(&name) {
        return Ok(key);
    }
    if ensure_room(heap, names.len() + 1).is_err() {
        return Err(name);
    }
    match names.insert_full(name) {
        Ok((key, _)) => Ok(key),
        Err(refused) => Err(refused.value),
    }
}
