//! The functions on entries whose places are kept in a second array, at the values of the entries.
//!
//! Each promises of the entries what the function of [`entry`](crate::entry) promises that has the same name but for
//! its end. A push and a fix also return `false` and change nothing if the value of the entry has no place.
ghost use Rattle.std.specs.Prelude.{◌-◌, length};
ghost use Rattle.std.specs.Ordering.{flip_args};
ghost use Rattle.dary_heap_c.specs.InPlace.{FixesIf, Pops, PushesIf, Removes};
ghost use Rattle.dary_heap_c.specs.Keys.{by_key};
ghost use Rattle.dary_heap_c.specs.Places.{HasKeyAt, KeepsPlaces};

use crate::entry::Entry;
use crate::in_place::{fix_with_places, pop_with_places, push_with_places, remove_with_places};
use crate::judges::ByKey;
use dary_heap::sift::LeastFirst;

#[unsafe(no_mangle)]
pub extern "C" fn dheap_max_push_keyed(
    items: &mut [Entry],
    arity: usize,
    places: &mut [usize],
) -> bool
    ensures pushes { PushesIf by_key arity result items.old items.new
        (HasKeyAt (length places.old) (length items.old - 1) items.old) }
    ensures places { KeepsPlaces (length items.old - 1) result items.old items.new places.old
        places.new }
{
    push_with_places(items, arity, places, &mut ByKey::new())
}

#[unsafe(no_mangle)]
pub extern "C" fn dheap_max_pop_keyed(
    items: &mut [Entry],
    arity: usize,
    places: &mut [usize],
) -> bool
    ensures pops { Pops by_key arity result items.old items.new }
    ensures places { KeepsPlaces 0 result items.old items.new places.old places.new }
{
    pop_with_places(items, arity, places, &mut ByKey::new())
}

#[unsafe(no_mangle)]
pub extern "C" fn dheap_max_fix_keyed(
    items: &mut [Entry],
    arity: usize,
    place: usize,
    places: &mut [usize],
) -> bool
    ensures fixes { FixesIf by_key arity result items.old items.new
        (HasKeyAt (length places.old) place items.old) place }
    ensures places { KeepsPlaces place result items.old items.new places.old places.new }
{
    fix_with_places(items, arity, place, places, &mut ByKey::new())
}

#[unsafe(no_mangle)]
pub extern "C" fn dheap_max_remove_keyed(
    items: &mut [Entry],
    arity: usize,
    place: usize,
    places: &mut [usize],
) -> bool
    ensures removes { Removes by_key arity result items.old items.new place }
    ensures places { KeepsPlaces place result items.old items.new places.old places.new }
{
    remove_with_places(items, arity, place, places, &mut ByKey::new())
}

// `kinds.py` makes what follows.

#[unsafe(no_mangle)]
pub extern "C" fn dheap_min_push_keyed(
    items: &mut [Entry],
    arity: usize,
    places: &mut [usize],
) -> bool
    ensures pushes { PushesIf (flip_args by_key) arity result items.old items.new
        (HasKeyAt (length places.old) (length items.old - 1) items.old) }
    ensures places { KeepsPlaces (length items.old - 1) result items.old items.new places.old
        places.new }
{
    push_with_places(items, arity, places, &mut LeastFirst(ByKey::new()))
}

#[unsafe(no_mangle)]
pub extern "C" fn dheap_min_pop_keyed(
    items: &mut [Entry],
    arity: usize,
    places: &mut [usize],
) -> bool
    ensures pops { Pops (flip_args by_key) arity result items.old items.new }
    ensures places { KeepsPlaces 0 result items.old items.new places.old places.new }
{
    pop_with_places(items, arity, places, &mut LeastFirst(ByKey::new()))
}

#[unsafe(no_mangle)]
pub extern "C" fn dheap_min_fix_keyed(
    items: &mut [Entry],
    arity: usize,
    place: usize,
    places: &mut [usize],
) -> bool
    ensures fixes { FixesIf (flip_args by_key) arity result items.old items.new
        (HasKeyAt (length places.old) place items.old) place }
    ensures places { KeepsPlaces place result items.old items.new places.old places.new }
{
    fix_with_places(items, arity, place, places, &mut LeastFirst(ByKey::new()))
}

#[unsafe(no_mangle)]
pub extern "C" fn dheap_min_remove_keyed(
    items: &mut [Entry],
    arity: usize,
    place: usize,
    places: &mut [usize],
) -> bool
    ensures removes { Removes (flip_args by_key) arity result items.old items.new place }
    ensures places { KeepsPlaces place result items.old items.new places.old places.new }
{
    remove_with_places(items, arity, place, places, &mut LeastFirst(ByKey::new()))
}
