//! A call of each public function of `indexed_heap`, at concrete types. Tests of many calls are in parts, since the
//! proof of two short functions takes less time than that of one that is twice as long.
use crate::{Host, Tested, same};
use dary_heap::shortest_path::{Edge, PathRefusal, shortest_path};
use dary_heap::sift::{ByOrd, LeastFirst, Tally};
use indexed_heap::shortest_path::{CostHeap, is_graph, shortest_path_nodes, shortest_paths_into};
use indexed_heap::{IndexedHeap, Iter};
use std::default::MadeWith;
use std::mem;

#[test]
fn entries_are_read_changed_and_removed_by_key(rt: HostRuntime) -> Tested {
    let mut heap = IndexedHeap::<u32, 4>::with_capacity(rt.alloc(), 2, 9)?;
    same(&rt, heap.len(), 0);
    same(&rt, heap.is_empty(), true);
    same(&rt, heap.key_capacity(), 9);
    inserts_and_raises(&rt, &mut heap)?;
    reads(&rt, &heap)?;
    removes_and_pops(&rt, &mut heap)
}

/// Inserts 10 and then 50 at key 8, and 30 at key 6, which is raised to 60.
fn inserts_and_raises(rt: &impl Host, heap: &mut IndexedHeap<u32, 4>) -> Tested {
    same(rt, heap.insert(8, 10), Ok(None));
    same(rt, heap.insert(6, 30), Ok(None));
    same(rt, heap.insert(8, 50), Ok(Some(10)));
    same(rt, heap.raise(6, 20), Ok(false));
    same(rt, heap.raise(6, 60), Ok(true));
    same(rt, heap.insert(usize::MAX, 1), Err(1));
    Ok(())
}

/// Reads these two entries.
fn reads(rt: &impl Host, heap: &IndexedHeap<u32, 4>) -> Tested {
    same(rt, heap.contains_key(8), true);
    same(rt, heap.contains_key(7), false);
    same(rt, heap.as_slice(), &[(6, 60), (8, 50)]);
    same(rt, heap.get(6), Some(&60));
    same(rt, heap.peek(), Some((6, &60)));
    Ok(())
}

/// Removes these two entries.
fn removes_and_pops(rt: &impl Host, heap: &mut IndexedHeap<u32, 4>) -> Tested {
    same(rt, heap.remove(8), Some(50));
    same(rt, heap.remove(8), None);
    same(rt, heap.pop(), Some((6, 60)));
    same(rt, heap.pop(), None);
    Ok(())
}

// The predicate may be called on any key and item.
#[test]
fn the_least_comes_first_by_a_judge(rt: HostRuntime) -> Tested {
    let judge = LeastFirst(Tally::new());
    let mut heap = IndexedHeap::<_, 2, _>::with_judge(rt.alloc(), judge);
    heap.reserve(3, 5)?;
    assert!(rt; heap.capacity() >= 3);
    for (key, item) in [(1, 40), (4, 20), (2, 30)] {
        same(&rt, heap.insert(key, item), Ok(None));
    }
    same(&rt, heap.judge().0.made(), 2);
    for popped in [Some((4, 20)), None] {
        same(&rt, heap.pop_if(|key, item| key == 4 && *item < 30), popped);
    }
    heap.clear();
    assert!(rt; heap.is_empty());
    Ok(())
}

// A clone of a number is the same number.
#[test]
fn entries_are_iterated_and_copied(rt: HostRuntime) -> Tested {
    let mut heap = IndexedHeap::<u32, 3, ByOrd>::new(rt.alloc());
    for (key, item) in [(1, 40), (4, 20), (2, 30)] {
        same(&rt, heap.insert(key, item), Ok(None));
    }
    sorts_a_copy(&rt, &heap)?;
    iterates_a_copy(&rt, &heap)?;
    iterates(&rt, &heap)?;
    drains_and_takes(&rt, &mut heap)
}

/// Takes a copy's entries in their order.
fn sorts_a_copy(rt: &impl Host, heap: &IndexedHeap<u32, 3>) -> Tested {
    let mut sorted = heap.clone()?.into_iter_sorted().clone()?;
    same(rt, sorted.next(), Some((1, 40)));
    same(rt, sorted.next(), Some((2, 30)));
    Ok(())
}

/// Takes a copy's entries as they lie.
fn iterates_a_copy(rt: &impl Host, heap: &IndexedHeap<u32, 3>) -> Tested {
    let mut entries = heap.clone()?.into_iter().clone()?;
    same(rt, entries.next(), Some((1, 40)));
    same(rt, entries.next_back(), Some((2, 30)));
    Ok(())
}

/// Reads the entries as they lie.
fn iterates(rt: &impl Host, heap: &IndexedHeap<u32, 3>) -> Tested {
    // (`same` would take both sides at one lifetime)
    assert_eq!(rt; Iter::<u32>::default().next(), None);
    let mut shown = heap.iter();
    same(rt, shown.next(), Some((1, &40)));
    same(rt, shown.next_back(), Some((2, &30)));
    Ok(())
}

/// Takes the entries out, and then the heap.
fn drains_and_takes(rt: &impl Host, heap: &mut IndexedHeap<u32, 3>) -> Tested {
    same(rt, heap.drain().next(), Some((1, 40)));
    same(rt, heap.is_empty(), true);
    same(rt, heap.insert(4, 7), Ok(None));
    same(rt, mem::try_take(heap)?.pop(), Some((4, 7)));
    same(rt, heap.len(), 0);
    let made = IndexedHeap::<u32, 3>::made_with(rt.alloc());
    same(rt, made.len(), 0);
    Ok(())
}

#[test]
fn a_heap_is_copied_by_its_judge_and_gives_room_back(rt: HostRuntime) -> Tested {
    let mut heap = IndexedHeap::<u32, 4, _>::with_judge(rt.alloc(), LeastFirst(ByOrd::new()));
    heap.reserve(20, 50)?;
    for (key, item) in [(1, 40), (9, 10), (4, 20)] {
        same(&rt, heap.insert(key, item), Ok(None));
    }
    copies_by_its_judge(&rt, &heap)?;
    gives_room_back(&rt, &mut heap)
}

/// Takes a copy's entries in their order, the least first.
fn copies_by_its_judge(rt: &impl Host, heap: &IndexedHeap<u32, 4, LeastFirst<ByOrd>>) -> Tested {
    let mut copy = heap.clone()?;
    same(rt, copy.pop(), Some((9, 10)));
    let mut sorted = copy.into_iter_sorted().clone()?;
    same(rt, sorted.next(), Some((4, 20)));
    same(rt, sorted.len(), 1);
    Ok(())
}

/// Gives back the room for all but 10 and 30, and then all that isn't used.
fn gives_room_back(rt: &impl Host, heap: &mut IndexedHeap<u32, 4, LeastFirst<ByOrd>>) -> Tested {
    heap.shrink_to(10, 30)?;
    same(rt, heap.capacity(), 10);
    same(rt, heap.key_capacity(), 30);
    heap.shrink_to_fit()?;
    same(rt, heap.capacity(), 3);
    same(rt, heap.key_capacity(), 10);
    Ok(())
}

/// Compares what the three searches return.
fn finds(
    rt: &impl Host,
    graph: &Vec<Vec<Edge>>,
    start: usize,
    goal: usize,
    answer: Result<Option<usize>, PathRefusal>,
) -> Tested {
    let alloc = rt.alloc();
    assert!(rt; is_graph(graph));
    assert!(rt; start < graph.len());
    same(rt, shortest_path(alloc, graph, start, goal), answer);
    let path = shortest_path_nodes(alloc, graph, start, goal);
    same(rt, path.map(|path| path.map(|(cost, _)| cost)), answer);
    let nodes = graph.len();
    let mut dist = vec![in alloc; 0; nodes]?;
    let mut prev = vec![in alloc; 0; nodes]?;
    let mut heap = CostHeap::<2>::with_judge(alloc, LeastFirst(ByOrd::new()));
    heap.reserve(nodes, nodes)?;
    let kept = shortest_paths_into(graph, start, goal, &mut dist, &mut prev, &mut heap);
    same(rt, kept, answer);
    Ok(())
}

#[test]
fn a_detour_is_cheaper(rt: HostRuntime) -> Tested {
    let alloc = rt.alloc();
    let edge = |node, cost| Edge { node, cost };
    let from_0 = vec![in alloc; edge(1, 7), edge(2, 1)]?;
    let from_1 = vec![in alloc; edge(3, 2)]?;
    let from_2 = vec![in alloc; edge(1, 3)]?;
    let from_3 = vec![in alloc; edge(2, usize::MAX)]?;
    let graph = vec![in alloc; from_0, from_1, from_2, from_3, Vec::new(alloc)]?;
    finds(&rt, &graph, 0, 3, Ok(Some(6)))?;
    finds(&rt, &graph, 2, 1, Ok(Some(3)))?;
    finds(&rt, &graph, 1, 1, Ok(Some(0)))?;
    finds(&rt, &graph, 4, 0, Ok(None))?;
    finds(&rt, &graph, 1, 0, Err(PathRefusal::CostTooLarge))
}
