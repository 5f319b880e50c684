//! Dijkstra's search.
ghost use Rattle.std.specs.Bool.{OnFalse, OnTrue};
ghost use Rattle.std.specs.Prelude.{◌≡◌, ◌≢◌, ℕ, ◌+◌, ◌-◌, ◌<◌, ◌≤◌, [], IfOk, IfErr, OnOk, IfSome, IfNone, length, slice_get, Some, true, map};
ghost use Rattle.std.specs.Fn.{FnReturnsAt};
ghost use Rattle.std.specs.List.{IsDistinct};
ghost use Rattle.dary_heap.specs.declared.shortest_path.PathRefusal.TheVariants.{CostTooLarge};
ghost use Rattle.graph_search.specs.Searching.{AreTraced, CostsAt, Finds, HasStuck, IsKnown, IsReadOff, IsReady, IsSearch, IsStuck, Sets, tables};
ghost use Rattle.graph_search.specs.Walk.{HasCritical, IsWayToGoal, NoGoal, NoGoalBelow, NoneCritical, NoneCriticalBelow};

use crate::expand::{ByCost, Expand};
use crate::graph::Graph;
use dary_heap::shortest_path::PathRefusal;
use dary_heap::sift::{ByOrd, LeastFirst};
use indexed_heap::IndexedHeap;
use indexmap::IndexSet;
use std::alloc::{AllocError, Global};
use std::hash::{BuildHasher, BuildHasherDefault, FoldHasher, Hash};

/// How a node was reached.
#[derive(Clone, Copy)]
struct Reached {
    /// What the walk costs.
    cost: usize,
    /// When the node before it was taken: its place in the list of those taken.
    before: usize,
}

/// The nodes found so far, by numbers: how each was reached, and which wait.
#[derive(Drop)]
struct Found<N: Eq + Hash, S: BuildHasher> {
    names: IndexSet<N, S>,
    reached: Vec<Reached>,
    heap: IndexedHeap<usize, 4, LeastFirst<ByOrd>>,
}

impl<N: Eq + Hash, S: BuildHasher> Found<N, S> {
    fn new(alloc: Global, hash_builder: S) -> Found<N, S>
        ensures names { result.names.keys ≡ [] }
        ensures reached { result.reached.items ≡ [] }
        ensures entries { result.heap.entries ≡ [] }
    {
        Found {
            names: IndexSet::with_hasher(alloc, hash_builder),
            reached: Vec::new(alloc),
            heap: IndexedHeap::with_judge(alloc, LeastFirst(ByOrd::new())),
        }
    }

    /// Notes a walk to a node over the one taken at the place `before`, if it costs less than was known.
    fn find(&mut self, node: N, cost: usize, before: usize) -> Result<(), AllocError>
    where
        N: Drop,
        requires ready { IsReady (tables self.old.names.keys self.old.reached.items self.old.heap.entries) }
        ensures finds { OnOk result (Finds N.eq node cost before
            (tables self.old.names.keys self.old.reached.items self.old.heap.entries)
            (tables self.new.names.keys self.new.reached.items self.new.heap.entries)) }
    {
        let (number, _) = self.names.insert_full(node)?;
        let cheaper = note(&mut self.reached, number, cost, before)?;
        if cheaper {
            let Ok(_) = self.heap.raise(number, cost) else {
                return Err(AllocError);
            };
        }
        Ok(())
    }

    /// Examines the node taken at a place, which costs so much. Returns `true` if it is a goal. Otherwise each edge that
    /// leaves it leads to a node found from then on. `edges` lends its memory.
    fn examine<G: Expand<N>, F: Fn(&N) -> bool>(
        &mut self,
        graph: &G,
        is_goal: &F,
        taken: &Vec<usize>,
        place: usize,
        cost: usize,
        edges: &mut Vec<(N, usize)>,
    ) -> Result<bool, PathRefusal>
    where
        N: Drop,
        requires goals { F.IsAlwaysCallable is_goal.now }
        requires search { (start : N) × IsSearch (G.edge graph.now) N.eq (FnReturnsAt F.Fn is_goal.now) start usize.MAX
            (tables self.old.names.keys self.old.reached.items self.old.heap.entries) taken.now.items place cost
            × G.is_node graph.now start }
        requires at { (number : ℕ) × (slice_get taken.now.items place ≡ Some number)
            × CostsAt self.old.reached.items number cost }
        requires empty { edges.old.items ≡ [] }
        ensures goal { (number : ℕ) (node : N) → slice_get taken.now.items place ≡ Some number
            → slice_get self.old.names.keys number ≡ Some node
            → IfOk result (λ b. OnTrue b (FnReturnsAt F.Fn is_goal.now node true)) }
        ensures unchanged { IfOk result (λ b. OnTrue b (self.new ≡ self.old)) }
        ensures search { (start : N) → IsSearch (G.edge graph.now) N.eq (FnReturnsAt F.Fn is_goal.now) start usize.MAX
            (tables self.old.names.keys self.old.reached.items self.old.heap.entries) taken.now.items place cost
            → IfOk result (λ b. OnFalse b (IsSearch (G.edge graph.now) N.eq (FnReturnsAt F.Fn is_goal.now) start usize.MAX
            (tables self.new.names.keys self.new.reached.items self.new.heap.entries) taken.now.items (place + 1) cost)) }
        ensures empty { IfOk result (λ b. OnFalse b (edges.new.items ≡ [])) }
        ensures too_large { (number : ℕ) (node : N) → slice_get taken.now.items place ≡ Some number
            → slice_get self.old.names.keys number ≡ Some node
            → IfErr result (λ refusal. refusal ≡ CostTooLarge
            → IsStuck (G.edge graph.now) (G.refuses graph.now) (FnReturnsAt F.Fn is_goal.now) usize.MAX node cost) }
    {
        let Some(node) = self.names.get_index(taken[place]) else {
            unreachable!();
        };
        if is_goal(node) {
            return Ok(true);
        }
        graph.expand(node, edges)?;
        while let Some((next, step)) = edges.pop() {
            // Tests whether the sum exceeds `usize::MAX`, without overflow.
            if step > usize::MAX - cost {
                return Err(PathRefusal::CostTooLarge);
            }
            self.find(next, cost + step, place)?;
        }
        Ok(false)
    }
}

/// Writes how a node was reached, and returns `true`, if it has a new number or costs less than before.
fn note(
    reached: &mut Vec<Reached>,
    number: usize,
    cost: usize,
    before: usize,
) -> Result<bool, AllocError>
    requires { number ≤ length reached.old.items }
    ensures sets { IfOk result (λ b. OnTrue b
        (Sets number cost before reached.old.items reached.new.items)) }
    ensures known { IfOk result (λ b. OnFalse b
        (IsKnown number cost reached.old.items reached.new.items)) }
{
    if number == reached.len() {
        reached.push(Reached { cost, before })?;
        return Ok(true);
    }
    if cost < reached[number].cost {
        reached[number] = Reached { cost, before };
        return Ok(true);
    }
    Ok(false)
}

/// Returns the nodes of the way that ends with the node taken last, in their order.
fn way_to<N: Eq + Hash + Drop, S: BuildHasher + Drop>(
    alloc: Global,
    names: IndexSet<N, S>,
    reached: &Vec<Reached>,
    taken: &Vec<usize>,
) -> Result<Vec<N>, AllocError>
    requires traced { AreTraced names.keys reached.now.items taken.now.items }
    ensures read { IfOk result (λ way. IsReadOff names.keys reached.now.items taken.now.items way.items) }
{
    let mut slots = slots_of(alloc, names)?;
    let mut way = Vec::new(alloc);
    let mut place = taken.len() - 1;
    while place > 0 {
        let number = taken[place];
        way.push(take_from(&mut slots, number))?;
        place = reached[number].before;
    }
    way.push(take_from(&mut slots, taken[0]))?;
    way.reverse();
    Ok(way)
}

/// Returns what is in a slot, which is empty from then on.
fn take_from<N: Drop>(slots: &mut Vec<Option<N>>, number: usize) -> N
    requires { (node : N) × (slice_get slots.old.items number ≡ Some (Some node)) }
    ensures node { slice_get slots.old.items number ≡ Some (Some result) }
    ensures others { (i : ℕ) → i ≢ number → slice_get slots.new.items i ≡ slice_get slots.old.items i }
{
    let Some(node) = slots[number].take() else {
        unreachable!();
    };
    node
}

/// Returns the names in slots, from which each can be taken.
fn slots_of<N: Eq + Hash + Drop, S: BuildHasher + Drop>(
    alloc: Global,
    mut names: IndexSet<N, S>,
) -> Result<Vec<Option<N>>, AllocError>
    ensures slots { IfOk result (λ slots. slots.items ≡ map Some names.keys) }
{
    let mut slots = Vec::with_capacity(alloc, names.len())?;
    while let Some(name) = names.pop() {
        slots.push(Some(name))?;
    }
    slots.reverse();
    Ok(slots)
}

/// Searches by the costs that `graph` goes by.
pub(crate) fn search<N: Eq + Hash + Drop, G: Expand<N>, F: Fn(&N) -> bool, S: BuildHasher + Drop>(
    alloc: Global,
    graph: &G,
    start: N,
    is_goal: F,
    hash_builder: S,
) -> Result<Option<(usize, Vec<N>)>, PathRefusal>
    requires start { G.is_node graph.now start }
    requires goals { F.IsAlwaysCallable is_goal }
    ensures way { IfOk result (λ answer. IfSome answer (λ found.
        IsWayToGoal (G.edge graph.now) (FnReturnsAt F.Fn is_goal) start found.1.items found.0)) }
    ensures least { IfOk result (λ answer. IfSome answer (λ found.
        NoGoalBelow (G.edge graph.now) N.eq (FnReturnsAt F.Fn is_goal) start found.0)) }
    ensures once { IfOk result (λ answer. IfSome answer (λ found. IsDistinct N.eq found.1.items)) }
    ensures unreached { IfOk result (λ answer. IfNone answer
        (NoGoal (G.edge graph.now) N.eq (FnReturnsAt F.Fn is_goal) start)) }
    ensures uncritical { IfOk result (λ answer. IfSome answer (λ found.
        NoneCriticalBelow (G.edge graph.now) N.eq (FnReturnsAt F.Fn is_goal) start usize.MAX found.0)) }
    ensures all_uncritical { IfOk result (λ answer. IfNone answer
        (NoneCritical (G.edge graph.now) N.eq (FnReturnsAt F.Fn is_goal) start usize.MAX)) }
    ensures too_large { IfErr result (λ refusal. refusal ≡ CostTooLarge
        → HasStuck (G.edge graph.now) (G.refuses graph.now) N.eq (FnReturnsAt F.Fn is_goal) start usize.MAX) }
{
    let mut found = Found::new(alloc, hash_builder);
    let mut taken = Vec::new(alloc);
    let mut edges = Vec::new(alloc);
    found.find(start, 0, 0)?;
    while let Some((number, cost)) = found.heap.pop() {
        let place = taken.len();
        taken.push(number)?;
        let at_goal = found.examine(graph, &is_goal, &taken, place, cost, &mut edges)?;
        if at_goal {
            let nodes = way_to(alloc, found.names, &found.reached, &taken)?;
            return Ok(Some((cost, nodes)));
        }
    }
    Ok(None)
}

/// Returns the least cost of a walk from `start` to a goal, and the nodes of such a walk in their order, both ends
/// included and each once, or `None` if no walk leads to a goal.
///
/// A node is a goal if `is_goal` returns `true` for the node. If `start` is a goal, the cost is 0, and `start` is the only
/// node. If a graph has nodes without end and none of the nodes reached is a goal, the search ends when memory does.
///
/// # Preconditions
///
/// - `start` is a node.
/// - `is_goal` may be called on each node.
///
/// # Errors
///
/// Returns [`PathRefusal::NoMemory`] if memory allocation fails, here or in [`Graph::edges_from`].
///
/// Returns [`PathRefusal::CostTooLarge`] only if there is a critical node: the node is no goal, no goal is nearer, and its
/// least cost with that of one of its edges exceeds `usize::MAX`. If a critical node is nearer than each goal, the search
/// doesn't succeed.
///
/// The caller's graph is borrowed, and is as before after a failure.
///
/// # Examples
///
/// ```
/// use dary_heap::shortest_path::Edge;
/// use graph_search::dijkstra;
/// let from_0 = vec![in alloc; Edge { node: 1, cost: 7 }, Edge { node: 2, cost: 1 }]?;
/// let from_2 = vec![in alloc; Edge { node: 1, cost: 3 }]?;
/// let graph = vec![in alloc; from_0, Vec::new(alloc), from_2]?;
/// let to = |goal: usize| dijkstra(alloc, &graph, 0, move |node: &usize| *node == goal);
/// assert_eq!(rt; to(1), Ok(Some((4, vec![in alloc; 0, 2, 1]?))));
/// assert_eq!(rt; to(0), Ok(Some((0, vec![in alloc; 0]?))));
/// assert_eq!(rt; to(5), Ok(None));
/// ```
pub fn dijkstra<N: Eq + Hash + Drop, G: Graph<N>, F: Fn(&N) -> bool>(
    alloc: Global,
    graph: &G,
    start: N,
    is_goal: F,
) -> Result<Option<(usize, Vec<N>)>, PathRefusal>
    requires start { G.is_node graph.now start }
    requires goals { F.IsAlwaysCallable is_goal }
    ensures way { IfOk result (λ answer. IfSome answer (λ found.
        IsWayToGoal (G.edge graph.now) (FnReturnsAt F.Fn is_goal) start found.1.items found.0)) }
    ensures least { IfOk result (λ answer. IfSome answer (λ found.
        NoGoalBelow (G.edge graph.now) N.eq (FnReturnsAt F.Fn is_goal) start found.0)) }
    ensures once { IfOk result (λ answer. IfSome answer (λ found. IsDistinct N.eq found.1.items)) }
    ensures unreached { IfOk result (λ answer. IfNone answer
        (NoGoal (G.edge graph.now) N.eq (FnReturnsAt F.Fn is_goal) start)) }
    ensures uncritical { IfOk result (λ answer. IfSome answer (λ found.
        NoneCriticalBelow (G.edge graph.now) N.eq (FnReturnsAt F.Fn is_goal) start usize.MAX found.0)) }
    ensures all_uncritical { IfOk result (λ answer. IfNone answer
        (NoneCritical (G.edge graph.now) N.eq (FnReturnsAt F.Fn is_goal) start usize.MAX)) }
    ensures too_large { IfErr result (λ refusal. refusal ≡ CostTooLarge
        → HasCritical (G.edge graph.now) N.eq (FnReturnsAt F.Fn is_goal) start usize.MAX) }
{
    let hash_builder = BuildHasherDefault::<FoldHasher>::new();
    dijkstra_with_hasher(alloc, graph, start, is_goal, hash_builder)
}

/// Searches as [`dijkstra`] does, and hashes nodes by `hash_builder`.
///
/// The hasher of [`dijkstra`] has a fixed seed, so who picks the nodes can pick nodes whose hashes collide. For such nodes
/// take std's `RandomState`.
///
/// # Preconditions
///
/// - `start` is a node.
/// - `is_goal` may be called on each node.
///
/// # Errors
///
/// Fails if [`dijkstra`] does.
///
/// # Examples
///
/// ```
/// use dary_heap::shortest_path::Edge;
/// use graph_search::dijkstra_with_hasher;
/// use std::hash::RandomState;
/// let from_0 = vec![in alloc; Edge { node: 1, cost: 7 }, Edge { node: 2, cost: 1 }]?;
/// let from_2 = vec![in alloc; Edge { node: 1, cost: 3 }]?;
/// let graph = vec![in alloc; from_0, Vec::new(alloc), from_2]?;
/// let hashers = RandomState::new(&rt)?;
/// let found = dijkstra_with_hasher(alloc, &graph, 0, |node: &usize| *node == 1, hashers)?;
/// assert_eq!(rt; found, Some((4, vec![in alloc; 0, 2, 1]?)));
/// ```
pub fn dijkstra_with_hasher<
    N: Eq + Hash + Drop,
    G: Graph<N>,
    F: Fn(&N) -> bool,
    S: BuildHasher + Drop,
>(
    alloc: Global,
    graph: &G,
    start: N,
    is_goal: F,
    hash_builder: S,
) -> Result<Option<(usize, Vec<N>)>, PathRefusal>
    requires start { G.is_node graph.now start }
    requires goals { F.IsAlwaysCallable is_goal }
    ensures way { IfOk result (λ answer. IfSome answer (λ found.
        IsWayToGoal (G.edge graph.now) (FnReturnsAt F.Fn is_goal) start found.1.items found.0)) }
    ensures least { IfOk result (λ answer. IfSome answer (λ found.
        NoGoalBelow (G.edge graph.now) N.eq (FnReturnsAt F.Fn is_goal) start found.0)) }
    ensures once { IfOk result (λ answer. IfSome answer (λ found. IsDistinct N.eq found.1.items)) }
    ensures unreached { IfOk result (λ answer. IfNone answer
        (NoGoal (G.edge graph.now) N.eq (FnReturnsAt F.Fn is_goal) start)) }
    ensures uncritical { IfOk result (λ answer. IfSome answer (λ found.
        NoneCriticalBelow (G.edge graph.now) N.eq (FnReturnsAt F.Fn is_goal) start usize.MAX found.0)) }
    ensures all_uncritical { IfOk result (λ answer. IfNone answer
        (NoneCritical (G.edge graph.now) N.eq (FnReturnsAt F.Fn is_goal) start usize.MAX)) }
    ensures too_large { IfErr result (λ refusal. refusal ≡ CostTooLarge
        → HasCritical (G.edge graph.now) N.eq (FnReturnsAt F.Fn is_goal) start usize.MAX) }
{
    search(alloc, &ByCost { graph }, start, is_goal, hash_builder)
}
