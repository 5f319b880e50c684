//! Callers for whom this heap takes the place of std's `BinaryHeap`.
ghost use Rattle.std.specs.BinaryHeap.{IsHeap, heap_items, heap_capacity};
ghost use Rattle.std.specs.BTreeMap.{get};
ghost use Rattle.std.specs.Ordering.{nat_cmp};
ghost use Rattle.std.specs.Prelude.{◌≡◌, ◌≢◌, ℕ, ◌+◌, ◌<◌, ◌≤◌, ◌-◌, ◌↔◌, [], ◌∷◌, ◌++◌, nat_lt, All, count_by, length, vec_len, vec_capacity, IsOk, IsSome, Some, IfSome, IfNone, IfOk, OnOk, OnErr};
ghost use Rattle.dary_heap.specs.Appending.{receiving_capacity};
ghost use Rattle.dary_heap.specs.Bag.{IsSameBag};
ghost use Rattle.dary_heap.specs.Building.{IsNew};
ghost use Rattle.dary_heap.specs.Contents.{Contents};
ghost use Rattle.dary_heap_uses.specs.FromStd.{NoneHigher, up_to, Falls, IsLead, IsRange, prices_at};

use dary_heap::{BinaryHeap, DaryHeap};
use std::alloc::{AllocError, Global};
use std::{collections, mem};

/// Adds a price. Fails if memory allocation fails, which happens only if there is no room for another, and nothing has
/// changed then. `?` makes `AllocError` of the error of std's push; that of this heap's is the item, which `map_err`
/// drops.
pub fn add_price(prices: &mut BinaryHeap<u32>, price: u32) -> Result<(), AllocError>
    ensures bag { OnOk result (IsSameBag (price ∷ prices.old.items) prices.new.items) }
    ensures capacity { prices.old.capacity ≤ prices.new.capacity }
    ensures kept { length prices.old.items < prices.old.capacity
        → prices.new.capacity ≡ prices.old.capacity }
    ensures succeeds { length prices.old.items < prices.old.capacity → IsOk result }
    ensures unchanged { OnErr result (prices.new ≡ prices.old) }
{
    prices.push(price).map_err(|_| AllocError)?;
    Ok(())
}

/// Takes the highest price out. No price that stays is higher.
pub fn highest(prices: &mut BinaryHeap<u32>) -> Option<u32>
    ensures some { IsSome result ↔ (0 < length prices.old.items) }
    ensures bag { IfSome result (λ price. IsSameBag prices.old.items (price ∷ prices.new.items)) }
    ensures unchanged { IfNone result (prices.new ≡ prices.old) }
    ensures below { IfSome result (λ price. NoneHigher price prices.new.items) }
{
    prices.pop()
}

/// Takes the two highest prices out and returns by how much the first exceeds the second, or `None` if there
/// were fewer than two. A single price is taken out too.
pub fn lead(prices: &mut BinaryHeap<u32>) -> Option<u32>
    ensures some { IsSome result ↔ (2 ≤ length prices.old.items) }
    ensures lead { IfSome result (λ lead. IsLead prices.old.items lead prices.new.items) }
    ensures len { length prices.new.items ≡ length prices.old.items - 2 }
{
    let first = prices.pop()?;
    let second = prices.pop()?;
    Some(first - second)
}

/// Takes the highest price out if it is at least the bound. No price was higher, and none that stays is.
pub fn highest_from(prices: &mut BinaryHeap<u32>, bound: u32) -> Option<u32>
    ensures above_all { IfSome result (λ price. NoneHigher price prices.old.items) }
    ensures below { IfSome result (λ price. NoneHigher price prices.new.items) }
    ensures bag { IfSome result (λ price. IsSameBag prices.old.items (price ∷ prices.new.items)) }
    ensures reached { IfSome result (λ price. bound ≤ price) }
    ensures none { IfNone result (All (λ price. price < bound) prices.old.items) }
    ensures unchanged { IfNone result (prices.new ≡ prices.old) }
{
    let price = prices.pop_if(|price| bound <= *price)?;
    Some(price)
}

/// Returns the lowest price and the highest, or `None` if there is none.
pub fn range(prices: Vec<u32>) -> Option<(u32, u32)>
    ensures some { IsSome result ↔ (0 < vec_len prices) }
    ensures ends { IfSome result (λ ends. IsRange prices.items ends.0 ends.1) }
{
    let sorted = BinaryHeap::from(prices).into_sorted_vec();
    if sorted.is_empty() {
        return None;
    }
    Some((sorted[0], sorted[sorted.len() - 1]))
}

/// Returns the prices from the highest down. Fails if memory allocation fails.
pub fn falling(alloc: Global, prices: BinaryHeap<u32>) -> Result<Vec<u32>, AllocError>
    ensures bag { IfOk result (λ list. IsSameBag prices.items list.items) }
    ensures falls { IfOk result (λ list. Falls list.items) }
{
    prices.into_iter_sorted().collect(alloc)
}

/// Adds prices for which there is room. So it can't fail.
pub fn add_all(prices: &mut BinaryHeap<u32>, more: Vec<u32>) -> Result<(), AllocError>
    requires { length prices.old.items + vec_len more ≤ prices.old.capacity }
    ensures succeeds { IsOk result }
    ensures bag { IsSameBag (prices.old.items ++ more.items) prices.new.items }
{
    prices.extend(more)
}

/// Takes the prices above a limit out, and returns how many they were.
pub fn cut(prices: &mut BinaryHeap<u32>, limit: u32) -> usize
    ensures left { IsSameBag (up_to limit prices.old.items) prices.new.items }
    ensures cut { result ≡ count_by (λ price. nat_lt limit price) prices.old.items }
{
    let before = prices.len();
    prices.retain(|price| *price <= limit);
    before - prices.len()
}

/// Moves all prices of one heap into another and returns how many there are then. Fails if memory allocation fails, which
/// happens only if the longer heap lacks room for all, and then neither changes.
pub fn join(prices: &mut BinaryHeap<u32>, others: &mut BinaryHeap<u32>) -> Result<usize, AllocError>
    ensures bag { OnOk result (IsSameBag (prices.old.items ++ others.old.items) prices.new.items) }
    ensures emptied { OnOk result (others.new.items ≡ []) }
    ensures all { IfOk result (λ all. all ≡ length prices.old.items + length others.old.items) }
    ensures succeeds { length prices.old.items + length others.old.items
        ≤ receiving_capacity prices.old others.old → IsOk result }
    ensures unchanged { OnErr result (prices.new ≡ prices.old) }
    ensures others_unchanged { OnErr result (others.new ≡ others.old) }
{
    prices.append(others)?;
    Ok(prices.len())
}

/// Makes a heap of std's heap, which must be heap ordered (a precondition). The vector stays as it is, with its
/// capacity, and nothing is compared.
pub fn moved<T: Ord>(heap: collections::BinaryHeap<T>) -> BinaryHeap<T>
    requires { IsHeap T.cmp (heap_items heap) }
    ensures items { result.items ≡ heap_items heap }
    ensures capacity { result.capacity ≡ heap_capacity heap }
    ensures uncounted { result.comparisons ≡ 0 }
{
    BinaryHeap::from_raw_vec(heap.into_vec())
}

/// Returns the vector of a heap, with its capacity, for code that relies on the order that std's heap keeps.
pub fn as_std<T: Ord>(heap: BinaryHeap<T>) -> Vec<T>
    ensures heap { IsHeap T.cmp result.items }
    ensures items { result.items ≡ heap.items }
    ensures capacity { vec_capacity result ≡ heap.capacity }
{
    heap.into_vec()
}

/// Takes all items out of a heap, which is as a new one then. If it fails, nothing has changed. Nothing is allocated, so
/// it doesn't fail, but std's `try_take` doesn't promise that.
pub fn take_all<T: Ord, const D: usize>(
    heap: &mut DaryHeap<T, D>,
) -> Result<DaryHeap<T, D>, AllocError>
    ensures taken { IfOk result (λ all. all ≡ heap.old) }
    ensures left { OnOk result (IsNew heap.new) }
    ensures unchanged { OnErr result (heap.new ≡ heap.old) }
{
    mem::try_take(heap)
}

/// Adds a price for a place. The heap of a place is made with its first price. Fails if memory allocation fails, but not
/// if there is room in the heap of the place. Then each place has the prices that it had.
pub fn add_at(
    places: &mut collections::BTreeMap<u32, BinaryHeap<u32>>,
    place: u32,
    price: u32,
) -> Result<(), AllocError>
    ensures added { OnOk result
        (IsSameBag (price ∷ prices_at place places.old) (prices_at place places.new)) }
    ensures succeeds { (heap : Contents ℕ) → get nat_cmp places.old place ≡ Some heap
        → length heap.items < heap.capacity → IsOk result }
    ensures unchanged { OnErr result (prices_at place places.new ≡ prices_at place places.old) }
    ensures elsewhere { (other : ℕ) → other ≢ place
        → get nat_cmp places.new other ≡ get nat_cmp places.old other }
{
    let prices = places.entry(place)?.or_default();
    add_price(prices, price)
}

/// A market's prices. The heap has the trait `Clone`, and so a derive writes that of the struct.
#[derive(Clone, Drop)]
pub struct Market {
    /// The prices.
    pub prices: BinaryHeap<u32>,
    /// The number of the market.
    pub number: u32,
}
