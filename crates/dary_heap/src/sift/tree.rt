//! The tree of arity `D` that a slice is read as: the parent of a place, its depth, and where its children begin.
ghost use Rattle.std.specs.Prelude.{◌≡◌, ℕ, ◌+◌, ◌-◌, ◌*◌, ◌^◌, ◌<◌, ◌≤◌};
ghost use Rattle.dary_heap.specs.sift.Choosing.{IsFirstChild};
ghost use Rattle.dary_heap.specs.HeapOrder.{arity as arity_of, depth as depth_of, parent as parent_of};

/// Returns how many children a place may have: `D`, or 1 if that is 0.
#[inline(always)]
pub(crate) fn arity<const D: usize>() -> usize
    ensures { result ≡ arity_of D }
{
    D.max(1)
}

/// Returns the parent of a place in the tree of arity `D`: `(place - 1) / D`, or `place - 1` if `D` is 0.
///
/// It is before the place. Takes *O*(1).
///
/// # Preconditions
///
/// - `place` is above 0: the first place has no parent.
///
/// # Examples
///
/// ```
/// use dary_heap::sift::parent;
/// assert_eq!(rt; parent::<2>(1), 0);
/// assert_eq!(rt; parent::<2>(6), 2);
/// assert_eq!(rt; parent::<4>(4), 0);
/// assert_eq!(rt; parent::<4>(5), 1);
/// ```
#[inline(always)]
pub fn parent<const D: usize>(place: usize) -> usize
    requires { 0 < place }
    ensures { result ≡ parent_of D place }
{
    (place - 1) / arity::<D>()
}

/// Returns the depth of a place in the tree of arity `D`: 0 for place 0, and one more than its
/// parent's for every other.
///
/// From arity 2 on it is logarithmic: the arity to the power of it is at most
/// `(arity - 1) * place + 1`. The call takes one step for each level.
///
/// # Examples
///
/// ```
/// use dary_heap::sift::depth;
/// assert_eq!(rt; depth::<2>(0), 0);
/// assert_eq!(rt; depth::<2>(2), 1);
/// assert_eq!(rt; depth::<2>(3), 2);
/// assert_eq!(rt; depth::<8>(8), 1);
/// ```
pub fn depth<const D: usize>(place: usize) -> usize
    ensures depth { result ≡ depth_of D place }
    ensures logarithmic { arity_of D ^ result ≤ (arity_of D - 1) * place + 1 }
{
    if D < 2 {
        return place;
    }
    let mut at = place;
    let mut steps = 0;
    while 0 < at {
        at = parent::<D>(at);
        steps += 1;
    }
    steps
}

/// Returns where the children of place `at` begin among `len` places, or `None` if it has none.
#[inline(always)]
pub(crate) fn first_child<const D: usize>(at: usize, len: usize) -> Option<usize>
    requires { at < len }
    ensures { IsFirstChild D at len result }
{
    let arity = arity::<D>();
    // Each place before this one has a whole row of children. This one has what is left, if anything.
    let whole = (len - 1) / arity;
    if at < whole {
        return Some(at * arity + 1);
    }
    if whole < at {
        return None;
    }
    let first = at * arity + 1;
    if first < len { Some(first) } else { None }
}

/// Returns a place from which on no place of `len` has grandchildren: the first such place, or the next.
#[inline(always)]
pub(crate) fn parents_of_leaves<const D: usize>(len: usize) -> usize
    requires { 0 < len }
    ensures { (at : ℕ) → result ≤ at → len ≤ (at * arity_of D + 1) * arity_of D + 1 }
{
    let arity = arity::<D>();
    (len - 1) / arity / arity + 1
}
