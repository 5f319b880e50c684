//! Comparisons that are counted.
ghost use Rattle.std.specs.Prelude.{◌≡◌, refl, ℕ, ◌+◌, ◌-◌, ◌^◌, min, ⊤};
ghost use Rattle.std.specs.declared.cmp.Ordering.{Ordering};
ghost use Rattle.std.specs.Ordering.{is_le, flip_args};
ghost use Rattle.std.specs.Cmp.{IsTotalOrder, back_total};
ghost use Rattle.std.specs.Borrow.{ftrue};

use std::alloc::AllocError;
use std::marker::Model;

/// A number that only clauses read. It takes no bytes.
#[derive(Drop)]
struct Count {
    ghost value: { ℕ },
}

impl Model for Count {
    ghost also_owns = { λ _. ftrue };
}

// It owns nothing.
unsafe impl Send for Count {}

unsafe impl Sync for Count {}

impl Count {
    fn new() -> Count
        ensures { result.value ≡ 0 }
    {
        Count {}
    }

    fn add_one(&mut self)
        ensures { self.new.value ≡ self.old.value + 1 }
    {}
}

/// What compares items: it has an order on them, and a count of the comparisons that it made.
///
/// The order belongs to the type of the judge, the count to each judge. Only clauses read them. An order by a key needs
/// no judge of its own, but [`ByKey`](super::ByKey). For any other order a caller writes one: `CALLING.md` has one of
/// texts. Give it `#[derive(Clone, Drop)]`: `iter_sorted` clones a heap's judge, and `into_vec` and other calls that take
/// a heap apart drop it.
///
/// # Examples
///
/// ```
/// use dary_heap::sift::{Judge, Tally};
/// let mut judge = Tally::new();
/// assert!(rt; judge.at_most(&2, &2));
/// assert!(rt; !judge.at_most(&3, &2));
/// assert_eq!(rt; judge.made(), 2);
/// ```
pub trait Judge<T> {
    /// The order by which it judges.
    ghost order: { T → T → Ordering };

    /// How many comparisons it made so far.
    ghost count: { Self → ℕ };

    /// Returns `true` if `a` is at most `b` in the order. This is one comparison.
    fn at_most(&mut self, a: &T, b: &T) -> bool
        ensures answer { result ≡ is_le (order a.now b.now) }
        ensures counted { count self.new ≡ count self.old + 1 };

    /// The order is total, transitive and lawful on ties.
    ghost total: { IsTotalOrder order };
}

/// A judge whose order is that of `Ord`. A search takes any heap that compares by one.
///
/// # Examples
///
/// ```
/// use dary_heap::sift::{ByOrd, JudgesByOrd, Tally};
/// fn is_greater<T: Ord, J: JudgesByOrd<T>>(a: &T, b: &T, judge: &mut J) -> bool {
///     !judge.at_most(a, b)
/// }
/// assert!(rt; is_greater(&3, &2, &mut ByOrd::new()));
/// assert!(rt; !is_greater(&2, &2, &mut Tally::new()));
/// ```
pub trait JudgesByOrd<T: Ord>: Judge<T> {
    /// Its order is that of `Ord`.
    ghost by_ord: { Self.order ≡ T.cmp };
}

/// Judges by `Ord`. Its count takes no bytes.
///
/// A clause sees it as the number of its comparisons.
#[derive(Drop)]
pub struct ByOrd {
    count: Count,
}

impl Model for ByOrd {
    ghost Value = { ℕ };

    ghost view = { λ judge. judge.count.value };
}

impl ByOrd {
    /// Returns a judge that made no comparison yet.
    ///
    /// # Examples
    ///
    /// ```
    /// use dary_heap::sift::{ByOrd, build_with};
    /// let mut items = [2, 8, 5];
    /// build_with::<_, _, 3>(&mut items, &mut ByOrd::new());
    /// assert_eq!(rt; items, [8, 2, 5]);
    /// ```
    pub fn new() -> ByOrd
        ensures { result ≡ 0 }
    {
        ByOrd {
            count: Count::new(),
        }
    }
}

/// Returns a judge that made no comparison yet. It doesn't fail.
impl Clone for ByOrd {
    ghost is_clone = { λ _ copy. copy ≡ 0 };

    ghost is_infallible = { λ _. ⊤ };

    fn clone(&self) -> Result<Self, AllocError> {
        Ok(ByOrd::new())
    }
}

impl<T: Ord> Judge<T> for ByOrd {
    ghost order = { T.cmp };

    ghost count = { λ judge. judge };

    ghost total = { T.total };

    fn at_most(&mut self, a: &T, b: &T) -> bool {
        self.count.add_one();
        a.cmp(b).is_le()
    }
}

impl<T: Ord> JudgesByOrd<T> for ByOrd {
    ghost by_ord = { refl };
}

/// Judges by `Ord`, and keeps its count at run time too.
///
/// A clause sees it as the number of its comparisons.
#[derive(Drop)]
pub struct Tally {
    made: u64,
    count: Count,
}

impl Model for Tally {
    ghost Value = { ℕ };

    ghost view = { λ tally. tally.count.value };

    ghost invariant = { λ tally. tally.made ≡ min tally.count.value (2 ^ 64 - 1) };
}

impl Tally {
    /// Returns a judge that made no comparison yet.
    ///
    /// # Examples
    ///
    /// ```
    /// use dary_heap::sift::Tally;
    /// assert_eq!(rt; Tally::new().made(), 0);
    /// ```
    pub fn new() -> Tally
        ensures { result ≡ 0 }
    {
        Tally {
            made: 0,
            count: Count::new(),
        }
    }

    /// Returns the number of comparisons made so far, or `u64::MAX` if there were more.
    ///
    /// # Examples
    ///
    /// ```
    /// use dary_heap::sift::{Tally, is_heap};
    /// let mut judge = Tally::new();
    /// assert!(rt; is_heap::<_, _, 4>(&[9, 5, 7, 3], &mut judge));
    /// assert_eq!(rt; judge.made(), 3);
    /// ```
    pub fn made(&self) -> u64
        ensures { result ≡ min self.now u64.MAX }
    {
        self.made
    }
}

impl<T: Ord> Judge<T> for Tally {
    ghost order = { T.cmp };

    ghost count = { λ tally. tally };

    ghost total = { T.total };

    fn at_most(&mut self, a: &T, b: &T) -> bool {
        self.count.add_one();
        self.made = self.made.saturating_add(1);
        a.cmp(b).is_le()
    }
}

impl<T: Ord> JudgesByOrd<T> for Tally {
    ghost by_ord = { refl };
}

/// Judges as another judge does, with the two items exchanged. So the least item comes out of a heap first.
///
/// # Examples
///
/// ```
/// use dary_heap::DaryHeap;
/// use dary_heap::sift::{ByOrd, LeastFirst};
/// let mut heap = DaryHeap::<_, 4, _>::with_judge(alloc, LeastFirst(ByOrd::new()));
/// heap.push(5)?;
/// heap.push(2)?;
/// assert_eq!(rt; heap.pop(), Some(2));
/// ```
#[derive(Clone, Drop)]
pub struct LeastFirst<J>(pub J);

impl<T, J: Judge<T>> Judge<T> for LeastFirst<J> {
    ghost order = { flip_args J.order };

    ghost count = { λ judge. J.count judge.0 };

    ghost total = { back_total J.total };

    fn at_most(&mut self, a: &T, b: &T) -> bool {
        self.0.at_most(b, a)
    }
}
