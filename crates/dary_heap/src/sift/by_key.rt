//! Orders by a key.
ghost use Rattle.std.specs.Prelude.{◌≡◌, ℕ, ⊤};
ghost use Rattle.std.specs.Cmp.{on_total};
ghost use Rattle.std.specs.Ordering.{on};

use super::judge::{ByOrd, Judge};
use std::alloc::AllocError;
use std::marker::{Model, PhantomData};

/// What gives items a key, by which [`ByKey`] orders them. Its type alone says which key, so it needs no fields; a type of
/// items may be its own.
///
/// # Examples
///
/// Jobs by priority; of one priority the first is the greater:
///
/// ```
/// use dary_heap::DaryHeap;
/// use dary_heap::sift::{ByKey, KeyOf};
/// use std::cmp::Reverse;
/// struct Urgency;
/// impl KeyOf<(u8, u64)> for Urgency {
///     type Key = (u8, Reverse<u64>);
///     ghost key = { λ job. (job.0, record { 0 = job.1 }) };
///     fn key(job: &(u8, u64)) -> (u8, Reverse<u64>) {
///         (job.0, Reverse(job.1))
///     }
/// }
/// let mut jobs = DaryHeap::<_, 4, ByKey<Urgency>>::with_judge(alloc, ByKey::new());
/// jobs.push((1, 0))?;
/// jobs.push((2, 1))?;
/// jobs.push((2, 2))?;
/// assert_eq!(rt; jobs.pop(), Some((2, 1)));
/// ```
pub trait KeyOf<T> {
    /// The type of the keys.
    type Key: Ord + Drop;

    /// The key of an item.
    ghost key: { T → Self.Key };

    /// Returns the key of an item. It is called twice for each comparison.
    fn key(item: &T) -> Self::Key
        ensures { result ≡ key item.now };
}

/// Judges items by their keys: the item with the greater key is the greater. [`LeastFirst`](super::LeastFirst) turns that
/// round. It takes no bytes.
///
/// A clause sees it as the number of its comparisons.
///
/// # Examples
///
/// ```
/// use dary_heap::DaryHeap;
/// use dary_heap::sift::{ByKey, KeyOf, LeastFirst};
/// struct Distance;
/// impl KeyOf<(u32, char)> for Distance {
///     type Key = u32;
///     ghost key = { λ town. town.0 };
///     fn key(town: &(u32, char)) -> u32 {
///         town.0
///     }
/// }
/// let nearest_first = LeastFirst(ByKey::<Distance>::new());
/// let mut towns = DaryHeap::<_, 2, _>::with_judge(alloc, nearest_first);
/// towns.push((5, 'a'))?;
/// towns.push((3, 'b'))?;
/// assert_eq!(rt; towns.pop(), Some((3, 'b')));
/// ```
#[derive(Drop)]
pub struct ByKey<K> {
    judge: ByOrd,
    of: PhantomData<K>,
}

impl<K> Model for ByKey<K> {
    ghost Value = { ℕ };

    ghost view = { λ judge. judge.judge };
}

impl<K> ByKey<K> {
    /// Returns a judge that made no comparison yet.
    ///
    /// # Examples
    ///
    /// ```
    /// use dary_heap::sift::{ByKey, Judge, KeyOf};
    /// struct Itself;
    /// impl KeyOf<u32> for Itself {
    ///     type Key = u32;
    ///     ghost key = { λ number. number };
    ///     fn key(number: &u32) -> u32 {
    ///         *number
    ///     }
    /// }
    /// assert!(rt; ByKey::<Itself>::new().at_most(&2, &3));
    /// ```
    pub fn new() -> Self
        ensures { result ≡ 0 }
    {
        ByKey {
            judge: ByOrd::new(),
            of: PhantomData,
        }
    }
}

/// Returns a judge that made no comparison yet. It doesn't fail.
impl<K> Clone for ByKey<K> {
    ghost is_clone = { λ _ copy. copy ≡ 0 };

    ghost is_infallible = { λ _. ⊤ };

    fn clone(&self) -> Result<Self, AllocError> {
        Ok(ByKey::new())
    }
}

impl<T, K: KeyOf<T>> Judge<T> for ByKey<K> {
    ghost order = { on K.key K.Key.cmp };

    ghost count = { λ judge. judge };

    ghost total = { on_total K.key K.Key.total };

    fn at_most(&mut self, a: &T, b: &T) -> bool {
        self.judge.at_most(&K::key(a), &K::key(b))
    }
}
