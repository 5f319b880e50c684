//! The iterator that lends the entries of a heap.
ghost use Rattle.std.specs.Prelude.{◌≡◌, ◌^◌, ◌<◌, length, ⊤};
ghost use Rattle.std.specs.Iterator.{YieldsFirstBy, YieldsLastBy, item_count};
ghost use Rattle.dary_heap.specs.SizeHints.{HintsExactly};
ghost use Rattle.named_heap.specs.Iterating.{ShowsInOrder, ShowsInReverse, shown};

use crate::heap::NamedHeap;
use dary_heap::sift::Judge;
use std::alloc::AllocError;
use std::hash::{BuildHasher, Hash};
use std::iter::FusedIterator;
use std::marker::Model;

/// An iterator over the names of a heap, each with a reference to its item, in the order in which they are stored.
///
/// [`NamedHeap::iter`] returns it. A clause sees it as the list of the entries that are left.
///
/// # Examples
///
/// ```
/// use named_heap::NamedHeap;
/// let mut heap = NamedHeap::<_, _, 4>::new(alloc);
/// heap.insert("wash", 1)?;
/// heap.insert("cook", 5)?;
/// let mut sum = 0;
/// for (name, item) in &heap {
///     sum += name.len() * *item;
/// }
/// assert_eq!(rt; sum, 24);
/// ```
#[derive(Drop)]
pub struct Iter<'a, K, T> {
    names: &'a [K],
    rest: indexed_heap::Iter<'a, T>,
}

impl<'a, K, T> Model for Iter<'a, K, T> {
    ghost use Rattle.std.specs.Prelude.{List};
    ghost use Rattle.named_heap.specs.Names.{AreKeyed, named};

    ghost Value = { List (K × T) };

    ghost view = { λ it. named it.names.now it.rest };

    ghost invariant = { λ it. AreKeyed it.names.now it.rest };
}

impl<K: Eq + Hash, T, const D: usize, J: Judge<T>, S: BuildHasher> NamedHeap<K, T, D, J, S> {
    /// Returns an iterator over the names, each with a reference to its item, in the order in which they are stored.
    ///
    /// # Examples
    ///
    /// ```
    /// use named_heap::NamedHeap;
    /// let mut heap = NamedHeap::<_, _, 4>::new(alloc);
    /// heap.insert("wash", 1)?;
    /// heap.insert("cook", 5)?;
    /// let mut entries = heap.iter();
    /// assert_eq!(rt; entries.next(), Some((&"cook", &5)));
    /// assert_eq!(rt; entries.next_back(), Some((&"wash", &1)));
    /// assert_eq!(rt; entries.next(), None);
    /// ```
    pub fn iter(&self) -> Iter<'_, K, T>
        ensures entries { result ≡ self.now.entries }
        ensures fits { length result < 2 ^ 64 }
        ensures runs { ShowsInOrder K T }
        ensures runs_back { ShowsInReverse K T }
    {
        Iter {
            names: self.names.as_slice(),
            rest: self.heap.iter(),
        }
    }
}

impl<'a, K, T> Iterator for Iter<'a, K, T> {
    type Item = (&'a K, &'a T);

    ghost next_gives = { YieldsFirstBy shown (λ rest. rest) };

    ghost remaining = { item_count (λ rest. rest) };

    fn next(&mut self) -> Option<(&'a K, &'a T)> {
        let (key, item) = self.rest.next()?;
        Some((&self.names[key], item))
    }

    fn size_hint(&self) -> (usize, Option<usize>)
        ensures { HintsExactly self.now result }
    {
        let len = self.len();
        (len, Some(len))
    }
}

impl<'a, K, T> DoubleEndedIterator for Iter<'a, K, T> {
    ghost next_back_gives = { YieldsLastBy shown (λ rest. rest) };

    fn next_back(&mut self) -> Option<(&'a K, &'a T)> {
        let (key, item) = self.rest.next_back()?;
        Some((&self.names[key], item))
    }
}

impl<K, T> ExactSizeIterator for Iter<'_, K, T> {
    fn len(&self) -> usize {
        self.rest.len()
    }
}

impl<K, T> FusedIterator for Iter<'_, K, T> {}

/// Returns another iterator over what is left. It allocates no memory, and doesn't fail.
impl<K, T> Clone for Iter<'_, K, T> {
    ghost is_clone = { λ it copy. copy ≡ it };

    ghost is_infallible = { λ _. ⊤ };

    fn clone(&self) -> Result<Self, AllocError> {
        Ok(Iter {
            names: self.names,
            rest: self.rest.clone()?,
        })
    }
}

/// Returns an iterator over the names with references to their items, as [`NamedHeap::iter`] does.
impl<'a, K: Eq + Hash, T, const D: usize, J: Judge<T>, S: BuildHasher> IntoIterator
    for &'a NamedHeap<K, T, D, J, S> {
    type Item = (&'a K, &'a T);

    type IntoIter = Iter<'a, K, T>;

    ghost into_iter_gives = { λ heap it. (it ≡ heap.now.entries) × (length it < 2 ^ 64)
        × ShowsInOrder K T × ShowsInReverse K T };

    fn into_iter(self) -> Iter<'a, K, T> {
        self.iter()
    }
}
