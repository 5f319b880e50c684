//! What holds the items of a `PeekMut`.
ghost use Rattle.std.specs.Prelude.{◌≡◌, ℕ, List, vec_capacity};

/// What holds the items of a [`PeekMut`](crate::peek_mut::PeekMut). `Vec` is the one type that implements it: what
/// a `drop` leaves behind a reference can be said only if the other fields are of a type parameter.
pub trait LoanedItems<T> {
    ghost list: { Self → List T };

    ghost room: { Self → ℕ };

    fn into_vec(self) -> Vec<T>
        ensures items { result.items ≡ list self }
        ensures capacity { vec_capacity result ≡ room self };
}

impl<T> LoanedItems<T> for Vec<T> {
    ghost list = { λ items. items.items };

    ghost room = { λ items. vec_capacity items };

    fn into_vec(self) -> Vec<T> {
        self
    }
}
