//! Values that only proofs read.
ghost use Rattle.std.specs.Prelude.{◌≡◌};
ghost use Rattle.std.specs.Borrow.{ftrue};

use std::marker::{Model, PhantomData};

/// A value that takes no memory, and that no code can read. Clauses name it as `value`.
///
/// Nothing in memory ties it: a struct that holds one says in its invariant how it goes with the rest of its fields, and
/// what that leaves open stays open. So let none stand for what other fields do not determine.
#[derive(Drop)]
pub struct Ghost<T> {
    of: PhantomData<T>,
    pub ghost value: { T },
}

impl<T> Model for Ghost<T> {
    ghost also_owns = { λ _. ftrue };
}

impl<T> Ghost<T> {
    /// The value that the caller picks.
    pub fn of() -> Ghost<T>
        ghost picked: { T }
        ensures { result.value ≡ picked }
    {
        Ghost { of: PhantomData }
    }

    /// The value that the caller picks by this one and two others.
    pub fn by<A, B>(&self, _first: &A, _second: &B) -> Ghost<T>
        ghost picked: { T }
        ensures { result.value ≡ picked }
    {
        Ghost::of()
    }
}
