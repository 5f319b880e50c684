//! An account of what a search does.
ghost use Rattle.std.specs.Prelude.{◌≡◌, ℕ, ◌+◌, List, [], ◌∷◌, ◌++◌};
ghost use Rattle.std.specs.Borrow.{ftrue};
ghost use Rattle.dary_heap.specs.declared.shortest_path.Edge.{Edge};

use super::Edge;
use std::marker::Model;

/// The edges that a search examined, in turn, and how many states it pushed. Only clauses read them, and
/// they take no bytes.
#[derive(Drop)]
pub(super) struct Work {
    pub ghost examined: { List Edge },
    pub ghost pushes: { ℕ },
}

impl Model for Work {
    ghost also_owns = { λ _. ftrue };
}

impl Work {
    pub(super) fn new() -> Work
        ensures examined { result.examined ≡ [] }
        ensures pushes { result.pushes ≡ 0 }
    {
        Work {}
    }

    pub(super) fn add_edge(&mut self, edge: &Edge)
        ensures examined { self.new.examined ≡ self.old.examined ++ edge.now ∷ [] }
        ensures pushes { self.new.pushes ≡ self.old.pushes }
    {}

    pub(super) fn add_push(&mut self)
        ensures examined { self.new.examined ≡ self.old.examined }
        ensures pushes { self.new.pushes ≡ self.old.pushes + 1 }
    {}
}
