//! A list of at most 16 survivors.
ghost use Rattle.std.specs.Prelude.{◌≡◌, ◌<◌, ◌≤◌, ◌==◌, [], ◌∷◌, ◌++◌, length, slice_get};

use crate::Survivor;
use arrayvec::ArrayVec;
use std::marker::Model;

/// At most 16 survivors, in a list. Contracts see it as that list.
#[derive(Drop)]
pub struct Survivors {
    pub(crate) members: ArrayVec<Survivor, 16>,
}

impl Model for Survivors {
    ghost use Rattle.std.specs.Prelude.{List};
    ghost use Rattle.cluster_core.specs.declared.survivor.Survivor.{Survivor};

    ghost Value = { List Survivor };

    ghost view = { λ s. s.members.items };
}

impl Survivors {
    /// An empty list.
    pub fn new() -> Survivors
        ensures { result ≡ [] }
    {
        Survivors {
            members: ArrayVec::new(),
        }
    }

    /// Adds a survivor after the others.
    pub fn add(&mut self, s: Survivor)
        requires { length self.old < 16 }
        ensures { self.new ≡ self.old ++ s ∷ [] }
    {
        self.members.push(s);
    }

    /// The survivor at a place, which counts from 0, and `None` where the list is not that long.
    pub fn get(&self, i: usize) -> Option<Survivor>
        ensures { result ≡ slice_get self.now i }
    {
        self.members.get(i).copied()
    }

    /// How many there are.
    pub fn len(&self) -> usize
        ensures value { result ≡ length self.now }
        ensures few { result ≤ 16 }
    {
        self.members.len()
    }

    /// Whether there is none.
    pub fn is_empty(&self) -> bool
        ensures { result ≡ (length self.now == 0) }
    {
        self.members.is_empty()
    }

    /// The survivors, in the order of the list.
    pub fn as_slice(&self) -> &[Survivor]
        ensures value { result.now ≡ self.now }
        ensures few { length result.now ≤ 16 }
    {
        self.members.as_slice()
    }
}
