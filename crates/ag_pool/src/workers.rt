//! A number of workers, as a type.

ghost use Rattle.std.specs.Prelude.{ℕ, ◌≡◌, ◌≤◌, ◌↔◌, IsSome, IfSome};
ghost use Rattle.ag_pool.specs.declared.workers.TheConstants.{MOST_WORKERS};

use std::marker::Model;

/// The most workers that a parallel phase has.
pub const MOST_WORKERS: u32 = 64;

/// A number of workers from 1 to `MOST_WORKERS`. Contracts see the number.
#[derive(Clone, Copy, Debug, PartialEq, Eq)]
pub struct Workers {
    count: u32,
}

impl Model for Workers {
    ghost Value = { ℕ };

    ghost view = { λ w. w.count };

    ghost invariant = { λ w. (1 ≤ w.count) × (w.count ≤ MOST_WORKERS) };

    ghost inverse = { λ n. record { count = n } };
}

impl Workers {
    /// A single worker.
    pub const ONE: Workers = Workers { count: 1 };

    /// So many workers: None exactly where that is not 1 to `MOST_WORKERS`.
    pub fn new(count: u32) -> Option<Workers>
        ensures some { IsSome result ↔ ((1 ≤ count) × (count ≤ MOST_WORKERS)) }
        ensures value { IfSome result (λ w. w ≡ count) }
    {
        if 1 <= count && count <= MOST_WORKERS {
            Some(Workers { count })
        } else {
            None
        }
    }

    /// How many they are.
    pub fn count(self) -> u32
        ensures value { result ≡ self }
        ensures least { 1 ≤ result }
        ensures most { result ≤ MOST_WORKERS }
    {
        self.count
    }
}
