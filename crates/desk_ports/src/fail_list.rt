ghost use Rattle.std.specs.Prelude.{◌≡◌, ◌↔◌, IsTrue};
ghost use Rattle.std.specs.List.{Contains};

use std::marker::Model;

/// The numbers of an object's calls that are to fail. The first call has the number 1.
#[derive(Debug, Drop)]
pub struct FailList {
    calls: Vec<u64>,
}

impl Model for FailList {
    ghost use Rattle.std.specs.Prelude.{List, ℕ};

    ghost Value = { List ℕ };

    ghost view = { λ list. list.calls.items };
}

impl FailList {
    /// These numbers, in any order; one may stand twice. Takes no memory.
    pub fn of(calls: Vec<u64>) -> FailList
        ensures { result ≡ calls.items }
    {
        FailList { calls }
    }

    /// Whether the call with this number is to fail.
    pub fn fails(&self, call: u64) -> bool
        ensures { IsTrue result ↔ Contains self.now call }
    {
        self.calls.contains(&call)
    }
}
