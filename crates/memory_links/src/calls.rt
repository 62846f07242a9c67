// The calls of a fake: how many there were, and which of them fail.
ghost use Rattle.std.specs.Prelude.{◌≡◌};

/// The calls of an object in memory: how many there were, and which of them fail. Contracts count them from 1. The count stops at
/// the greatest number of 64 bits.
#[derive(Drop)]
pub struct Calls {
    made: u64,
    fails: Vec<u64>,
}

impl Calls {
    ghost use Rattle.memory_links.specs.Calls.{AreStated, IsCalled, fails_next};

    /// No call was made yet, and the calls of these numbers fail.
    pub fn new(fails: Vec<u64>) -> Calls
        ensures { AreStated result fails.items }
    {
        Calls { made: 0, fails }
    }

    /// Counts one more call, and says whether it fails.
    pub fn next_fails(&mut self) -> bool
        ensures made { IsCalled self.old self.new }
        ensures fails { result ≡ fails_next self.old }
    {
        self.made = self.made.saturating_add(1);
        self.fails.contains(&self.made)
    }
}
