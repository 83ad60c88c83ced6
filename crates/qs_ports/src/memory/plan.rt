// Which calls on a store in memory fail.

/// A kind of call on a store.
#[derive(Clone, Copy, Debug, PartialEq, Eq)]
pub enum StoreCall {
    /// A call of `open`.
    Open,
    /// A call of `read`.
    Read,
    /// A call of `create`.
    Create,
    /// A call of `write`.
    Write,
}

/// The calls that fail, each by its kind and its number among the calls of that kind, from 0; and
/// how many calls of each kind there were. A count stands still at its last value.
#[derive(Drop)]
pub struct Plan {
    pub failing: Vec<(StoreCall, u64)>,
    pub opens: u64,
    pub reads: u64,
    pub creates: u64,
    pub writes: u64,
}

impl Plan {
    ghost use Rattle.std.specs.Prelude.{IsTrue, ◌↔◌, ◌≡◌};
    ghost use Rattle.qs_ports.specs.Plan.{calls_in, CountsIn, IsListed};

    /// A plan before the first call.
    pub fn new(failing: Vec<(StoreCall, u64)>) -> Plan
        ensures failing { result.failing.items ≡ failing.items }
        ensures no_calls { (kind : _) → calls_in result kind ≡ 0 }
    {
        Plan {
            failing,
            opens: 0,
            reads: 0,
            creates: 0,
            writes: 0,
        }
    }

    /// Counts one more call of this kind, and tells whether it is one that fails.
    pub fn count(&mut self, kind: StoreCall) -> bool
        ensures fails { IsTrue result ↔ IsListed self.old kind }
        ensures counts { CountsIn self.old self.new kind }
    {
        let call = self.calls(kind);
        let next = call.saturating_add(1);
        match kind {
            StoreCall::Open => self.opens = next,
            StoreCall::Read => self.reads = next,
            StoreCall::Create => self.creates = next,
            StoreCall::Write => self.writes = next,
        }
        self.failing.contains(&(kind, call))
    }

    // How many calls of this kind there were.
    fn calls(&self, kind: StoreCall) -> u64
        ensures { result ≡ calls_in self.now kind }
    {
        match kind {
            StoreCall::Open => self.opens,
            StoreCall::Read => self.reads,
            StoreCall::Create => self.creates,
            StoreCall::Write => self.writes,
        }
    }
}
