//! When a name's lease ends, and what changes that.
ghost use Rattle.std.specs.Prelude.{◌≡◌};
ghost use Rattle.lease_tree.specs.Leases;
ghost use Rattle.lease_tree.specs.Leases.{due_of, changed};

/// When a lease ends, and whether what its end does was done.
#[derive(Clone, Copy, PartialEq, Eq, Debug)]
pub struct Lease {
    /// The moment. It has ended at each later one.
    pub end: u64,
    /// Whether nothing is left to do at the end.
    pub settled: bool,
}

/// What is done with a lease.
#[derive(Clone, Copy)]
pub enum Change {
    /// It ends at this moment, where it would end earlier.
    Raise(u64),
    /// What its end does was done.
    Settle,
    /// What its end does is to be done again.
    Wake,
}

impl Lease {
    /// The moment after which there is something to do: the last one, where nothing is left.
    pub fn due(self) -> u64
        ensures { result ≡ due_of self }
    {
        if self.settled { u64::MAX } else { self.end }
    }

    /// Whether something is to do at a moment. Without a moment it is.
    pub fn is_due(self, now: Option<u64>) -> bool
        ensures { result ≡ Leases.is_due now self }
    {
        is_reached(self.due(), now)
    }
}

/// Whether a moment is past at another. Without that other it is.
pub fn is_reached(due: u64, now: Option<u64>) -> bool
    ensures { result ≡ Leases.is_reached now due }
{
    match now {
        Some(moment) => due < moment,
        None => true,
    }
}

impl Change {
    /// A lease after it.
    pub fn of(self, lease: Lease) -> Lease
        ensures { result ≡ changed self lease }
    {
        match self {
            Change::Raise(end) => Lease {
                end: lease.end.max(end),
                settled: lease.settled,
            },
            Change::Settle => Lease {
                end: lease.end,
                settled: true,
            },
            Change::Wake => Lease {
                end: lease.end,
                settled: false,
            },
        }
    }
}
