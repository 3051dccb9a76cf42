// The node slots of a session's clients, as the command line asks for them.
ghost use Rattle.std.specs.Prelude.{◌≡◌};
ghost use Rattle.client_threads.specs.Pools as spec;

/// How many node slots each client of a session has.
#[derive(Clone, Copy, Debug, PartialEq, Eq)]
pub enum NodeSlots {
    /// One more than it has PUT, PUTNEW and DELETE lines.
    AsAsked,
    /// This many.
    Named(u32),
    /// This many, and clients hand one another what they own above that, through a depot.
    Pooled(u32),
}

impl NodeSlots {
    /// The slots of each client, where this many or none are named.
    pub fn of_named(named: Option<u32>) -> NodeSlots
        ensures { spec.named result ≡ named }
    {
        match named {
            None => NodeSlots::AsAsked,
            Some(slots) => NodeSlots::Named(slots),
        }
    }

    /// The number that is named, if any.
    pub(crate) fn named(self) -> Option<u32>
        ensures { result ≡ spec.named self }
    {
        match self {
            NodeSlots::AsAsked => None,
            NodeSlots::Named(slots) | NodeSlots::Pooled(slots) => Some(slots),
        }
    }
}
