// A pass that lends free node slots to others of its index, and adopts theirs.
ghost use Rattle.std.specs.Prelude.{◌≡◌, ◌+◌, ◌<◌, ℕ, None};
ghost use Rattle.bucket_terms.specs.Pool.{Adopted, Lent};

use crate::homed::Tagged;
use crate::key_pass::KeyPass;

/// How many slots a pass owns, and how many of its node slots are free.
#[derive(Clone, Copy, Debug, Drop, PartialEq, Eq)]
pub struct Slots {
    pub nodes: u32,
    pub entries: u32,
    pub free_nodes: u32,
}

/// A pass whose free node slots can go to other passes of its index. None of its calls waits or takes memory.
pub trait PoolPass: KeyPass {
    /// A node slot on its way.
    type Parcel: Tagged + Drop;

    /// How many of its node slots are free.
    ghost free_nodes: { Self → ℕ };

    /// The slots of the pass.
    fn slots(&self) -> Slots
        ensures nodes { result.nodes ≡ (Self.view self.now).nodes }
        ensures entries { result.entries ≡ (Self.view self.now).entries }
        ensures free { result.free_nodes ≡ free_nodes self.now };

    /// Lends a free node slot: it leaves the pass.
    fn lend(&mut self) -> Self::Parcel
        requires free { 0 < free_nodes self.old }
        requires closed { (Self.view self.old).opened ≡ None }
        ensures lent { Lent (Self.view self.old) (Self.view self.new) }
        ensures free { free_nodes self.new + 1 ≡ free_nodes self.old }
        ensures home { Self.home self.new ≡ Self.home self.old }
        ensures of { Self.Parcel.home result ≡ Self.home self.old };

    /// Adopts a node slot of the same index: it is the pass's, and free.
    fn adopt(&mut self, parcel: Self::Parcel)
        requires of { Self.Parcel.home parcel ≡ Self.home self.old }
        requires closed { (Self.view self.old).opened ≡ None }
        ensures adopted { Adopted (Self.view self.old) (Self.view self.new) }
        ensures free { free_nodes self.new ≡ free_nodes self.old + 1 }
        ensures home { Self.home self.new ≡ Self.home self.old };
}
