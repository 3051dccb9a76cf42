//! A pass of the index lends free node slots to other passes, and adopts slots from them.
ghost use Rattle.std.specs.Prelude.{◌≡◌, ◌<◌, ◌+◌, None, length};
ghost use Rattle.bucket_terms.specs.Pool.{Adopted, Lent};
ghost use Rattle.shared_index.specs.Keys.{home_of_note, home_of_pass};
ghost use Rattle.shared_index.specs.Shown.{shown};

use crate::facts::own_facts;
use crate::pass::IndexPass;
use bucket_terms::{Homed, PoolPass, Slots, Tagged};
use std::marker::Model;

/// A node slot on its way from one pass of an index to another. No pass owns it. Contracts see its index, and which
/// slot it is. If it is dropped it is lost: no pass of the index can use the slot again.
#[derive(Drop)]
pub struct Parcel {
    pub(crate) parcel: table_steps::Parcel,
}

impl Model for Parcel {
    ghost use Rattle.table_rule.specs.Homes.{Sat};

    ghost Value = { Sat };

    ghost view = { λ p. p.parcel };
}

impl Homed for Parcel {
    ghost use Rattle.shared_index.specs.Keys.{home_of_note};

    ghost home = { home_of_note };
}

impl Tagged for Parcel {
    ghost use Rattle.table_steps.specs.Parcels.{parcel_node};

    ghost tag = { parcel_node };
}

impl<'t> PoolPass for IndexPass<'t> {
    type Parcel = Parcel;

    ghost use Rattle.std.specs.Prelude.{length};

    ghost free_nodes = { λ p. length p.view.free.nodes };

    fn slots(&self) -> Slots {
        let owned = self.pass.owned_slots();
        Slots {
            nodes: owned.nodes,
            entries: owned.entries,
            free_nodes: owned.free_nodes,
        }
    }

    fn lend(&mut self) -> Parcel {
        let parcel = self.pass.lend();
        own_facts(&self.pass);
        Parcel { parcel }
    }

    fn adopt(&mut self, parcel: Parcel) {
        let Parcel { parcel } = parcel;
        self.pass.adopt(parcel);
        own_facts(&self.pass);
    }
}
