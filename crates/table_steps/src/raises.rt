//! The raise of an update, at which it takes effect.
ghost use Rattle.std.specs.Prelude.{◌≡◌, ℕ, ◌+◌, List};
ghost use Rattle.core_updates.specs.Held.{CanRaise};
ghost use Rattle.core_updates.specs.Ready.{update_of};
ghost use Rattle.table_rule.specs.Running.{Happened};
ghost use Rattle.table_steps.specs.Passes.{IsSamePass};
ghost use Rattle.table_steps.specs.Raises.{raising, nodes_out, HasNew, HoldsEntries, HasRaised, MayRaiseBy};

use crate::own_updates::OwnUpdate;
use crate::pass::TablePass;
use crate::retires::retire_nodes;
use index_words::{Change, Update};
use std::marker::Brand;

impl<'t> TablePass<'t> {
    /// Raises an update: it takes effect here, and this answers its place. `new` is the slot of the new node and the
    /// heads of its left and its right bundle, and `out` the nodes that are taken out; 0 stands for none. Of each node
    /// that is taken out the pass has found the heads and all nexts since it locked it, so it knows which entries it
    /// retires. As at `prepare`, the new node and its entries have to be filled in this section.
    pub fn raise(
        &mut self,
        line: u32,
        key: u64,
        change: Change,
        new: [u32; 3],
        out: [u32; 2],
    ) -> u64
        requires can { CanRaise self.old.view self.old.number }
        requires may { MayRaiseBy self.old.view.layout self.old.view (update_of self.old.number line key change) new out }
        requires new { HasNew self.old.view new }
        requires known { (es : List ℕ) × HoldsEntries self.old.view (nodes_out out) es }
        ensures same { IsSamePass self.old self.new }
        ensures event { (found : ℕ) × (result ≡ found + 1) × Happened self.old.view.layout (raising self.old (update_of self.old.number line key change)) self.old.view found self.new.view }
        ensures gives { HasRaised self.old.view (update_of self.old.number line key change) new out result self.new.view }
    {
        self.seat.facts();
        let table = self.table;
        let limit = table.ruled.layout().entries;
        // What goes out is found before the raise: from the raise on readers wait until the entries have numbers.
        self.kept.slots.take_new(new[0], new[1], new[2]);
        retire_nodes(
            &mut self.kept.slots,
            &table.ruled,
            &mut self.seat,
            out,
            limit,
        );
        let update = Update {
            client: self.kept.number,
            line,
            key,
            change,
        };
        let found = table.ruled.add::<Brand>(&mut self.seat, &update);
        self.seat.facts();
        let at = found + 1;
        self.kept.left -= 1;
        self.kept.raised = at;
        self.kept.updates.add(OwnUpdate { at, update });
        at
    }
}
