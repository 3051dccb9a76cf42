//! The cut of a bundle after the entries that are still read.
ghost use Rattle.std.specs.Prelude.{◌≡◌};
ghost use Rattle.table_rule.specs.Running.{Stored};
ghost use Rattle.table_steps.specs.Cuts.{cutting, CanCutBehind, HasCut};
ghost use Rattle.table_steps.specs.Passes.{IsSamePass};

use crate::pass::TablePass;
use crate::retires::{next_again, retire_bundle};
use index_words::{Part, Word};
use std::marker::Brand;

impl<'t> TablePass<'t> {
    /// Cuts a bundle of a locked node after an entry: the entry is then its last one, and those after it are retired.
    /// Since it locked the node the pass has found the number and the next of each entry up to this one, and the next
    /// of each one after it. It has looked at the announcements of all other passes, and this is the first entry whose
    /// number is at most the least one.
    pub fn cut(&mut self, entry: u32)
        requires can { CanCutBehind self.old.view entry }
        ensures same { IsSamePass self.old self.new }
        ensures event { Stored self.old.view.layout (cutting self.old entry) self.old.view self.new.view }
        ensures gives { HasCut self.old.view entry self.new.view }
    {
        self.seat.facts();
        let table = self.table;
        let limit = table.ruled.layout().entries;
        // After the cut nothing is known of these entries any more.
        let next = next_again(&table.ruled, &mut self.seat, entry);
        retire_bundle(
            &mut self.kept.slots,
            &table.ruled,
            &mut self.seat,
            next,
            limit,
        );
        let word = Word::Entry(Part::Next, entry);
        table.ruled.store::<Brand>(&mut self.seat, word, 0);
    }
}
