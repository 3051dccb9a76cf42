//! A pass of the index at work.
ghost use Rattle.std.specs.Prelude.{◌≡◌, ◌<◌, ◌↔◌, ℕ, All, None, Some, IsSome, IfOk, OnErr, IsErrOf};
ghost use Rattle.key_map.specs.declared.update.Update.{Update};
ghost use Rattle.key_map.specs.History.{after};
ghost use Rattle.key_map.specs.Map.{first_from};
ghost use Rattle.bucket_terms.specs.PassView.{MadePut};
ghost use Rattle.snapshot_read.specs.Looks.{IsAnswer, IsKnown, waits_after};
ghost use Rattle.table_steps.specs.Passes.{IsAlone};
ghost use Rattle.shared_index.specs.Keys.{home_of_pass, home_of_note};
ghost use Rattle.shared_index.specs.Notes.{told_by, Hears};
ghost use Rattle.shared_index.specs.Shown.{shown};
ghost use Rattle.shared_index.specs.Tries.{SeesOn};
ghost use Rattle.update_search.specs.Outcomes.{HasRisen};
ghost use Rattle.tree_update.specs.Calls.{IsPlaceOfPut};
ghost use Rattle.tree_update.specs.Settles.{HasTried};
ghost use Rattle.tree_update.specs.Trying.{IsOutOfFreeSlots, IfDone, IfBusy, IfMoved, IfPending, UnlessDone, IsMade};

use crate::facts::own_facts;
use key_map::PassError;
use snapshot_read::{Look, Way};
use std::marker::Model;
use table_steps::{Note, PassKey, TablePass};
use tree_update::{Settling, Try};

/// One caller's way to the index. Between two calls it holds no lock, and it is inside a read-side section exactly
/// while a snapshot is open. Contracts see the pass of the table; what it is to its caller is its `PassView` (`shown`).
#[derive(Drop)]
pub struct IndexPass<'t> {
    pub(crate) pass: TablePass<'t>,
    /// What the searches of the open snapshot have kept.
    pub(crate) way: Way,
    /// The least number of others for which the pass has waited in vain when it gathered entries.
    pub(crate) vain: Option<u64>,
}

impl<'t> Model for IndexPass<'t> {
    ghost use Rattle.table_steps.specs.Passes.{Pass};
    ghost use Rattle.shared_index.specs.Shown.{IsBetweenCalls};
    ghost use Rattle.snapshot_read.specs.Ways.{IsKeptWay};

    ghost Value = { Pass };

    ghost view = { λ p. p.pass };

    ghost invariant = { λ p. IsBetweenCalls p.pass.view × IsKeptWay p.pass.view p.way };
}

impl<'t> IndexPass<'t> {
    /// Ends the work of the pass. The key is of the same index, and has all that the pass had.
    pub fn detach(self) -> PassKey
        requires closed { (shown self).opened ≡ None }
        ensures same { result ≡ self.entry }
    {
        self.pass.detach()
    }

    /// Each update that the pass has seen is one of a pass of the index: of one whose number is below their count. The
    /// call does nothing.
    pub fn clients_fact(&self)
        ensures { All (λ (u : Update). u.client < self.now.view.layout.passes) (shown self.now).seen }
    {
        self.pass.facts();
    }

    /// Makes a note of what the pass has seen. The pass is unchanged. It takes no memory and never waits.
    pub fn tell(&mut self) -> Note
        ensures same { self.new ≡ self.old }
        ensures of { home_of_note result ≡ home_of_pass self.old }
        ensures seen { told_by result ≡ (shown self.new).seen }
    {
        self.pass.tell()
    }

    /// Hears a note of the same index: what the pass has seen then begins with what it had seen, and with what the note
    /// has. An open snapshot stays open. It takes no memory and never waits.
    ///
    /// ```
    /// first.put(&rt, 1, 5, 50)?;
    /// second.hear(first.tell());
    /// let found = second.begin();
    /// assert!(rt; found >= 1);
    /// ```
    pub fn hear(&mut self, note: Note)
        requires of { home_of_note note ≡ home_of_pass self.old }
        ensures heard { Hears (shown self.old) (shown self.new) (told_by note) }
        ensures home { home_of_pass self.new ≡ home_of_pass self.old }
    {
        self.pass.hear(note);
        self.way.forget();
    }

    /// Tries to free the slots that updates of this pass took out. If none of them waits yet, all of them begin to
    /// wait. `Settled`: all that waited are free. `Held`: another pass was found in the same section at two looks since
    /// they began to wait. It takes no memory and never waits.
    pub fn try_settle(&mut self) -> Settling
        requires closed { (shown self.old).opened ≡ None }
        ensures tried { HasTried self.old result self.new.view }
        ensures same { shown self.new ≡ shown self.old }
        ensures home { home_of_pass self.new ≡ home_of_pass self.old }
    {
        tree_update::try_settle(&mut self.pass)
    }

    /// Tries once to put the key with this value, for the request line `line`. It takes no memory and never waits: if
    /// it meets what another pass is doing, it gives everything back and reports what it has met, and the count of this
    /// has risen. A pass that is alone in its index meets nothing: its try is made, or refused by an error.
    ///
    /// # Errors
    /// `Spent` if no call is left. `NoSlot` if calls are left, but no node or fewer than four entries are free; a try
    /// does not free retired slots first (`try_settle` does). The pass is then unchanged.
    pub fn try_put(&mut self, line: u32, key: u64, val: u64) -> Result<Try, PassError>
        requires closed { (shown self.old).opened ≡ None }
        ensures made { IfOk result (λ tried. IfDone tried (MadePut (shown self.old) (shown self.new) line key val)) }
        ensures place { IfOk result (λ tried. IfDone tried (λ done. IsPlaceOfPut self.old line key val done self.new.view)) }
        ensures busy { IfOk result (λ tried. IfBusy tried (HasRisen self.old.view.counts.busy self.new.view.counts.busy)) }
        ensures moved { IfOk result (λ tried. IfMoved tried (HasRisen self.old.view.counts.moves self.new.view.counts.moves)) }
        ensures never_pending { IfOk result (λ tried. IfPending tried ⊥) }
        ensures waits { self.new.view.counts.waits ≡ self.old.view.counts.waits }
        ensures alone { IsAlone self.old.view → IfOk result IsMade }
        ensures kept { IfOk result (λ tried. UnlessDone tried (SeesOn (shown self.old) (shown self.new))) }
        ensures spent { IsErrOf result PassError.Spent ↔ ((shown self.old).left ≡ 0) }
        ensures no_slot { IsErrOf result PassError.NoSlot ↔ IsOutOfFreeSlots self.old.view }
        ensures unchanged { OnErr result (self.new ≡ self.old) }
        ensures home { home_of_pass self.new ≡ home_of_pass self.old }
    {
        let answer = tree_update::try_put(&mut self.pass, line, key, val);
        own_facts(&self.pass);
        answer
    }

    /// Looks once for the first pair of the open snapshot whose key is at least `key`. It takes no memory and never
    /// waits: where an entry has no number yet it answers `Pending`, and the count of such entries rises. A pass that
    /// is alone in its index meets none.
    pub fn try_next_from(&mut self, key: u64) -> Look
        requires open { IsSome (shown self.old).opened }
        ensures first { (at : ℕ) → (shown self.old).opened ≡ Some at → IsAnswer result (first_from key (after (shown self.old).seen at)) }
        ensures waits { self.new.view.counts.waits ≡ waits_after result self.old.view.counts.waits }
        ensures alone { IsAlone self.old.view → IsKnown result }
        ensures same { shown self.new ≡ shown self.old }
        ensures home { home_of_pass self.new ≡ home_of_pass self.old }
    {
        snapshot_read::try_next_on(&mut self.pass, &mut self.way, key)
    }
}
