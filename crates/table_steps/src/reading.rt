//! The sections in which a pass reads. It opens one by an enter, a load of the stamp, the announcement of the number
//! found, and a second load, which gives the number at which the pass reads. It closes one by a leave, and then takes
//! the announcement back.
//!
//!
//! The announcement comes before the second load: a pass that cuts bundles takes away only what is older than each
//! announced number and than the number of its own section. A pass that announces later also loads the stamp later, so
//! the number at which it reads is at least the other's.
ghost use Rattle.std.specs.Prelude.{◌≡◌};
ghost use Rattle.table_steps.specs.Passes.{AtRest, Inside, IsSamePass};
ghost use Rattle.table_steps.specs.Stamps.{outside_again, HasAnnounced, HasOpened, IsFoundAt};

use crate::pass::TablePass;

impl<'t> TablePass<'t> {
    /// Enters a section, and announces there how many updates the pass has seen. It reads nothing yet.
    fn enter_and_announce(&mut self)
        requires rest { AtRest self.old.view }
        ensures same { IsSamePass self.old self.new }
        ensures announced { HasAnnounced self.old.view self.new.view }
        ensures inside { Inside self.new.view }
    {
        self.seat.facts();
        self.enter();
        let seen = self.load_stamp();
        self.number_fact();
        self.announce(Some(seen));
    }

    /// Opens a section in which the pass reads at the number that this answers. A pass that reads a tree opens its
    /// section by this call or by `open_snapshot`.
    pub fn open_section(&mut self) -> u64
        requires rest { AtRest self.old.view }
        ensures same { IsSamePass self.old self.new }
        ensures event { IsFoundAt self.old 0 result self.new.view }
        ensures gives { HasOpened self.old 0 result self.new.view }
        ensures inside { Inside self.new.view }
    {
        self.seat.facts();
        self.enter_and_announce();
        self.load_stamp()
    }

    /// As `open_section`, and a snapshot is open then at this number.
    pub fn open_snapshot(&mut self) -> u64
        requires rest { AtRest self.old.view }
        ensures same { IsSamePass self.old self.new }
        ensures event { IsFoundAt self.old 1 result self.new.view }
        ensures gives { HasOpened self.old 1 result self.new.view }
        ensures inside { Inside self.new.view }
    {
        self.seat.facts();
        self.enter_and_announce();
        self.fix_stamp()
    }

    /// Closes a section that one of these two has opened.
    pub fn close_section(&mut self)
        requires inside { Inside self.old.view }
        ensures same { IsSamePass self.old self.new }
        ensures view { self.new.view ≡ outside_again self.old.view }
        ensures rest { AtRest self.new.view }
    {
        self.leave();
        self.number_fact();
        self.announce(None);
    }
}
