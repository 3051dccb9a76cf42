// The calls of an index's pass that other passes do not have, as a trait. Its clauses say what the rows need and no
// more, so that the long contracts of the calls are met here alone.
ghost use Rattle.std.specs.Prelude.{◌≡◌, None, IsSome};

use bucket_terms::KeyPass;
use key_map::PassError;
use shared_index::{IndexPass, Look, Settling, Try};

pub(crate) trait TestedPass: KeyPass {
    /// One try of a put.
    fn put_by_try(&mut self, line: u32, key: u64, val: u64) -> Result<Try, PassError>
        requires { (Self.view self.old).opened ≡ None }
        ensures closed { (Self.view self.new).opened ≡ None }
        ensures number { (Self.view self.new).number ≡ (Self.view self.old).number }
        ensures home { Self.home self.new ≡ Self.home self.old };

    /// One try to settle.
    fn settle_by_try(&mut self) -> Settling
        requires { (Self.view self.old).opened ≡ None }
        ensures same { Self.view self.new ≡ Self.view self.old }
        ensures home { Self.home self.new ≡ Self.home self.old };

    /// One look for a pair.
    fn find_by_look(&mut self, key: u64) -> Look
        requires { IsSome (Self.view self.old).opened }
        ensures same { Self.view self.new ≡ Self.view self.old }
        ensures home { Self.home self.new ≡ Self.home self.old };

    /// The other pass reports what it has seen, and this one hears it.
    fn hear_of(&mut self, other: &mut Self)
        requires { Self.home other.old ≡ Self.home self.old }
        ensures opened { (Self.view self.new).opened ≡ (Self.view self.old).opened }
        ensures number { (Self.view self.new).number ≡ (Self.view self.old).number }
        ensures home { Self.home self.new ≡ Self.home self.old }
        ensures other_same { Self.view other.new ≡ Self.view other.old }
        ensures other_home { Self.home other.new ≡ Self.home other.old };
}

impl<'t> TestedPass for IndexPass<'t> {
    fn put_by_try(&mut self, line: u32, key: u64, val: u64) -> Result<Try, PassError> {
        match self.try_put(line, key, val) {
            Ok(Try::Done(done)) => Ok(Try::Done(done)),
            Ok(Try::Busy) => Ok(Try::Busy),
            Ok(Try::Moved) => Ok(Try::Moved),
            Ok(Try::Pending) => Ok(Try::Pending),
            Err(error) => Err(error),
        }
    }

    fn settle_by_try(&mut self) -> Settling {
        self.try_settle()
    }

    fn find_by_look(&mut self, key: u64) -> Look {
        self.try_next_from(key)
    }

    fn hear_of(&mut self, other: &mut Self) {
        let note = other.tell();
        self.hear(note);
    }
}
