// Why writing a run ends before its end.
ghost use Rattle.std.specs.Prelude.{◌≡◌};
ghost use Rattle.run_text.specs.declared.stop.Stop.TheVariants.{Fault as IsFault, NoMemory as OutOfMemory};

use outside_io::WriteFault;

/// Why writing a run ends before its end.
#[derive(Clone, Copy, Debug, PartialEq, Eq)]
pub enum Stop {
    /// The sink failed.
    Fault,
    NoMemory,
}

impl From<WriteFault> for Stop {
    ghost from_gives = { λ _ stop. stop ≡ IsFault };

    fn from(_: WriteFault) -> Self {
        Stop::Fault
    }
}

impl From<key_names::NoMemory> for Stop {
    ghost from_gives = { λ _ stop. stop ≡ OutOfMemory };

    fn from(_: key_names::NoMemory) -> Self {
        Stop::NoMemory
    }
}
