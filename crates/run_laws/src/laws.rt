// Laws on runs and on what a session rests on. These calls do nothing: their clauses are what is proved.
ghost use Rattle.run_laws.specs.Determined.{OneInputLaw, OneReadingLaw, OneTextLaw, TellsOnLaw, OneSessionLaw, NoSessionLaw, OneDirectoryLaw};
ghost use Rattle.run_laws.specs.OneRun.{AloneLaw, OneRunLaw};
ghost use Rattle.run_laws.specs.PageLaws.{GroupLaw, NoGroupLaw, StartAfterLaw, NoStartAfterLaw, TruncatedLaw};
ghost use Rattle.run_laws.specs.Renamed.{RenamedLaw};
ghost use Rattle.run_laws.specs.RunRows.{RunRowsLaw};
ghost use Rattle.run_laws.specs.Untouched.{UntouchedLaw};

/// One client has one run: in a legal run of a session with one client that has more node slots than PUT, PUTNEW and
/// DELETE lines, each request is answered on what the client's own requests before it have made, and no two such runs
/// differ.
pub fn one_client()
    ensures alone { AloneLaw }
    ensures one_run { OneRunLaw }
{}

/// A client that keeps to names that no other client changes is answered as if it were alone, whatever the others do:
/// its updates are those that it makes alone, and its replies are those that it gets alone, apart from their places.
pub fn untouched_names()
    ensures untouched { UntouchedLaw }
{}

/// Clients change their numbers, for example two that change places: a legal run is then one of the session with the
/// new numbers.
pub fn clients_renamed()
    ensures renamed { RenamedLaw }
{}

/// One input has one session at most, and none if it is refused; names have one directory. What a source gave and
/// what a sink took is one list of bytes, if they report it.
pub fn one_input()
    ensures input { OneInputLaw }
    ensures reading { OneReadingLaw }
    ensures text { OneTextLaw }
    ensures tells { TellsOnLaw }
    ensures session { OneSessionLaw }
    ensures refused { NoSessionLaw }
    ensures directory { OneDirectoryLaw }
{}

/// Small sessions of up to three clients: runs that are legal, and similar runs that are not.
pub fn run_rows()
    ensures rows { RunRowsLaw }
{}

/// A common prefix ends with the first delimiter at or after the prefix's length. A listing with `start_after` is the
/// one from that key on, and with a point `start_after` has no effect. After a truncated page there is an entry.
pub fn page_laws()
    ensures group { GroupLaw }
    ensures no_group { NoGroupLaw }
    ensures start_after { StartAfterLaw }
    ensures no_start_after { NoStartAfterLaw }
    ensures truncated { TruncatedLaw }
{}
