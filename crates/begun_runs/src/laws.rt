// The laws on begun runs. These calls do nothing: their clauses are what is proved.
ghost use Rattle.begun_runs.specs.Begun.{BegunRunLaw, BegunTextLaw};
ghost use Rattle.begun_runs.specs.FirstPart.{FirstPartLaw};

/// A run that was begun can be ended: a legal run of the first requests of each client is the beginning of a legal run
/// of all of them, however many node slots each client has. The lines of the first client's replies so far are a start
/// of its text.
pub fn begun_run()
    ensures ends { BegunRunLaw }
    ensures text { BegunTextLaw }
{}

/// After the first requests of the only client, what its pass knows and its replies are the beginning of a legal run of
/// all of its requests.
pub fn first_part()
    ensures ends { FirstPartLaw }
{}
