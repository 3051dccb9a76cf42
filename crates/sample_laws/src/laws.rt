// Laws on runs. These calls do nothing: their clauses are what is proved.
ghost use Rattle.sample_laws.specs.Finds.{OwnNamesLaw, SummaryLaw};
ghost use Rattle.sample_laws.specs.Rows.{RowsLaw};
ghost use Rattle.sample_laws.specs.SampleLaw.{SampleLaw, SampleAloneLaw, SampleInputLaw};

/// Clients on names of their own, in any legal run. Updates on other names commute: a client's pairs in the map after
/// the first updates are those of its own updates among them. So at each of its replies a client finds of its own names
/// what it would find alone, gets the replies that it would get alone, and none for want of slots; and the run's
/// summary is the sums over the clients of what each would have alone.
pub fn own_names()
    ensures alone { OwnNamesLaw }
    ensures summary { SummaryLaw }
{}

/// The generated session. In any legal run of it, where each client has one more node slot than requests that may make
/// an update, the summary is the one that the number of requests gives, which is the sums over the four clients of
/// what each would have alone. The summary is also this one where the session was read from an input whose session is
/// the generated one.
pub fn sample_session()
    ensures summary { SampleLaw }
    ensures alone { SampleAloneLaw }
    ensures of_input { SampleInputLaw }
{}

/// The summary of the generated session for 1, 7 and 1003 requests of each client.
pub fn sample_rows()
    ensures rows { RowsLaw }
{}
