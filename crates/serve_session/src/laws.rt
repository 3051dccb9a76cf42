// What the promise of `serve` determines, and what it rules out. The calls do nothing: their clauses are what is
// proved.
ghost use Rattle.serve_session.specs.OneText.{OneTextLaw, OneRefusalLaw, RefusedOrServedLaw, RunnersRunLaw, OneVerdictLaw, RefusedOrCheckedLaw};
ghost use Rattle.serve_session.specs.ServedLaws.{WithinLimitLaw, TooLongLaw, StartLaw, SampleRunLaw};

/// The text of an input of one client is determined: whatever ran, and in whatever schedule, one input gives one text.
/// An input has one refusal at most, and one that is refused is not served. A run that has replies has those of
/// the runner.
pub fn one_text()
    ensures text { OneTextLaw }
    ensures refusal { OneRefusalLaw }
    ensures or_served { RefusedOrServedLaw }
    ensures runner { RunnersRunLaw }
{}

/// An input of a form `check` has one verdict at most, and one that is refused has none.
pub fn one_verdict()
    ensures verdict { OneVerdictLaw }
    ensures or_checked { RefusedOrCheckedLaw }
{}

/// An input that was read to its end is within the limit, and one that is too long was not read to its end. If a
/// start of a text was taken, the rest can be taken after it. A run of the generated session has its summary.
pub fn served()
    ensures within { WithinLimitLaw }
    ensures too_long { TooLongLaw }
    ensures start { StartLaw }
    ensures sample { SampleRunLaw }
{
    sample_laws::sample_session();
}
