// The causes for which a line is refused.
ghost use Rattle.std.specs.Prelude.{◌≡◌};
ghost use Rattle.line_grammar.specs.Causes as spec;

use std::fmt;

/// Why a line is refused. The causes are in the order in which they are tested: where several hold for a
/// line, the first of them is given.
#[derive(Clone, Copy, Debug, PartialEq, Eq)]
pub enum Cause {
    /// The line's bytes are not UTF-8.
    NotUtf8,
    /// The first field is no verb.
    UnknownVerb,
    /// The number of fields is not the verb's.
    WrongFields,
    /// In the key or in a query's value a `%` is not followed by two hexadecimal digits, or the unescaped
    /// bytes are not UTF-8.
    BadEscape,
    /// The key is empty.
    EmptyKey,
    /// The unescaped key, or the value of `prefix`, `delimiter`, `start-after`, or of `marker` on a LISTV1 line, has
    /// more than 1,024 bytes, the most that Amazon S3 takes for an object key.
    KeyTooLong,
    /// Size or modified is not one or more ASCII digits.
    BadNumber,
    /// Size or modified is above 18446744073709551615.
    NumberTooLarge,
    /// The etag is not 1 to 64 ASCII letters, digits and `-`, perhaps between two double quotes.
    BadEtag,
    /// A name is no parameter of ListObjectsV2, or on a LISTV1 line none of ListObjects (Amazon S3 API reference).
    UnknownParameter,
    /// A name stands twice.
    RepeatedParameter,
    /// `list-type` is written and is not `2`.
    BadListType,
    /// `max-keys` is written and is not one or more ASCII digits with a number of at most 2147483647.
    BadMaxKeys,
    /// `encoding-type` is not empty and not `url`.
    BadEncoding,
    /// `fetch-owner` is not empty, not `true` and not `false`.
    BadFetchOwner,
    /// The verb is not `CLIENT`, and no `CLIENT` line came before.
    NoClient,
    /// This is the 33rd `CLIENT` line.
    TooManyClients,
    /// This is the 200,001st line that is neither empty nor `CLIENT`.
    TooManyLines,
    /// The pages of the LIST, LISTV1 and NEXT lines so far can have more than 4,000,000 entries together.
    TooManyEntries,
    /// The input of `check` has no line `----`: reported at the line after the last one, where no line has a cause.
    NoText,
}

/// Shown by its name, as in the line on standard error and in the documents.
impl fmt::Display for Cause {
    ghost use Rattle.std.specs.Prelude.{Some};
    ghost use Rattle.line_grammar.specs.CauseNames.{cause_name};

    ghost output = { λ cause. Some (cause_name cause) };

    fn fmt<W: fmt::Write>(&self, f: &mut fmt::Formatter<W>) -> fmt::Result {
        match self {
            Cause::NotUtf8 => f.write_str("NotUtf8"),
            Cause::UnknownVerb => f.write_str("UnknownVerb"),
            Cause::WrongFields => f.write_str("WrongFields"),
            Cause::BadEscape => f.write_str("BadEscape"),
            Cause::EmptyKey => f.write_str("EmptyKey"),
            Cause::KeyTooLong => f.write_str("KeyTooLong"),
            Cause::BadNumber => f.write_str("BadNumber"),
            Cause::NumberTooLarge => f.write_str("NumberTooLarge"),
            Cause::BadEtag => f.write_str("BadEtag"),
            Cause::UnknownParameter => f.write_str("UnknownParameter"),
            Cause::RepeatedParameter => f.write_str("RepeatedParameter"),
            Cause::BadListType => f.write_str("BadListType"),
            Cause::BadMaxKeys => f.write_str("BadMaxKeys"),
            Cause::BadEncoding => f.write_str("BadEncoding"),
            Cause::BadFetchOwner => f.write_str("BadFetchOwner"),
            Cause::NoClient => f.write_str("NoClient"),
            Cause::TooManyClients => f.write_str("TooManyClients"),
            Cause::TooManyLines => f.write_str("TooManyLines"),
            Cause::TooManyEntries => f.write_str("TooManyEntries"),
            Cause::NoText => f.write_str("NoText"),
        }
    }
}

// The place of a cause in the order in which they are tested.
#[tactic(auto, unfolding(crate::specs::Causes::place_of))]
fn place_of(cause: Cause) -> u8
    ensures { result ≡ spec.place_of cause }
{
    cause as u8
}

/// The earlier of two causes.
#[tactic(auto, unfolding(crate::specs::Causes::earliest))]
pub(crate) fn earliest(cause: Option<Cause>, other: Option<Cause>) -> Option<Cause>
    ensures { result ≡ spec.earliest cause other }
{
    match (cause, other) {
        (None, _) => other,
        (Some(_), None) => cause,
        (Some(first), Some(second)) if place_of(first) <= place_of(second) => cause,
        (Some(_), Some(_)) => other,
    }
}
