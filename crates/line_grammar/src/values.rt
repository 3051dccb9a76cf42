// What the parameters of a query say, whichever verb it belongs to.
ghost use Rattle.std.specs.Prelude.{◌≡◌, [], true, false, min, MatchOption, Some, None, if◌then◌else◌};
ghost use Rattle.std.specs.Str.Parse.{digits_value};
ghost use Rattle.line_grammar.specs.Asking as kept;
ghost use Rattle.line_grammar.specs.NamedQueries as spec;
ghost use Rattle.line_grammar.specs.Line as asks;
ghost use Rattle.line_grammar.specs.QueryValues as asked;
ghost use Rattle.line_grammar.specs.Line.{most_keys};

use crate::Cause;
use crate::limits::{MAX_KEYS, MAX_WRITTEN};
use crate::parameter::Name;
use crate::texts::{is_number, number};
use bucket_terms::{ListQuery, V1Query};
use key_names::Text;
use std::alloc::Global;

/// The values of a query's parameters. An empty text is one that was not given.
#[derive(Drop)]
pub(crate) struct Values {
    pub(crate) prefix: Text,
    pub(crate) delimiter: Text,
    pub(crate) start_after: Text,
    pub(crate) token: Text,
    pub(crate) marker: Text,
    pub(crate) max_keys: u32,
    pub(crate) url: bool,
}

impl Values {
    /// Where no parameter is given.
    pub(crate) fn none(alloc: Global) -> Values
        ensures { result ≡ asked.no_values }
    {
        Values {
            prefix: empty(alloc),
            delimiter: empty(alloc),
            start_after: empty(alloc),
            token: empty(alloc),
            marker: empty(alloc),
            max_keys: MAX_KEYS,
            url: false,
        }
    }

    /// The listing of version 2 that they ask.
    pub(crate) fn list_query(self) -> ListQuery
        ensures { result ≡ asked.list_query self }
    {
        ListQuery {
            prefix: self.prefix,
            delimiter: self.delimiter,
            start_after: self.start_after,
            token: self.token,
            max_keys: self.max_keys,
            url: self.url,
        }
    }

    /// The listing of version 1 that they ask.
    pub(crate) fn v1_query(self) -> V1Query
        ensures { result ≡ asked.v1_query self }
    {
        V1Query {
            prefix: self.prefix,
            delimiter: self.delimiter,
            marker: self.marker,
            max_keys: self.max_keys,
            url: self.url,
        }
    }

    /// Sets what this parameter says. Returns the cause of a value that the parameter does not take.
    #[tactic(auto, unfolding(crate::specs::Asking::with_parameter, crate::specs::Asking::value_cause))]
    pub(crate) fn set(&mut self, name: Option<Name>, value: Text) -> Option<Cause>
        ensures values { self.new ≡ kept.with_parameter self.old name value }
        ensures cause { result ≡ kept.value_cause name value }
    {
        match name {
            Some(Name::Prefix) => self.prefix = value,
            Some(Name::Delimiter) => self.delimiter = value,
            Some(Name::StartAfter) => self.start_after = value,
            Some(Name::ContinuationToken) => self.token = value,
            Some(Name::Marker) => self.marker = value,
            Some(Name::MaxKeys) => return self.set_max_keys(value.as_str()),
            Some(Name::EncodingType) => return self.set_encoding(value.as_str()),
            Some(Name::ListType) => return list_type_cause(value.as_str()),
            Some(Name::FetchOwner) => return fetch_owner_cause(value.as_str()),
            None => {}
        }
        None
    }

    // Values for `max-keys`: the number, or 1,000 where that is less.
    fn set_max_keys(&mut self, value: &str) -> Option<Cause>
        ensures values { self.new ≡ record self.old { max_keys = asks.most_entries value.now } }
        ensures cause { result ≡ (if asks.is_max_keys value.now then None else Some Cause.BadMaxKeys) }
    {
        match max_keys(value) {
            Some(most) => {
                self.max_keys = most;
                None
            }
            None => {
                self.max_keys = MAX_KEYS;
                Some(Cause::BadMaxKeys)
            }
        }
    }

    // Values for `encoding-type`: none, or `url`.
    fn set_encoding(&mut self, value: &str) -> Option<Cause>
        ensures values { self.new ≡ record self.old { url = spec.is_url value.now } }
        ensures cause { result ≡ (if spec.is_encoding value.now then None else Some Cause.BadEncoding) }
    {
        self.url = value == "url";
        if self.url || value.is_empty() {
            None
        } else {
            Some(Cause::BadEncoding)
        }
    }
}

fn empty(alloc: Global) -> Text
    ensures { result ≡ [] }
{
    Text::from_string(String::new(alloc))
}

// The most entries of a page, at most 1,000. None where the text is no such number.
#[tactic(auto, unfolding(crate::specs::Line::is_max_keys, crate::specs::Texts::is_small))]
fn max_keys(value: &str) -> Option<u32>
    ensures { MatchOption result (asks.is_max_keys value.now ≡ false)
        (λ n. (asks.is_max_keys value.now ≡ true) × (n ≡ min (digits_value 10 value.now) most_keys)) }
{
    if !is_number(value) {
        return None;
    }
    match number(value) {
        Some(n) if n <= MAX_WRITTEN => Some(n.min(u64::from(MAX_KEYS)) as u32),
        _ => None,
    }
}

fn list_type_cause(value: &str) -> Option<Cause>
    ensures { result ≡ (if spec.is_list_type value.now then None else Some Cause.BadListType) }
{
    match value {
        "2" => None,
        _ => Some(Cause::BadListType),
    }
}

fn fetch_owner_cause(value: &str) -> Option<Cause>
    ensures { result ≡ (if spec.is_fetch_owner value.now then None else Some Cause.BadFetchOwner) }
{
    if value.is_empty() || value == "true" || value == "false" {
        None
    } else {
        Some(Cause::BadFetchOwner)
    }
}
