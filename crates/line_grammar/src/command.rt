// One line: what it says, or its own first cause.
ghost use Rattle.std.specs.Prelude.{◌≡◌, [], ◌∷◌, Ok, IfOk, MatchOption};
ghost use Rattle.line_grammar.specs.declared.verb.Verb.TheVariants as verbs;
ghost use Rattle.line_grammar.specs.Line.{read_fields, read_line, reading_of};
ghost use Rattle.line_grammar.specs.QueryValues.{listing_of, list_read};
ghost use Rattle.line_grammar.specs.Fine.{IsFineCommand};
ghost use Rattle.line_grammar.specs.Left.{fields_of, parts_left, IsNotOne};
ghost use Rattle.line_grammar.specs.ReadAnswers.{Reads};

use crate::Cause;
use crate::line_error::LineError;
use crate::parameter::Version;
use crate::parts::{first_part, next_part};
use crate::put::{put_fields, put_of};
use crate::query::query_of;
use crate::texts::key_of;
use crate::values::Values;
use crate::verb::{PutWhen, Verb};
use bucket_terms::{ListQuery, Record, Shared, V1Query};
use key_names::Text;
use std::alloc::Global;

/// What one line says.
#[derive(Debug, Drop)]
pub enum Command {
    /// Begins the next client.
    Client,
    Put {
        when: PutWhen,
        name: Text,
        record: Record,
    },
    Delete {
        name: Text,
    },
    Head {
        name: Text,
    },
    List(Shared<ListQuery>),
    ListV1(Shared<V1Query>),
    /// The next page of the client's last LIST or NEXT.
    Next,
}

/// What a line says, whatever came before it.
pub fn command_of(alloc: Global, line: &str) -> Result<Command, LineError>
    ensures reading { Reads result (reading_of line.now) }
    ensures fine { IfOk result IsFineCommand }
{
    said(alloc, line)
}

#[tactic(auto, unfolding(crate::specs::Line::read_line))]
fn said(alloc: Global, line: &str) -> Result<Command, LineError>
    ensures { Reads result (read_line (fields_of line.now)) }
{
    let (verb, left) = first_part(line, ' ');
    match Verb::of(verb) {
        Some(verb) => with_fields(alloc, verb, left),
        None => Err(LineError::Faulty(Cause::UnknownVerb)),
    }
}

fn with_fields(alloc: Global, verb: Verb, left: Option<&str>) -> Result<Command, LineError>
    ensures { Reads result (read_fields verb (parts_left 32 left.entry)) }
{
    match verb {
        Verb::Client => client(left),
        Verb::Put(when) => put(alloc, when, left),
        Verb::Delete => delete(alloc, left),
        Verb::Head => head(alloc, left),
        Verb::List(version) => list(alloc, version, left),
        Verb::Next => next(left),
    }
}

#[tactic(auto, unfolding(crate::specs::Line::read_fields))]
fn client(left: Option<&str>) -> Result<Command, LineError>
    ensures { Reads result (read_fields verbs.Client (parts_left 32 left.entry)) }
{
    match next_part(left, ' ') {
        None => Ok(Command::Client),
        Some(_) => Err(LineError::Faulty(Cause::WrongFields)),
    }
}

#[tactic(auto, unfolding(crate::specs::Line::read_fields))]
fn next(left: Option<&str>) -> Result<Command, LineError>
    ensures { Reads result (read_fields verbs.Next (parts_left 32 left.entry)) }
{
    match next_part(left, ' ') {
        None => Ok(Command::Next),
        Some(_) => Err(LineError::Faulty(Cause::WrongFields)),
    }
}

#[tactic(auto, unfolding(crate::specs::Line::read_fields))]
fn put(alloc: Global, when: PutWhen, left: Option<&str>) -> Result<Command, LineError>
    ensures { Reads result (read_fields (verbs.Put when) (parts_left 32 left.entry)) }
{
    match put_fields(left) {
        Some(fields) => put_of(alloc, when, fields),
        None => Err(LineError::Faulty(Cause::WrongFields)),
    }
}

#[tactic(auto, unfolding(crate::specs::Line::read_fields))]
fn delete(alloc: Global, left: Option<&str>) -> Result<Command, LineError>
    ensures { Reads result (read_fields verbs.Delete (parts_left 32 left.entry)) }
{
    let Some(key) = only_field(left) else {
        return Err(LineError::Faulty(Cause::WrongFields));
    };
    let name = key_of(alloc, key)?;
    Ok(Command::Delete { name })
}

#[tactic(auto, unfolding(crate::specs::Line::read_fields))]
fn head(alloc: Global, left: Option<&str>) -> Result<Command, LineError>
    ensures { Reads result (read_fields verbs.Head (parts_left 32 left.entry)) }
{
    let Some(key) = only_field(left) else {
        return Err(LineError::Faulty(Cause::WrongFields));
    };
    let name = key_of(alloc, key)?;
    Ok(Command::Head { name })
}

// The field that is left, where there is one.
fn only_field(left: Option<&str>) -> Option<&str>
    ensures { MatchOption result (IsNotOne (parts_left 32 left.entry)) (λ field. parts_left 32 left.entry ≡ field.now ∷ []) }
{
    let Some((field, left)) = next_part(left, ' ') else {
        return None;
    };
    match next_part(left, ' ') {
        None => Some(field),
        Some(_) => None,
    }
}

#[tactic(auto, unfolding(crate::specs::Line::read_fields), using(crate::proofs::QueryListings::no_query, crate::proofs::QueryListings::listing_read_is))]
fn list(alloc: Global, version: Version, left: Option<&str>) -> Result<Command, LineError>
    ensures { Reads result (read_fields (verbs.List version) (parts_left 32 left.entry)) }
{
    let Some((text, left)) = next_part(left, ' ') else {
        return listing(alloc, version, Values::none(alloc));
    };
    match next_part(left, ' ') {
        None => list_of(alloc, version, text),
        Some(_) => Err(LineError::Faulty(Cause::WrongFields)),
    }
}

// The LIST or LISTV1 line with this query.
fn list_of(alloc: Global, version: Version, text: &str) -> Result<Command, LineError>
    ensures { Reads result (list_read version text.now) }
{
    let values = query_of(alloc, version, text)?;
    listing(alloc, version, values)
}

// The listing of these values.
fn listing(alloc: Global, version: Version, values: Values) -> Result<Command, LineError>
    ensures { Reads result (Ok (listing_of version values)) }
{
    match version {
        Version::V1 => Ok(Command::ListV1(Shared::new(alloc, values.v1_query())?)),
        Version::V2 => Ok(Command::List(Shared::new(alloc, values.list_query())?)),
    }
}
