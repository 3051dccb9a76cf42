// The query of a LIST or LISTV1 line.
ghost use Rattle.std.specs.Prelude.{◌≡◌, OnOk, IsOkUnless};
ghost use Rattle.line_grammar.specs.declared.line_error.LineError.TheVariants.{NoMemory as OutOfMemory};
ghost use Rattle.line_grammar.specs.Asking as kept;
ghost use Rattle.line_grammar.specs.NamedQueries as spec;
ghost use Rattle.line_grammar.specs.Line as asks;
ghost use Rattle.line_grammar.specs.QueryValues.{query_read};
ghost use Rattle.line_grammar.specs.Pieces.{asking, parameter as as_parameter, TakesPiece};
ghost use Rattle.line_grammar.specs.ReadAnswers.{Reads, ReadsAs};

use crate::Cause;
use crate::cause::earliest;
use crate::line_error::LineError;
use crate::parameter::{Name, Version, stands_in};
use crate::parts::first_part;
use crate::texts::unescaped;
use crate::values::Values;
use key_names::{MAX_NAME_BYTES, Text};
use std::alloc::Global;

/// What the parameters so far ask of a listing of this version: their values, their names, each once, and the earliest
/// of their causes.
#[derive(Drop)]
pub(crate) struct Asking {
    pub(crate) version: Version,
    pub(crate) values: Values,
    pub(crate) names: Vec<Name>,
    pub(crate) cause: Option<Cause>,
}

/// One parameter, with its value unescaped.
#[derive(Drop)]
pub(crate) struct Parameter {
    pub(crate) name: Option<Name>,
    pub(crate) value: Text,
}

/// What the query of this text asks of a listing of this version.
pub(crate) fn query_of(alloc: Global, version: Version, text: &str) -> Result<Values, LineError>
    ensures { Reads result (query_read version text.now) }
{
    let mut so_far = Asking {
        version,
        values: Values::none(alloc),
        names: Vec::new(alloc),
        cause: None,
    };
    let mut left = Some(without_mark(text));
    while let Some(pieces) = left {
        let (piece, rest) = first_part(pieces, '&');
        so_far.take_piece(alloc, piece)?;
        left = rest;
    }
    so_far.finish()
}

impl Asking {
    // Takes the next piece, which may be empty.
    #[tactic(auto, unfolding(crate::specs::Pieces::piece_asked, crate::specs::NamedQueries::parameter_read))]
    fn take_piece(&mut self, alloc: Global, piece: &str) -> Result<(), LineError>
        ensures { TakesPiece (asking self.old) piece.now (asking self.new) result }
    {
        if piece.is_empty() {
            return Ok(());
        }
        let parameter = parameter_of(alloc, piece)?;
        self.take(parameter)
    }

    // Takes the next parameter.
    #[tactic(auto, unfolding(crate::specs::Asking::asking_with, crate::specs::Asking::parameter_cause))]
    fn take(&mut self, parameter: Parameter) -> Result<(), LineError>
        ensures asked { OnOk result (asking self.new ≡ kept.asking_with (asking self.old) (as_parameter parameter)) }
        ensures memory { IsOkUnless result OutOfMemory }
    {
        let Parameter { name, value } = parameter;
        let of_name = name_cause(self.version, self.names.as_slice(), name, value.as_str());
        self.keep_name(name)?;
        let of_value = self.values.set(name, value);
        self.cause = earliest(self.cause, of_name.or(of_value));
        Ok(())
    }

    #[tactic(auto, unfolding(crate::specs::Asking::with_name))]
    fn keep_name(&mut self, name: Option<Name>) -> Result<(), LineError>
        ensures kept { OnOk result (asking self.new ≡ record (asking self.old) { names = kept.with_name (asking self.old).names name }) }
        ensures memory { IsOkUnless result OutOfMemory }
    {
        match name {
            Some(name) if !stands_in(self.names.as_slice(), name) => {
                self.names.push(name)?;
                Ok(())
            }
            _ => Ok(()),
        }
    }

    // The values of all parameters.
    fn finish(self) -> Result<Values, LineError>
        ensures { Reads result (spec.values_or self.cause self.values) }
    {
        match self.cause {
            None => Ok(self.values),
            Some(cause) => Err(LineError::Faulty(cause)),
        }
    }
}

// A query without one `?` at its front.
fn without_mark(text: &str) -> &str
    ensures { result.now ≡ asks.without_mark text.now }
{
    match text.strip_prefix('?') {
        Some(query) => query,
        None => text,
    }
}

// The parameter of a piece, which is cut at its first `=`.
#[tactic(auto, unfolding(crate::specs::NamedQueries::parameter_read))]
fn parameter_of(alloc: Global, piece: &str) -> Result<Parameter, LineError>
    ensures { ReadsAs as_parameter result (spec.parameter_read piece.now) }
{
    let (name, value) = cut(piece);
    let value = unescaped(alloc, value)?;
    Ok(Parameter {
        name: Name::written(name),
        value,
    })
}

fn cut(piece: &str) -> (&str, &str)
    ensures name { result.0.now ≡ spec.name_of_piece piece.now }
    ensures value { result.1.now ≡ spec.value_of_piece piece.now }
{
    match piece.split_once('=') {
        Some((name, value)) => (name, value),
        None => (piece, ""),
    }
}

// The first cause of a parameter after these names that is none of its value alone.
#[tactic(auto, unfolding(crate::specs::Asking::name_cause))]
fn name_cause(version: Version, names: &[Name], name: Option<Name>, value: &str) -> Option<Cause>
    ensures { result ≡ kept.name_cause version names.now name value.now }
{
    match name {
        None => Some(Cause::UnknownParameter),
        Some(name) if is_too_long(version, name, value) => Some(Cause::KeyTooLong),
        Some(name) if !name.is_taken(version) => Some(Cause::UnknownParameter),
        Some(name) if stands_in(names, name) => Some(Cause::RepeatedParameter),
        Some(_) => None,
    }
}

#[tactic(auto, unfolding(crate::specs::Asking::is_long_for))]
fn is_too_long(version: Version, name: Name, value: &str) -> bool
    ensures { result ≡ kept.is_long_for version name value.now }
{
    name.is_compared(version) && value.len() > MAX_NAME_BYTES
}
