// A PUT or a PUTNEW line.
ghost use Rattle.std.specs.Prelude.{◌≡◌, [], ◌∷◌, Err, MatchOption};
ghost use Rattle.line_grammar.specs.declared.cause.Cause.TheVariants.{WrongFields};
ghost use Rattle.line_grammar.specs.declared.verb.PutWhen.{PutWhen as When};
ghost use Rattle.line_grammar.specs.declared.verb.Verb.TheVariants as verbs;
ghost use Rattle.line_grammar.specs.Line as spec;
ghost use Rattle.line_grammar.specs.Left.{parts_left};
ghost use Rattle.line_grammar.specs.ReadAnswers.{Reads};

use crate::command::Command;
use crate::line_error::LineError;
use crate::parts::next_part;
use crate::texts::{etag_of, key_of, numbers_of};
use crate::verb::PutWhen;
use bucket_terms::Record;
use std::alloc::Global;

/// The fields of the line after its verb.
#[derive(Clone, Copy)]
pub(crate) struct PutFields<'a> {
    pub(crate) key: &'a str,
    pub(crate) size: &'a str,
    pub(crate) etag: &'a str,
    pub(crate) modified: &'a str,
}

/// These fields, where there are four.
#[tactic(auto, unfolding(crate::specs::Line::read_fields))]
pub(crate) fn put_fields(left: Option<&str>) -> Option<PutFields<'_>>
    ensures { MatchOption result ((when : When) → spec.read_fields (verbs.Put when) (parts_left 32 left.entry) ≡ Err WrongFields)
        (λ f. parts_left 32 left.entry ≡ f.key.now ∷ f.size.now ∷ f.etag.now ∷ f.modified.now ∷ []) }
{
    let Some((key, left)) = next_part(left, ' ') else {
        return None;
    };
    let Some((size, left)) = next_part(left, ' ') else {
        return None;
    };
    let Some((etag, left)) = next_part(left, ' ') else {
        return None;
    };
    let Some((modified, left)) = next_part(left, ' ') else {
        return None;
    };
    let None = next_part(left, ' ') else {
        return None;
    };
    Some(PutFields {
        key,
        size,
        etag,
        modified,
    })
}

/// The line with these fields.
#[tactic(auto, unfolding(crate::specs::Line::put_read))]
pub(crate) fn put_of(
    alloc: Global,
    when: PutWhen,
    fields: PutFields<'_>,
) -> Result<Command, LineError>
    ensures { let f = fields.entry in Reads result (spec.put_read when f.key.now f.size.now f.etag.now f.modified.now) }
{
    let name = key_of(alloc, fields.key)?;
    let (size, modified) = numbers_of(fields.size, fields.modified)?;
    let etag = etag_of(alloc, fields.etag)?;
    Ok(Command::Put {
        when,
        name,
        record: Record {
            size,
            etag,
            modified,
        },
    })
}
