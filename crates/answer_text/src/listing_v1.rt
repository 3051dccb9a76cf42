// The line of a listing of version 1.
ghost use Rattle.std.specs.Prelude.{◌≡◌, ◌++◌, string_bytes, OnOk};
ghost use Rattle.std.specs.Option.{option_map};
ghost use Rattle.bucket_terms.specs.PageInRange.{IsInRange};
ghost use Rattle.bucket_terms.specs.Listing.{next_marker};
ghost use Rattle.answer_text.specs.Lines.{shown};
ghost use Rattle.answer_text.specs.Shown.{v1_shown};
ghost use Rattle.answer_text.specs.InRange.{IsPageOf};
ghost use Rattle.answer_text.specs.EntryTexts.{AreRight};
ghost use Rattle.answer_text.specs.Pieces as spec;

use crate::escapes::shown;
use crate::known_texts::KnownTexts;
use crate::listing::{is_given, push_entries};
use crate::pieces::{push, push_given, push_number, push_text, push_truth};
use crate::replies::push_start;
use bucket_terms::{Page, Placed, V1Query};
use key_names::{Directory, NoMemory};
use list_v1::next_marker;

/// The reply to a listing of version 1.
pub(crate) fn push_v1_listing(
    out: &mut String,
    known: &KnownTexts<'_>,
    placed: &Placed,
    query: &V1Query,
    page: &Page,
) -> Result<(), NoMemory>
    requires page { IsPageOf known.now.dir.now known.now.records.now page.now }
    requires right { AreRight known.now.dir.now known.now.records.now known.now.texts.now }
    ensures { OnOk result (string_bytes out.new ≡ string_bytes out.old
        ++ spec.v1_text placed.now.at placed.now.client placed.now.line query.now (v1_shown known.now.dir.now known.now.records.now query.now page.now)) }
{
    push_start(out, placed)?;
    push_entries(out, known, query.url, page)?;
    push_asked(out, query)?;
    push_size(out, placed, query, page)?;
    push_bounds(out, known.dir, query, page)
}

// The members from `Delimiter` to `EncodingType`.
fn push_asked(out: &mut String, query: &V1Query) -> Result<(), NoMemory>
    ensures { OnOk result (string_bytes out.new ≡ string_bytes out.old ++ spec.v1_asked_text query.now (shown query.now.url query.now.delimiter)) }
{
    let delimiter = shown(*out.allocator(), query.url, query.delimiter.as_str())?;
    push_given(
        out,
        is_given(&query.delimiter),
        ",\"Delimiter\":",
        delimiter.as_str(),
    )?;
    push_given(out, query.url, ",\"EncodingType\":", "url")
}

// The members from `IsTruncated` to `MaxKeys`.
fn push_size(
    out: &mut String,
    placed: &Placed,
    query: &V1Query,
    page: &Page,
) -> Result<(), NoMemory>
    ensures { OnOk result (string_bytes out.new ≡ string_bytes out.old ++ spec.v1_size_text placed.now.line query.now page.now.truncated (shown query.now.url query.now.marker)) }
{
    let marker = shown(*out.allocator(), query.url, query.marker.as_str())?;
    push_truth(out, ",\"IsTruncated\":", page.truncated)?;
    push_number(out, ",\"Line\":", u64::from(placed.line))?;
    push_text(out, ",\"Marker\":", marker.as_str())?;
    push_number(out, ",\"MaxKeys\":", u64::from(query.max_keys))
}

// The members from `NextMarker` to the end of the line.
fn push_bounds(
    out: &mut String,
    dir: &Directory,
    query: &V1Query,
    page: &Page,
) -> Result<(), NoMemory>
    requires { IsInRange dir.now page.now }
    ensures { OnOk result (string_bytes out.new ≡ string_bytes out.old ++ spec.v1_bounds_text (option_map (shown query.now.url) (next_marker dir.now query.now page.now)) (shown query.now.url query.now.prefix)) }
{
    let prefix = shown(*out.allocator(), query.url, query.prefix.as_str())?;
    push_next(out, dir, query, page)?;
    push_text(out, ",\"Prefix\":", prefix.as_str())?;
    push(out, ",\"Status\":200}\n")
}

// The marker of the next page, where it is given.
fn push_next(
    out: &mut String,
    dir: &Directory,
    query: &V1Query,
    page: &Page,
) -> Result<(), NoMemory>
    requires { IsInRange dir.now page.now }
    ensures { OnOk result (string_bytes out.new ≡ string_bytes out.old ++ spec.next_text (option_map (shown query.now.url) (next_marker dir.now query.now page.now))) }
{
    let alloc = *out.allocator();
    match next_marker(alloc, dir, query, page)? {
        Some(marker) => {
            let marker = shown(alloc, query.url, marker.as_str())?;
            push_text(out, ",\"NextMarker\":", marker.as_str())
        }
        None => Ok(()),
    }
}
