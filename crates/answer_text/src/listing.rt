// The line of a listing, and what it shares with that of version 1.
ghost use Rattle.std.specs.Prelude.{◌≡◌, ◌++◌, length, string_bytes, IfOk, OnOk};
ghost use Rattle.bucket_terms.specs.Listing.{page_point};
ghost use Rattle.bucket_terms.specs.PageInRange.{IsInRange};
ghost use Rattle.std.specs.List.{filter_map};
ghost use Rattle.answer_text.specs.Lines.{shown, is_given, content_of, prefix_of};
ghost use Rattle.answer_text.specs.Shown.{page_shown, point_token};
ghost use Rattle.answer_text.specs.InRange.{IsPageOf};
ghost use Rattle.answer_text.specs.EntryTexts.{AreRight};
ghost use Rattle.answer_text.specs.Pieces as spec;

use crate::entries::{push_contents, push_prefixes};
use crate::escapes::shown;
use crate::known_texts::KnownTexts;
use crate::pieces::{push, push_given, push_number, push_text, push_truth};
use crate::replies::push_start;
use bucket_terms::{ListQuery, Page, Placed};
use key_names::{Directory, NoMemory, Text};
use std::alloc::Global;

/// The reply to a listing.
pub(crate) fn push_listing(
    out: &mut String,
    known: &KnownTexts<'_>,
    placed: &Placed,
    query: &ListQuery,
    page: &Page,
) -> Result<(), NoMemory>
    requires page { IsPageOf known.now.dir.now known.now.records.now page.now }
    requires right { AreRight known.now.dir.now known.now.records.now known.now.texts.now }
    ensures { OnOk result (string_bytes out.new ≡ string_bytes out.old
        ++ spec.listed_text placed.now.at placed.now.client placed.now.line query.now (page_shown known.now.dir.now known.now.records.now query.now page.now)) }
{
    push_start(out, placed)?;
    push_entries(out, known, query.url, page)?;
    push_asked(out, query)?;
    push_size(out, placed, query, page)?;
    push_bounds(out, known.dir, query, page)
}

/// The members from `CommonPrefixes` to `Contents`.
pub(crate) fn push_entries(
    out: &mut String,
    known: &KnownTexts<'_>,
    url: bool,
    page: &Page,
) -> Result<(), NoMemory>
    requires page { IsPageOf known.now.dir.now known.now.records.now page.now }
    requires right { AreRight known.now.dir.now known.now.records.now known.now.texts.now }
    ensures { OnOk result (string_bytes out.new ≡ string_bytes out.old
        ++ spec.entries_text (filter_map (prefix_of known.now.dir.now url) page.now.entries) (filter_map (content_of known.now.dir.now known.now.records.now url) page.now.entries)) }
{
    push(out, ",\"CommonPrefixes\":[")?;
    push_prefixes(out, known.dir, url, &page.entries)?;
    push(out, ",\"Contents\":[")?;
    push_contents(out, known, url, &page.entries)
}

// The members from `ContinuationToken` to `EncodingType`. A token is never escaped.
fn push_asked(out: &mut String, query: &ListQuery) -> Result<(), NoMemory>
    ensures { OnOk result (string_bytes out.new ≡ string_bytes out.old ++ spec.asked_text query.now (shown query.now.url query.now.delimiter)) }
{
    let delimiter = shown(*out.allocator(), query.url, query.delimiter.as_str())?;
    push_given(
        out,
        is_given(&query.token),
        ",\"ContinuationToken\":",
        query.token.as_str(),
    )?;
    push_given(
        out,
        is_given(&query.delimiter),
        ",\"Delimiter\":",
        delimiter.as_str(),
    )?;
    push_given(out, query.url, ",\"EncodingType\":", "url")
}

// The members from `IsTruncated` to `MaxKeys`.
fn push_size(
    out: &mut String,
    placed: &Placed,
    query: &ListQuery,
    page: &Page,
) -> Result<(), NoMemory>
    ensures { OnOk result (string_bytes out.new ≡ string_bytes out.old ++ spec.size_text placed.now.line query.now page.now.truncated (length page.now.entries)) }
{
    push_truth(out, ",\"IsTruncated\":", page.truncated)?;
    push_number(out, ",\"KeyCount\":", page.entries.len() as u64)?;
    push_number(out, ",\"Line\":", u64::from(placed.line))?;
    push_number(out, ",\"MaxKeys\":", u64::from(query.max_keys))
}

// The members from `NextContinuationToken` to the end of the line.
fn push_bounds(
    out: &mut String,
    dir: &Directory,
    query: &ListQuery,
    page: &Page,
) -> Result<(), NoMemory>
    requires { IsInRange dir.now page.now }
    ensures { OnOk result (string_bytes out.new ≡ string_bytes out.old ++ spec.bounds_text query.now page.now.truncated (point_token query.now (page_point dir.now page.now)) (shown query.now.url query.now.prefix) (shown query.now.url query.now.start_after)) }
{
    let alloc = *out.allocator();
    let next = next_token(alloc, dir, query, page)?;
    let prefix = shown(alloc, query.url, query.prefix.as_str())?;
    let start_after = shown(alloc, query.url, query.start_after.as_str())?;
    push_given(
        out,
        page.truncated,
        ",\"NextContinuationToken\":",
        next.as_str(),
    )?;
    push_text(out, ",\"Prefix\":", prefix.as_str())?;
    push_given(
        out,
        is_given(&query.start_after),
        ",\"StartAfter\":",
        start_after.as_str(),
    )?;
    push(out, ",\"Status\":200}\n")
}

/// Whether a parameter was given.
pub(crate) fn is_given(text: &Text) -> bool
    ensures { result ≡ is_given text.now }
{
    !text.as_str().is_empty()
}

// The token that continues after the page; empty where the page is not truncated.
fn next_token(
    alloc: Global,
    dir: &Directory,
    query: &ListQuery,
    page: &Page,
) -> Result<Text, NoMemory>
    requires { IsInRange dir.now page.now }
    ensures { IfOk result (λ token. token ≡ point_token query.now (page_point dir.now page.now)) }
{
    match page.point(alloc, dir)? {
        Some(point) => page_token::write(alloc, &point, &query.bound(alloc)?),
        None => Text::of(alloc, ""),
    }
}
