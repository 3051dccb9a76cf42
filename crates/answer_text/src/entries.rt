// The entries of a page as they are shown: its common prefixes, and its keys with their records.
ghost use Rattle.std.specs.Prelude.{◌≡◌, ◌++◌, ◌||◌, ◌<◌, false, length, All, is_some, string_bytes, IfOk, OnOk};
ghost use Rattle.std.specs.List.{filter_map};
ghost use Rattle.json.specs.Print.{escape};
ghost use Rattle.serde_json.specs.View.{items_of};
ghost use Rattle.serde_json.specs.Written.{comma_if, items_text};
ghost use Rattle.bucket_terms.specs.PageInRange.{IsEntryInRange};
ghost use Rattle.key_names.specs.Names.{name_at};
ghost use Rattle.answer_text.specs.Lines.{content_of, prefix_of, record_at, shown};
ghost use Rattle.answer_text.specs.InRange.{HasRecord};
ghost use Rattle.answer_text.specs.EntryTexts.{AreRight};
ghost use Rattle.answer_text.specs.Pieces as spec;

use crate::escapes::shown;
use crate::known_texts::KnownTexts;
use crate::pieces::{push, push_number, push_text};
use crate::plain::is_plain;
use bucket_terms::{PageEntries, PageEntry, Record};
use key_names::{Directory, NoMemory};

/// The common prefixes of these entries, and the end of their array.
pub(crate) fn push_prefixes(
    out: &mut String,
    dir: &Directory,
    url: bool,
    entries: &PageEntries,
) -> Result<(), NoMemory>
    requires { All (IsEntryInRange dir.now) entries.now }
    ensures { OnOk result (string_bytes out.new ≡ string_bytes out.old ++ items_text false (items_of (filter_map (prefix_of dir.now url) entries.now))) }
{
    let mut later = false;
    for place in 0..entries.len() {
        later = push_prefix_of(out, later, dir, url, entries.at(place))?;
    }
    push(out, "]")
}

/// The keys of these entries with their records, and the end of their array.
pub(crate) fn push_contents(
    out: &mut String,
    known: &KnownTexts<'_>,
    url: bool,
    entries: &PageEntries,
) -> Result<(), NoMemory>
    requires in_range { All (IsEntryInRange known.now.dir.now) entries.now }
    requires recorded { All (HasRecord known.now.records.now) entries.now }
    requires right { AreRight known.now.dir.now known.now.records.now known.now.texts.now }
    ensures { OnOk result (string_bytes out.new ≡ string_bytes out.old
        ++ items_text false (items_of (filter_map (content_of known.now.dir.now known.now.records.now url) entries.now))) }
{
    let mut later = false;
    for place in 0..entries.len() {
        let entry = entries.at(place);
        later = push_content_of(out, later, known, url, entry)?;
    }
    push(out, "]")
}

// What the array of common prefixes has for an entry. Answers whether something stands in it now.
fn push_prefix_of(
    out: &mut String,
    later: bool,
    dir: &Directory,
    url: bool,
    entry: PageEntry,
) -> Result<bool, NoMemory>
    requires { IsEntryInRange dir.now entry }
    ensures text { OnOk result (string_bytes out.new ≡ string_bytes out.old ++ spec.prefix_element later dir.now url entry) }
    ensures later { IfOk result (λ now. now ≡ (later || is_some (prefix_of dir.now url entry))) }
{
    match entry {
        PageEntry::Key { .. } => Ok(later),
        PageEntry::Group { rank, len } => {
            let name = dir.name(u64::from(rank)).as_str();
            let prefix = shown(*out.allocator(), url, &name[..len as usize])?;
            push_comma(out, later)?;
            push_prefix(out, prefix.as_str())?;
            Ok(true)
        }
    }
}

// What the array of keys has for an entry. Answers whether something stands in it now.
fn push_content_of(
    out: &mut String,
    later: bool,
    known: &KnownTexts<'_>,
    url: bool,
    entry: PageEntry,
) -> Result<bool, NoMemory>
    requires in_range { IsEntryInRange known.now.dir.now entry }
    requires recorded { HasRecord known.now.records.now entry }
    requires right { AreRight known.now.dir.now known.now.records.now known.now.texts.now }
    ensures text { OnOk result (string_bytes out.new ≡ string_bytes out.old ++ spec.content_element later known.now.dir.now known.now.records.now url entry) }
    ensures later { IfOk result (λ now. now ≡ (later || is_some (content_of known.now.dir.now known.now.records.now url entry))) }
{
    match entry {
        PageEntry::Key { rank, val } => {
            push_key(out, later, known, url, u64::from(rank), val)?;
            Ok(true)
        }
        PageEntry::Group { .. } => Ok(later),
    }
}

// The object of a key with the record at place `val`, after a comma where something stands before it.
#[inline(always)]
fn push_key(
    out: &mut String,
    later: bool,
    known: &KnownTexts<'_>,
    url: bool,
    rank: u64,
    val: u64,
) -> Result<(), NoMemory>
    requires ranked { rank < length known.now.dir.now }
    requires recorded { val < length known.now.records.now }
    requires right { AreRight known.now.dir.now known.now.records.now known.now.texts.now }
    ensures { OnOk result (string_bytes out.new ≡ string_bytes out.old
        ++ (comma_if later ++ spec.content_text (shown url (name_at known.now.dir.now rank)) (record_at known.now.records.now val))) }
{
    if later && !url {
        if let Some(text) = known.texts.text(rank, val) {
            return push(out, text);
        }
    }
    push_comma(out, later)?;
    let stored = &known.records[val as usize];
    push_shown(out, url, known.dir.name(rank).as_str(), stored)
}

// The object of a key, shown as the query asks.
fn push_shown(out: &mut String, url: bool, key: &str, stored: &Record) -> Result<(), NoMemory>
    ensures { OnOk result (string_bytes out.new ≡ string_bytes out.old ++ spec.content_text (shown url key.now) stored.now) }
{
    let key = shown(*out.allocator(), url, key)?;
    push_content(out, key.as_str(), stored)
}

fn push_comma(out: &mut String, later: bool) -> Result<(), NoMemory>
    ensures { OnOk result (string_bytes out.new ≡ string_bytes out.old ++ comma_if later) }
{
    if later { push(out, ",") } else { Ok(()) }
}

fn push_prefix(out: &mut String, prefix: &str) -> Result<(), NoMemory>
    ensures { OnOk result (string_bytes out.new ≡ string_bytes out.old ++ spec.prefix_text prefix.now) }
{
    push_text(out, "{\"Prefix\":", prefix)?;
    push(out, "}")
}

/// The object of a key with its record.
pub(crate) fn push_content(out: &mut String, key: &str, stored: &Record) -> Result<(), NoMemory>
    ensures { OnOk result (string_bytes out.new ≡ string_bytes out.old ++ spec.content_text key.now stored.now) }
{
    if is_plain(stored.etag.as_str().as_bytes()) && is_plain(key.as_bytes()) {
        push_plain_content(out, key, stored)
    } else {
        push_escaped_content(out, key, stored)
    }
}

// The quotes are part of the labels, and no byte is escaped.
#[inline(always)]
fn push_plain_content(out: &mut String, key: &str, stored: &Record) -> Result<(), NoMemory>
    requires tag { escape stored.now.etag ≡ stored.now.etag }
    requires key { escape key.now ≡ key.now }
    ensures { OnOk result (string_bytes out.new ≡ string_bytes out.old ++ spec.content_text key.now stored.now) }
{
    push(out, "{\"ETag\":\"")?;
    push(out, stored.etag.as_str())?;
    push(out, "\",\"Key\":\"")?;
    push(out, key)?;
    push_behind_key(out, stored.modified, stored.size)
}

// From the quote after the key to the end of the object. Separate from what stands before, since the compiler
// builds only so many pushes into one function.
#[inline(never)]
fn push_behind_key(out: &mut String, modified: u64, size: u64) -> Result<(), NoMemory>
    ensures { OnOk result (string_bytes out.new ≡ string_bytes out.old ++ spec.behind_key_text modified size) }
{
    push_number(out, "\",\"LastModified\":", modified)?;
    push_number(out, ",\"Size\":", size)?;
    push(out, "}")
}

// The tag or the key has an escape.
#[cold]
#[inline(never)]
fn push_escaped_content(out: &mut String, key: &str, stored: &Record) -> Result<(), NoMemory>
    ensures { OnOk result (string_bytes out.new ≡ string_bytes out.old ++ spec.content_text key.now stored.now) }
{
    push_text(out, "{\"ETag\":", stored.etag.as_str())?;
    push_text(out, ",\"Key\":", key)?;
    push_number(out, ",\"LastModified\":", stored.modified)?;
    push_number(out, ",\"Size\":", stored.size)?;
    push(out, "}")
}
