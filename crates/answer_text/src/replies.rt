// The lines of replies.
ghost use Rattle.std.specs.Prelude.{◌≡◌, ◌++◌, ℕ, List, string_bytes, IfOk, OnOk};
ghost use Rattle.bucket_terms.specs.declared.record.Record.{Record as StoredRecord};
ghost use Rattle.answer_text.specs.Lines.{line_of, reply_data};
ghost use Rattle.answer_text.specs.MemberOrder.{StandInOrder};
ghost use Rattle.answer_text.specs.Shown.{reply_members, content_members};
ghost use Rattle.answer_text.specs.InRange.{IsReplyOf};
ghost use Rattle.answer_text.specs.EntryTexts.{AreRight};
ghost use Rattle.answer_text.specs.Pieces as spec;

use crate::entry_texts::EntryTexts;
use crate::known_texts::KnownTexts;
use crate::listing::push_listing;
use crate::listing_v1::push_v1_listing;
use crate::pieces::{push, push_number, push_place, push_text, push_truth};
use bucket_terms::{Placed, Record, Reply};
use key_names::{Directory, NoMemory, Text};
use std::alloc::Global;

/// The line of a reply. Its status is that of the S3 API: 200, 204 for a removal, 400 for an invalid continuation
/// token, 404 for a missing key, 412 for a put that found its key present, and 503 where no slot was left.
pub fn reply_line(
    alloc: Global,
    dir: &Directory,
    records: &[Record],
    placed: &Placed,
) -> Result<Text, NoMemory>
    requires { IsReplyOf dir.now records.now placed.now.reply }
    ensures text { IfOk result (λ line. line ≡ line_of (reply_data dir.now records.now placed.now)) }

    // Of the line's object, and of each object of its entries.
    ensures order { StandInOrder (reply_members dir.now records.now placed.now.at placed.now.client placed.now.line placed.now.reply) }
    ensures key_order { (key : List ℕ) → (stored : StoredRecord) → StandInOrder (content_members key stored) }
{
    let mut line = String::new(alloc);
    push_reply_line(&mut line, dir, records, placed)?;
    Ok(Text::from_string(line))
}

/// Appends the line of `reply_line` to the buffer.
pub fn push_reply_line(
    out: &mut String,
    dir: &Directory,
    records: &[Record],
    placed: &Placed,
) -> Result<(), NoMemory>
    requires { IsReplyOf dir.now records.now placed.now.reply }
    ensures text { OnOk result (string_bytes out.new ≡ string_bytes out.old ++ line_of (reply_data dir.now records.now placed.now)) }

    // Of the line's object, and of each object of its entries.
    ensures order { StandInOrder (reply_members dir.now records.now placed.now.at placed.now.client placed.now.line placed.now.reply) }
    ensures key_order { (key : List ℕ) → (stored : StoredRecord) → StandInOrder (content_members key stored) }
{
    let texts = EntryTexts::none(*out.allocator());
    let known = KnownTexts {
        dir,
        records,
        texts: &texts,
    };
    push_known_line(out, &known, placed)
}

/// The same, but the entries whose texts are known are not made anew.
pub fn push_known_line(
    out: &mut String,
    known: &KnownTexts<'_>,
    placed: &Placed,
) -> Result<(), NoMemory>
    requires reply { IsReplyOf known.now.dir.now known.now.records.now placed.now.reply }
    requires right { AreRight known.now.dir.now known.now.records.now known.now.texts.now }
    ensures text { OnOk result (string_bytes out.new ≡ string_bytes out.old ++ line_of (reply_data known.now.dir.now known.now.records.now placed.now)) }
{
    push_reply(out, known, placed)
}

fn push_reply(out: &mut String, known: &KnownTexts<'_>, placed: &Placed) -> Result<(), NoMemory>
    requires reply { IsReplyOf known.now.dir.now known.now.records.now placed.now.reply }
    requires right { AreRight known.now.dir.now known.now.records.now known.now.texts.now }
    ensures { OnOk result (string_bytes out.new ≡ string_bytes out.old
        ++ spec.reply_text known.now.dir.now known.now.records.now placed.now.at placed.now.client placed.now.line placed.now.reply) }
{
    match &placed.reply {
        Reply::Put { was } => push_short(out, placed, Some(*was), 200),
        Reply::Exists => push_short(out, placed, None, 412),
        Reply::Deleted => push_short(out, placed, None, 204),
        Reply::Found { val } => push_found(out, placed, &known.records[*val as usize]),
        Reply::Missing => push_short(out, placed, None, 404),
        Reply::Listed { query, page } => {
            push_listing(out, known, placed, query.get(), page.get())
        }
        Reply::ListedV1 { query, page } => {
            push_v1_listing(out, known, placed, query.get(), page.get())
        }
        Reply::BadToken => push_short(out, placed, None, 400),
        Reply::NoSlot => push_short(out, placed, None, 503),
    }
}

/// The members from `At` to `Client`, with which each reply begins.
pub(crate) fn push_start(out: &mut String, placed: &Placed) -> Result<(), NoMemory>
    ensures { OnOk result (string_bytes out.new ≡ string_bytes out.old ++ spec.start_text placed.now.at placed.now.client) }
{
    push_place(out, placed.at)?;
    push_number(out, ",\"Client\":", u64::from(placed.client))
}

// A reply without a record or a page.
#[tactic(auto, unfolding(crate::specs::Pieces::short_text))]
fn push_short(
    out: &mut String,
    placed: &Placed,
    replaced: Option<bool>,
    status: u64,
) -> Result<(), NoMemory>
    ensures { OnOk result (string_bytes out.new ≡ string_bytes out.old ++ spec.short_text placed.now.at placed.now.client placed.now.line replaced status) }
{
    push_start(out, placed)?;
    push_number(out, ",\"Line\":", u64::from(placed.line))?;
    push_replaced(out, replaced)?;
    push_number(out, ",\"Status\":", status)?;
    push(out, "}\n")
}

// Whether a put replaced a record; nothing for another reply.
fn push_replaced(out: &mut String, replaced: Option<bool>) -> Result<(), NoMemory>
    ensures { OnOk result (string_bytes out.new ≡ string_bytes out.old ++ spec.replaced_text replaced) }
{
    match replaced {
        Some(was) => push_truth(out, ",\"Replaced\":", was),
        None => Ok(()),
    }
}

// The record of a key.
fn push_found(out: &mut String, placed: &Placed, stored: &Record) -> Result<(), NoMemory>
    ensures { OnOk result (string_bytes out.new ≡ string_bytes out.old ++ spec.found_text placed.now.at placed.now.client placed.now.line stored.now) }
{
    push_start(out, placed)?;
    push_text(out, ",\"ETag\":", stored.etag.as_str())?;
    push_number(out, ",\"LastModified\":", stored.modified)?;
    push_found_end(out, placed.line, stored.size)
}

// The members from `Line` to the end of the line. Separate from those before, since the compiler builds only so
// many pushes into one function.
#[inline(never)]
fn push_found_end(out: &mut String, line: u32, size: u64) -> Result<(), NoMemory>
    ensures { OnOk result (string_bytes out.new ≡ string_bytes out.old ++ spec.found_end_text line size) }
{
    push_number(out, ",\"Line\":", u64::from(line))?;
    push_number(out, ",\"Size\":", size)?;
    push(out, ",\"Status\":200}\n")
}
