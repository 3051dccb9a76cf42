// The pieces of a line, each appended to the buffer. They are built into their callers, where the
// length of a label is known, so that it is stored without a call.
ghost use Rattle.std.specs.Prelude.{◌≡◌, ◌++◌, decimal, string_bytes, OnOk};
ghost use Rattle.json.specs.Print.{escape, quoted};
ghost use Rattle.answer_text.specs.Pieces as spec;

use crate::plain::is_plain;
use itoa::Buffer;
use key_names::NoMemory;

/// A text that needs no escape, as it stands.
#[inline(always)]
pub(crate) fn push(out: &mut String, text: &str) -> Result<(), NoMemory>
    ensures { OnOk result (string_bytes out.new ≡ string_bytes out.old ++ text.now) }
{
    out.push_str(text)?;
    Ok(())
}

/// A label, and the digits of a number.
#[inline(always)]
pub(crate) fn push_number(out: &mut String, label: &str, number: u64) -> Result<(), NoMemory>
    ensures { OnOk result (string_bytes out.new ≡ string_bytes out.old ++ (label.now ++ decimal number)) }
{
    push(out, label)?;
    push(out, Buffer::new().format(number))
}

/// A label, and a truth value.
pub(crate) fn push_truth(out: &mut String, label: &str, truth: bool) -> Result<(), NoMemory>
    ensures { OnOk result (string_bytes out.new ≡ string_bytes out.old ++ (label.now ++ spec.truth_text truth)) }
{
    push(out, label)?;
    push(out, if truth { "true" } else { "false" })
}

/// A label, and a text between double quotes.
#[inline(always)]
pub(crate) fn push_text(out: &mut String, label: &str, text: &str) -> Result<(), NoMemory>
    ensures { OnOk result (string_bytes out.new ≡ string_bytes out.old ++ (label.now ++ quoted text.now)) }
{
    push(out, label)?;
    if is_plain(text.as_bytes()) {
        push_plain(out, text)
    } else {
        push_escaped(out, text)
    }
}

/// A label and a text, only if the text was given.
pub(crate) fn push_given(
    out: &mut String,
    given: bool,
    label: &str,
    text: &str,
) -> Result<(), NoMemory>
    ensures { OnOk result (string_bytes out.new ≡ string_bytes out.old ++ spec.given_text given label.now text.now) }
{
    if given {
        push_text(out, label, text)
    } else {
        Ok(())
    }
}

/// The place of a reply, or `null`.
pub(crate) fn push_place(out: &mut String, at: Option<u64>) -> Result<(), NoMemory>
    ensures { OnOk result (string_bytes out.new ≡ string_bytes out.old ++ spec.place_text at) }
{
    match at {
        Some(at) => push_number(out, "{\"At\":", at),
        None => push(out, "{\"At\":null"),
    }
}

// A text without escapes, between double quotes.
#[inline(always)]
fn push_plain(out: &mut String, text: &str) -> Result<(), NoMemory>
    requires { escape text.now ≡ text.now }
    ensures { OnOk result (string_bytes out.new ≡ string_bytes out.old ++ quoted text.now) }
{
    push(out, "\"")?;
    push(out, text)?;
    push(out, "\"")
}

// A text with escapes, between double quotes.
#[cold]
#[inline(never)]
fn push_escaped(out: &mut String, text: &str) -> Result<(), NoMemory>
    ensures { OnOk result (string_bytes out.new ≡ string_bytes out.old ++ quoted text.now) }
{
    // Writing to memory fails only when out of memory.
    let Ok(quoted) = serde_json::to_string(*out.allocator(), &text) else {
        return Err(NoMemory);
    };
    push(out, quoted.as_str())
}
