// What a field says: a key, a number, an entity tag.
ghost use Rattle.std.specs.Prelude.{◌≡◌, ◌==◌, true, false, IfSome, MatchOption};
ghost use Rattle.std.specs.Char.{is_ascii_digit};
ghost use Rattle.std.specs.List.{list_all, list_any};
ghost use Rattle.std.specs.Str.Parse.{digits_value};
ghost use Rattle.line_grammar.specs.ReadAnswers.{Reads};
ghost use Rattle.line_grammar.specs.Texts as spec;

use crate::Cause;
use crate::line_error::LineError;
use key_names::{MAX_NAME_BYTES, Text};
use memchr::memchr;
use percent_encoding::{DecodeError, percent_decode};
use std::alloc::Global;

// The most digits of a number that has 64 bits whatever they are.
const SHORT_NUMBER_DIGITS: usize = 19;

// For each byte 1 where a tag may have it: an ASCII letter or digit, or `-`.
const TAG_BYTES: [u8; 256] = [
    0, 0, 0, 0, 0, 0, 0, 0, 0, 0, 0, 0, 0, 0, 0, 0, 0, 0, 0, 0, 0, 0, 0, 0, 0, 0, 0, 0, 0, 0, 0, 0,
    0, 0, 0, 0, 0, 0, 0, 0, 0, 0, 0, 0, 0, 1, 0, 0, 1, 1, 1, 1, 1, 1, 1, 1, 1, 1, 0, 0, 0, 0, 0, 0,
    0, 1, 1, 1, 1, 1, 1, 1, 1, 1, 1, 1, 1, 1, 1, 1, 1, 1, 1, 1, 1, 1, 1, 1, 1, 1, 1, 0, 0, 0, 0, 0,
    0, 1, 1, 1, 1, 1, 1, 1, 1, 1, 1, 1, 1, 1, 1, 1, 1, 1, 1, 1, 1, 1, 1, 1, 1, 1, 1, 0, 0, 0, 0, 0,
    0, 0, 0, 0, 0, 0, 0, 0, 0, 0, 0, 0, 0, 0, 0, 0, 0, 0, 0, 0, 0, 0, 0, 0, 0, 0, 0, 0, 0, 0, 0, 0,
    0, 0, 0, 0, 0, 0, 0, 0, 0, 0, 0, 0, 0, 0, 0, 0, 0, 0, 0, 0, 0, 0, 0, 0, 0, 0, 0, 0, 0, 0, 0, 0,
    0, 0, 0, 0, 0, 0, 0, 0, 0, 0, 0, 0, 0, 0, 0, 0, 0, 0, 0, 0, 0, 0, 0, 0, 0, 0, 0, 0, 0, 0, 0, 0,
    0, 0, 0, 0, 0, 0, 0, 0, 0, 0, 0, 0, 0, 0, 0, 0, 0, 0, 0, 0, 0, 0, 0, 0, 0, 0, 0, 0, 0, 0, 0, 0,
];

/// The name of a key.
#[tactic(auto, unfolding(crate::specs::Texts::key_read))]
pub(crate) fn key_of(alloc: Global, key: &str) -> Result<Text, LineError>
    ensures { Reads result (spec.key_read key.now) }
{
    let name = unescaped(alloc, key)?;
    let len = name.bytes().len();
    if len == 0 {
        return Err(LineError::Faulty(Cause::EmptyKey));
    }
    if len > MAX_NAME_BYTES {
        return Err(LineError::Faulty(Cause::KeyTooLong));
    }
    Ok(name)
}

/// The text without its escapes, which is copied once.
pub(crate) fn unescaped(alloc: Global, text: &str) -> Result<Text, LineError>
    ensures { Reads result (spec.unescaped text.now) }
{
    if has_percent(text) {
        decoded(alloc, text.as_bytes())
    } else {
        Ok(Text::of(alloc, text)?)
    }
}

fn has_percent(text: &str) -> bool
    ensures { result ≡ list_any (λ b. b == 37) text.now }
{
    memchr(b'%', text.as_bytes()).is_some()
}

// The text without its escapes, where it has some.
#[tactic(auto, unfolding(crate::specs::Texts::unescaped))]
fn decoded(alloc: Global, text: &[u8]) -> Result<Text, LineError>
    ensures { Reads result (spec.unescaped text.now) }
{
    if !escapes_are_whole(text) {
        return Err(LineError::Faulty(Cause::BadEscape));
    }
    match percent_decode(text).decode_utf8(alloc) {
        Ok(decoded) => Ok(Text::from_string(decoded.into_owned(alloc)?)),
        Err(DecodeError::Utf8(_)) => Err(LineError::Faulty(Cause::BadEscape)),
        Err(DecodeError::OutOfMemory) => Err(LineError::NoMemory),
    }
}

// Whether each `%` is followed by two hexadecimal digits.
#[tactic(auto, unfolding(crate::specs::Texts::escapes_are_whole))]
fn escapes_are_whole(text: &[u8]) -> bool
    ensures { result ≡ spec.escapes_are_whole text.now }
{
    let mut left = text;
    while let [byte, rest @ ..] = left {
        if *byte == b'%' && !begins_with_hex_digits(rest) {
            return false;
        }
        left = rest;
    }
    true
}

fn begins_with_hex_digits(bytes: &[u8]) -> bool
    ensures { result ≡ spec.begins_with_hex_digits bytes.now }
{
    match bytes {
        [high, low, ..] => high.is_ascii_hexdigit() && low.is_ascii_hexdigit(),
        _ => false,
    }
}

/// A record's size and time.
#[tactic(auto, unfolding(crate::specs::Texts::numbers_read))]
pub(crate) fn numbers_of(size: &str, modified: &str) -> Result<(u64, u64), LineError>
    ensures { Reads result (spec.numbers_read size.now modified.now) }
{
    match (
        short_number(size.as_bytes()),
        short_number(modified.as_bytes()),
    ) {
        (Some(size), Some(modified)) => Ok((size, modified)),
        _ => long_numbers(size, modified),
    }
}

// The number of a text of one to 19 digits, which are read once. None where the text is any other.
fn short_number(text: &[u8]) -> Option<u64>
    ensures { IfSome result (λ n. (spec.is_number text.now ≡ true) × (spec.is_small text.now ≡ true) × (n ≡ digits_value 10 text.now)) }
{
    if text.is_empty() || text.len() > SHORT_NUMBER_DIGITS {
        return None;
    }
    let mut value: u64 = 0;
    for byte in text {
        if !byte.is_ascii_digit() {
            return None;
        }
        value = value * 10 + u64::from(*byte - b'0');
    }
    Some(value)
}

// Size and time of any texts.
#[tactic(auto, unfolding(crate::specs::Texts::numbers_read))]
fn long_numbers(size: &str, modified: &str) -> Result<(u64, u64), LineError>
    ensures { Reads result (spec.numbers_read size.now modified.now) }
{
    if !is_number(size) || !is_number(modified) {
        return Err(LineError::Faulty(Cause::BadNumber));
    }
    match (number(size), number(modified)) {
        (Some(size), Some(modified)) => Ok((size, modified)),
        _ => Err(LineError::Faulty(Cause::NumberTooLarge)),
    }
}

/// Whether the text is one or more ASCII digits.
#[tactic(auto, using(crate::proofs::TextLaws::digits_all), unfolding(crate::specs::Texts::is_number))]
pub(crate) fn is_number(text: &str) -> bool
    ensures { result ≡ spec.is_number text.now }
{
    !text.is_empty() && is_all_digits(text)
}

fn is_all_digits(text: &str) -> bool
    ensures { result ≡ list_all is_ascii_digit text.now }
{
    text.bytes().all(|b| b.is_ascii_digit())
}

/// The number that the digits write. None where it has more than 64 bits.
pub(crate) fn number(text: &str) -> Option<u64>
    requires { spec.is_number text.now ≡ true }
    ensures { MatchOption result (spec.is_small text.now ≡ false)
        (λ n. (spec.is_small text.now ≡ true) × (n ≡ digits_value 10 text.now)) }
{
    text.parse::<u64>().ok()
}

/// An entity tag, perhaps between two double quotes.
#[tactic(auto, unfolding(crate::specs::Texts::etag_read))]
pub(crate) fn etag_of(alloc: Global, text: &str) -> Result<Text, LineError>
    ensures { Reads result (spec.etag_read text.now) }
{
    let tag = unquoted(text);
    if !is_tag(tag.as_bytes()) {
        return Err(LineError::Faulty(Cause::BadEtag));
    }
    Ok(Text::of(alloc, tag)?)
}

#[tactic(auto, using(crate::proofs::TextLaws::lead_after_quote), unfolding(crate::specs::Texts::unquoted))]
fn unquoted(text: &str) -> &str
    ensures { result.now ≡ spec.unquoted text.now }
{
    match text.as_bytes() {
        [b'"', tag @ .., b'"'] => &text[1..tag.len() + 1],
        _ => text,
    }
}

#[tactic(auto, unfolding(crate::specs::Texts::is_tag))]
fn is_tag(text: &[u8]) -> bool
    ensures { result ≡ spec.is_tag text.now }
{
    !text.is_empty() && text.len() <= 64 && is_all_tag(text)
}

fn is_all_tag(text: &[u8]) -> bool
    ensures { result ≡ list_all spec.is_tag_byte text.now }
{
    text.iter().all(|b| is_tag_byte(*b))
}

#[tactic(auto, unfolding(crate::specs::Texts::is_tag_byte))]
fn is_tag_byte(b: u8) -> bool
    ensures { result ≡ spec.is_tag_byte b }
{
    TAG_BYTES[b as usize] == 1
}
