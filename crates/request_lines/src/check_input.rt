// The input of `check`.
ghost use Rattle.std.specs.Prelude.{◌≡◌, ◌<◌, ◌≤◌, ◌∷◌, length, take, drop, IfOk};
ghost use Rattle.std.specs.Option.{option_map};
ghost use Rattle.request_lines.specs.Input.{most_input_bytes};
ghost use Rattle.request_lines.specs.CheckInput as spec;
ghost use Rattle.request_lines.specs.CheckInput.{IsCheckInput, session_part, text_lines, text_part, strip_line_feed};
ghost use Rattle.request_lines.specs.CheckAnswers.{IsCheckRefused};
ghost use Rattle.request_lines.specs.SessionLaws.{HasNames, HasRecords, HasRequests, HasLines, IsSmall};

use crate::lines::without_return;
use crate::read::read_session;
use crate::{Cause, InputError, Session, SessionError};
use memchr::memchr;
use std::alloc::Global;

/// A session, and the text that is checked against it.
#[derive(Debug, Drop)]
pub struct CheckInput<'a> {
    pub session: Session,
    pub text: &'a [u8],
}

/// The session that stands before the first line `----` of an input, and the text after this line; or the first line
/// of the session that has a cause, with its first cause. Where the whole input has no cause and no such line, the line
/// after its last one has the cause `NoText`.
///
/// ```
/// let read = read_check_input(alloc, b"CLIENT\nHEAD a\n----\n{\"Updates\":0}\n")?;
/// assert_eq!(rt; read.session.clients.as_slice().len(), 1);
/// assert_eq!(rt; read.text, b"{\"Updates\":0}\n");
/// ```
pub fn read_check_input(alloc: Global, bytes: &[u8]) -> Result<CheckInput<'_>, SessionError>
    requires { length bytes.now ≤ most_input_bytes }
    ensures parts { IfOk result (λ read. IsCheckInput bytes.now read.session read.text.now) }
    ensures refused { IsCheckRefused bytes.now result }

    // What the layers above need of every session.
    ensures names { IfOk result (λ read. HasNames read.session) }
    ensures records { IfOk result (λ read. HasRecords read.session) }
    ensures requests { IfOk result (λ read. HasRequests read.session) }
    ensures lines { IfOk result (λ read. HasLines read.session) }
    ensures small { IfOk result (λ read. IsSmall read.session) }
{
    let (part, text) = parts(bytes);
    match (read_session(alloc, part), text) {
        (Ok(session), Some(text)) => Ok(CheckInput { session, text }),
        (Ok(_), None) => Err(SessionError::Input(InputError {
            line: line_count(bytes) + 1,
            cause: Cause::NoText,
        })),
        (Err(error), _) => Err(error),
    }
}

// What stands before the first line `----`, and what stands after it; the whole, where there is no such line.
fn parts(bytes: &[u8]) -> (&[u8], Option<&[u8]>)
    ensures session { result.0.now ≡ session_part bytes.now }
    ensures text { option_map (λ text. text.now) result.1 ≡ text_part bytes.now }
    ensures shorter { length result.0.now ≤ length bytes.now }
{
    let mut at = 0;
    while at < bytes.len() {
        let (front, left) = bytes.split_at(at);
        let (line, rest) = left.split_at(line_len(left));
        if is_divider(line) {
            return (front, Some(rest));
        }
        at += line.len();
    }
    (bytes, None)
}

// How many lines there are.
fn line_count(bytes: &[u8]) -> u32
    requires { length bytes.now ≤ most_input_bytes }
    ensures count { result ≡ length (text_lines bytes.now) }
    ensures most { result ≤ length bytes.now }
{
    let mut count = 0;
    let mut left = bytes;
    while !left.is_empty() {
        let (_, rest) = left.split_at(line_len(left));
        count += 1;
        left = rest;
    }
    count
}

/// The length of a text's first line, with its line feed. A last piece without one is a line too.
pub fn line_len(text: &[u8]) -> usize
    requires { 0 < length text.now }
    ensures some { 0 < result }
    ensures most { result ≤ length text.now }
    ensures cut { text_lines text.now ≡ take result text.now ∷ text_lines (drop result text.now) }
{
    match memchr(b'\n', text) {
        Some(end) => end + 1,
        None => text.len(),
    }
}

// Whether a line, with its end, is `----`.
fn is_divider(line: &[u8]) -> bool
    ensures { result ≡ spec.is_divider line.now }
{
    without_return(without_feed(line)) == b"----".as_slice()
}

// The line without the line feed at its end.
fn without_feed(line: &[u8]) -> &[u8]
    ensures { result.now ≡ strip_line_feed line.now }
{
    match line.split_last() {
        Some((b'\n', front)) => front,
        _ => line,
    }
}
