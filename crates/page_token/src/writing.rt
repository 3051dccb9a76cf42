// From a token to its text.
ghost use Rattle.std.specs.Prelude.{◌≡◌, ◌<◌, ◌+◌, ◌/◌, ◌%◌, ◌++◌, Some, IfOk, OnOk};
ghost use Rattle.bucket_terms.specs.Listing.{token_text, bytes_by, point_letter, point_text, sized};

use base64::engine::general_purpose::URL_SAFE_NO_PAD;
use bucket_terms::{Bound, TokenPoint};
use key_names::{NoMemory, Text};
use std::alloc::Global;

/// As many bytes as a usual token has, so that most are made in one allocation.
const USUAL_BYTES: usize = 96;

/// The text of the token of a point, bound to a prefix and a delimiter: the URL-safe base64 without padding (RFC
/// 4648, `base64url`) of `2`, of the letter `K` or `P`, of the prefix and the delimiter, each after its length as
/// four decimal digits, and of the key or the common prefix.
///
/// ```
/// let point = TokenPoint::Group(Text::of(alloc, "a/")?);
/// let bound = Bound { prefix: Text::of(alloc, "")?, delimiter: Text::of(alloc, "/")? };
/// let token = write(alloc, &point, &bound)?;
/// assert_eq!(rt; token.as_str(), "MlAwMDAwMDAwMS9hLw");
/// ```
pub fn write(alloc: Global, point: &TokenPoint, bound: &Bound) -> Result<Text, NoMemory>
    ensures { IfOk result (λ token. token ≡ token_text (record { point = point.now; bound = Some bound.now })) }
{
    let spelled = bytes_of(alloc, point, bound)?;
    let token = URL_SAFE_NO_PAD.encode(alloc, spelled.as_slice())?;
    Ok(Text::from_string(token))
}

fn bytes_of(alloc: Global, point: &TokenPoint, bound: &Bound) -> Result<Vec<u8>, NoMemory>
    ensures { IfOk result (λ spelled. spelled.items ≡ bytes_by point.now (Some bound.now)) }
{
    let mut spelled = Vec::with_capacity(alloc, USUAL_BYTES)?;
    spelled.push(b'2')?;
    spelled.push(letter_of(point))?;
    push_sized(&mut spelled, bound.prefix.bytes())?;
    push_sized(&mut spelled, bound.delimiter.bytes())?;
    spelled.extend_from_slice(text_of(point))?;
    Ok(spelled)
}

fn letter_of(point: &TokenPoint) -> u8
    ensures { result ≡ point_letter point.now }
{
    match point {
        TokenPoint::Key(_) => b'K',
        TokenPoint::Group(_) => b'P',
    }
}

fn text_of(point: &TokenPoint) -> &[u8]
    ensures { result.now ≡ point_text point.now }
{
    match point {
        TokenPoint::Key(key) => key.bytes(),
        TokenPoint::Group(group) => group.bytes(),
    }
}

// A text after its length.
fn push_sized(spelled: &mut Vec<u8>, text: &[u8]) -> Result<(), NoMemory>
    ensures { OnOk result (spelled.new.items ≡ spelled.old.items ++ sized text.now) }
{
    let len = text.len();
    let digits = [
        digit(len / 1000),
        digit(len / 100),
        digit(len / 10),
        digit(len),
    ];
    spelled.extend_from_slice(&digits)?;
    spelled.extend_from_slice(text)?;
    Ok(())
}

// The last decimal digit of a number.
fn digit(number: usize) -> u8
    ensures { result ≡ 48 + number % 10 }
{
    b'0' + (number % 10) as u8
}
