// Escapes under `encoding-type=url`.
ghost use Rattle.std.specs.Prelude.{◌≡◌, IfOk};
ghost use Rattle.std.specs.Cow.{cow_str_bytes};
ghost use Rattle.answer_text.specs.Lines.{shown};

use key_names::NoMemory;
use percent_encoding::{AsciiSet, NON_ALPHANUMERIC, ascii_set, utf8_percent_encode};
use std::alloc::Global;
use std::borrow::CowStr;

/// The ASCII bytes that are escaped: all but letters, digits and `-._~/`.
pub(crate) const ESCAPED: AsciiSet = ascii_set!(
    NON_ALPHANUMERIC
        .remove(b'-')
        .remove(b'.')
        .remove(b'_')
        .remove(b'~')
        .remove(b'/')
);

/// The text as an answer shows it. It is copied only if it has a byte that is escaped.
pub(crate) fn shown<'a>(alloc: Global, url: bool, text: &'a str) -> Result<CowStr<'a>, NoMemory>
    ensures { IfOk result (λ cow. cow_str_bytes cow ≡ shown url text.now) }
{
    if url {
        Ok(utf8_percent_encode(text, ESCAPED).into_cow(alloc)?)
    } else {
        Ok(CowStr::Borrowed(text))
    }
}
