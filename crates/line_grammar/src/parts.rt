// The parts of a text, one after another: the fields of a line, and the pieces of a query.
ghost use Rattle.std.specs.Prelude.{◌≡◌, ◌<◌, ◌≤◌, ◌==◌, [], ◌∷◌, length, MatchOption};
ghost use Rattle.std.specs.List.{slice_split};
ghost use Rattle.line_grammar.specs.Left.{parts_left, size_left, IsNextPart};

use memchr::memchr;

/// The first part of a text that is cut at each of this ASCII character, and what is left after it: None after the
/// last part.
pub fn first_part(text: &str, at: char) -> (&str, Option<&str>)
    requires { at < 128 }
    ensures cut { slice_split (λ b. b == at) text.now ≡ result.0.now ∷ parts_left at result.1 }
    ensures shorter { size_left result.1 ≤ length text.now }
{
    match memchr(at as u8, text.as_bytes()) {
        Some(place) => {
            let (part, _) = text.split_at(place);
            let (_, rest) = text.split_at(place + 1);
            (part, Some(rest))
        }
        None => (text, None),
    }
}

/// The next part, and what is left after it.
pub(crate) fn next_part(left: Option<&str>, at: char) -> Option<(&str, Option<&str>)>
    requires { at < 128 }
    ensures { MatchOption result (parts_left at left.entry ≡ []) (IsNextPart at left.entry) }
{
    match left {
        None => None,
        Some(text) => Some(first_part(text, at)),
    }
}
