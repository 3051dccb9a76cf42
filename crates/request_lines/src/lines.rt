// A text that is cut into its lines.
ghost use Rattle.std.specs.Prelude.{◌≡◌, ◌<◌, ◌≤◌, ◌∷◌, length, take, slice_index};
ghost use Rattle.request_lines.specs.InputParts.{texts_of, texts_left};
ghost use Rattle.line_grammar.specs.Left.{size_left};
ghost use Rattle.std.specs.Str.Lines.{strip_carriage_return};

use line_grammar::first_part;

/// The first line of a text without its end, and what follows it: None after the last line.
pub(crate) fn first_line(text: &str) -> (&str, Option<&str>)
    ensures cut { texts_of text.now ≡ result.0.now ∷ texts_left result.1 }
    ensures shorter { size_left result.1 ≤ length text.now }
{
    let (part, rest) = first_part(text, '\n');
    let (line, _) = part.split_at(without_return(part.as_bytes()).len());
    (line, rest)
}

/// The line without one carriage return at its end.
pub(crate) fn without_return(line: &[u8]) -> &[u8]
    ensures line { result.now ≡ strip_carriage_return line.now }
    ensures front { result.now ≡ take (length result.now) line.now }
    ensures fits { length result.now ≤ length line.now }
    ensures end { length result.now < length line.now → slice_index line.now (length result.now) ≡ 13 }
{
    match line.split_last() {
        Some((b'\r', front)) => front,
        _ => line,
    }
}
