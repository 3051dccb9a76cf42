// The lines of a text, each with its end.
ghost use Rattle.std.specs.Prelude.{◌≡◌, ℕ, List, map, IfOk};
ghost use Rattle.std.specs.Borrow.{Bor};
ghost use Rattle.request_lines.specs.CheckInput.{text_lines};

use key_names::NoMemory;
use request_lines::line_len;
use std::alloc::Global;

/// The lines of the text, each with its line feed. A last piece without one is a line too.
pub(crate) fn cut(alloc: Global, text: &[u8]) -> Result<Vec<&[u8]>, NoMemory>
    ensures { IfOk result (λ lines. map (λ (line : Bor (List ℕ)). line.now) lines.items ≡ text_lines text.now) }
{
    let mut lines = Vec::new(alloc);
    let mut left = text;
    while !left.is_empty() {
        let (line, rest) = left.split_at(line_len(left));
        lines.push(line)?;
        left = rest;
    }
    Ok(lines)
}
