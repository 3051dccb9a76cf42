// Blocks of lines, into which an input is cut: each is read as a whole, several at once on threads.
ghost use Rattle.std.specs.Prelude.{◌≡◌, ◌≤◌, ◌==◌, ◌++◌, length, IfOk};
ghost use Rattle.std.specs.List.{position};
ghost use Rattle.request_lines.specs.InputParts.{texts_of, texts_left};
ghost use Rattle.line_grammar.specs.Left.{size_left};
ghost use Rattle.request_lines.specs.Said.{texts_in};

use key_names::NoMemory;
use memchr::memchr;
use std::alloc::Global;

/// The fewest bytes of the lines of a block other than the last. An input of no more bytes starts no thread.
pub(crate) const BLOCK_BYTES: usize = 1 << 18;

/// The blocks of these lines, in order.
pub(crate) fn blocks_of(alloc: Global, lines: &[u8]) -> Result<Vec<&[u8]>, NoMemory>
    ensures { IfOk result (λ blocks. texts_in blocks.items ≡ texts_of lines.now) }
{
    let mut blocks = Vec::new(alloc);
    let mut left = Some(lines);
    while let Some(lines) = left {
        let (block, rest) = first_block(lines);
        blocks.push(block)?;
        left = rest;
    }
    Ok(blocks)
}

/// The first block of these lines, and what is left after it: None after the last one.
pub(crate) fn first_block(lines: &[u8]) -> (&[u8], Option<&[u8]>)
    ensures cut { texts_of lines.now ≡ texts_of result.0.now ++ texts_left result.1 }
    ensures shorter { size_left result.1 ≤ length lines.now }
{
    let (front, back) = lines.split_at(lines.len().min(BLOCK_BYTES));
    match line_feed(back) {
        Some(end) => {
            let (block, _) = lines.split_at(front.len() + end);
            let (_, rest) = lines.split_at(front.len() + end + 1);
            (block, Some(rest))
        }
        None => (lines, None),
    }
}

// The place of the first line feed.
fn line_feed(bytes: &[u8]) -> Option<usize>
    ensures { result ≡ position (λ b. b == 10) bytes.now }
{
    memchr(b'\n', bytes)
}
