// The pieces from which the text of a run is put together.
ghost use Rattle.std.specs.Prelude.{◌≡◌, []};

use crate::cutting::name_bytes;
use bucket_terms::Placed;
use key_map::Update;
use key_names::Directory;
use std::alloc::Global;
use std::marker::Model;

/// How many bytes the text of a piece is to have. The number is an estimate made before the text exists.
pub(crate) const PIECE_BYTES: usize = 1 << 20;

/// What the lines of a piece say.
#[derive(Clone, Copy, Debug)]
pub(crate) enum Part<'a> {
    /// Replies of one client.
    Replies(&'a [Placed]),
    /// Updates of the journal, and how many stand before them.
    Updates { before: u64, updates: &'a [Update] },
}

impl<'a> Part<'a> {
    /// How many lines say it.
    pub(crate) fn line_count(&self) -> usize {
        match self {
            Part::Replies(replies) => replies.len(),
            Part::Updates { before: _, updates } => updates.len(),
        }
    }
}

/// What the lines of a piece say, how many bytes they are estimated to have, and how many entries their pages show.
#[derive(Clone, Copy, Debug)]
pub(crate) struct Piece<'a> {
    pub(crate) part: Part<'a>,
    pub(crate) bytes: usize,
    pub(crate) entries: usize,
}

/// The pieces of a text, in order: replies and a journal, as they were added. `write` writes their lines.
///
/// ```
/// let mut pieces = Pieces::new(alloc, &dir);
/// pieces.add_replies(replies)?;
/// pieces.add_journal(updates)?;
/// pieces.write(rt, alloc, sink, &dir, records)?;
/// ```
#[derive(Drop)]
pub struct Pieces<'a> {
    pub(crate) pieces: Vec<Piece<'a>>,
    // The average number of bytes of a name.
    pub(crate) name_bytes: usize,
}

impl<'a> Model for Pieces<'a> {
    ghost use Rattle.std.specs.Prelude.{List};
    ghost use Rattle.run_text.specs.declared.pieces.Piece.{Piece as TextPiece};

    ghost Value = { List TextPiece };

    ghost view = { λ p. p.pieces.items };
}

impl<'a> Pieces<'a> {
    /// No pieces yet, for a text with the names of this directory.
    pub fn new(alloc: Global, dir: &Directory) -> Pieces<'a>
        ensures { result ≡ [] }
    {
        Pieces {
            pieces: Vec::new(alloc),
            name_bytes: name_bytes(dir),
        }
    }
}
