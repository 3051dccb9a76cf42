// What the needs of an event are tested on.
use index_words::{Layout, View};

/// A table: its layout, its words, and the views of its seats.
#[derive(Clone, Copy)]
pub(crate) struct Seen<'a> {
    pub(crate) layout: &'a Layout,
    pub(crate) words: &'a [u64],
    pub(crate) views: &'a [View],
}
