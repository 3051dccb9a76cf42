// A table that is stepped by the names of its words: its sections, searches and locks.
use crate::words::LinkName;
use core_rule::{Event, Kind, State};
use index_words::{
    Field, Layout, Link, LinkSource, Part, PassSize, Place, Side, TreeNode, View, Word,
};
use std::alloc::Global;

#[derive(Drop)]
pub(crate) struct Table {
    alloc: Global,
    layout: Layout,
    state: State,
}

/// The slot that a word names, as far as it fits.
pub(crate) const fn slot_of(word: u64) -> u32 {
    if word < 4_294_967_296 {
        word as u32
    } else {
        u32::MAX
    }
}

/// Whether the link was found from this node by a search on plain links.
fn is_link_from(link: &Link, node: u32) -> bool {
    match link.source {
        LinkSource::Bundle { .. } => false,
        LinkSource::Plain { .. } => link.node == node,
    }
}

/// Whether the seat's search stands at the node, or found a link there that it remembers.
fn is_searched(view: &View, node: u32) -> bool {
    let stands = match view.reading.place {
        Place::Node { node: at, .. } => at == u64::from(node),
        _ => false,
    };
    let links = view.reading.links.as_slice();
    stands || links.iter().any(|link| is_link_from(link, node))
}

impl Table {
    /// The table at the start. None if there is no such layout, or when out of memory.
    pub(crate) fn start(alloc: Global, sizes: &[PassSize]) -> Option<Table> {
        let layout = Layout::new(sizes)?;
        let state = State::start(alloc, &layout, sizes).ok()?;
        Some(Table {
            alloc,
            layout,
            state,
        })
    }

    pub(crate) fn layout(&self) -> &Layout {
        &self.layout
    }

    pub(crate) fn view(&self, seat: u32) -> Option<&View> {
        self.state.view(seat)
    }

    /// What the word with this number holds. None if there is no such word.
    pub(crate) fn word(&self, number: u64) -> Option<u64> {
        self.state.word(number)
    }

    /// Makes a step. Returns whether it was allowed.
    pub(crate) fn makes(&mut self, event: &Event) -> bool {
        self.state.step(self.alloc, event).is_ok()
    }

    pub(crate) fn does(&mut self, seat: u32, kind: Kind, word: Word, value: u64) -> bool {
        let event = Event {
            seat,
            kind,
            word: self.layout.address(word),
            value,
            update: None,
        };
        self.makes(&event)
    }

    pub(crate) fn holds(&self, word: Word) -> u64 {
        self.state
            .word(self.layout.address(word))
            .unwrap_or(u64::MAX)
    }

    pub(crate) fn head(&self, link: LinkName) -> u64 {
        self.holds(Word::Node(Field::Head(link.side), link.node))
    }

    /// The child of the newest entry of a bundle, 0 for none.
    fn child(&self, node: u32, side: Side) -> u64 {
        match self.head(LinkName { node, side }) {
            0 => 0,
            head => self.holds(Word::Entry(Part::Child, slot_of(head))),
        }
    }

    fn has_node(&self, row: &TreeNode) -> bool {
        self.holds(Word::Node(Field::Key, row.slot)) == row.key
            && self.holds(Word::Node(Field::Val, row.slot)) == row.val
            && self.child(row.slot, Side::Left) == u64::from(row.left)
            && self.child(row.slot, Side::Right) == u64::from(row.right)
    }

    /// Whether the words spell the tree with this top and these nodes, by the newest entries.
    pub(crate) fn spells(&self, top: u64, rows: &[TreeNode]) -> bool {
        rows.iter().all(|row| self.has_node(row)) && self.child(0, Side::Right) == top
    }

    /// Whether the seat has read exactly these nodes.
    pub(crate) fn reads(&self, seat: u32, rows: &[TreeNode]) -> bool {
        match self.view(seat) {
            None => false,
            Some(view) => view.reading.tree.as_slice() == rows,
        }
    }

    pub(crate) fn enters(&mut self, seat: u32) -> bool {
        let word = self.holds(Word::Section(seat)).wrapping_add(1);
        self.does(seat, Kind::Enter, Word::Section(seat), word)
    }

    pub(crate) fn leaves(&mut self, seat: u32) -> bool {
        let word = self.holds(Word::Section(seat)).wrapping_add(1);
        self.does(seat, Kind::Leave, Word::Section(seat), word)
    }

    fn loads_stamp(&mut self, seat: u32) -> bool {
        self.does(seat, Kind::LoadStamp, Word::Stamp, 0)
    }

    /// Announces how many updates the seat has seen.
    fn announces(&mut self, seat: u32) -> bool {
        let seen = self.view(seat).map_or(0, |view| view.history.seen.len());
        let value = (seen as u64).wrapping_add(1);
        self.does(seat, Kind::Announce, Word::Announced(seat), value)
    }

    /// Enters, loads the stamp, announces that number, and loads the stamp again.
    pub(crate) fn begins(&mut self, seat: u32) -> bool {
        self.enters(seat)
            && self.loads_stamp(seat)
            && self.announces(seat)
            && self.loads_stamp(seat)
    }

    /// Leaves, and takes the announcement back.
    pub(crate) fn ends(&mut self, seat: u32) -> bool {
        self.leaves(seat) && self.does(seat, Kind::Announce, Word::Announced(seat), 0)
    }

    fn loads_link(&mut self, seat: u32, link: LinkName) -> bool {
        let word = Word::Node(Field::Link(link.side), link.node);
        self.does(seat, Kind::LoadLink, word, 0)
    }

    pub(crate) fn loads_tag(&mut self, seat: u32, link: LinkName) -> bool {
        let word = Word::Node(Field::Tag(link.side), link.node);
        self.does(seat, Kind::LoadTag, word, 0)
    }

    /// The link by which the seat's search for this key goes on: the root's link, or that of the node at which it
    /// stands. None if the search has ended, or the node's key could not be loaded.
    fn goes_on(&mut self, seat: u32, key: u64) -> Option<LinkName> {
        let node = match self.view(seat)?.reading.place {
            Place::Nowhere => {
                return Some(LinkName {
                    node: 0,
                    side: Side::Right,
                });
            }
            Place::Node { node, .. } => slot_of(node),
            Place::Entry { .. } | Place::Gap { .. } => return None,
        };
        let word = Word::Node(Field::Key, node);
        if !self.does(seat, Kind::LoadKeyOrVal, word, 0) {
            return None;
        }
        let side = if key < self.holds(word) {
            Side::Left
        } else {
            Side::Right
        };
        Some(LinkName { node, side })
    }

    /// Searches by plain links for a key that is not there, and loads the tag of the null link at which the search
    /// ends.
    pub(crate) fn searches(&mut self, seat: u32, key: u64) -> bool {
        for _ in 0..=self.layout.nodes {
            let Some(link) = self.goes_on(seat, key) else {
                return false;
            };
            if !self.loads_link(seat, link) {
                return false;
            }
            if self.holds(Word::Node(Field::Link(link.side), link.node)) == 0 {
                return self.loads_tag(seat, link);
            }
        }
        false
    }

    /// Searches for a node by its key, from where the seat stands on. The root, and a node that the search knows, need
    /// no search.
    fn finds(&mut self, seat: u32, node: u32) -> bool {
        let key = self.holds(Word::Node(Field::Key, node));
        for _ in 0..=self.layout.nodes {
            if node == 0 || self.view(seat).is_some_and(|view| is_searched(view, node)) {
                return true;
            }
            let Some(link) = self.goes_on(seat, key) else {
                return false;
            };
            if !self.loads_link(seat, link) {
                return false;
            }
        }
        false
    }

    /// Finds a node, locks it and loads its mark.
    pub(crate) fn locks(&mut self, seat: u32, node: u32) -> bool {
        let own = u64::from(seat) + 1;
        self.finds(seat, node)
            && self.does(seat, Kind::TryLock, Word::Node(Field::Lock, node), own)
            && self.does(seat, Kind::LoadMark, Word::Node(Field::Mark, node), 0)
    }

    pub(crate) fn unlocks(&mut self, seat: u32, node: u32) -> bool {
        self.does(seat, Kind::Unlock, Word::Node(Field::Lock, node), 0)
    }

    pub(crate) fn loads_head(&mut self, seat: u32, link: LinkName) -> bool {
        let head = Word::Node(Field::Head(link.side), link.node);
        self.does(seat, Kind::LoadHead, head, 0)
    }
}
