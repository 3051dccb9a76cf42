// The steps of an update that belong together: new nodes and entries, the raise, plain links, and whole puts and
// removals.
use crate::table::{Table, slot_of};
use crate::words::LinkName;
use core_rule::{Event, Kind};
use index_words::{Change, Field, Part, Side, Update, Word};

/// A link, and the entry that is to lead it to another child.
#[derive(Clone, Copy)]
pub(crate) struct Turn {
    pub(crate) link: LinkName,
    pub(crate) entry: u32,
    pub(crate) child: u32,
}

/// A link of a new node: its one entry, with its child.
#[derive(Clone, Copy)]
pub(crate) struct NewLink {
    pub(crate) entry: u32,
    pub(crate) child: u32,
}

/// A new node: its slot, its pair, and the entry of the bundle on each side, if there is one.
#[derive(Clone, Copy)]
pub(crate) struct NewNode {
    pub(crate) slot: u32,
    pub(crate) key: u64,
    pub(crate) val: u64,
    pub(crate) left: Option<NewLink>,
    pub(crate) right: Option<NewLink>,
}

impl Table {
    pub(crate) fn fills_entry(&mut self, seat: u32, entry: u32, child: u32, next: u64) -> bool {
        let child_word = Word::Entry(Part::Child, entry);
        self.does(seat, Kind::Fill, child_word, u64::from(child))
            && self.does(seat, Kind::Fill, Word::Entry(Part::Stamp, entry), 0)
            && self.does(seat, Kind::Fill, Word::Entry(Part::Next, entry), next)
    }

    fn fills_field(&mut self, seat: u32, field: Field, node: u32, value: u64) -> bool {
        self.does(seat, Kind::Fill, Word::Node(field, node), value)
    }

    fn fills_head(&mut self, seat: u32, node: u32, side: Side, link: Option<NewLink>) -> bool {
        match link {
            None => self.fills_field(seat, Field::Head(side), node, 0),
            Some(link) => {
                self.fills_field(seat, Field::Head(side), node, u64::from(link.entry))
                    && self.fills_entry(seat, link.entry, link.child, 0)
            }
        }
    }

    fn fills_side(&mut self, seat: u32, node: u32, side: Side, link: Option<NewLink>) -> bool {
        let child = link.map_or(0, |link| u64::from(link.child));
        self.fills_head(seat, node, side, link)
            && self.fills_field(seat, Field::Link(side), node, child)
            && self.fills_field(seat, Field::Tag(side), node, 0)
    }

    /// Fills a new node, with its bundles and its plain links.
    pub(crate) fn fills(&mut self, seat: u32, node: NewNode) -> bool {
        self.fills_field(seat, Field::Key, node.slot, node.key)
            && self.fills_field(seat, Field::Val, node.slot, node.val)
            && self.fills_field(seat, Field::Mark, node.slot, 0)
            && self.fills_side(seat, node.slot, Side::Left, node.left)
            && self.fills_side(seat, node.slot, Side::Right, node.right)
    }

    /// Fills an entry, loads the head of the link with its number, and prepares the entry there.
    pub(crate) fn prepares(&mut self, seat: u32, at: Turn) -> bool {
        let head = self.head(at.link);
        let word = Word::Node(Field::Head(at.link.side), at.link.node);
        let number = Word::Entry(Part::Stamp, slot_of(head));
        self.fills_entry(seat, at.entry, at.child, head)
            && self.loads_head(seat, at.link)
            && (head == 0 || self.does(seat, Kind::LoadTs, number, 0))
            && self.does(seat, Kind::Prepare, word, u64::from(at.entry))
    }

    /// The raise of an update by the pass of the seat's number.
    pub(crate) fn raising(&self, seat: u32, key: u64, change: Change) -> Event {
        Event {
            seat,
            kind: Kind::Raise,
            word: self.layout().address(Word::Stamp),
            value: 0,
            update: Some(Update {
                client: seat,
                line: 0,
                key,
                change,
            }),
        }
    }

    fn raises(&mut self, seat: u32, key: u64, change: Change) -> bool {
        let event = self.raising(seat, key, change);
        self.makes(&event)
    }

    /// Writes the number of the seat's raise into an entry.
    pub(crate) fn finalises(&mut self, seat: u32, entry: u32) -> bool {
        let number = match self.view(seat) {
            None => 0,
            Some(view) => view.update.raised.unwrap_or(0),
        };
        let word = Word::Entry(Part::Stamp, entry);
        self.does(seat, Kind::Finalise, word, number)
    }

    pub(crate) fn marks(&mut self, seat: u32, node: u32) -> bool {
        self.does(seat, Kind::Mark, Word::Node(Field::Mark, node), 1)
    }

    /// Sets a plain link.
    pub(crate) fn sets_link(&mut self, seat: u32, link: LinkName, child: u64) -> bool {
        let word = Word::Node(Field::Link(link.side), link.node);
        self.does(seat, Kind::SetLink, word, child)
    }

    /// Loads a plain link's tag, and raises it.
    pub(crate) fn raises_tag(&mut self, seat: u32, link: LinkName) -> bool {
        let word = Word::Node(Field::Tag(link.side), link.node);
        let tag = self.holds(word).wrapping_add(1);
        self.loads_tag(seat, link) && self.does(seat, Kind::SetTag, word, tag)
    }

    /// A whole put of an absent key. The new node's slot is the child of the turn.
    pub(crate) fn puts(&mut self, seat: u32, at: Turn, key: u64, val: u64) -> bool {
        let node = NewNode {
            slot: at.child,
            key,
            val,
            left: None,
            right: None,
        };
        self.begins(seat)
            && self.fills(seat, node)
            && self.searches(seat, key)
            && self.locks(seat, at.link.node)
            && self.prepares(seat, at)
            && self.raises(seat, key, Change::Put(val))
            && self.finalises(seat, at.entry)
            && self.sets_link(seat, at.link, u64::from(at.child))
            && self.unlocks(seat, at.link.node)
            && self.ends(seat)
    }

    /// A whole removal of the node in the old slot, which has at most one child: the child of the turn.
    pub(crate) fn removes(&mut self, seat: u32, at: Turn, old: u32, key: u64) -> bool {
        self.begins(seat)
            && self.locks(seat, at.link.node)
            && self.locks(seat, old)
            && self.prepares(seat, at)
            && self.raises(seat, key, Change::Remove)
            && self.finalises(seat, at.entry)
            && self.marks(seat, old)
            && self.sets_link(seat, at.link, u64::from(at.child))
            && (at.child != 0 || self.raises_tag(seat, at.link))
            && self.unlocks(seat, old)
            && self.unlocks(seat, at.link.node)
            && self.ends(seat)
    }
}
