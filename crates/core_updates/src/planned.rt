// What a plan says, as lists in the order in which the update does it.
ghost use Rattle.std.specs.Prelude.{◌≡◌, ◌==◌, ◌<◌, ◌≤◌, ◌++◌, length};
ghost use Rattle.arrayvec.specs.ArrayVec.{array_vec_len};
ghost use Rattle.core_updates.specs.Plans.{key_of, change_of, locks_of, link_at, next_link_of, new_node_of, front_of, next_front_of, entries_in, out_of, node_fills, entry_fills, fresh_to, fresh_listed, head_of, child_of};

use crate::plan::{Fresh, Front, JoinPlan, NewNode, Plan, PlanSlots};
use arrayvec::ArrayVec;
use core_trees::Link;
use index_words::{Change, Field, Filled, Part, Side, Word};

impl Plan {
    /// The key of the update.
    pub fn key(&self) -> u64
        ensures { result ≡ key_of self.now }
    {
        match self {
            Plan::Grow(plan) => plan.pair.key,
            Plan::Replace(plan) => plan.pair.key,
            Plan::Lift(plan) => plan.key,
            Plan::Join(plan) => plan.key,
        }
    }

    /// What the update does to its key.
    pub fn change(&self) -> Change
        ensures { result ≡ change_of self.now }
    {
        match self {
            Plan::Grow(plan) => Change::Put(plan.pair.val),
            Plan::Replace(plan) => Change::Put(plan.pair.val),
            Plan::Lift(_) => Change::Remove,
            Plan::Join(_) => Change::Remove,
        }
    }

    /// The nodes that are locked, in their order.
    pub fn locks(&self) -> ArrayVec<u32, 4>
        ensures { result.items ≡ locks_of self.now }
    {
        match self {
            Plan::Grow(plan) => nodes(&[plan.at.node]),
            Plan::Replace(plan) => nodes(&[plan.at.node, plan.node]),
            Plan::Lift(plan) => nodes(&[plan.at.node, plan.node]),
            Plan::Join(plan) => plan.locks(),
        }
    }

    /// The link at which the tree changes.
    pub fn at(&self) -> Link
        ensures { result ≡ link_at self.now }
    {
        match self {
            Plan::Grow(plan) => plan.at,
            Plan::Replace(plan) => plan.at,
            Plan::Lift(plan) => plan.at,
            Plan::Join(plan) => plan.at,
        }
    }

    /// The link to the successor, where that is not the right child of the removed node.
    pub fn next_at(&self) -> Option<Link>
        ensures { result ≡ next_link_of self.now }
    {
        match self {
            Plan::Grow(_) | Plan::Replace(_) | Plan::Lift(_) => None,
            Plan::Join(plan) if plan.is_near() => None,
            Plan::Join(plan) => Some(plan.next.at),
        }
    }

    /// The node that is brought in, where there is one.
    pub fn new_node(&self, slots: &PlanSlots) -> Option<NewNode>
        ensures { result ≡ new_node_of self.now slots.now }
    {
        match self {
            Plan::Grow(plan) => Some(NewNode {
                slot: slots.node,
                pair: plan.pair,
                left: None,
                right: None,
            }),
            Plan::Replace(plan) => Some(NewNode {
                slot: slots.node,
                pair: plan.pair,
                left: fresh_entry(slots.left, plan.left),
                right: fresh_entry(slots.right, plan.right),
            }),
            Plan::Lift(_) => None,
            Plan::Join(plan) => Some(plan.new_node(slots)),
        }
    }

    /// The entry that is put in front of the bundle of the link at which the tree changes.
    pub fn front(&self, slots: &PlanSlots) -> Front
        ensures { result ≡ front_of self.now slots.now }
    {
        let child = match self {
            Plan::Lift(plan) => plan.child,
            Plan::Grow(_) | Plan::Replace(_) | Plan::Join(_) => slots.node,
        };
        front_at(self.at(), slots.at, child)
    }

    /// The entry that is put in front of the bundle of the link to the successor, where that is not the right child of
    /// the removed node.
    pub fn next_front(&self, slots: &PlanSlots) -> Option<Front>
        ensures { result ≡ next_front_of self.now slots.now }
    {
        match self {
            Plan::Grow(_) | Plan::Replace(_) | Plan::Lift(_) => None,
            Plan::Join(plan) => plan.next_front(slots),
        }
    }

    /// All entries that the update uses: those in front of bundles first, then those of the new node.
    pub fn entries(&self, slots: &PlanSlots) -> ArrayVec<u32, 4>
        ensures { result.items ≡ entries_in self.now slots.now }
    {
        let mut entries = ArrayVec::new();
        entries.push(self.front(slots).entry);
        if let Some(front) = self.next_front(slots) {
            entries.push(front.entry);
        }
        if let Some(node) = self.new_node(slots) {
            push_fresh(&mut entries, node.left);
            push_fresh(&mut entries, node.right);
        }
        entries
    }

    /// The nodes that go out with the raise, and are marked after it, in their order.
    pub fn out(&self) -> ArrayVec<u32, 2>
        ensures { result.items ≡ out_of self.now }
    {
        match self {
            Plan::Grow(_) => ArrayVec::new(),
            Plan::Replace(plan) => nodes(&[plan.node]),
            Plan::Lift(plan) => nodes(&[plan.node]),
            Plan::Join(plan) => nodes(&[plan.node, plan.next.node]),
        }
    }
}

impl JoinPlan {
    /// Whether the successor is the right child of the removed node.
    pub fn is_near(&self) -> bool
        ensures { result ≡ (self.now.next.at.node == self.now.node) }
    {
        self.next.at.node == self.node
    }

    fn locks(&self) -> ArrayVec<u32, 4>
        ensures { result.items ≡ locks_of (Plan.Join self.now) }
    {
        let next = self.next;
        if self.is_near() {
            nodes(&[self.at.node, self.node, next.node])
        } else {
            nodes(&[self.at.node, self.node, next.at.node, next.node])
        }
    }

    fn new_node(&self, slots: &PlanSlots) -> NewNode
        ensures { Some result ≡ new_node_of (Plan.Join self.now) slots.now }
    {
        let right = if self.is_near() {
            self.next.right
        } else {
            self.right
        };
        NewNode {
            slot: slots.node,
            pair: self.next.pair,
            left: fresh_entry(slots.left, self.left),
            right: fresh_entry(slots.right, right),
        }
    }

    fn next_front(&self, slots: &PlanSlots) -> Option<Front>
        ensures { result ≡ next_front_of (Plan.Join self.now) slots.now }
    {
        if self.is_near() {
            None
        } else {
            Some(front_at(self.next.at, slots.next, self.next.right))
        }
    }
}

impl NewNode {
    /// The words of the node that are filled, each with its value.
    pub fn fills(&self) -> [Filled; 9]
        ensures { result ≡ node_fills self.now }
    {
        let slot = self.slot;
        [
            filled(Word::Node(Field::Mark, slot), 0),
            filled(Word::Node(Field::Key, slot), self.pair.key),
            filled(Word::Node(Field::Val, slot), self.pair.val),
            filled(Word::Node(Field::Head(Side::Left), slot), head(self.left)),
            filled(Word::Node(Field::Head(Side::Right), slot), head(self.right)),
            filled(Word::Node(Field::Link(Side::Left), slot), child(self.left)),
            filled(
                Word::Node(Field::Link(Side::Right), slot),
                child(self.right),
            ),
            filled(Word::Node(Field::Tag(Side::Left), slot), 0),
            filled(Word::Node(Field::Tag(Side::Right), slot), 0),
        ]
    }
}

impl Fresh {
    /// The words of the entry that are filled, each with its value.
    pub fn fills(&self) -> [Filled; 3]
        ensures { result ≡ entry_fills self.now.entry self.now.child 0 }
    {
        fills_of_entry(self.entry, self.child, 0)
    }
}

impl Front {
    /// The words of the entry that are filled, each with its value, where the newest entry of the bundle was found to
    /// be `behind`.
    pub fn fills(&self, behind: u32) -> [Filled; 3]
        ensures { result ≡ entry_fills self.now.entry self.now.child behind }
    {
        fills_of_entry(self.entry, self.child, behind)
    }
}

fn fills_of_entry(entry: u32, child: u32, behind: u32) -> [Filled; 3]
    ensures { result ≡ entry_fills entry child behind }
{
    [
        filled(Word::Entry(Part::Child, entry), u64::from(child)),
        filled(Word::Entry(Part::Stamp, entry), 0),
        filled(Word::Entry(Part::Next, entry), u64::from(behind)),
    ]
}

fn filled(word: Word, value: u64) -> Filled
    ensures { result ≡ record { word = word; value = value } }
{
    Filled { word, value }
}

/// A list of these nodes.
fn nodes<const N: usize>(nodes: &[u32]) -> ArrayVec<u32, N>
    requires { length nodes.now ≤ N }
    ensures { result.items ≡ nodes.now }
{
    let mut list = ArrayVec::new();
    for node in nodes {
        list.push(*node);
    }
    list
}

fn push_fresh(entries: &mut ArrayVec<u32, 4>, fresh: Option<Fresh>)
    requires { array_vec_len entries.old < 4 }
    ensures { entries.new.items ≡ entries.old.items ++ fresh_listed fresh }
{
    if let Some(fresh) = fresh {
        entries.push(fresh.entry);
    }
}

fn head(fresh: Option<Fresh>) -> u64
    ensures { result ≡ head_of fresh }
{
    match fresh {
        None => 0,
        Some(fresh) => u64::from(fresh.entry),
    }
}

fn child(fresh: Option<Fresh>) -> u64
    ensures { result ≡ child_of fresh }
{
    match fresh {
        None => 0,
        Some(fresh) => u64::from(fresh.child),
    }
}

fn fresh_entry(entry: u32, child: u32) -> Option<Fresh>
    ensures { result ≡ fresh_to entry child }
{
    if child == 0 {
        None
    } else {
        Some(Fresh { entry, child })
    }
}

fn front_at(at: Link, entry: u32, child: u32) -> Front
    ensures { result ≡ record { at = at; entry = entry; child = child } }
{
    Front { at, entry, child }
}
