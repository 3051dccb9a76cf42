//! The steps on plain links and on their tags. Each is one move of one word. The links of a node are set by the pass
//! that has locked it; a search loads them without a lock.
ghost use Rattle.std.specs.Prelude.{◌≡◌, ◌+◌, ◌≤◌};
ghost use Rattle.core_events.specs.PlainMoves.{link_loaded, tag_loaded, link_set, tag_set};
ghost use Rattle.core_laws.specs.PlainNeeds.{MayReadLink, MayReadTag, MaySetLink, MaySetTag};
ghost use Rattle.table_rule.specs.Running.{Happened, Stored};
ghost use Rattle.table_steps.specs.Links.{loading_link, loading_tag, setting_link, setting_tag};
ghost use Rattle.table_steps.specs.Passes.{IsSamePass};

use crate::pass::TablePass;
use index_words::{Field, Side, Word};
use std::marker::Brand;

impl<'t> TablePass<'t> {
    /// Loads what holds a node's plain links into the processor's cache, before a search loads one of them. It is no
    /// event, it changes nothing, and nothing is known from it.
    #[inline(always)]
    pub fn fetch_links(&self, node: u32) {
        let table = self.table;
        table.ruled.fetch_links(node);
    }

    /// Loads the key of the node at a plain link into the processor's cache. It is no event, it changes nothing, and
    /// nothing is known from it. Only a search from the root calls it: a call at each entry took 5 to 12 % more time
    /// where the tree fits into the cache.
    #[inline(always)]
    pub fn fetch_child(&self, node: u32, side: Side) {
        let table = self.table;
        table.ruled.fetch_child(node, side);
    }

    /// Loads a plain link: the child, or 0 for none. The pass has locked the node, or its search stands there and then
    /// goes on by the link.
    ///
    /// The condition is narrower than the event's need, which allows each locked node: the node was found unmarked, and
    /// the root has its right link alone. Only there does the rule say that the word is a node of the table, or 0.
    pub fn load_link(&mut self, node: u32, side: Side) -> u32
        requires may { MayReadLink self.old.view node side }
        ensures same { IsSamePass self.old self.new }
        ensures event { Happened self.old.view.layout (loading_link self.old node side) self.old.view result self.new.view }
        ensures view { self.new.view ≡ link_loaded self.old.view node side result }
        ensures there { result ≤ self.old.view.layout.nodes }
    {
        self.seat.facts();
        let table = self.table;
        let word = table
            .ruled
            .load::<Brand>(&mut self.seat, Word::Node(Field::Link(side), node));
        let nodes = table.ruled.layout().nodes;
        prove!(word <= nodes as u64);
        word as u32
    }

    /// Loads the tag of a plain link: how often the link became null. It is kept with the link where the pass's search
    /// has found the link to be null.
    pub fn load_tag(&mut self, node: u32, side: Side) -> u64
        requires may { MayReadTag self.old.view node }
        ensures same { IsSamePass self.old self.new }
        ensures event { Happened self.old.view.layout (loading_tag self.old node side) self.old.view result self.new.view }
        ensures view { self.new.view ≡ tag_loaded self.old.view node side result }
    {
        self.seat.facts();
        let table = self.table;
        let word = Word::Node(Field::Tag(side), node);
        table.ruled.load::<Brand>(&mut self.seat, word)
    }

    /// Sets a plain link of a locked node to the child that it has had since the raise, 0 for none.
    pub fn set_link(&mut self, node: u32, side: Side, child: u32)
        requires may { MaySetLink self.old.view node side child }
        ensures same { IsSamePass self.old self.new }
        ensures event { Stored self.old.view.layout (setting_link self.old node side child) self.old.view self.new.view }
        ensures view { self.new.view ≡ link_set self.old.view node side child }
    {
        self.seat.facts();
        let table = self.table;
        let word = Word::Node(Field::Link(side), node);
        table
            .ruled
            .store::<Brand>(&mut self.seat, word, child as u64);
    }

    /// Raises the tag of a plain link that the update has made null. It was loaded under the lock.
    pub fn set_tag(&mut self, node: u32, side: Side, tag: u64)
        requires may { MaySetTag self.old.view node side tag }
        ensures same { IsSamePass self.old self.new }
        ensures event { Stored self.old.view.layout (setting_tag self.old node side tag) self.old.view self.new.view }
        ensures view { self.new.view ≡ tag_set self.old.view node side (tag + 1) }
    {
        self.seat.facts();
        let table = self.table;
        let word = Word::Node(Field::Tag(side), node);
        table.ruled.store::<Brand>(&mut self.seat, word, tag + 1);
    }
}
