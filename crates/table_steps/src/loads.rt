//! The loads of the words of nodes and of entries. Each is one load of one word.
ghost use Rattle.std.specs.Prelude.{◌≡◌, ◌<◌, ◌≤◌};
ghost use Rattle.index_words.specs.declared.word.Field.TheVariants.{Key, Val};
ghost use Rattle.core_events.specs.LoadMoves.{ts_loaded, next_loaded};
ghost use Rattle.core_events.specs.LockMoves.{pair_loaded};
ghost use Rattle.core_laws.specs.ViewNeeds.{MayReadHead, MayReadNumber, MayReadChild, MayReadNext, MayReadPair, MayReadMark};
ghost use Rattle.table_rule.specs.Running.{Happened};
ghost use Rattle.table_steps.specs.Loads.{loading_head, loading_number, loading_next, loading_pair, HasLoadedHead, IsAtSelected, FoundChild, HasLoadedChild, HasLoadedMark};
ghost use Rattle.table_steps.specs.Passes.{IsSamePass};

use crate::pass::TablePass;
use index_words::{Field, Part, Side, Word};
use std::marker::Brand;

/// The word if it is 0 or a node of a table with this many, and else 0.
fn node_or_none(word: u64, nodes: u32) -> u32
    ensures node { word ≤ nodes → result ≡ word }
    ensures other { nodes < word → result ≡ 0 }
    ensures there { result ≤ nodes }
{
    if word <= u64::from(nodes) {
        word as u32
    } else {
        0
    }
}

impl<'t> TablePass<'t> {
    /// Loads the head of a bundle: its newest entry, or 0 if there is none. The pass then stands at that entry.
    pub fn load_head(&mut self, node: u32, side: Side) -> u32
        requires may { MayReadHead self.old.view node }
        ensures same { IsSamePass self.old self.new }
        ensures event { Happened self.old.view.layout (loading_head self.old node side) self.old.view result self.new.view }
        ensures view { HasLoadedHead self.old.view node side result self.new.view }
        ensures there { result ≤ self.old.view.layout.entries }
    {
        self.seat.facts();
        let table = self.table;
        let word = table
            .ruled
            .load::<Brand>(&mut self.seat, Word::Node(Field::Head(side), node));
        let entries = table.ruled.layout().entries;
        prove!(word <= entries as u64);
        word as u32
    }

    /// Loads the stamp of the entry at which the pass stands: the entry's number, or 0 while the entry is pending.
    pub fn load_ts(&mut self, entry: u32) -> u64
        requires may { MayReadNumber self.old.view entry }
        ensures same { IsSamePass self.old self.new }
        ensures event { Happened self.old.view.layout (loading_number self.old entry) self.old.view result self.new.view }
        ensures view { self.new.view ≡ ts_loaded self.old.view entry result }
    {
        let table = self.table;
        table
            .ruled
            .load::<Brand>(&mut self.seat, Word::Entry(Part::Stamp, entry))
    }

    /// Loads the child of the entry at which the pass stands, 0 for none. At the entry that the section number selects
    /// that is what the word holds. An entry that is prepared may hold a number that is no node; then the answer is 0.
    pub fn load_ptr(&mut self, entry: u32) -> u32
        requires may { MayReadChild self.old.view entry }
        ensures same { IsSamePass self.old self.new }
        ensures loads { HasLoadedChild self.old entry result self.new.view }
        ensures selected { IsAtSelected self.old.view entry → FoundChild self.old entry result self.new.view }
        ensures there { result ≤ self.old.view.layout.nodes }
    {
        let table = self.table;
        let word = table
            .ruled
            .load::<Brand>(&mut self.seat, Word::Entry(Part::Child, entry));
        node_or_none(word, table.ruled.layout().nodes)
    }

    /// Loads the next of the entry at which the pass stands: the next older entry of the bundle, 0 for none. The pass
    /// then stands there.
    pub fn load_next(&mut self, entry: u32) -> u32
        requires may { MayReadNext self.old.view entry }
        ensures same { IsSamePass self.old self.new }
        ensures event { Happened self.old.view.layout (loading_next self.old entry) self.old.view result self.new.view }
        ensures view { self.new.view ≡ next_loaded self.old.view entry result }
        ensures there { result ≤ self.old.view.layout.entries }
    {
        self.seat.facts();
        let table = self.table;
        let word = table
            .ruled
            .load::<Brand>(&mut self.seat, Word::Entry(Part::Next, entry));
        let entries = table.ruled.layout().entries;
        prove!(word <= entries as u64);
        word as u32
    }

    /// Loads the key of a node.
    pub fn load_key(&mut self, node: u32) -> u64
        requires may { MayReadPair self.old.view node }
        ensures same { IsSamePass self.old self.new }
        ensures event { Happened self.old.view.layout (loading_pair self.old Key node) self.old.view result self.new.view }
        ensures view { self.new.view ≡ pair_loaded self.old.view Key node result }
    {
        let table = self.table;
        table
            .ruled
            .load::<Brand>(&mut self.seat, Word::Node(Field::Key, node))
    }

    /// Loads the value of a node.
    pub fn load_val(&mut self, node: u32) -> u64
        requires may { MayReadPair self.old.view node }
        ensures same { IsSamePass self.old self.new }
        ensures event { Happened self.old.view.layout (loading_pair self.old Val node) self.old.view result self.new.view }
        ensures view { self.new.view ≡ pair_loaded self.old.view Val node result }
    {
        let table = self.table;
        table
            .ruled
            .load::<Brand>(&mut self.seat, Word::Node(Field::Val, node))
    }

    /// Loads the mark of a node: whether the node was taken out of the tree. A mark on a reachable node that this pass
    /// did not take out is counted.
    pub fn load_mark(&mut self, node: u32) -> bool
        requires may { MayReadMark self.old.view node }
        ensures same { IsSamePass self.old self.new }
        ensures loads { HasLoadedMark self.old node result self.new.view }
    {
        let table = self.table;
        let word = table
            .ruled
            .load::<Brand>(&mut self.seat, Word::Node(Field::Mark, node));
        word != 0
    }
}
