//! The search for a key, down the plain links.
//!
//! Other passes set these links meanwhile. So a search may reach a node that was taken out, and go on from it; what it
//! finds is looked at again under locks. Each node at which it goes on has its key strictly between the keys of the two
//! turns, so the search ends.
ghost use Rattle.std.specs.Prelude.{◌≡◌, IfOk, IfErr};
ghost use Rattle.core_events.specs.PlainMoves.{tag_loaded};
ghost use Rattle.core_laws.specs.PlainNeeds.{MayReadTag};
ghost use Rattle.table_steps.specs.Passes.{IsAlone, IsSamePass};
ghost use Rattle.update_search.specs.Outcomes.{HasRisen, IsCounted, KeepsPlaces};
ghost use Rattle.update_search.specs.Searching.{HoldsOdd, IsAtTop, KeepsSearch, MeetsOdd};
ghost use Rattle.update_search.specs.Ends.{IsEnd};

use crate::laws::search_laws;
use crate::outcome::Failed;
use crate::turns::{TOP, Turns, link, side_to};
use core_trees::Link;
use index_words::Turn;
use table_steps::TablePass;

/// A null link at which a search has ended, with its tag: how often the link became null.
#[derive(Clone, Copy, Debug, PartialEq, Eq)]
pub struct Gap {
    pub at: Link,
    pub tag: u64,
    /// The key at which the search last went on to the left. It gives a caller a place where the next search may begin,
    /// and nothing rests on it: other passes may put keys below it, or take it out.
    pub above: Option<u64>,
}

/// A node at which a search has ended: it has the key.
#[derive(Clone, Copy, Debug, PartialEq, Eq)]
pub struct KeyNode {
    /// The link by which the search reached it.
    pub at: Link,
    pub node: u32,
    /// The turns up to that link.
    pub turns: Turns,
}

/// Where the search for a key ends.
#[derive(Clone, Copy, PartialEq, Eq)]
pub(crate) enum End {
    /// At a null link: the key is strictly between the keys of the last turns.
    Missing(Gap),
    Found(KeyNode),
}

/// Finds the mark of one of two nodes: the node, which is locked, or the turn's node.
fn find_mark(pass: &mut TablePass<'_>, node: u32, turn: Turn)
    requires odd { HoldsOdd pass.old.view node turn }
    ensures same { IsSamePass pass.old pass.new }
    ensures places { KeepsPlaces pass.old.view pass.new.view }
    ensures counted { HasRisen pass.old.view.counts.moves pass.new.view.counts.moves }
    ensures alone { ¬ IsAlone pass.new.view }
{
    search_laws();
    pass.facts();
    if pass.load_mark(node) {
        return;
    }
    if pass.load_mark(turn.node) {
        return;
    }
    unreachable!()
}

/// Why a search cannot go on at a node whose key does not lie beyond a turn: one of the two nodes was taken out. The
/// mark of the turn's node shows it, or the node waits to be unlinked: then it is locked, or is marked by now.
pub(crate) fn meet_odd(pass: &mut TablePass<'_>, node: u32, turn: Turn) -> Failed
    requires odd { MeetsOdd pass.old.view node turn }
    ensures same { IsSamePass pass.old pass.new }
    ensures given_up { KeepsPlaces pass.old.view pass.new.view }
    ensures counted { IsCounted result pass.old.view pass.new.view }
    ensures alone { ¬ IsAlone pass.new.view }
{
    search_laws();
    pass.facts();
    if pass.load_mark(turn.node) {
        return Failed::Moved;
    }
    if !pass.try_lock(node) {
        return Failed::Busy;
    }
    find_mark(pass, node, turn);
    pass.unlock(node);
    Failed::Moved
}

/// The null link at which the search has ended with these turns, and its tag.
pub(crate) fn end_at(pass: &mut TablePass<'_>, at: Link, turns: Turns) -> Gap
    requires may { MayReadTag pass.old.view at.node }
    ensures same { IsSamePass pass.old pass.new }
    ensures at { result.at ≡ at }
    ensures view { pass.new.view ≡ tag_loaded pass.old.view at.node at.side result.tag }
{
    let tag = pass.load_tag(at.node, at.side);
    let above = turns.left_key();
    Gap { at, tag, above }
}

/// Where the search for a key ends.
///
/// # Errors
/// The search has met a node that was taken out, and cannot go on there.
pub(crate) fn find_end(pass: &mut TablePass<'_>, key: u64) -> Result<End, Failed>
    requires top { IsAtTop pass.old.view }
    ensures same { IsSamePass pass.old pass.new }
    ensures keeps { IfOk result (λ end. KeepsSearch pass.old.view pass.new.view) }
    ensures end { IfOk result (IsEnd pass.new.view key) }
    ensures given_up { IfErr result (λ failed. KeepsPlaces pass.old.view pass.new.view) }
    ensures counted { IfErr result (λ failed. IsCounted failed pass.old.view pass.new.view) }
    ensures alone { IfErr result (λ failed. ¬ IsAlone pass.new.view) }
{
    search_laws();
    pass.facts();
    let mut at = TOP;
    let mut turns = Turns::none();
    'down: loop {
        let node = pass.load_link(at.node, at.side);
        if node == 0 {
            return Ok(End::Missing(end_at(pass, at, turns)));
        }
        // The links are in the cache by the time the key has given the side.
        pass.fetch_links(node);
        let here = pass.load_key(node);
        if let Some(turn) = turns.crossed_by(here) {
            return Err(meet_odd(pass, node, turn));
        }
        if here == key {
            return Ok(End::Found(KeyNode { at, node, turns }));
        }
        let side = side_to(key, here);
        turns = turns.with(side, Turn { node, key: here });
        at = link(node, side);
    }
}
