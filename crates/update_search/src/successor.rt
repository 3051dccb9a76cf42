//! The walk to the successor of a node that is to be removed: from its right child on to the left.
//!
//! The node is locked by then, and was found unmarked. The walk goes on where the search for the node's key has stepped
//! to the right of it. So the keys where it goes on are above the node's key, and where it ends no key is between.
ghost use Rattle.std.specs.Prelude.{IfOk, IfErr};
ghost use Rattle.table_steps.specs.Passes.{IsAlone, IsSamePass};
ghost use Rattle.update_search.specs.Outcomes.{IsCounted, KeepsPlaces};
ghost use Rattle.update_search.specs.Searching.{KeepsSearch};
ghost use Rattle.update_search.specs.Successors.{IsOnWalk, IsNext};

use crate::descent::{Gap, end_at, meet_odd};
use crate::laws::search_laws;
use crate::outcome::Failed;
use crate::turns::{Turns, link};
use core_trees::Link;
use index_words::{Side, Turn};
use table_steps::TablePass;

/// Where a walk to a successor stands.
#[derive(Clone, Copy, Debug, PartialEq, Eq)]
pub struct Walk {
    /// The link by which it reached the node.
    pub at: Link,
    pub node: u32,
    /// The turns up to that link; the last one to the right is at the node that is to be removed.
    pub turns: Turns,
}

/// A node without a left child, at which a walk to a successor has ended.
#[derive(Clone, Copy, Debug, PartialEq, Eq)]
pub struct NextFound {
    /// The link by which the walk reached it.
    pub at: Link,
    pub node: u32,
    /// Its left link: no key is between that of the node that is to be removed and its own.
    pub gap: Gap,
}

/// Where a walk to a successor ends.
///
/// # Errors
/// The walk has met a node that was taken out, and cannot go on there.
pub fn find_next(pass: &mut TablePass<'_>, walk: Walk) -> Result<NextFound, Failed>
    requires walk { IsOnWalk pass.old.view walk }
    ensures same { IsSamePass pass.old pass.new }
    ensures keeps { IfOk result (λ found. KeepsSearch pass.old.view pass.new.view) }
    ensures next { IfOk result (IsNext pass.new.view walk) }
    ensures given_up { IfErr result (λ failed. KeepsPlaces pass.old.view pass.new.view) }
    ensures counted { IfErr result (λ failed. IsCounted failed pass.old.view pass.new.view) }
    ensures alone { IfErr result (λ failed. ¬ IsAlone pass.new.view) }
{
    search_laws();
    let mut walk = walk;
    'left: loop {
        pass.facts();
        let here = pass.load_key(walk.node);
        if let Some(turn) = walk.turns.crossed_by(here) {
            return Err(meet_odd(pass, walk.node, turn));
        }
        let Walk { at, node, turns } = walk;
        let left = pass.load_link(node, Side::Left);
        if left == 0 {
            let gap = end_at(pass, link(node, Side::Left), turns);
            return Ok(NextFound { at, node, gap });
        }
        walk = Walk {
            at: link(node, Side::Left),
            node: left,
            turns: turns.with(Side::Left, Turn { node, key: here }),
        };
    }
}
