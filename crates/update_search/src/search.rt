//! What the search for an update finds for a try.
ghost use Rattle.std.specs.Prelude.{◌≡◌, ℕ, [], IfOk, IfErr, IfSome, None};
ghost use Rattle.key_map.specs.declared.update.Change.TheVariants.{Remove};
ghost use Rattle.table_steps.specs.Passes.{IsAlone, IsSamePass};
ghost use Rattle.plan_laws.specs.Tries.{IsTrying};
ghost use Rattle.update_search.specs.Aims.{IsAim, IsAimOf};
ghost use Rattle.update_search.specs.Ends.{IsFoundAt, IsMissing};
ghost use Rattle.update_search.specs.Outcomes.{IsCounted, KeepsPlaces};
ghost use Rattle.update_search.specs.Searching.{IsAtTop, KeepsSearch};

use crate::descent::{End, Gap, KeyNode, find_end};
use crate::laws::search_laws;
use crate::outcome::Failed;
use index_words::{Change, Pair, Side};
use table_steps::TablePass;

/// What a try is to do, and where.
#[derive(Clone, Copy, Debug, PartialEq, Eq)]
pub enum Aim {
    /// A put of a key that the search has not found.
    Grow {
        pair: Pair,
        gap: Gap,
    },
    /// A put of a key that it has found.
    Replace {
        pair: Pair,
        found: KeyNode,
    },
    /// A removal of a key that it has found. The search has stepped to the right of the key's node, to `right`; 0
    /// stands for none.
    Remove {
        key: u64,
        found: KeyNode,
        right: u32,
    },
}

/// The removal of a node that was found. The search steps to the right of the node before the node is locked: a load of
/// the node's right link under its lock would move the search.
fn aim_at_removal(pass: &mut TablePass<'_>, key: u64, found: KeyNode) -> Aim
    requires found { IsFoundAt pass.old.view key found }
    requires trying { (n : ℕ) × IsTrying pass.old.view n [] }
    ensures same { IsSamePass pass.old pass.new }
    ensures keeps { KeepsSearch pass.old.view pass.new.view }
    ensures aim { IsAim pass.new.view result }
    ensures of { IsAimOf key Remove result }
{
    search_laws();
    let right = pass.load_link(found.node, Side::Right);
    Aim::Remove { key, found, right }
}

/// What a try of the update is to do: the search for its key goes from the root down the plain links. None for a
/// removal of a key that it has not found: the search has ended at a null link for the key.
///
/// # Errors
/// The search has met a node that was taken out, and cannot go on there.
pub fn find_aim(pass: &mut TablePass<'_>, key: u64, change: Change) -> Result<Option<Aim>, Failed>
    requires top { IsAtTop pass.old.view }
    ensures same { IsSamePass pass.old pass.new }
    ensures keeps { IfOk result (λ found. KeepsSearch pass.old.view pass.new.view) }
    ensures aim { IfOk result (λ found. IfSome found (IsAim pass.new.view)) }
    ensures of { IfOk result (λ found. IfSome found (IsAimOf key change)) }
    ensures none { IfOk result (λ found. found ≡ None → change ≡ Remove) }
    ensures missing { IfOk result (λ found. found ≡ None → IsMissing pass.new.view key) }
    ensures given_up { IfErr result (λ failed. KeepsPlaces pass.old.view pass.new.view) }
    ensures counted { IfErr result (λ failed. IsCounted failed pass.old.view pass.new.view) }
    ensures alone { IfErr result (λ failed. ¬ IsAlone pass.new.view) }
{
    search_laws();
    let end = find_end(pass, key)?;
    match (end, change) {
        (End::Missing(gap), Change::Put(val)) => {
            let pair = Pair { key, val };
            Ok(Some(Aim::Grow { pair, gap }))
        }
        (End::Missing(_), Change::Remove) => Ok(None),
        (End::Found(found), Change::Put(val)) => {
            let pair = Pair { key, val };
            Ok(Some(Aim::Replace { pair, found }))
        }
        (End::Found(found), Change::Remove) => Ok(Some(aim_at_removal(pass, key, found))),
    }
}
