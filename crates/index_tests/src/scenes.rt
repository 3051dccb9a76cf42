// Scenes of an index of two passes: one of them makes the calls of rows, and the other one may have a snapshot open
// then.
ghost use Rattle.std.specs.Prelude.{◌≡◌, ◌∷◌, [], None, IsSome};
ghost use Rattle.shared_index.specs.Keys.{AreAllKeys};

use crate::rows::{Row, have_answers, shows};
use crate::set_up::{ended, opened};
use crate::tested_pass::TestedPass;
use bucket_terms::KeyPass;
use index_words::{Pair, PassSize, Update};
use shared_index::{PassKey, SharedIndex};
use std::alloc::Global;
use std::sync::Wait;

/// A snapshot that is open while another pass makes its calls.
#[derive(Clone, Copy)]
pub(crate) struct Snapshot<'a> {
    /// Its place.
    pub(crate) at: u64,
    /// Whether its pass hears what the other one has seen, before it is opened and after the calls.
    pub(crate) hears: bool,
    /// Its first pairs from keys on, after the calls.
    pub(crate) pairs: &'a [(u64, Option<Pair>)],
}

/// Calls of one of two passes.
#[derive(Clone, Copy)]
pub(crate) struct Scene<'a> {
    /// Whether they are those of pass 0.
    pub(crate) is_of_first: bool,
    /// The request line of the updates.
    pub(crate) line: u32,
    pub(crate) rows: &'a [Row],
    /// The snapshot that the other pass has open meanwhile.
    pub(crate) beside: Option<Snapshot<'a>>,
}

/// Whether the open snapshot has these first pairs.
fn shows_all<P: TestedPass, R: Wait>(rt: &R, pass: &mut P, pairs: &[(u64, Option<Pair>)]) -> bool
    requires open { IsSome (P.view pass.old).opened }
    ensures same { P.view pass.new ≡ P.view pass.old }
    ensures home { P.home pass.new ≡ P.home pass.old }
{
    'pairs: for (key, pair) in pairs {
        if !shows(rt, pass, *key, *pair) {
            return false;
        }
    }
    true
}

/// Whether the rows have their answers, and the open snapshot has its pairs after them.
fn keeps_its_pairs<P: TestedPass, R: Wait>(
    rt: &R,
    acting: &mut P,
    other: &mut P,
    scene: &Scene<'_>,
    snapshot: &Snapshot<'_>,
) -> bool
    requires closed { (P.view acting.old).opened ≡ None }
    requires open { IsSome (P.view other.old).opened }
    requires home { P.home acting.old ≡ P.home other.old }
    ensures closed { (P.view acting.new).opened ≡ None }
    ensures number { (P.view acting.new).number ≡ (P.view acting.old).number }
    ensures home { P.home acting.new ≡ P.home acting.old }
    ensures other_open { IsSome (P.view other.new).opened }
    ensures other_number { (P.view other.new).number ≡ (P.view other.old).number }
    ensures other_home { P.home other.new ≡ P.home other.old }
{
    let is_right = have_answers(rt, acting, scene.line, scene.rows);
    if snapshot.hears {
        other.hear_of(acting);
    }
    shows_all(rt, other, snapshot.pairs) && is_right
}

/// Whether the scene goes as it should, with this snapshot of the other pass.
fn goes_beside<P: TestedPass, R: Wait>(
    rt: &R,
    acting: &mut P,
    other: &mut P,
    scene: &Scene<'_>,
    snapshot: &Snapshot<'_>,
) -> bool
    requires closed { (P.view acting.old).opened ≡ None }
    requires other_closed { (P.view other.old).opened ≡ None }
    requires home { P.home acting.old ≡ P.home other.old }
    ensures closed { (P.view acting.new).opened ≡ None }
    ensures number { (P.view acting.new).number ≡ (P.view acting.old).number }
    ensures home { P.home acting.new ≡ P.home acting.old }
    ensures other_closed { (P.view other.new).opened ≡ None }
    ensures other_number { (P.view other.new).number ≡ (P.view other.old).number }
    ensures other_home { P.home other.new ≡ P.home other.old }
{
    if snapshot.hears {
        other.hear_of(acting);
    }
    let at = other.begin();
    let is_right = keeps_its_pairs(rt, acting, other, scene, snapshot);
    other.end();
    at == snapshot.at && is_right
}

/// Whether the scene goes as it should.
fn goes<P: TestedPass, R: Wait>(rt: &R, acting: &mut P, other: &mut P, scene: &Scene<'_>) -> bool
    requires closed { (P.view acting.old).opened ≡ None }
    requires other_closed { (P.view other.old).opened ≡ None }
    requires home { P.home acting.old ≡ P.home other.old }
    ensures closed { (P.view acting.new).opened ≡ None }
    ensures number { (P.view acting.new).number ≡ (P.view acting.old).number }
    ensures home { P.home acting.new ≡ P.home acting.old }
    ensures other_closed { (P.view other.new).opened ≡ None }
    ensures other_number { (P.view other.new).number ≡ (P.view other.old).number }
    ensures other_home { P.home other.new ≡ P.home other.old }
{
    match &scene.beside {
        Some(snapshot) => goes_beside(rt, acting, other, scene, snapshot),
        None => have_answers(rt, acting, scene.line, scene.rows),
    }
}

/// Whether the scene goes as it should, whichever pass makes its calls.
fn goes_by_turn<P: TestedPass, R: Wait>(
    rt: &R,
    zero: &mut P,
    one: &mut P,
    scene: &Scene<'_>,
) -> bool
    requires zero_closed { (P.view zero.old).opened ≡ None }
    requires one_closed { (P.view one.old).opened ≡ None }
    requires home { P.home zero.old ≡ P.home one.old }
    ensures zero_closed { (P.view zero.new).opened ≡ None }
    ensures zero_number { (P.view zero.new).number ≡ (P.view zero.old).number }
    ensures zero_home { P.home zero.new ≡ P.home zero.old }
    ensures one_closed { (P.view one.new).opened ≡ None }
    ensures one_number { (P.view one.new).number ≡ (P.view one.old).number }
    ensures one_home { P.home one.new ≡ P.home one.old }
{
    if scene.is_of_first {
        goes(rt, zero, one, scene)
    } else {
        goes(rt, one, zero, scene)
    }
}

/// How many scenes, from the first one on, go as they should.
fn right_scenes<P: TestedPass, R: Wait>(
    rt: &R,
    zero: &mut P,
    one: &mut P,
    scenes: &[Scene<'_>],
) -> usize
    requires zero_closed { (P.view zero.old).opened ≡ None }
    requires one_closed { (P.view one.old).opened ≡ None }
    requires home { P.home zero.old ≡ P.home one.old }
    ensures zero_closed { (P.view zero.new).opened ≡ None }
    ensures zero_number { (P.view zero.new).number ≡ (P.view zero.old).number }
    ensures zero_home { P.home zero.new ≡ P.home zero.old }
    ensures one_closed { (P.view one.new).opened ≡ None }
    ensures one_number { (P.view one.new).number ≡ (P.view one.old).number }
    ensures one_home { P.home one.new ≡ P.home one.old }
{
    'scenes: for (place, scene) in scenes.iter().enumerate() {
        if !goes_by_turn(rt, zero, one, scene) {
            return place;
        }
    }
    scenes.len()
}

/// Plays the scenes with the passes of an index. Returns how many go as they should, and the keys.
fn played<R: Wait>(
    rt: &R,
    index: &SharedIndex,
    first: PassKey,
    second: PassKey,
    scenes: &[Scene<'_>],
) -> (usize, PassKey, PassKey)
    requires { AreAllKeys index.now (first ∷ second ∷ []) }
    ensures { AreAllKeys index.now (result.1 ∷ result.2 ∷ []) }
{
    let mut zero = index.attach(first);
    let mut one = index.attach(second);
    let count = right_scenes(rt, &mut zero, &mut one, scenes);
    (count, zero.detach(), one.detach())
}

/// Plays the scenes in an index of passes of these sizes. Returns how many of them go as they should, from the first
/// one on, and whether the index ends with this history. None when out of memory.
pub(crate) fn told<R: Wait>(
    rt: &R,
    alloc: Global,
    sizes: &[PassSize; 2],
    scenes: &[Scene<'_>],
    updates: &[Update],
) -> Option<(usize, bool)> {
    let (index, first, second) = opened(alloc, sizes)?;
    let (count, first, second) = played(rt, &index, first, second, scenes);
    let history = ended(alloc, index, first, second)?;
    Some((count, history.as_slice() == updates))
}
