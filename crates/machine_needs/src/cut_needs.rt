// The need of a cut: the step, if it is met.
ghost use Rattle.std.specs.Prelude.{◌≡◌, IfSome, is_some};
ghost use Rattle.std.specs.List.{list_any};
ghost use Rattle.index_words.specs.Words.{memory};
ghost use Rattle.core_events.specs.CutNeeds.{selects_at as selects_entry, may_cut_at as may_cut_behind, may_cut_by as may_cut_below, may_cut as cut_needs};
ghost use Rattle.core_events.specs.declared.event.Kind.TheVariants.{Cut};
ghost use Rattle.machine_needs.specs.StepParts.{IsStep};

use crate::seen::Seen;
use crate::step::Step;
use core_events::reads::is_in;
use core_grace::has_all_others;
use index_words::{HeldNode, Part, Side, View, Word};
use machine_spelled::bundles_now::selected;

fn selects_at(seen: &Seen<'_>, least: u64, entry: u32, node: u32, side: Side) -> bool
    ensures { result ≡ selects_entry seen.now.layout.now (memory seen.now.layout.now seen.now.words.now) seen.now.views.now least entry node side }
{
    selected(seen.layout, seen.words, seen.views, least, side, node) == u64::from(entry)
}

fn may_cut_at(seen: &Seen<'_>, view: &View, least: u64, entry: u32, held: HeldNode) -> bool
    ensures { result ≡ may_cut_behind seen.now.layout.now (memory seen.now.layout.now seen.now.words.now) seen.now.views.now view.now least entry held }
{
    held.mark == Some(0)
        && !is_in(view.update.taken.as_slice(), held.node)
        && (selects_at(seen, least, entry, held.node, Side::Left)
            || selects_at(seen, least, entry, held.node, Side::Right))
}

fn may_cut_anywhere(seen: &Seen<'_>, view: &View, least: u64, entry: u32) -> bool
    ensures { result ≡ list_any (may_cut_behind seen.now.layout.now (memory seen.now.layout.now seen.now.words.now)
        seen.now.views.now view.now least entry) view.now.held.nodes }
{
    let locked = view.held.nodes.as_slice();
    locked
        .iter()
        .any(|held| may_cut_at(seen, view, least, entry, *held))
}

fn may_cut_by(seen: &Seen<'_>, view: &View, least: Option<u64>, entry: u32) -> bool
    ensures { result ≡ may_cut_below seen.now.layout.now (memory seen.now.layout.now seen.now.words.now) seen.now.views.now view.now least entry }
{
    match least {
        None => false,
        Some(least) => {
            let looked = view.reading.looked.as_slice();
            0 < entry
                && has_all_others(seen.layout.passes, view.number, looked)
                && may_cut_anywhere(seen, view, least, entry)
        }
    }
}

pub(crate) fn cut(seen: &Seen<'_>, view: &View, word: Word, value: u64) -> Option<Step>
    ensures met { is_some result ≡ cut_needs seen.now.layout.now (memory seen.now.layout.now seen.now.words.now) seen.now.views.now view.now word value }
    ensures step { IfSome result (IsStep Cut word value) }
{
    let Word::Entry(Part::Next, entry) = word else {
        return None;
    };
    if value == 0 && may_cut_by(seen, view, view.reading.least, entry) {
        return Some(Step::Cut { entry });
    }
    None
}
