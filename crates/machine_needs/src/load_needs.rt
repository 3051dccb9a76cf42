// The needs of loads of a search: the step, if they are met.
ghost use Rattle.std.specs.Prelude.{◌≡◌, IfSome, is_some};
ghost use Rattle.core_events.specs.declared.event.Kind.TheVariants.{LoadStamp, LoadHead, LoadTs, LoadPtr, LoadNext};
ghost use Rattle.core_events.specs.LoadNeeds.{may_load_stamp as stamp_needs, may_load_head as head_needs, stands_at as place_stands_at, may_load_part as part_needs, may_go_on as goes_on, may_load_next as next_needs};
ghost use Rattle.index_words.specs.declared.word.Part.TheVariants.{Child, Stamp as Number};
ghost use Rattle.machine_needs.specs.StepParts.{IsStep};

use crate::step::{Load, Step};
use core_events::reads::{is_above, is_locked, is_reachable};
use index_words::{Field, Part, Place, View, Word};

pub(crate) fn load_stamp(view: &View, word: Word, value: u64) -> Option<Step>
    ensures met { is_some result ≡ stamp_needs view.now word value }
    ensures step { IfSome result (IsStep LoadStamp word value) }
{
    let Word::Stamp = word else {
        return None;
    };
    if view.section_word % 2 == 0 || view.reading.opened.is_some() {
        return None;
    }
    if value == 0 {
        return Some(Step::LoadStamp { fixes: false });
    }
    if value == 1 && !(view.announced == 0) {
        return Some(Step::LoadStamp { fixes: true });
    }
    None
}

pub(crate) fn load_head(view: &View, word: Word, value: u64) -> Option<Step>
    ensures met { is_some result ≡ head_needs view.now word value }
    ensures step { IfSome result (IsStep LoadHead word value) }
{
    let Word::Node(Field::Head(side), node) = word else {
        return None;
    };
    if !(view.section_word % 2 == 0) && is_reachable(view, node) && value == 0 {
        return Some(Step::Load(Load::Head { node, side }));
    }
    None
}

fn stands_at(place: Place, entry: u32) -> bool
    ensures { result ≡ place_stands_at place entry }
{
    match place {
        Place::Entry { entry: at, .. } => at == u64::from(entry),
        Place::Nowhere => false,
        Place::Node { .. } => false,
        Place::Gap { .. } => false,
    }
}

pub(crate) fn load_number(view: &View, word: Word, value: u64) -> Option<Step>
    ensures met { is_some result ≡ part_needs Number view.now word value }
    ensures step { IfSome result (IsStep LoadTs word value) }
{
    let Word::Entry(Part::Stamp, entry) = word else {
        return None;
    };
    if stands_at(view.reading.place, entry) && value == 0 {
        return Some(Step::Load(Load::Number { entry }));
    }
    None
}

pub(crate) fn load_child(view: &View, word: Word, value: u64) -> Option<Step>
    ensures met { is_some result ≡ part_needs Child view.now word value }
    ensures step { IfSome result (IsStep LoadPtr word value) }
{
    let Word::Entry(Part::Child, entry) = word else {
        return None;
    };
    if stands_at(view.reading.place, entry) && value == 0 {
        return Some(Step::Load(Load::Child { entry }));
    }
    None
}

fn may_go_on(view: &View, place: Place, entry: u32) -> bool
    ensures { result ≡ goes_on view.now place entry }
{
    match place {
        Place::Entry { node, stamp, .. } => {
            is_locked(view.held.nodes.as_slice(), node) || is_above(view, entry, stamp)
        }
        Place::Nowhere => false,
        Place::Node { .. } => false,
        Place::Gap { .. } => false,
    }
}

pub(crate) fn load_next(view: &View, word: Word, value: u64) -> Option<Step>
    ensures met { is_some result ≡ next_needs view.now word value }
    ensures step { IfSome result (IsStep LoadNext word value) }
{
    let Word::Entry(Part::Next, entry) = word else {
        return None;
    };
    if stands_at(view.reading.place, entry)
        && value == 0
        && may_go_on(view, view.reading.place, entry)
    {
        return Some(Step::Load(Load::Next { entry }));
    }
    None
}
