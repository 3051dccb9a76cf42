// The needs of an announcement, and of a look at the announcement of another pass: the step, if they are met.
ghost use Rattle.std.specs.Prelude.{◌≡◌, IfSome, is_some};
ghost use Rattle.index_words.specs.declared.word.Word.TheVariants.{Announced};
ghost use Rattle.core_events.specs.Announcing.{is_own_announced as own_announced, is_announcement as announces, may_announce as announce_needs, may_look_ann as look_needs};
ghost use Rattle.core_events.specs.declared.event.Kind.TheVariants.{Announce, LookAnn};
ghost use Rattle.machine_needs.specs.StepParts.{IsStep};

use crate::step::{Load, Step, Store};
use core_grace::is_own;
use index_words::{View, Word};

fn is_own_announced(number: Option<u32>, pass: u32) -> bool
    ensures { result ≡ own_announced number (Announced pass) }
{
    match number {
        Some(number) => pass == number,
        None => false,
    }
}

fn is_announcement(view: &View, value: u64) -> bool
    ensures { result ≡ announces view.now value }
{
    if view.section_word % 2 == 0 {
        return value == 0;
    }
    let seen = view.history.seen.len() as u64;
    view.reading.section.is_none() && 0 < value && value - 1 == seen
}

pub(crate) fn announce(view: &View, word: Word, value: u64) -> Option<Step>
    ensures met { is_some result ≡ announce_needs view.now word value }
    ensures step { IfSome result (IsStep Announce word value) }
{
    let Word::Announced(pass) = word else {
        return None;
    };
    if is_own_announced(view.number, pass) && is_announcement(view, value) {
        return Some(Step::Store(Store::Announce { pass, value }));
    }
    None
}

pub(crate) fn look_at_announcement(view: &View, word: Word, value: u64) -> Option<Step>
    ensures met { is_some result ≡ look_needs view.now word value }
    ensures step { IfSome result (IsStep LookAnn word value) }
{
    let Word::Announced(pass) = word else {
        return None;
    };
    if view.reading.section.is_some() && !is_own(view.number, pass) && value == 0 {
        return Some(Step::Load(Load::Announced { pass }));
    }
    None
}
