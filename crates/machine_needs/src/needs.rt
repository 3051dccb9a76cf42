// Whether an event is allowed, and its step.
ghost use Rattle.std.specs.Prelude.{◌≡◌, ◌&&◌, Some, None, IfSome, is_some};
ghost use Rattle.std.specs.List.{slice_get};
ghost use Rattle.index_words.specs.Words.{memory};
ghost use Rattle.core_events.specs.declared.event.Kind.TheVariants.{Raise};
ghost use Rattle.core_events.specs.Steps.{carries, needs, allowed_at};
ghost use Rattle.machine_needs.specs.StepParts.{parts_of, IsStep};

use crate::announcing_needs::{announce, look_at_announcement};
use crate::cut_needs::cut;
use crate::load_needs::{load_child, load_head, load_next, load_number, load_stamp};
use crate::lock_needs::{load_mark, load_pair, mark, try_lock, unlock};
use crate::plain_needs::{load_link, load_tag, set_link, set_tag};
use crate::seat_needs::{enter, fill, join, leave, look, split};
use crate::seen::Seen;
use crate::step::Step;
use crate::update_needs::{finalise, prepare, raise};
use core_events::{Event, Kind};
use core_grace::is_own;
use index_words::{Layout, Update, View, Word};

/// The step of an event without an update, at the word with this name, by a seat with this view.
fn plain_step(seen: &Seen<'_>, view: &View, word: Word, event: &Event) -> Option<Step>
    ensures met { is_some result ≡ (carries event.now.kind view.now None
        && needs event.now.kind seen.now.layout.now (memory seen.now.layout.now seen.now.words.now) seen.now.views.now event.now.seat view.now word event.now.value None) }
    ensures step { IfSome result (IsStep event.now.kind word event.now.value) }
{
    let value = event.value;
    match event.kind {
        Kind::MakeSeat | Kind::Raise => None,
        Kind::SplitSeat => split(view, word, value),
        Kind::JoinSeat => join(seen.views, event.seat, view, word, value),
        Kind::Enter => enter(view, word, value),
        Kind::Leave => leave(seen.layout, seen.words, view, word, value),
        Kind::LookSec => look(view, word, value),
        Kind::Fill => fill(view, word, value),
        Kind::LoadStamp => load_stamp(view, word, value),
        Kind::LoadHead => load_head(view, word, value),
        Kind::LoadTs => load_number(view, word, value),
        Kind::LoadPtr => load_child(view, word, value),
        Kind::LoadNext => load_next(view, word, value),
        Kind::Prepare => prepare(seen.layout, seen.words, view, word, value),
        Kind::Finalise => finalise(view, word, value),
        Kind::TryLock => try_lock(view, word, value),
        Kind::Unlock => unlock(seen.layout, seen.words, view, word, value),
        Kind::LoadMark => load_mark(view, word, value),
        Kind::Mark => mark(view, word, value),
        Kind::LoadKeyOrVal => load_pair(view, word, value),
        Kind::Announce => announce(view, word, value),
        Kind::LookAnn => look_at_announcement(view, word, value),
        Kind::Cut => cut(seen, view, word, value),
        Kind::LoadLink => load_link(view, word, value),
        Kind::SetLink => set_link(seen.layout, seen.words, view, word, value),
        Kind::LoadTag => load_tag(view, word, value),
        Kind::SetTag => set_tag(seen.layout, seen.words, view, word, value),
    }
}

/// The step of an event with an update: a raise by the update's own pass.
fn raise_step(
    seen: &Seen<'_>,
    view: &View,
    word: Word,
    event: &Event,
    update: Update,
) -> Option<Step>
    ensures met { is_some result ≡ (carries event.now.kind view.now (Some update)
        && needs event.now.kind seen.now.layout.now (memory seen.now.layout.now seen.now.words.now) seen.now.views.now event.now.seat view.now word event.now.value (Some update)) }
    ensures step { IfSome result (λ s. parts_of s ≡ record { kind = event.now.kind; word = word; value = event.now.value; update = Some update }) }
{
    match event.kind {
        Kind::Raise => {
            if !is_own(view.number, update.client) {
                return None;
            }
            raise(seen, view, word, event.value, update)
        }
        _ => None,
    }
}

/// The step of an event whose word has this name. None exactly if the event is not allowed.
pub fn allowed_step(
    layout: &Layout,
    words: &[u64],
    views: &[View],
    word: Word,
    event: &Event,
) -> Option<Step>
    ensures met { is_some result ≡ allowed_at (record { layout = layout.now; words = words.now; views = views.now }) event.now (slice_get views.now event.now.seat) (Some word) }
    ensures step { IfSome result (λ s. parts_of s ≡ record { kind = event.now.kind; word = word; value = event.now.value; update = event.now.update }) }
{
    let view = views.get(event.seat as usize)?;
    if view.joined {
        return None;
    }
    let seen = Seen {
        layout,
        words,
        views,
    };
    match event.update {
        None => plain_step(&seen, view, word, event),
        Some(update) => raise_step(&seen, view, word, event, update),
    }
}
