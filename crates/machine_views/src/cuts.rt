// The view of a seat after a cut.
ghost use Rattle.std.specs.Prelude.{◌≡◌, ◌++◌, OnOk, OnErr, not, filter, map};
ghost use Rattle.key_map.specs.Lists.{has};
ghost use Rattle.core_events.specs.CutMoves.{place_cut, next_cut, nexts_cut, cut_view};
ghost use Rattle.index_words.specs.declared.view.update.HeldNext.{HeldNext as KnownNext};

use core_events::reads::is_in;
use index_words::{Held, HeldNext, Items, NoMemory, Place, View};
use std::alloc::Global;

fn is_cut_off(back: &[u32], entry: u64) -> bool
    ensures { result ≡ has entry back.now }
{
    back.iter().any(|own| u64::from(*own) == entry)
}

/// Where a seat stands after these entries were cut off.
fn place_after(place: Place, back: &[u32]) -> Place
    ensures { result ≡ place_cut back.now place }
{
    match place {
        Place::Entry {
            node,
            side,
            entry,
            stamp,
        } => {
            if is_cut_off(back, entry) {
                Place::Entry {
                    node,
                    side,
                    entry: 0,
                    stamp: None,
                }
            } else {
                Place::Entry {
                    node,
                    side,
                    entry,
                    stamp,
                }
            }
        }
        Place::Nowhere => Place::Nowhere,
        Place::Node { node, key } => Place::Node { node, key },
        Place::Gap { node, side } => Place::Gap { node, side },
    }
}

fn keep_others(nexts: &mut Vec<HeldNext>, back: &[u32])
    ensures { nexts.new.items ≡ filter (λ (h : KnownNext). not (has h.entry back.now)) nexts.old.items }
{
    nexts.retain(|held| !is_in(back, held.entry));
}

fn with_end(held: HeldNext, entry: u32) -> HeldNext
    ensures { result ≡ next_cut entry held }
{
    let mut known = held;
    if held.entry == entry {
        known.next = 0;
    }
    known
}

fn end_at(nexts: &mut [HeldNext], entry: u32)
    ensures { nexts.new ≡ map (next_cut entry) nexts.old }
{
    for held in nexts.iter_mut() {
        *held = with_end(*held, entry);
    }
}

/// What is known of entries after a cut: the bundle ends with this entry, and these are cut off.
fn forget_entries(alloc: Global, held: &mut Held, entry: u32, back: &[u32])
    ensures { held.new ≡ record held.old { nexts = nexts_cut entry back.now held.old.nexts } }
{
    let mut nexts = std::mem::replace(&mut held.nexts, Items::new(alloc)).into_vec();
    keep_others(&mut nexts, back);
    end_at(nexts.as_mut_slice(), entry);
    held.nexts = Items::from_vec(nexts);
}

/// The view after a cut after this entry, where `back` are the entries after it. After a refusal it is unchanged.
pub fn cut(alloc: Global, view: &mut View, entry: u32, back: &[u32]) -> Result<(), NoMemory>
    ensures ok { OnOk result (view.new ≡ cut_view view.old entry back.now) }
    ensures err { OnErr result (view.new ≡ view.old) }
{
    view.retired.entries.append(back)?;
    view.reading.place = place_after(view.reading.place, back);
    forget_entries(alloc, &mut view.held, entry, back);
    Ok(())
}
