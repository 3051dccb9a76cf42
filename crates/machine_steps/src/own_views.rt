// The view of a seat after a step that changes this view alone.
ghost use Rattle.std.specs.Prelude.{◌≡◌, OnOk, OnErr};
ghost use Rattle.index_words.specs.Words.{memory};
ghost use Rattle.machine_needs.specs.declared.step.Load.TheVariants.{Head};
ghost use Rattle.machine_steps.specs.OwnViews.{loaded, stored};

use core_events::reads::{held, number_of};
use index_words::{Field, Layout, NoMemory, Part, Side, View, Word};
use machine_needs::step::{Load, Store};
use machine_views::announcing::{announce, look_at_announcement};
use machine_views::fill_words::fill;
use machine_views::loads::{load_child, load_head, load_next, load_number};
use machine_views::locks::{load_key, load_mark, load_val, mark, unlock};
use machine_views::moves::{enter, leave, look};
use machine_views::plain_links::{load_link, load_tag, set_link, set_tag};
use machine_views::updates::{finalise, prepare};
use std::alloc::Global;

fn find_head(
    alloc: Global,
    layout: &Layout,
    words: &[u64],
    view: &mut View,
    node: u32,
    side: Side,
) -> Result<(), NoMemory>
    ensures ok { OnOk result (view.new ≡ loaded (Head node side) layout.now.passes (memory layout.now words.now) view.old) }
    ensures err { OnErr result (view.new ≡ view.old) }
{
    let entry = held(layout, words, Word::Node(Field::Head(side), node));
    let number = number_of(layout, words, entry);
    load_head(alloc, view, node, side, entry, number)
}

/// The view after a load. After a refusal it is unchanged.
pub(crate) fn after_load(
    alloc: Global,
    layout: &Layout,
    words: &[u64],
    view: &mut View,
    load: Load,
) -> Result<(), NoMemory>
    ensures ok { OnOk result (view.new ≡ loaded load layout.now.passes (memory layout.now words.now) view.old) }
    ensures err { OnErr result (view.new ≡ view.old) }
{
    match load {
        Load::Section { pass } => {
            let found = held(layout, words, Word::Section(pass));
            look(alloc, view, layout.passes, pass, found)?;
        }
        Load::Announced { pass } => {
            let found = held(layout, words, Word::Announced(pass));
            look_at_announcement(view, pass, found)?;
        }
        Load::Head { node, side } => find_head(alloc, layout, words, view, node, side)?,
        Load::Number { entry } => {
            let found = held(layout, words, Word::Entry(Part::Stamp, entry));
            load_number(alloc, view, entry, found);
        }
        Load::Child { entry } => {
            load_child(view, held(layout, words, Word::Entry(Part::Child, entry)))?;
        }
        Load::Next { entry } => {
            load_next(
                view,
                entry,
                held(layout, words, Word::Entry(Part::Next, entry)),
            )?;
        }
        Load::Mark { node } => {
            let found = held(layout, words, Word::Node(Field::Mark, node));
            load_mark(alloc, view, node, found);
        }
        Load::Key { node } => {
            let found = held(layout, words, Word::Node(Field::Key, node));
            load_key(alloc, view, node, found);
        }
        Load::Val { node } => {
            let found = held(layout, words, Word::Node(Field::Val, node));
            load_val(alloc, view, node, found);
        }
        Load::Link { node, side } => {
            let found = held(layout, words, Word::Node(Field::Link(side), node));
            load_link(alloc, view, node, side, found)?;
        }
        Load::Tag { node, side } => {
            let found = held(layout, words, Word::Node(Field::Tag(side), node));
            load_tag(alloc, view, node, side, found);
        }
    }
    Ok(())
}

/// The view after a store, in a table of so many passes. After a refusal it is unchanged.
pub(crate) fn after_store(
    alloc: Global,
    passes: u32,
    view: &mut View,
    store: Store,
) -> Result<(), NoMemory>
    ensures ok { OnOk result (view.new ≡ stored store passes view.old) }
    ensures err { OnErr result (view.new ≡ view.old) }
{
    match store {
        Store::Enter { value, .. } => enter(alloc, view, passes, value)?,
        Store::Leave { value, .. } => leave(alloc, view, value),
        Store::Announce { value, .. } => announce(view, value),
        Store::Fill { word, value } => fill(alloc, view, word, value)?,
        Store::Prepare { node, side, entry } => prepare(alloc, view, side, node, entry)?,
        Store::Finalise { entry, .. } => finalise(alloc, view, entry),
        Store::Unlock { node } => unlock(alloc, view, node),
        Store::Mark { node } => mark(alloc, view, node),
        Store::Link { node, side, child } => set_link(alloc, view, node, side, child),
        Store::Tag { node, side, tag } => set_tag(alloc, view, node, side, tag),
    }
    Ok(())
}
