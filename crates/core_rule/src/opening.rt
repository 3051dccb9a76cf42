// The table at the start.
ghost use Rattle.std.specs.Prelude.{◌≡◌, ◌+◌, ◌<◌, ◌≤◌, ◌^◌, ◌++◌, ◌∷◌, [], IfOk, OnOk, length, replicate};
ghost use Rattle.index_words.specs.Sizes.{all_nodes, all_entries};
ghost use Rattle.index_words.specs.Views.{empty_view};
ghost use Rattle.core_events.specs.Openings.{from_up, pass_view, pass_views};

use index_words::{Items, Layout, NoMemory, PassSize, Slots, View};
use std::alloc::{AllocError, Global};

/// So many words that are 0.
pub(crate) fn zeros(alloc: Global, count: usize) -> Result<Vec<u64>, AllocError>
    ensures { IfOk result (λ words. words.items ≡ replicate count 0) }
{
    vec![in alloc; 0; count]
}

fn slots_from(alloc: Global, first: u32, count: u32) -> Result<Items<u32>, NoMemory>
    requires { first + count < 2 ^ 32 }
    ensures { IfOk result (λ slots. slots ≡ from_up first count) }
{
    let mut slots = Items::new(alloc);
    for i in 0..count {
        slots.push(first + i)?;
    }
    Ok(slots)
}

/// The number of a pass, and its first node and entry.
#[derive(Clone, Copy)]
struct First {
    number: u32,
    node: u32,
    entry: u32,
}

/// All slots of a pass.
fn pass_slots(alloc: Global, first: First, size: &PassSize) -> Result<Slots, NoMemory>
    requires nodes { first.node + size.now.nodes < 2 ^ 32 }
    requires entries { first.entry + size.now.entries < 2 ^ 32 }
    ensures { IfOk result (λ slots. slots ≡ record { nodes = from_up first.node size.now.nodes; entries = from_up first.entry size.now.entries }) }
{
    let nodes = slots_from(alloc, first.node, size.nodes)?;
    let entries = slots_from(alloc, first.entry, size.entries)?;
    Ok(Slots { nodes, entries })
}

fn pass_seat(
    alloc: Global,
    layout: &Layout,
    first: First,
    size: &PassSize,
) -> Result<View, NoMemory>
    requires nodes { first.node + size.now.nodes < 2 ^ 32 }
    requires entries { first.entry + size.now.entries < 2 ^ 32 }
    ensures { IfOk result (λ view. view ≡ pass_view layout.now first.number first.node first.entry size.now) }
{
    let free = pass_slots(alloc, first, size)?;
    let unused = pass_slots(alloc, first, size)?;
    let mut view = View::empty(alloc, *layout);
    view.number = Some(first.number);
    view.history.left = size.calls;
    view.free = free;
    view.unused = unused;
    Ok(view)
}

fn add_passes(
    alloc: Global,
    views: &mut Vec<View>,
    layout: &Layout,
    first: First,
    sizes: &[PassSize],
) -> Result<(), NoMemory>
    requires passes { first.number + length sizes.now < 2 ^ 32 }
    requires nodes { first.node + all_nodes sizes.now < 2 ^ 32 }
    requires entries { first.entry + all_entries sizes.now < 2 ^ 32 }
    ensures { OnOk result (views.new.items ≡ views.old.items ++ pass_views layout.now first.number first.node first.entry sizes.now) }
{
    match sizes {
        [] => Ok(()),
        [size, rest @ ..] => {
            views.push(pass_seat(alloc, layout, first, size)?)?;
            let next = First {
                number: first.number + 1,
                node: first.node + size.nodes,
                entry: first.entry + size.entries,
            };
            add_passes(alloc, views, layout, next, rest)
        }
    }
}

/// The views of the passes, and after them the emptied first view.
pub(crate) fn opening_views(
    alloc: Global,
    layout: &Layout,
    sizes: &[PassSize],
) -> Result<Vec<View>, NoMemory>
    requires passes { length sizes.now ≤ 32 }
    requires nodes { all_nodes sizes.now ≤ 262144 }
    requires entries { all_entries sizes.now ≤ 1048576 }
    ensures { IfOk result (λ views. views.items ≡ pass_views layout.now 0 1 1 sizes.now ++ empty_view layout.now ∷ []) }
{
    let mut views = Vec::new(alloc);
    let first = First {
        number: 0,
        node: 1,
        entry: 1,
    };
    add_passes(alloc, &mut views, layout, first, sizes)?;
    views.push(View::empty(alloc, *layout))?;
    Ok(views)
}
