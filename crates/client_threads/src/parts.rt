// What the threads of a run bring back, taken apart.
ghost use Rattle.std.specs.Prelude.{IfOk};
ghost use Rattle.client_threads.specs.Threads.{AreParts};

use bucket_terms::Placed;
use key_map::Items;
use key_names::NoMemory;
use shared_index::PassKey;
use std::alloc::Global;
use std::marker::Model;

/// The key of a client's pass after its run, what else its thread brings back, and the replies.
#[derive(Drop)]
pub(crate) struct RanPart<S> {
    pub(crate) key: PassKey,
    pub(crate) seat: S,
    pub(crate) replies: Items<Placed>,
}

impl<S> Model for RanPart<S> {
    ghost use Rattle.client_threads.specs.Threads.{Ran};

    ghost Value = { Ran S };

    ghost view = { λ r. record { key = r.key; seat = r.seat; replies = r.replies } };
}

/// The keys, what else was brought back, and the replies of all clients, if each was run to its end.
pub(crate) fn take_apart<S: Drop>(
    alloc: Global,
    mut results: Vec<Result<RanPart<S>, NoMemory>>,
) -> Result<(Vec<PassKey>, Vec<S>, Vec<Items<Placed>>), NoMemory>
    ensures { IfOk result (λ parts. AreParts results.items parts.0.items parts.1.items parts.2.items) }
{
    let Some(last) = results.pop() else {
        return Ok((Vec::new(alloc), Vec::new(alloc), Vec::new(alloc)));
    };
    let (mut keys, mut seats, mut replies) = take_apart(alloc, results)?;
    let RanPart {
        key,
        seat,
        replies: answered,
    } = last?;
    keys.push(key)?;
    seats.push(seat)?;
    replies.push(answered)?;
    Ok((keys, seats, replies))
}
