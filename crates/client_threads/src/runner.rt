// What runs the clients of a session.
ghost use Rattle.std.specs.Prelude.{◌≡◌, ◌<◌, ◌≤◌, ℕ, List, [], length, IfOk, OnOk, slice_index_or};
ghost use Rattle.bucket_terms.specs.declared.reply.Placed.{Placed as PlacedReply};
ghost use Rattle.std.specs.List.{sum_by};
ghost use Rattle.std.specs.Thread.{IsSync};
ghost use Rattle.outside_io.specs.Streams.{one_more};
ghost use Rattle.client_threads.specs.Pools.{PooledOverEach, owned};
ghost use Rattle.client_threads.specs.Runs.{CanRunEach, RanOverEach, parts_of};

use crate::run_input::RunInput;
use bucket_terms::Placed;
use client_run::Gate;
use key_names::NoMemory;
use shared_index::PassKey;
use std::alloc::Global;
use std::sync::Wait;
use std::thread::Threads;

/// Runs the clients of a session, each over a pass of its own, and keeps their replies.
/// `G` is the gate that is notified of each request. It is a parameter of the trait, since a method cannot lend a value
/// of a type parameter of its own to threads.
///
/// ```
/// let input = RunInput { index: &index, session: &session, dir: &dir, gate: &OpenGate };
/// let keys = runner.run_all(rt, alloc, keys, &input)?;
/// // the first client's, one for each of its request lines
/// let replies = runner.replies(0);
/// // the history of all updates, once all keys of the index are back
/// let updates = index.finish(alloc, keys)?;
/// ```
pub trait Runner<G: Gate + Sync> {
    /// How many runs were made: a count of 64 bits that stays at its last value.
    ghost runs: { Self → ℕ };

    /// The reply lists of the last run, one per client.
    ghost replied: { Self → List (List PlacedReply) };

    /// Answers the requests of all clients, and gives the keys back, each with its number. The passes may have been
    /// used before, and the index may have further passes, which others use at the same time.
    ///
    /// # Errors
    /// Out of memory ends the run. Updates may have been made then, and the keys are gone.
    fn run_all<Rt: Threads + Wait + Sync>(
        &mut self,
        rt: &Rt,
        alloc: Global,
        keys: Vec<PassKey>,
        input: &RunInput<'_, G>,
    ) -> Result<Vec<PassKey>, NoMemory>
        requires sync { IsSync Rt.row }
        requires can { CanRunEach input.now.dir.now input.now.index.now (parts_of input.now.session.now.clients) keys.items }
        ensures ran { IfOk result (λ back. RanOverEach input.now.dir.now input.now.index.now (parts_of input.now.session.now.clients) keys.items back.items (replied self.new)) }
        ensures runs { OnOk result (runs self.new ≡ one_more (runs self.old)) }
        ensures never_fall { runs self.old ≤ runs self.new };

    /// The same, and clients hand node slots to one another: each gives what it owns above `own` to a depot of this
    /// much room, and takes one if it owns none. The first key's pass gets what is left at the end. There is a key, and
    /// the depot has room for all node slots that the passes own.
    ///
    /// # Errors
    /// Out of memory ends the run. Updates may have been made then, and the keys are gone.
    fn run_pool<Rt: Threads + Wait + Sync>(
        &mut self,
        rt: &Rt,
        alloc: Global,
        keys: Vec<PassKey>,
        input: &RunInput<'_, G>,
        own: u32,
        room: u32,
    ) -> Result<Vec<PassKey>, NoMemory>
        requires sync { IsSync Rt.row }
        requires can { CanRunEach input.now.dir.now input.now.index.now (parts_of input.now.session.now.clients) keys.items }
        requires some { 0 < length keys.items }
        requires room { 0 < room }
        requires fits { sum_by owned keys.items ≤ room }
        ensures ran { IfOk result (λ back. PooledOverEach own input.now.dir.now input.now.index.now (parts_of input.now.session.now.clients) keys.items back.items (replied self.new)) }
        ensures runs { OnOk result (runs self.new ≡ one_more (runs self.old)) }
        ensures never_fall { runs self.old ≤ runs self.new };

    /// The replies of this client in the last run.
    fn replies(&self, client: u32) -> &[Placed]
        requires { client < length (replied self.now) }
        ensures { result.now ≡ slice_index_or (replied self.now) client [] };
}
