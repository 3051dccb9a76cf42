// What one thread does in a turn: it puts a name, looks another one up, and lists all names.
ghost use Rattle.std.specs.Prelude.{◌≡◌, None, IfOk};
ghost use Rattle.two_threads.specs.Turns.{TookTurn};

use bucket_terms::{KeyPass, ListQuery, Page};
use client_run::list;
use key_map::{Done, PassError};
use key_names::{Directory, NoMemory};
use std::alloc::Global;
use std::sync::Wait;

/// What is asked in a turn. A name is given by its rank in the directory.
#[derive(Clone, Copy)]
pub(crate) struct Task {
    /// The number by which the put is known in the history.
    pub(crate) line: u32,
    pub(crate) puts: u64,
    pub(crate) val: u64,
    pub(crate) looks_up: u64,
}

/// What was answered in a turn.
#[derive(Drop)]
pub(crate) struct Turn {
    pub(crate) task: Task,
    /// The place of the put, or why it was refused.
    pub(crate) put: Result<Done, PassError>,
    /// The place at which the other name was looked up, and its value there.
    pub(crate) looked_at: u64,
    pub(crate) found: Option<u64>,
    /// The place of the listing, and its page.
    pub(crate) listed_at: u64,
    pub(crate) page: Page,
}

/// Takes a turn by a pass. A look-up and a listing have a snapshot each, which is closed at once, so that slots which
/// other passes give back can become free.
pub(crate) fn take_turn<P: KeyPass, Rt: Wait>(
    rt: &Rt,
    alloc: Global,
    pass: &mut P,
    dir: &Directory,
    query: &ListQuery,
    task: Task,
) -> Result<Turn, NoMemory>
    requires closed { (P.view pass.old).opened ≡ None }
    ensures turn { IfOk result (TookTurn dir.now query.now task (P.view pass.old) (P.view pass.new)) }
    ensures home { P.home pass.new ≡ P.home pass.old }
{
    let put = pass.put(rt, task.line, task.puts, task.val);
    let looked_at = pass.begin();
    let found = pass.value_of(rt, task.looks_up);
    pass.end();
    let (listed_at, page) = list(rt, alloc, pass, dir, query, None)?;
    Ok(Turn {
        task,
        put,
        looked_at,
        found,
        listed_at,
        page,
    })
}
