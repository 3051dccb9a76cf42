// The numbers of a run's summary.
ghost use Rattle.std.specs.Prelude.{◌≡◌, ◌<◌, ◌^◌, List, length, sum_by, IfOk, OnOk};
ghost use Rattle.key_map.specs.declared.pair.Pair.{Pair};
ghost use Rattle.key_map.specs.History.{after, updated};
ghost use Rattle.key_map.specs.Map.{IsMap};
ghost use Rattle.sample_laws.specs.Totals as spec;
ghost use Rattle.sample_laws.specs.Totals.{listed_by, listed_in};
ghost use Rattle.client_threads.specs.KeySets.{HasKeysOf};

use crate::runner::Runner;
use bucket_terms::{Placed, Reply, Summary};
use client_run::Gate;
use key_map::{Change, Update};
use key_names::NoMemory;
use std::alloc::Global;
use std::collections::HashSet;

/// The summary of a run: the runner's replies and the updates, which are all of the run.
pub fn summary_of<G: Gate + Sync, R: Runner<G>>(
    alloc: Global,
    clients: u32,
    runner: &R,
    updates: &[Update],
) -> Result<Summary, NoMemory>
    requires clients { clients ≡ length (R.replied runner.now) }
    requires listed { sum_by listed_by (R.replied runner.now) < 2 ^ 64 }
    requires requests { sum_by length (R.replied runner.now) < 2 ^ 64 }
    ensures { IfOk result (λ summary. summary ≡ spec.summary_of (record { updates = updates.now; replies = R.replied runner.now })) }
{
    let keys = keys_after(alloc, updates)?;
    let listed = listed_by_all::<G, R>(clients, runner);
    let requests = replies_of_all::<G, R>(clients, runner);
    Ok(Summary {
        keys,
        listed,
        requests,
        updates: updates.len() as u64,
    })
}

// How many keys the map has after all updates. Their values are not kept.
fn keys_after(alloc: Global, updates: &[Update]) -> Result<u64, NoMemory>
    ensures { IfOk result (λ keys. keys ≡ length (after updates.now (length updates.now))) }
{
    let mut keys = HashSet::new(alloc);
    for update in updates {
        change_keys(&mut keys, update)?;
    }
    Ok(keys.len() as u64)
}

// Makes an update's change to the keys of a map.
fn change_keys(keys: &mut HashSet<u64>, update: &Update) -> Result<(), NoMemory>
    ensures { OnOk result ((m : List Pair) → IsMap m → HasKeysOf m keys.old → HasKeysOf (updated m update.now) keys.new) }
{
    match update.change {
        Change::Put(_) => match keys.insert(update.key) {
            Ok(_) => Ok(()),
            Err(_) => Err(NoMemory),
        },
        Change::Remove => {
            keys.remove(&update.key);
            Ok(())
        }
    }
}

// How many entries the pages of all clients have.
fn listed_by_all<G: Gate + Sync, R: Runner<G>>(clients: u32, runner: &R) -> u64
    requires clients { clients ≡ length (R.replied runner.now) }
    requires fits { sum_by listed_by (R.replied runner.now) < 2 ^ 64 }
    ensures { result ≡ sum_by listed_by (R.replied runner.now) }
{
    let mut listed = 0;
    for client in 0..clients {
        listed += listed_by(runner.replies(client));
    }
    listed
}

// How many replies all clients have.
fn replies_of_all<G: Gate + Sync, R: Runner<G>>(clients: u32, runner: &R) -> u64
    requires clients { clients ≡ length (R.replied runner.now) }
    requires fits { sum_by length (R.replied runner.now) < 2 ^ 64 }
    ensures { result ≡ sum_by length (R.replied runner.now) }
{
    let mut replies = 0;
    for client in 0..clients {
        replies += runner.replies(client).len() as u64;
    }
    replies
}

// How many entries the pages of one client have.
fn listed_by(replies: &[Placed]) -> u64
    requires { listed_by replies.now < 2 ^ 64 }
    ensures { result ≡ listed_by replies.now }
{
    let mut listed = 0;
    for placed in replies {
        listed += listed_in(&placed.reply);
    }
    listed
}

// How many entries the page of a listing has.
fn listed_in(reply: &Reply) -> u64
    ensures { result ≡ listed_in reply.now }
{
    match reply {
        Reply::Listed { page, .. } | Reply::ListedV1 { page, .. } => page
            .get()
            .entries
            .len() as u64,
        _ => 0,
    }
}
