// Calls that change the elements of a slice.
ghost use Rattle.std.specs.Prelude.{◌≡◌, ℕ, ◌+◌, ◌^◌, ◌<◌, length, slice_index_or};
ghost use denote.Param.Send.{IsSync, IsSend};
ghost use Rattle.std.specs.Fork.{AcceptsEach, ChangesEach, AcceptsAt, ChangesAt};
ghost use Rattle.fork_join.specs.Places.{AcceptsFrom, ChangesFrom};

use crate::share::share_of;
use std::thread::{Threads, join_mut};

/// Calls f(i, &mut s\[i\]) at each place, each on a thread of its own where one can be started.
pub fn for_each_mut<R: Threads + Sync, T: Send, F: Fn(usize, &mut T) + Sync>(
    rt: &R,
    s: &mut [T],
    f: &F,
)
    requires { AcceptsEach F.Fn f.now s.old }
    ensures { ChangesEach F.Fn f.now s.old s.new }
{
    change_from(rt, f, 0, s);
}

// The slice stands at place `base` of the whole one. It is the last parameter because the borrow checker does not cover
// a closure that reads a captured `&` after it lends a captured `&mut`.
#[cycle(places)]
fn change_from<R: Threads + Sync, T: Send, F: Fn(usize, &mut T) + Sync>(
    rt: &R,
    f: &F,
    base: usize,
    s: &mut [T],
)
    requires room { base + length s.old < 2 ^ 64 }
    requires accepts { AcceptsFrom (AcceptsAt F.Fn f.now) base s.old }
    ensures { ChangesFrom (ChangesAt F.Fn f.now) base s.old s.new }
{
    if s.len() < 2 {
        change_at_most_one(f, base, s);
        return;
    }
    let share = share_of(s.len());
    let (first, rest) = s.split_at_mut(share);
    change_both(rt, f, base, first, base + share, rest);
}

// A separate function, so that what the closures require is what this function is given.
#[cycle(places)]
fn change_both<R: Threads + Sync, T: Send, F: Fn(usize, &mut T) + Sync>(
    rt: &R,
    f: &F,
    base: usize,
    first: &mut [T],
    up: usize,
    rest: &mut [T],
)
    requires first_some { 0 < length first.old }
    requires first_room { base + length first.old < 2 ^ 64 }
    requires first { AcceptsFrom (AcceptsAt F.Fn f.now) base first.old }
    requires rest_some { 0 < length rest.old }
    requires rest_room { up + length rest.old < 2 ^ 64 }
    requires rest { AcceptsFrom (AcceptsAt F.Fn f.now) up rest.old }
    ensures first { ChangesFrom (ChangesAt F.Fn f.now) base first.old first.new }
    ensures rest { ChangesFrom (ChangesAt F.Fn f.now) up rest.old rest.new }
{
    let mut given = ||
        requires { IsSync R.row × IsSync F.row × IsSend T.row × (base + length first.now < 2 ^ 64) × AcceptsFrom (AcceptsAt F.Fn f.now) base first.now }
        ensures { ChangesFrom (ChangesAt F.Fn f.entry.now) base first.entry.now first.exit.now }
    { change_from(rt, f, base, first) };
    let mut kept = ||
        requires { IsSync R.row × IsSync F.row × IsSend T.row × (up + length rest.now < 2 ^ 64) × AcceptsFrom (AcceptsAt F.Fn f.now) up rest.now }
        ensures { ChangesFrom (ChangesAt F.Fn f.entry.now) up rest.entry.now rest.exit.now }
    { change_from(rt, f, up, rest) };
    join_mut(rt, &mut given, &mut kept);
}

// Changes the element of a slice that has at most one.
fn change_at_most_one<T, F: Fn(usize, &mut T)>(f: &F, base: usize, s: &mut [T])
    requires short { length s.old < 2 }
    requires accepts { AcceptsFrom (AcceptsAt F.Fn f.now) base s.old }
    ensures { ChangesFrom (ChangesAt F.Fn f.now) base s.old s.new }
{
    if s.len() == 1 {
        change_one(f, base, &mut s[0]);
    }
}

fn change_one<T, F: Fn(usize, &mut T)>(f: &F, place: usize, it: &mut T)
    requires { AcceptsAt F.Fn f.now place it.old }
    ensures { ChangesAt F.Fn f.now place it.old it.new }
{
    f(place, it);
}
