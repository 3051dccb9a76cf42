// What a seat does in a row of a test, read from its text: words between single spaces.
use crate::reading::{change_of, kind_of, next_u32, next_u64, update_of};
use crate::updates::{NewLink, NewNode, Turn};
use crate::words::{LinkName, address_of, link_named};
use core_rule::{Event, Kind};
use index_words::{Change, Layout, TreeNode};
use std::alloc::Global;
use std::str::Split;

/// What a seat does by its own steps, which must all be allowed.
#[derive(Clone, Copy)]
pub(crate) enum Act {
    Begin,
    End,
    Enter,
    Leave,
    Search(u64),
    Lock(u32),
    Unlock(u32),
    LoadHead(LinkName),
    FillEntry { entry: u32, child: u32, next: u64 },
    Fill(NewNode),
    Prepare(Turn),
    Finalise(u32),
    Mark(u32),
    SetLink { link: LinkName, child: u64 },
    RaiseTag(LinkName),
    Put { at: Turn, key: u64, val: u64 },
    Remove { at: Turn, old: u32, key: u64 },
}

/// What a seat does: one event, or steps that belong together.
#[derive(Clone, Copy)]
pub(crate) enum Doing {
    Event(Event),
    Raise { key: u64, change: Change },
    Act(Act),
}

/// The nodes of a tree, each as `slot,key,val,left,right`.
pub(crate) fn nodes_of(alloc: Global, texts: Split<'_, char>) -> Option<Vec<TreeNode>> {
    let mut nodes = Vec::new(alloc);
    for text in texts {
        nodes.push(node_of(text)?).ok()?;
    }
    Some(nodes)
}

fn node_of(text: &str) -> Option<TreeNode> {
    let mut fields = text.split(',');
    Some(TreeNode {
        slot: next_u32(&mut fields)?,
        key: next_u64(&mut fields)?,
        val: next_u64(&mut fields)?,
        left: next_u32(&mut fields)?,
        right: next_u32(&mut fields)?,
    })
}

/// What a seat does. None if the text is not of this form, or has more than that.
pub(crate) fn doing_of(layout: &Layout, seat: u32, text: &str) -> Option<Doing> {
    let (name, rest) = match text.split_once(' ') {
        None => (text, ""),
        Some(parts) => parts,
    };
    if let Some(kind) = kind_of(name) {
        return event_of(layout, seat, kind, rest);
    }
    let mut words = rest.split(' ');
    let doing = match name {
        "raise" => raise_of(&mut words)?,
        "begin" | "end" | "enter" | "leave" => return simple_act(name, rest),
        _ => Doing::Act(act_of(name, &mut words)?),
    };
    if words.next().is_none() {
        Some(doing)
    } else {
        None
    }
}

fn event_of(layout: &Layout, seat: u32, kind: Kind, rest: &str) -> Option<Doing> {
    let mut words = rest.split(' ');
    let word = address_of(layout, words.next()?)?;
    let value = next_u64(&mut words)?;
    let update = match rest.split(' ').count() {
        2 => None,
        _ => Some(update_of(&mut words)?),
    };
    if words.next().is_some() {
        return None;
    }
    Some(Doing::Event(Event {
        seat,
        kind,
        word,
        value,
        update,
    }))
}

fn raise_of(words: &mut Split<'_, char>) -> Option<Doing> {
    Some(Doing::Raise {
        key: next_u64(words)?,
        change: change_of(words)?,
    })
}

fn simple_act(name: &str, rest: &str) -> Option<Doing> {
    if !rest.is_empty() {
        return None;
    }
    Some(Doing::Act(match name {
        "begin" => Act::Begin,
        "end" => Act::End,
        "enter" => Act::Enter,
        _ => Act::Leave,
    }))
}

fn act_of(name: &str, words: &mut Split<'_, char>) -> Option<Act> {
    Some(match name {
        "search" => Act::Search(next_u64(words)?),
        "lock" => Act::Lock(next_u32(words)?),
        "unlock" => Act::Unlock(next_u32(words)?),
        "finalise" => Act::Finalise(next_u32(words)?),
        "mark" => Act::Mark(next_u32(words)?),
        "link" => Act::SetLink {
            link: link_named(words.next()?)?,
            child: next_u64(words)?,
        },
        "tag" => Act::RaiseTag(link_named(words.next()?)?),
        "head" => Act::LoadHead(link_named(words.next()?)?),
        _ => return long_act_of(name, words),
    })
}

/// What brings in new entries or nodes.
fn long_act_of(name: &str, words: &mut Split<'_, char>) -> Option<Act> {
    Some(match name {
        "entry" => Act::FillEntry {
            entry: next_u32(words)?,
            child: next_u32(words)?,
            next: next_u64(words)?,
        },
        "fill" => Act::Fill(new_node_of(words)?),
        "prepare" => Act::Prepare(turn_of(words)?),
        "put" => Act::Put {
            at: turn_of(words)?,
            key: next_u64(words)?,
            val: next_u64(words)?,
        },
        "remove" => Act::Remove {
            at: turn_of(words)?,
            old: next_u32(words)?,
            key: next_u64(words)?,
        },
        _ => return None,
    })
}

/// A link, the entry that is to be put in front there, and its child.
fn turn_of(words: &mut Split<'_, char>) -> Option<Turn> {
    Some(Turn {
        link: link_named(words.next()?)?,
        entry: next_u32(words)?,
        child: next_u32(words)?,
    })
}

/// A new node: its slot, its key, its value, and its left and right link.
fn new_node_of(words: &mut Split<'_, char>) -> Option<NewNode> {
    Some(NewNode {
        slot: next_u32(words)?,
        key: next_u64(words)?,
        val: next_u64(words)?,
        left: new_link_of(words.next()?)?,
        right: new_link_of(words.next()?)?,
    })
}

/// A link of a new node: `-` for none, or `entry,child`.
fn new_link_of(text: &str) -> Option<Option<NewLink>> {
    if text == "-" {
        return Some(None);
    }
    let (entry, child) = text.split_once(',')?;
    Some(Some(NewLink {
        entry: entry.parse::<u32>().ok()?,
        child: child.parse::<u32>().ok()?,
    }))
}
