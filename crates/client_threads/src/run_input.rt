// What the clients of a session are run from.
use crate::node_slots::NodeSlots;
use client_run::Gate;
use key_names::Directory;
use request_lines::Session;
use shared_index::SharedIndex;

/// A session that is run: the directory of its names, the node slots that its clients have, and the gate that is notified
/// of each request.
#[derive(Drop)]
pub struct Served<'a, G: Gate> {
    pub session: &'a Session,
    pub dir: &'a Directory,
    pub slots: NodeSlots,
    pub gate: &'a G,
}

/// What clients are run from, besides the keys of their passes: the index, the session, the directory of its names, and
/// the gate that is notified of each request.
#[derive(Drop)]
pub struct RunInput<'a, G: Gate> {
    pub index: &'a SharedIndex,
    pub session: &'a Session,
    pub dir: &'a Directory,
    pub gate: &'a G,
}
