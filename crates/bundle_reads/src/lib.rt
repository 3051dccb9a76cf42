//! Reads along the bundles of the tree that a pass reads at its section number: the child of a link, as the link's
//! entries give it, whatever other passes do meanwhile. Snapshots go down the tree this way. The layer above uses
//! `child_at`, inside a section, on a pass that holds no lock.
#![tactic(auto)]

mod child;

pub use child::child_at;
