/// One of the two sides of a node of the tree: smaller keys stand below its left link, greater keys
/// below its right link.
#[derive(Clone, Copy, Debug, PartialEq, Eq)]
pub enum Side {
    Left,
    Right,
}
