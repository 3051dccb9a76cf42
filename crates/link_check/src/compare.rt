// The comparison of the plain links with the tree: node by node, from the root's link down.
ghost use Rattle.std.specs.Prelude.{◌≡◌, ◌<◌, [], IfOk};
ghost use Rattle.index_words.specs.declared.view.View.{View};
ghost use Rattle.key_map.specs.Lists.{Every};
ghost use Rattle.bundle_reads.specs.Links.{InsideAt};
ghost use Rattle.table_steps.specs.Passes.{AtRest, IsSamePass};
ghost use Rattle.update_search.specs.Searching.{IsAtTop};
ghost use Rattle.link_check.specs.TreeLinks.{HasNoLock, IsInTree, IsLinkOfTree, ReadsOn, StandsAtNode};

use bundle_reads::child_at;
use core_trees::{Link, ROOT};
use index_words::{Change, Side};
use std::alloc::{AllocError, Global};
use table_steps::TablePass;
use update_search::{Aim, begin_search, find_aim, search_laws};

/// Why the plain links were not found to be those of the tree.
#[derive(Clone, Copy, Debug, PartialEq, Eq)]
pub enum Unlike {
    /// This plain link holds another child than the link of the tree.
    Link(Link),
    /// A search down the plain links for the key of this node of the tree has not reached the node.
    Node(u32),
    /// Another pass was at work at this node: an entry had no number yet, or the lock was held.
    AtWork(u32),
    /// Out of memory for the nodes that are still to be compared.
    NoMemory,
}

impl From<AllocError> for Unlike {
    fn from(_: AllocError) -> Unlike {
        Unlike::NoMemory
    }
}

/// The children of a node.
#[derive(Clone, Copy, Debug, PartialEq, Eq)]
struct Children {
    left: u32,
    right: u32,
}

/// The child of a link of the tree.
fn tree_child(pass: &mut TablePass<'_>, at: u64, link: Link) -> Result<u32, Unlike>
    requires reads { InsideAt pass.old.view at }
    requires unlocked { HasNoLock pass.old.view }
    requires link { IsLinkOfTree pass.old.view link }
    ensures same { IsSamePass pass.old pass.new }
    ensures reads { InsideAt pass.new.view at }
    ensures unlocked { HasNoLock pass.new.view }
    ensures tree { ReadsOn pass.old.view pass.new.view }
    ensures child { IfOk result (λ child. 0 < child → IsInTree pass.new.view child) }
{
    pass.facts();
    match child_at(pass, at, link) {
        Some(child) => Ok(child),
        None => Err(Unlike::AtWork(link.node)),
    }
}

/// The children of a node of the tree.
fn tree_children(pass: &mut TablePass<'_>, at: u64, node: u32) -> Result<Children, Unlike>
    requires reads { InsideAt pass.old.view at }
    requires unlocked { HasNoLock pass.old.view }
    requires node { IsInTree pass.old.view node }
    ensures same { IsSamePass pass.old pass.new }
    ensures reads { InsideAt pass.new.view at }
    ensures unlocked { HasNoLock pass.new.view }
    ensures tree { ReadsOn pass.old.view pass.new.view }
    ensures left { IfOk result (λ c. 0 < c.left → IsInTree pass.new.view c.left) }
    ensures right { IfOk result (λ c. 0 < c.right → IsInTree pass.new.view c.right) }
{
    let side = Side::Left;
    let left = tree_child(pass, at, Link { node, side })?;
    let side = Side::Right;
    let right = tree_child(pass, at, Link { node, side })?;
    Ok(Children { left, right })
}

/// What the plain link of the root holds. It is loaded under the root's lock, and a search can begin after the unlock.
fn plain_top(pass: &mut TablePass<'_>) -> Result<u32, Unlike>
    requires unlocked { HasNoLock pass.old.view }
    ensures same { IsSamePass pass.old pass.new }
    ensures unlocked { HasNoLock pass.new.view }
    ensures tree { ReadsOn pass.old.view pass.new.view }
    ensures top { IfOk result (λ top. IsAtTop pass.new.view) }
{
    pass.facts();
    search_laws();
    if !pass.try_lock(ROOT) {
        return Err(Unlike::AtWork(ROOT));
    }
    let top = pass.load_link(ROOT, Side::Right);
    pass.unlock(ROOT);
    Ok(top)
}

/// What the plain links of a node hold, at which a search stands. They are loaded under the node's lock.
fn locked_children(pass: &mut TablePass<'_>, node: u32) -> Result<Children, Unlike>
    requires unlocked { HasNoLock pass.old.view }
    requires stands { StandsAtNode pass.old.view node }
    ensures same { IsSamePass pass.old pass.new }
    ensures unlocked { HasNoLock pass.new.view }
    ensures tree { ReadsOn pass.old.view pass.new.view }
{
    pass.facts();
    search_laws();
    if !pass.try_lock(node) {
        return Err(Unlike::AtWork(node));
    }
    if pass.load_mark(node) {
        pass.unlock(node);
        return Err(Unlike::AtWork(node));
    }
    let left = pass.load_link(node, Side::Left);
    let right = pass.load_link(node, Side::Right);
    pass.unlock(node);
    Ok(Children { left, right })
}

/// What the plain links of a node hold. A search for the node's key has to reach the node.
fn plain_children(pass: &mut TablePass<'_>, node: u32) -> Result<Children, Unlike>
    requires unlocked { HasNoLock pass.old.view }
    requires node { IsInTree pass.old.view node }
    ensures same { IsSamePass pass.old pass.new }
    ensures unlocked { HasNoLock pass.new.view }
    ensures tree { ReadsOn pass.old.view pass.new.view }
{
    plain_top(pass)?;
    pass.facts();
    search_laws();
    let key = pass.load_key(node);
    let Ok(Some(Aim::Replace { found, .. })) = find_aim(pass, key, Change::Put(0)) else {
        return Err(Unlike::Node(node));
    };
    if found.node != node {
        return Err(Unlike::Node(node));
    }
    locked_children(pass, node)
}

/// Adds a child, if it is not 0.
fn add_child(todo: &mut Vec<u32>, child: u32) -> Result<(), AllocError>
    ensures { IfOk result (λ _. (v : View) → (0 < child → IsInTree v child) → Every (IsInTree v) todo.old.items → Every (IsInTree v) todo.new.items) }
{
    if child != 0 {
        todo.push(child)?;
    }
    Ok(())
}

/// Compares the children of a node by the tree with those by the plain links.
fn alike(node: u32, tree: Children, plain: Children) -> Result<(), Unlike> {
    if tree.left != plain.left {
        let side = Side::Left;
        return Err(Unlike::Link(Link { node, side }));
    }
    if tree.right != plain.right {
        let side = Side::Right;
        return Err(Unlike::Link(Link { node, side }));
    }
    Ok(())
}

/// Compares the links of a node, and adds its children.
fn compare(pass: &mut TablePass<'_>, at: u64, node: u32, todo: &mut Vec<u32>) -> Result<(), Unlike>
    requires reads { InsideAt pass.old.view at }
    requires unlocked { HasNoLock pass.old.view }
    requires node { IsInTree pass.old.view node }
    requires todo { Every (IsInTree pass.old.view) todo.old.items }
    ensures same { IsSamePass pass.old pass.new }
    ensures reads { InsideAt pass.new.view at }
    ensures unlocked { HasNoLock pass.new.view }
    ensures todo { IfOk result (λ _. Every (IsInTree pass.new.view) todo.new.items) }
{
    let plain = plain_children(pass, node)?;
    let tree = tree_children(pass, at, node)?;
    alike(node, tree, plain)?;
    add_child(todo, tree.left)?;
    add_child(todo, tree.right)?;
    Ok(())
}

/// Compares the links of these nodes, and of all below them. Returns how many nodes there were.
fn compare_all(pass: &mut TablePass<'_>, at: u64, todo: &mut Vec<u32>) -> Result<u64, Unlike>
    requires reads { InsideAt pass.old.view at }
    requires unlocked { HasNoLock pass.old.view }
    requires todo { Every (IsInTree pass.old.view) todo.old.items }
    ensures same { IsSamePass pass.old pass.new }
    ensures reads { InsideAt pass.new.view at }
    ensures unlocked { HasNoLock pass.new.view }
{
    'nodes: for count in 0..u64::MAX {
        let Some(node) = todo.pop() else {
            return Ok(count);
        };
        compare(pass, at, node, todo)?;
    }
    Ok(u64::MAX)
}

/// Compares the link at which the tree hangs, and then all of its nodes.
fn compare_tree(pass: &mut TablePass<'_>, at: u64, todo: &mut Vec<u32>) -> Result<u64, Unlike>
    requires reads { InsideAt pass.old.view at }
    requires unlocked { HasNoLock pass.old.view }
    requires todo { todo.old.items ≡ [] }
    ensures same { IsSamePass pass.old pass.new }
    ensures reads { InsideAt pass.new.view at }
    ensures unlocked { HasNoLock pass.new.view }
{
    let node = ROOT;
    let side = Side::Right;
    let top = Link { node, side };
    let plain = plain_top(pass)?;
    let tree = tree_child(pass, at, top)?;
    if plain != tree {
        return Err(Unlike::Link(top));
    }
    add_child(todo, tree)?;
    compare_all(pass, at, todo)
}

/// Compares each plain link of the tree at the stamp with the link of the tree. Returns how many links there are: one
/// more than twice the nodes.
///
/// # Errors
/// `Link` if a link holds another child, `Node` if a search does not reach a node. `AtWork` if another pass is in the
/// middle of an update: on a table on which no update is under way it does not occur. `NoMemory` when out of memory.
pub fn compare_links(alloc: Global, pass: &mut TablePass<'_>) -> Result<u64, Unlike>
    requires rest { AtRest pass.old.view }
    ensures same { IsSamePass pass.old pass.new }
    ensures rest { AtRest pass.new.view }
{
    let mut todo = Vec::with_capacity(alloc, 1)?;
    let at = begin_search(pass);
    let nodes = compare_tree(pass, at, &mut todo);
    pass.close_section();
    Ok(nodes?.saturating_mul(2).saturating_add(1))
}
