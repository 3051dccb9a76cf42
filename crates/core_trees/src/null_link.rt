// The null link at which the search for an absent key ends.
ghost use Rattle.std.specs.Prelude.{◌≡◌, ◌↔◌, IsTrue, IsNone, IfSome, MatchOption};
ghost use Rattle.core_trees.specs.Gaps.{IsGapLink, IsOnlyGapLink, IsNull};
ghost use Rattle.core_trees.specs.NamedTree.{contents, IsLawful};
ghost use Rattle.core_trees.specs.Search.{EndsAt};
ghost use Rattle.core_trees.specs.Shape.{shape};
ghost use Rattle.core_trees.specs.TreeStep.{subtree_at};
ghost use Rattle.key_map.specs.Map.{map_has};
ghost use Rattle.index_words.specs.declared.side.Side.TheVariants.{Right};

use crate::link::{Link, ROOT};
use crate::tree::Tree;
use index_words::Side;

impl Tree {
    /// The null link whose gap contains the key, or `None` if the key is in the tree. The search for the key ends
    /// there. In the empty tree it is the right link of the root, whose gap contains all keys.
    pub fn gap_link(&self, key: u64) -> Option<Link>
        requires lawful { IsLawful (shape self.now) }
        ensures present { IsNone result ↔ IsTrue (map_has key (contents (shape self.now))) }
        ensures end { IfSome result (λ link. EndsAt key link.node link.side ROOT Right (shape self.now)) }
        ensures gap { IfSome result (λ link. IsGapLink key link.node link.side ROOT Right (shape self.now)) }
        ensures only { IfSome result (λ link. IsOnlyGapLink key link.node link.side (shape self.now)) }
    {
        self.end_link(
            key,
            Link {
                node: ROOT,
                side: Side::Right,
            },
        )
    }

    // The link at which the search for the key ends, if it is null, in a tree that hangs at the link `at`.
    fn end_link(&self, key: u64, at: Link) -> Option<Link>
        ensures { MatchOption result (¬ IsNull (subtree_at key (shape self.now)))
            (λ link. IsNull (subtree_at key (shape self.now))
            × EndsAt key link.node link.side at.node at.side (shape self.now)) }
    {
        match self {
            Tree::Empty => Some(at),
            Tree::Node(node) => {
                if key < node.key {
                    node.left.end_link(
                        key,
                        Link {
                            node: node.slot,
                            side: Side::Left,
                        },
                    )
                } else if node.key < key {
                    node.right.end_link(
                        key,
                        Link {
                            node: node.slot,
                            side: Side::Right,
                        },
                    )
                } else {
                    None
                }
            }
        }
    }
}
