// The search for the first key from a key on.
ghost use Rattle.std.specs.Prelude.{◌≡◌};
ghost use Rattle.core_trees.specs.NamedTree.{contents, IsLawful};
ghost use Rattle.core_trees.specs.Search.{search_from};
ghost use Rattle.core_trees.specs.Shape.{shape};
ghost use Rattle.key_map.specs.Map.{first_from};

use crate::tree::Tree;
use index_words::Pair;

impl Tree {
    /// The first pair whose key is at least `key`.
    pub fn first_from(&self, key: u64) -> Option<Pair>
        requires lawful { IsLawful (shape self.now) }
        ensures first { result ≡ first_from key (contents (shape self.now)) }
    {
        self.search_from(key)
    }

    fn search_from(&self, key: u64) -> Option<Pair>
        ensures { result ≡ search_from key (shape self.now) }
    {
        match self {
            Tree::Empty => None,
            Tree::Node(node) => {
                if node.key < key {
                    return node.right.search_from(key);
                }
                match node.left.search_from(key) {
                    Some(pair) => Some(pair),
                    None => Some(Pair {
                        key: node.key,
                        val: node.val,
                    }),
                }
            }
        }
    }
}
