// The test whether a tree is lawful.
ghost use Rattle.std.specs.Prelude.{◌↔◌, IsTrue};
ghost use Rattle.core_trees.specs.NamedTree.{IsLawful, IsWithin, HasMapContents};
ghost use Rattle.core_trees.specs.Bounds.{low_above, high_below};
ghost use Rattle.core_trees.specs.Shape.{shape};

use crate::tree::Tree;

impl Tree {
    /// Whether the keys rise strictly from left to right, so that a search finds each of them.
    pub fn is_lawful(&self) -> bool
        ensures lawful { IsTrue result ↔ IsLawful (shape self.now) }
        ensures map { IsTrue result ↔ HasMapContents (shape self.now) }
    {
        self.is_between(None, None)
    }

    // Whether the keys rise strictly, and lie strictly between the two.
    fn is_between(&self, above: Option<u64>, below: Option<u64>) -> bool
        ensures { IsTrue result ↔ IsWithin (low_above above) (high_below below) (shape self.now) }
    {
        match self {
            Tree::Empty => true,
            Tree::Node(node) => {
                let key = node.key;
                above.is_none_or(|low| low < key)
                    && below.is_none_or(|high| key < high)
                    && node.left.is_between(above, Some(key))
                    && node.right.is_between(Some(key), below)
            }
        }
    }
}
