// Trees: what a put and a removal make of them, what is found in them, and which tree lists spell.
ghost use Rattle.std.specs.Prelude.{IfOk};
ghost use Rattle.core_trees.specs.NamedTree.{IsLawful};
ghost use Rattle.core_trees.specs.Shape.{shape};

use core_trees::{Link, NodeLists, ROOT, Tree, TreeError, spells};
use index_words::{Pair, Side};
use std::alloc::{AllocError, Global};
use std::test::Fail;

// A node to be put: its slot, key and value.
type Row = (u32, u64, u64);

const FIVE: [Row; 5] = [(1, 1, 10), (2, 0, 11), (3, 4, 12), (4, 2, 13), (5, 3, 14)];

const fn right_of(node: u32) -> Option<Link> {
    Some(Link {
        node,
        side: Side::Right,
    })
}

// The tree of these puts, in order.
fn tree_of(alloc: Global, rows: &[Row]) -> Result<Tree, TreeError>
    ensures { IfOk result (λ tree. IsLawful (shape tree)) }
{
    let mut tree = Tree::Empty;
    for (slot, key, val) in rows {
        tree = tree.put(alloc, *slot, *key, *val)?;
    }
    Ok(tree)
}

// The tree as `slot:key=val(left right)`, with a point for a null link.
fn outline(tree: &Tree, out: &mut String) -> Result<(), AllocError> {
    match tree {
        Tree::Empty => out.push_str("."),
        Tree::Node(node) => {
            let slot = node.slot;
            let key = node.key;
            let val = node.val;
            write!(out, "{slot}:{key}={val}(")?;
            outline(&node.left, out)?;
            out.push_str(" ")?;
            outline(&node.right, out)?;
            out.push_str(")")
        }
    }
}

fn drawn(alloc: Global, tree: &Tree) -> Result<String, AllocError> {
    let mut out = String::new(alloc);
    outline(tree, &mut out)?;
    Ok(out)
}

#[test]
fn removes_each_kind_of_node(rt: HostRuntime) -> Result<(), Fail> {
    let right_child_follows = [(1, 2, 20), (2, 1, 10), (3, 4, 40), (4, 5, 50)];
    let cases: [(&[Row], u64, &str); 8] = [
        (&FIVE, 1, "6:2=13(2:0=11(. .) 3:4=12(5:3=14(. .) .))"),
        (&FIVE, 0, "1:1=10(. 3:4=12(4:2=13(. 5:3=14(. .)) .))"),
        (&FIVE, 4, "1:1=10(2:0=11(. .) 4:2=13(. 5:3=14(. .)))"),
        (&FIVE, 2, "1:1=10(2:0=11(. .) 3:4=12(5:3=14(. .) .))"),
        (&right_child_follows, 2, "6:4=40(2:1=10(. .) 4:5=50(. .))"),
        (&FIVE[..1], 1, "."),
        (&FIVE[..2], 1, "2:0=11(. .)"),
        (&FIVE[..2], 7, "1:1=10(2:0=11(. .) .)"),
    ];
    for (rows, key, left) in cases {
        let tree = tree_of(rt.alloc(), rows)?.remove(key, 6);
        let drawing = drawn(rt.alloc(), &tree)?;
        assert_eq!(rt; drawing.as_str(), left);
    }
    Ok(())
}

#[test]
fn replaces_a_node_under_its_children(rt: HostRuntime) -> Result<(), Fail> {
    let tree = tree_of(rt.alloc(), &FIVE)?.put(rt.alloc(), 7, 4, 40)?;
    let drawing = drawn(rt.alloc(), &tree)?;
    assert_eq!(rt;
        drawing.as_str(),
        "1:1=10(2:0=11(. .) 7:4=40(4:2=13(. 5:3=14(. .)) .))"
    );
    Ok(())
}

#[test]
fn refused_memory_leaves_the_tree(rt: HostRuntime) -> Result<(), Fail> {
    let same = tree_of(rt.alloc(), &FIVE)?;
    match tree_of(rt.alloc(), &FIVE)?.put(rt.alloc(), 6, 9, 90) {
        Ok(tree) => assert_eq!(rt; tree.first_from(5), Some(Pair { key: 9, val: 90 })),
        Err(error) => assert_eq!(rt; error.tree, same),
    }
    Ok(())
}

#[test]
fn finds_pairs_and_gaps(rt: HostRuntime) -> Result<(), Fail> {
    let tree = tree_of(rt.alloc(), &FIVE)?.remove(1, 6);
    for (key, first) in [
        (0, Some(Pair { key: 0, val: 11 })),
        (1, Some(Pair { key: 2, val: 13 })),
        (3, Some(Pair { key: 3, val: 14 })),
        (5, None),
    ] {
        assert_eq!(rt; tree.first_from(key), first);
    }
    for (key, link) in [(2, None), (1, right_of(2)), (7, right_of(3))] {
        assert_eq!(rt; tree.gap_link(key), link);
    }
    assert_eq!(rt; Tree::Empty.gap_link(9), right_of(ROOT));
    assert!(rt; tree.is_lawful());
    Ok(())
}

#[test]
fn reads_what_lists_spell(rt: HostRuntime) -> Result<(), Fail> {
    let tree = tree_of(rt.alloc(), &FIVE[..3])?;
    let nodes = NodeLists {
        keys: &[0, 1, 0, 4],
        vals: &[0, 10, 11, 12],
        lefts: &[0, 2, 0, 0],
        rights: &[1, 3, 0, 0],
    };
    assert!(rt; spells(&nodes, 1, &tree));
    assert!(rt; !spells(&nodes, 2, &tree));
    Ok(())
}
