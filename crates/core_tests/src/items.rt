// Lists of numbers, and maps that updates are replayed into.
use key_map::{Change, Items, NoMemory, Pair, PlainMap, Update};
use std::alloc::Global;
use std::test::Fail;

pub(crate) fn items(alloc: Global, numbers: &[u32]) -> Result<Items<u32>, NoMemory> {
    let mut made = Items::new(alloc);
    for number in numbers {
        made.push(*number)?;
    }
    Ok(made)
}

// No clause says that memory suffices.
#[test]
fn ample_memory_suffices(rt: HostRuntime) -> Result<(), Fail> {
    let alloc = rt.alloc();
    let first = items(alloc, &[1, 2])?;
    let copy = first.copy(alloc)?;
    assert_eq!(rt; copy.as_slice(), [1, 2].as_slice());
    let both = Items::concat(alloc, first.as_slice(), &[3])?;
    assert_eq!(rt; both.as_slice(), [1, 2, 3].as_slice());
    Ok(())
}

#[test]
fn replays_updates_into_a_sorted_map(rt: HostRuntime) -> Result<(), Fail> {
    let change = |key, change| Update {
        client: 0,
        line: 0,
        key,
        change,
    };
    let updates = [
        change(5, Change::Put(50)),
        change(2, Change::Put(20)),
        change(7, Change::Put(70)),
        change(5, Change::Put(51)),
        change(7, Change::Remove),
    ];
    let map = PlainMap::replayed(rt.alloc(), &updates)?;
    let pairs = [Pair { key: 2, val: 20 }, Pair { key: 5, val: 51 }];
    assert_eq!(rt; map.pairs(), pairs.as_slice());
    assert_eq!(rt; map.first_from(3), Some(pairs[1]));
    assert_eq!(rt; map.first_from(6), None);
    Ok(())
}
