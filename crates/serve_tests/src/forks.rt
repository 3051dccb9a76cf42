// Calls that one thread gives to others: each result and each change stands at its own place, however many they are.
use fork_join::{for_each_mut, map_vec};
use std::alloc::{AllocError, Global};
use std::test::Fail;
use std::thread::Threads;

// The numbers below this one.
fn numbers(alloc: Global, count: usize) -> Result<Vec<usize>, AllocError> {
    let mut numbers = Vec::new(alloc);
    for number in 0..count {
        numbers.push(number)?;
    }
    Ok(numbers)
}

// Whether each number stands at its place, and there are so many.
fn are_numbers(found: &[usize], count: usize) -> bool {
    found.len() == count
        && found
            .iter()
            .enumerate()
            .all(|(place, number)| place == *number)
}

fn maps_in_order<Rt: Threads + Sync>(
    rt: &Rt,
    alloc: Global,
    count: usize,
) -> Result<bool, AllocError> {
    let mapped = map_vec(rt, numbers(alloc, count)?, &|number| number)?;
    Ok(are_numbers(mapped.as_slice(), count))
}

fn changes_each<Rt: Threads + Sync>(
    rt: &Rt,
    alloc: Global,
    count: usize,
) -> Result<bool, AllocError> {
    let mut zeros = vec![in alloc; 0; count]?;
    let fill = |place: usize, number: &mut usize| *number = number.saturating_add(place);
    for_each_mut(rt, zeros.as_mut_slice(), &fill);
    Ok(are_numbers(zeros.as_slice(), count))
}

#[test]
fn results_come_in_the_order_of_the_jobs(rt: HostRuntime) -> Result<(), Fail> {
    for count in [0, 1, 2, 8, 9, 33] {
        assert!(rt; maps_in_order(&rt, rt.alloc(), count)?);
    }
    Ok(())
}

#[test]
fn each_place_is_changed_once(rt: HostRuntime) -> Result<(), Fail> {
    for count in [0, 1, 2, 8, 9, 33] {
        assert!(rt; changes_each(&rt, rt.alloc(), count)?);
    }
    Ok(())
}
