// Names and their directory.
use key_names::{Directory, NamesError, NoMemory, Text};
use std::alloc::Global;
use std::test::Fail;

fn texts(alloc: Global, names: &[&str]) -> Result<Vec<Text>, NoMemory> {
    let mut made = Vec::new(alloc);
    for name in names {
        made.push(Text::of(alloc, name)?)?;
    }
    Ok(made)
}

fn directory_of(alloc: Global, names: &[&str]) -> Result<Directory, NamesError> {
    match texts(alloc, names) {
        Ok(names) => Directory::new(alloc, names),
        Err(NoMemory) => Err(NamesError::NoMemory),
    }
}

// Whether these are the names, in the order of their ranks.
fn has_names(dir: &Directory, names: &[&str]) -> bool {
    let mut rank = 0;
    for name in names {
        if dir.len() <= rank || dir.name(rank).as_str() != *name {
            return false;
        }
        rank += 1;
    }
    dir.len() == rank
}

#[test]
fn holds_each_name_once_in_byte_order(rt: HostRuntime) -> Result<(), Fail> {
    let dir = directory_of(rt.alloc(), &["b", "é", "a/1", "z", "b", "a/2"])?;
    assert!(rt; has_names(&dir, &["a/1", "a/2", "b", "z", "é"]));
    Ok(())
}

// Whether the names a/1, a/2 and b have the ranks 0, 1 and 2, and other texts have none.
fn has_three_ranks(dir: &Directory) -> bool {
    let ranks = [
        dir.rank(b"a/1"),
        dir.rank(b"a/2"),
        dir.rank(b"b"),
        dir.rank(b"c"),
        dir.rank(b""),
    ];
    ranks == [Some(0), Some(1), Some(2), None, None]
}

#[test]
fn ranks_count_from_zero(rt: HostRuntime) -> Result<(), Fail> {
    let dir = directory_of(rt.alloc(), &["b", "a/1", "b", "a/2"])?;
    assert!(rt; has_three_ranks(&dir));
    Ok(())
}

// The error of a directory of `x`, a name of so many letters, and an empty name.
fn error_beside(alloc: Global, letters: usize) -> Result<Option<NamesError>, Fail> {
    let long = "n".repeat(alloc, letters)?;
    Ok(directory_of(alloc, &["x", long.as_str(), ""]).err())
}

#[test]
fn names_the_first_faulty_name(rt: HostRuntime) -> Result<(), Fail> {
    let alloc = rt.alloc();
    for (letters, error) in [
        (0, NamesError::Empty(1)),
        (1024, NamesError::Empty(2)),
        (1025, NamesError::TooLong(1)),
    ] {
        assert_eq!(rt; error_beside(alloc, letters)?, Some(error));
    }
    Ok(())
}

// Whether the names a/1, a/2, a0 and b are counted right: those below a text, those at most equal to it, and those
// below it or beginning with it.
fn has_right_places(dir: &Directory) -> bool {
    let before = [
        dir.at_or_after(b"a/2"),
        dir.at_or_after(b"a/"),
        dir.at_or_after(b"c"),
    ];
    let upto = [dir.after(b"a/2"), dir.after(b"")];
    let past = [
        dir.past_prefix(b"a/"),
        dir.past_prefix(b""),
        dir.past_prefix(b"c"),
    ];
    (before, upto, past) == ([1, 0, 4], [2, 0], [2, 4, 4])
}

#[test]
fn counts_names_by_their_places(rt: HostRuntime) -> Result<(), Fail> {
    let dir = directory_of(rt.alloc(), &["b", "a/1", "a/2", "a0"])?;
    assert!(rt; has_right_places(&dir));
    Ok(())
}
