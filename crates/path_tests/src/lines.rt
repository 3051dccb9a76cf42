// Lines with values that no session of the program reaches; tests/program/rows.py compares those of sessions.
ghost use Rattle.std.specs.Prelude.{◌≡◌, IfOk, length};

use answer_text::{journal_line, last_line, reply_line};
use bucket_terms::{Placed, Record, Reply};
use key_map::{Change, Update};
use key_names::{Directory, Text};
use std::alloc::Global;
use std::test::Fail;

// The directory of one name.
fn directory(alloc: Global) -> Result<Directory, Fail>
    ensures { IfOk result (λ dir. length dir ≡ 1) }
{
    let dir = Directory::new(alloc, vec![in alloc; Text::of(alloc, "a")?]?)?;
    if dir.len() == 1 {
        Ok(dir)
    } else {
        Err("not one name".into())
    }
}

// The line of a HEAD with the largest place, client, line, size and time.
fn largest_reply(alloc: Global) -> Result<Text, Fail> {
    let record = Record {
        size: u64::MAX,
        etag: Text::of(alloc, "e")?,
        modified: u64::MAX,
    };
    let placed = Placed {
        client: u32::MAX,
        line: u32::MAX,
        at: Some(u64::MAX),
        reply: Reply::Found { val: 0 },
    };
    Ok(reply_line(alloc, &directory(alloc)?, &[record], &placed)?)
}

// The line of a put with the largest place and line.
fn largest_journal(alloc: Global) -> Result<Text, Fail> {
    let update = Update {
        client: 0,
        line: u32::MAX,
        key: 0,
        change: Change::Put(u64::MAX),
    };
    Ok(journal_line(alloc, &directory(alloc)?, u64::MAX, &update)?)
}

#[test]
fn largest_numbers_of_lines(rt: HostRuntime) -> Result<(), Fail> {
    let alloc = rt.alloc();
    assert_eq!(rt;
        largest_reply(alloc)?.as_str(),
        "{\"At\":18446744073709551615,\"Client\":4294967295,\"ETag\":\"e\",\"LastModified\":18446744073709551615,\"Line\":4294967295,\"Size\":18446744073709551615,\"Status\":200}\n"
    );
    assert_eq!(rt;
        largest_journal(alloc)?.as_str(),
        "{\"At\":18446744073709551615,\"Client\":0,\"Key\":\"a\",\"Line\":4294967295,\"Verb\":\"PUT\"}\n"
    );
    assert_eq!(rt;
        last_line(alloc, u64::MAX)?.as_str(),
        "{\"Updates\":18446744073709551615}\n"
    );
    Ok(())
}
