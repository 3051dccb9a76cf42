// What a session keeps of its lines; tests/program/rows.py compares the causes, the limits and the texts of fields.
use bucket_terms::Request;
use request_lines::{MAX_INPUT_BYTES, Session, SessionError, read_session};
use std::alloc::Global;
use std::test::Fail;

fn read(alloc: Global, text: &str) -> Result<Session, SessionError> {
    if text.len() > MAX_INPUT_BYTES {
        return Err(SessionError::NoMemory);
    }
    read_session(alloc, text.as_bytes())
}

/// What is kept of a line: the place of its client, its number, and the record that it puts.
type Kept = (usize, u32, Option<u64>);

/// A text, and what is kept of it.
#[derive(Clone, Copy)]
struct Row {
    text: &'static str,
    lines: &'static [Kept],
    /// How many of each client's lines are writes.
    writes: &'static [u32],
    /// The names of the lines that have one, in their order, each with a space after it.
    names: &'static str,
}

// A name and a record of its own for each put. The second of three clients makes no request, and a record is named by
// its place among those of all clients.
const ROWS: [Row; 3] = [
    Row {
        text: "CLIENT\nPUT b 2 e2 20\nPUT a 1 e1 10\nPUT b 3 e3 30\nLIST\n",
        lines: &[
            (0, 2, Some(0)),
            (0, 3, Some(1)),
            (0, 4, Some(2)),
            (0, 5, None),
        ],
        writes: &[3],
        names: "b a b ",
    },
    Row {
        text: "CLIENT\nPUT b 1 e1 1\nPUTNEW a 2 e2 2\nDELETE a\nPUTNEW a 3 e3 3\n",
        lines: &[
            (0, 2, Some(0)),
            (0, 3, Some(1)),
            (0, 4, None),
            (0, 5, Some(2)),
        ],
        writes: &[4],
        names: "b a a a ",
    },
    Row {
        text: "CLIENT\nPUT a 1 e1 1\n\nCLIENT\nCLIENT\nNEXT\nPUT a 2 e2 2\n",
        lines: &[(0, 2, Some(0)), (2, 6, None), (2, 7, Some(1))],
        writes: &[1, 0, 1],
        names: "a a ",
    },
];

/// The record of a put.
fn record(request: &Request) -> Option<u64> {
    match request {
        Request::Put { val, .. } | Request::PutNew { val, .. } => Some(*val),
        _ => None,
    }
}

fn lines(alloc: Global, session: &Session) -> Result<Vec<Kept>, Fail> {
    let mut kept = Vec::new(alloc);
    for (client, part) in session.clients.as_slice().iter().enumerate() {
        for asked in part.requests.as_slice() {
            kept.push((client, asked.line, record(&asked.request)))?;
        }
    }
    Ok(kept)
}

fn writes(alloc: Global, session: &Session) -> Result<Vec<u32>, Fail> {
    let mut counts = Vec::new(alloc);
    for part in session.clients.as_slice() {
        if part.requests.as_slice().len() < 1000 {
            counts.push(part.writes())?;
        }
    }
    Ok(counts)
}

fn names(alloc: Global, session: &Session) -> Result<String, Fail> {
    let mut names = String::new(alloc);
    for number in 0..session.names.len() {
        names.push_str(session.names.name(number).as_str())?;
        names.push(' ')?;
    }
    Ok(names)
}

/// Whether exactly this is kept of the row's text.
fn is_kept(alloc: Global, row: &Row) -> Result<bool, Fail> {
    let session = read(alloc, row.text)?;
    let is_kept = keeps(alloc, &session, row);
    drop(session);
    is_kept
}

/// Whether the session keeps exactly what the row says.
fn keeps(alloc: Global, session: &Session, row: &Row) -> Result<bool, Fail> {
    Ok(
        lines(alloc, session)?.as_slice() == row.lines
            && writes(alloc, session)?.as_slice() == row.writes
            && names(alloc, session)?.as_str() == row.names,
    )
}

/// The text of the first row of which something else is kept.
fn first_wrong(alloc: Global) -> Result<Option<&'static str>, Fail> {
    for row in &ROWS {
        if !is_kept(alloc, row)? {
            return Ok(Some(row.text));
        }
    }
    Ok(None)
}

#[test]
fn keeps_the_names_the_records_and_the_writes_of_its_lines(rt: HostRuntime) -> Result<(), Fail> {
    assert_eq!(rt; first_wrong(rt.alloc())?, None);
    Ok(())
}

/// Where to look for the names of the first client's first three requests.
fn ranks(alloc: Global, text: &str) -> Result<[usize; 3], Fail> {
    let session = read(alloc, text)?;
    match session.clients.as_slice().first() {
        Some(part) => {
            let asked = &part.requests;
            Ok([asked.rank(0), asked.rank(1), asked.rank(2)])
        },
        None => Err("no client".into()),
    }
}

#[test]
fn keeps_the_ranks_of_names(rt: HostRuntime) -> Result<(), Fail> {
    assert_eq!(rt; ranks(rt.alloc(), ROWS[0].text)?, [1, 0, 1]);
    Ok(())
}
