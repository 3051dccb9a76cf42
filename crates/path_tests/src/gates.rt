// What is reported to a gate, and when: each request's calls of the pass stand between the two calls of the gate. Both
// are given the number of the pass and the line of the request. The answers of sessions are compared by
// tests/program/rows.py.
ghost use Rattle.std.specs.Prelude.{◌≤◌, All, length};
ghost use Rattle.request_lines.specs.InputParts.{most_requests};
ghost use Rattle.request_lines.specs.Session.{request_lines};
ghost use Rattle.request_lines.specs.SessionLaws.{Rise, IsAskable};

use bucket_terms::{Homed, KeyPass, PlainPass};
use client_run::{Gate, run_client};
use key_map::{Done, New, Pair, PassError, PassSize};
use key_names::Directory;
use request_lines::{ClientPart, MAX_INPUT_BYTES, read_session};
use std::alloc::Global;
use std::cell::RefCell;
use std::sync::Wait;
use std::test::Fail;

// The number of the pass.
const CLIENT: u32 = 3;

#[derive(Clone, Copy, Debug, PartialEq, Eq)]
enum Told {
    Before(u32, u32),
    Gathered,
    Called,
    After(u32, u32),
}

// Keeps what is reported to the gate, and the calls of the pass, in order.
#[derive(Drop)]
struct Diary {
    told: RefCell<Vec<Told>>,
}

impl Diary {
    fn note(&self, told: Told) {
        if let Ok(mut noted) = self.told.try_borrow_mut() {
            let _ = noted.push(told);
        }
    }
}

impl Gate for Diary {
    fn before(&self, client: u32, line: u32) {
        self.note(Told::Before(client, line));
    }

    fn after(&self, client: u32, line: u32) {
        self.note(Told::After(client, line));
    }
}

// A pass that notes each call that changes the map, opens a snapshot or gathers entries.
#[derive(Drop)]
struct Watched<'a, P> {
    pass: P,
    diary: &'a Diary,
}

impl<P: KeyPass> Homed for Watched<'_, P> {
    ghost home = { λ w. P.home w.pass };
}

impl<P: KeyPass> KeyPass for Watched<'_, P> {
    ghost view = { λ w. P.view w.pass };

    fn put<Rt: Wait>(&mut self, rt: &Rt, line: u32, key: u64, val: u64) -> Result<Done, PassError> {
        self.diary.note(Told::Called);
        self.pass.put(rt, line, key, val)
    }

    fn put_new<Rt: Wait>(
        &mut self,
        rt: &Rt,
        line: u32,
        key: u64,
        val: u64,
    ) -> Result<New, PassError> {
        self.diary.note(Told::Called);
        self.pass.put_new(rt, line, key, val)
    }

    fn remove<Rt: Wait>(&mut self, rt: &Rt, line: u32, key: u64) -> Result<Done, PassError> {
        self.diary.note(Told::Called);
        self.pass.remove(rt, line, key)
    }

    fn gather<Rt: Wait>(&mut self, rt: &Rt) {
        self.diary.note(Told::Gathered);
        self.pass.gather(rt)
    }

    fn begin(&mut self) -> u64 {
        self.diary.note(Told::Called);
        self.pass.begin()
    }

    fn next_from<Rt: Wait>(&mut self, rt: &Rt, key: u64) -> Option<Pair> {
        self.pass.next_from(rt, key)
    }

    fn end(&mut self) {
        self.pass.end()
    }

    fn client(&self) -> u32 {
        self.pass.client()
    }
}

// Runs the one client of the text. Returns how many replies there are.
fn run<Rt: Wait>(rt: &Rt, alloc: Global, text: &str, diary: &Diary) -> Result<usize, Fail> {
    if text.len() > MAX_INPUT_BYTES {
        return Err("the text is too long".into());
    }
    let session = read_session(alloc, text.as_bytes())?;
    let dir = session.names.directory(alloc)?;
    let Some(part) = session.clients.as_slice().first() else {
        return Err("no client".into());
    };
    run_part(rt, alloc, part, &dir, diary)
}

fn run_part<Rt: Wait>(
    rt: &Rt,
    alloc: Global,
    part: &ClientPart,
    dir: &Directory,
    diary: &Diary,
) -> Result<usize, Fail>
    requires askable { All (IsAskable dir.now) (request_lines part.now) }
    requires rising { Rise (request_lines part.now) }
    requires few { length part.now.requests ≤ most_requests }
{
    let size = PassSize {
        nodes: 1000,
        entries: 4000,
        calls: part.writes(),
    };
    let mut pass = Watched {
        pass: PlainPass::new(alloc, CLIENT, size)?,
        diary,
    };
    Ok(run_client(rt, alloc, &mut pass, part, dir, diary)?.len())
}

const SESSION: &str = "CLIENT\nPUT a 1 e1 1\n\nHEAD a\nLIST\nDELETE a\nNEXT\n";

const TOLD: [Told; 16] = [
    Told::Before(CLIENT, 2),
    Told::Gathered,
    Told::Called,
    Told::After(CLIENT, 2),
    Told::Before(CLIENT, 4),
    Told::Called,
    Told::After(CLIENT, 4),
    Told::Before(CLIENT, 5),
    Told::Called,
    Told::After(CLIENT, 5),
    Told::Before(CLIENT, 6),
    Told::Gathered,
    Told::Called,
    Told::After(CLIENT, 6),
    Told::Before(CLIENT, 7),
    Told::After(CLIENT, 7),
];

// Whether the diary has exactly this.
fn has_told(diary: &Diary, told: &[Told]) -> bool {
    match diary.told.try_borrow() {
        Ok(noted) => noted.as_slice() == told,
        Err(_) => false,
    }
}

#[test]
fn tells_the_gate_of_each_request(rt: HostRuntime) -> Result<(), Fail> {
    let diary = Diary {
        told: RefCell::new(Vec::new(rt.alloc())),
    };
    assert_eq!(rt; run(&rt, rt.alloc(), SESSION, &diary)?, 5);
    assert!(rt; has_told(&diary, &TOLD));
    Ok(())
}
