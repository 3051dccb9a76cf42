// What is kept of the lines so far.
ghost use Rattle.std.specs.Prelude.{◌≡◌, ◌≤◌, ℕ, List, ◌∷◌, [], ◌++◌, length, Ok, OnOk, IfOk, IsOkUnless};
ghost use Rattle.line_grammar.specs.declared.line_error.LineError.TheVariants.{NoMemory as OutOfMemory};
ghost use Rattle.request_lines.specs.declared.session_error.SessionError.TheVariants.{NoMemory as NoSession};
ghost use Rattle.request_lines.specs.Counting.{IsWithin, counted};
ghost use Rattle.request_lines.specs.Input as spec;
ghost use Rattle.line_grammar.specs.Fine.{IsFineCommand};
ghost use Rattle.request_lines.specs.Input.{IsSessionOf};
ghost use Rattle.request_lines.specs.InputParts.{most_requests};
ghost use Rattle.request_lines.specs.Reading.{progress, no_progress, all_ended, kept, session_error, Takes, KeepsReading, HasTaken};
ghost use Rattle.request_lines.specs.Refusal.{IsRefused};
ghost use Rattle.request_lines.specs.Said.{SaysLine};
ghost use Rattle.request_lines.specs.SessionLaws.{HasNames, HasRecords, HasRequests, HasLines, IsSmall};

use crate::counts::Counts;
use crate::interner::Interner;
use crate::name_hints::NameHint;
use crate::unsorted::UnsortedSession;
use crate::{Asked, ClientPart, InputError, Requests, SessionError};
use bucket_terms::{Record, Request};
use key_names::Text;
use line_grammar::{Command, LineError, PutWhen};
use std::alloc::Global;
use std::mem;

/// What the lines so far have asked.
#[derive(Drop)]
pub(crate) struct Reader {
    pub(crate) counts: Counts,
    /// The parts of all clients but the current one.
    pub(crate) ended: Vec<ClientPart>,
    /// What the current client has asked.
    pub(crate) current: Requests,
    pub(crate) names: Interner,
    pub(crate) records: Vec<Record>,
    /// About how many requests the whole input has, 0 where this is not known.
    expected: usize,
}

impl Reader {
    /// Before the first line.
    pub(crate) fn new(alloc: Global) -> Reader
        ensures start { progress result ≡ no_progress }
        ensures within { IsWithin result.counts }
    {
        Reader {
            counts: Counts::none(),
            ended: Vec::new(alloc),
            current: Requests::new(alloc),
            names: Interner::new(alloc),
            records: Vec::new(alloc),
            expected: 0,
        }
    }

    /// Makes room, if available, for what an input of about so many lines asks. A large list that grows is moved by
    /// the operating system, which interrupts every processor that runs another thread and waits until each has
    /// dropped what it knows of the old place: 47 moves for 100,000 puts without the room.
    pub(crate) fn make_room(&mut self, lines: usize)
        ensures same { progress self.new ≡ progress self.old }
    {
        self.expected = lines;
        self.names.make_room(lines, lines);
        // Without the room the list grows as it is filled.
        let _ = self.records.reserve(lines);
    }

    // Takes the next line, which says this.
    fn admit(
        &mut self,
        alloc: Global,
        number: u32,
        command: Command,
        hint: NameHint,
    ) -> Result<(), LineError>
        requires within { IsWithin self.old.counts }
        requires fine { IsFineCommand command }
        ensures kept { KeepsReading (progress self.old) number (Ok command) (progress self.new) result }
        ensures within { OnOk result (IsWithin self.new.counts) }
    {
        let counts = self.counts.admitted(&command)?;
        self.keep(alloc, number, command, counts, hint)
    }

    /// Takes the next line, which has this number and says this, or is empty.
    pub(crate) fn take_said(
        &mut self,
        alloc: Global,
        number: u32,
        said: Option<Command>,
        hint: NameHint,
    ) -> Result<(), SessionError>
        requires within { IsWithin self.old.counts }
        requires says { (text : List ℕ) × SaysLine text said }
        ensures taken { (text : List ℕ) → SaysLine text said → Takes (progress self.old) number text (progress self.new) result }
        ensures within { OnOk result (IsWithin self.new.counts) }
    {
        let Some(command) = said else {
            return Ok(());
        };
        match self.admit(alloc, number, command, hint) {
            Ok(()) => Ok(()),
            Err(error) => Err(error_at(number, error)),
        }
    }

    // Keeps what the line asks.
    #[tactic(auto, unfolding(crate::specs::Reading::kept))]
    fn keep(
        &mut self,
        alloc: Global,
        number: u32,
        command: Command,
        counts: Counts,
        hint: NameHint,
    ) -> Result<(), LineError>
        requires { counts ≡ counted self.old.counts command }
        ensures kept { OnOk result (progress self.new ≡ kept (progress self.old) number (Ok command)) }
        ensures counts { OnOk result (self.new.counts ≡ counts) }
        ensures memory { IsOkUnless result OutOfMemory }
    {
        match command {
            Command::Client => self.begin_client(alloc, counts),
            Command::Put { when, name, record } => {
                let val = u64::from(self.counts.puts);
                self.counts = counts;
                let name_number = self.names.push(alloc, &name, hint)?;
                self.records.push(record)?;
                self.ask(number, put_request(when, name, val), name_number)
            }
            Command::Delete { name } => {
                self.counts = counts;
                let name_number = self.names.push(alloc, &name, hint)?;
                self.ask(number, Request::Delete { name }, name_number)
            }
            Command::Head { name } => {
                self.counts = counts;
                let name_number = self.names.push(alloc, &name, hint)?;
                self.ask(number, Request::Head { name }, name_number)
            }
            Command::List(query) => {
                self.counts = counts;
                self.ask(number, Request::List(query), 0)
            }
            Command::ListV1(query) => {
                self.counts = counts;
                self.ask(number, Request::ListV1(query), 0)
            }
            Command::Next => {
                self.counts = counts;
                self.ask(number, Request::Next, 0)
            }
        }
    }

    // Begins the next client: the one before it has ended.
    fn begin_client(&mut self, alloc: Global, counts: Counts) -> Result<(), LineError>
        ensures begun { OnOk result (progress self.new ≡ record (progress self.old) { counts = counts; ended = all_ended (progress self.old); current = [] }) }
        ensures memory { IsOkUnless result OutOfMemory }
    {
        let left = self.expected.saturating_sub(self.counts.requests as usize);
        let mut requests = mem::replace(&mut self.current, Requests::with_room(alloc, left));
        requests.shrink_to_fit();
        if 0 < self.counts.clients {
            self.ended.push(ClientPart { requests })?;
        }
        self.counts = counts;
        Ok(())
    }

    // Keeps a request about the name of this number, where it is about one.
    fn ask(&mut self, line: u32, request: Request, name_number: usize) -> Result<(), LineError>
        ensures asked { OnOk result (progress self.new ≡ record (progress self.old) { current = self.old.current ++ record { line = line; request = request } ∷ [] }) }
        ensures memory { IsOkUnless result OutOfMemory }
    {
        self.current.push(Asked { line, request }, name_number)?;
        Ok(())
    }

    /// The session of an input of which all lines were taken. Its names are still to be sorted.
    pub(crate) fn finish(self) -> Result<UnsortedSession, SessionError>
        requires within { IsWithin self.counts }
        requires taken { (bytes : List ℕ) × HasTaken bytes (progress self) }
        ensures session { (bytes : List ℕ) → HasTaken bytes (progress self) → IfOk result (IsSessionOf bytes) }
        ensures refused { (bytes : List ℕ) → HasTaken bytes (progress self) → IsRefused bytes result }

        // What the layers above need of every session.
        ensures names { IfOk result HasNames }
        ensures records { IfOk result HasRecords }
        ensures requests { IfOk result HasRequests }
        ensures lines { IfOk result HasLines }
        ensures small { IfOk result IsSmall }
    {
        self.kept_session()
    }

    // The session of what is kept of the lines so far.
    fn kept_session(self) -> Result<UnsortedSession, SessionError>
        requires { length self.names ≤ most_requests }
        ensures clients { IfOk result (λ s. s.clients ≡ all_ended (progress self)) }
        ensures names { IfOk result (λ s. s.names ≡ self.names) }
        ensures records { IfOk result (λ s. s.records ≡ self.records.items) }
        ensures memory { IsOkUnless result NoSession }
    {
        let Reader {
            counts,
            mut ended,
            current,
            names,
            records,
            expected: _,
        } = self;
        if 0 < counts.clients {
            ended.push(ClientPart { requests: current })?;
        }
        Ok(UnsortedSession::of(ended, names, records))
    }
}

/// The error of a session whose line of this number is not read.
pub(crate) fn error_at(number: u32, error: LineError) -> SessionError
    ensures { result ≡ session_error number error }
{
    match error {
        LineError::Faulty(cause) => {
            SessionError::Input(InputError {
                line: number,
                cause,
            })
        }
        LineError::NoMemory => SessionError::NoMemory,
    }
}

// What a put asks, of the record at place `val`.
fn put_request(when: PutWhen, name: Text, val: u64) -> Request
    ensures { result ≡ spec.put_request when name val }
{
    match when {
        PutWhen::Always => Request::Put { name, val },
        PutWhen::IfAbsent => Request::PutNew { name, val },
    }
}
