// What the lines so far have asked, against the limits of a session.
ghost use Rattle.std.specs.Prelude.{◌≡◌, None, Some, IfOk, MatchResult};
ghost use Rattle.request_lines.specs.Counting.{IsWithin, counted, limit_by_counts, none_counted};
ghost use Rattle.line_grammar.specs.Fine.{IsFineCommand};

use crate::limits::{MAX_CLIENTS, MAX_LISTED, MAX_REQUESTS};
use line_grammar::{Cause, Command};

/// How much the lines so far have asked.
#[derive(Clone, Copy)]
pub(crate) struct Counts {
    /// `CLIENT` lines.
    pub(crate) clients: u32,
    /// Lines that are neither empty nor `CLIENT`.
    pub(crate) requests: u32,
    /// `PUT` and `PUTNEW` lines.
    pub(crate) puts: u32,
    /// The most entries that the LIST, LISTV1 and NEXT lines can be answered, together.
    pub(crate) entries: u32,
    /// The most entries of a page of the client's last LIST, or 0 where there is none.
    pub(crate) last: u32,
}

impl Counts {
    /// Before the first line.
    pub(crate) fn none() -> Counts
        ensures value { result ≡ none_counted }
        ensures within { IsWithin result }
    {
        Counts {
            clients: 0,
            requests: 0,
            puts: 0,
            entries: 0,
            last: 0,
        }
    }

    /// The counts with this line, or the limit that it passes.
    #[tactic(auto, unfolding(crate::specs::Counting::limit_by_counts))]
    pub(crate) fn admitted(self, command: &Command) -> Result<Counts, Cause>
        requires within { IsWithin self }
        requires fine { IsFineCommand command.now }
        ensures counts { IfOk result (λ so_far. so_far ≡ counted self command.now) }
        ensures cause { MatchResult result (λ so_far. limit_by_counts (counted self command.now) command.now ≡ None)
            (λ cause. limit_by_counts (counted self command.now) command.now ≡ Some cause) }
        ensures within { IfOk result IsWithin }
    {
        let so_far = self.counted(command);
        let is_client = matches!(command, Command::Client);
        if !is_client && so_far.clients == 0 {
            return Err(Cause::NoClient);
        }
        if is_client && so_far.clients > MAX_CLIENTS {
            return Err(Cause::TooManyClients);
        }
        if so_far.requests > MAX_REQUESTS {
            return Err(Cause::TooManyLines);
        }
        if so_far.entries > MAX_LISTED {
            return Err(Cause::TooManyEntries);
        }
        Ok(so_far)
    }

    // The counts with this line.
    fn counted(self, command: &Command) -> Counts
        requires within { IsWithin self }
        requires fine { IsFineCommand command.now }
        ensures { result ≡ counted self command.now }
    {
        let mut so_far = self;
        match command {
            Command::Client => {
                so_far.clients += 1;
                so_far.last = 0;
                return so_far;
            }
            Command::Put { .. } => so_far.puts += 1,
            Command::Delete { .. } | Command::Head { .. } => {}
            Command::List(query) => {
                let most = query.get().max_keys;
                so_far.entries += most;
                so_far.last = most;
            }
            Command::ListV1(query) => so_far.entries += query.get().max_keys,
            Command::Next => so_far.entries += so_far.last,
        }
        so_far.requests += 1;
        so_far
    }
}
