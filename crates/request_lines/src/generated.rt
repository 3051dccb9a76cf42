// The generated session, made without its text.
ghost use Rattle.std.specs.Prelude.{◌≡◌, ◌<◌, ◌≤◌, ◌*◌, ◌%◌, ◌++◌, ◌∷◌, [], length, IfOk, OnOk};
ghost use Rattle.request_lines.specs.Generated.{IsClient};
ghost use Rattle.request_lines.specs.Input.{IsSessionOf};
ghost use Rattle.request_lines.specs.Sample.{sample_name, sample_text};
ghost use Rattle.request_lines.specs.SampleSession as spec;
ghost use Rattle.request_lines.specs.SampleSession.{most_sample_requests};
ghost use Rattle.request_lines.specs.SessionLaws.{HasNames, HasRequests, HasLines, IsSmall};

use crate::interner::Interner;
use crate::sample::{CLIENTS, push_name};
use crate::unsorted::UnsortedSession;
use crate::{Asked, ClientPart, Requests, Session};
use bucket_terms::{ListQuery, Record, Request, Shared};
use key_names::{NoMemory, Text};
use std::alloc::Global;
use std::fmt::Write;

/// How many names a client has, which come in turn.
const NAMES: u32 = 1001;

/// The most entries of a listing's page.
const LISTED: u32 = 100;

/// The session of the input that `sample_input` makes. The text is not made: each name is made once, and is not hashed.
///
/// ```
/// let session = sample_session(alloc, 4)?;
/// assert_eq!(rt; (session.clients.as_slice().len(), session.names.len()), (4, 12));
/// ```
pub fn sample_session(alloc: Global, n: u32) -> Result<Session, NoMemory>
    requires some { 0 < n }
    requires most { n ≤ most_sample_requests }
    ensures session { IfOk result (λ session. session ≡ spec.sample_session n) }
    ensures of_text { OnOk result (IsSessionOf (sample_text n) (spec.sample_session n)) }
    ensures names { IfOk result HasNames }
    ensures requests { IfOk result HasRequests }
    ensures lines { IfOk result HasLines }
    ensures small { IfOk result IsSmall }
{
    let mut generated = Generated::with_room(alloc, n)?;
    let mut parts = Vec::with_capacity(alloc, CLIENTS as usize)?;
    for client in 0..CLIENTS {
        let requests = generated.client(alloc, n, client)?;
        parts.push(ClientPart { requests })?;
    }
    UnsortedSession::of(parts, generated.names, generated.records).sorted(alloc)
}

/// The names and records of the requests so far.
#[derive(Drop)]
struct Generated {
    names: Interner,
    records: Vec<Record>,
    /// By the place of a name among those of its client: the number that the name may have.
    numbers: Vec<usize>,
}

/// What a client's requests are made of: its first names and its query.
#[derive(Drop)]
struct Client {
    names: Vec<Text>,
    query: Shared<ListQuery>,
}

impl Generated {
    // Before the first request, and room for all.
    fn with_room(alloc: Global, n: u32) -> Result<Generated, NoMemory>
        requires { n ≤ most_sample_requests }
        ensures names { IfOk result (λ g. g.names ≡ []) }
        ensures records { IfOk result (λ g. g.records.items ≡ []) }
    {
        let all = (n * CLIENTS) as usize;
        let mut names = Interner::new(alloc);
        names.make_room((NAMES * CLIENTS) as usize, all);
        Ok(Generated {
            names,
            records: Vec::with_capacity(alloc, all)?,
            numbers: vec![in alloc; 0; NAMES as usize]?,
        })
    }

    // The requests of the next client. Their names and records are kept.
    fn client(&mut self, alloc: Global, n: u32, client: u32) -> Result<Requests, NoMemory>
        requires clients { client < 4 }
        requires most { n ≤ most_sample_requests }
        requires puts { length self.old.records.items ≡ client * spec.sample_puts n }
        ensures requests { IfOk result (λ requests. requests ≡ spec.sample_requests n client n) }
        ensures names { OnOk result (self.new.names ≡ self.old.names ++ spec.sample_names client n) }
        ensures records { OnOk result (self.new.records.items ≡ self.old.records.items ++ spec.sample_records n) }
    {
        let own = Client::of(alloc, client, n.min(NAMES))?;
        let first = client * (n + 1) + 2;
        let mut requests = Requests::with_room(alloc, n as usize);
        for i in 0..n {
            let (request, number) = self.request(alloc, &own, client, i)?;
            requests.push(
                Asked {
                    line: first + i,
                    request,
                },
                number,
            )?;
        }
        Ok(requests)
    }

    // The next request, and the number of its name, where it has one.
    #[tactic(auto, unfolding(crate::specs::SampleSession::sample_request, crate::specs::SampleSession::sample_named, crate::specs::SampleSession::sample_recorded))]
    fn request(
        &mut self,
        alloc: Global,
        own: &Client,
        client: u32,
        i: u32,
    ) -> Result<(Request, usize), NoMemory>
        requires own { IsClient client own.now }
        requires known { i % 1001 < length own.now.names.items }
        ensures request { IfOk result (λ made. made.0 ≡ spec.sample_request (length self.old.records.items) client i) }
        ensures names { OnOk result (self.new.names ≡ self.old.names ++ spec.sample_named client i) }
        ensures records { OnOk result (self.new.records.items ≡ self.old.records.items ++ spec.sample_recorded i) }
    {
        match i % 4 {
            2 => self.delete(alloc, own, client, i),
            3 => Ok((Request::List(own.query.share()?), 0)),
            _ => self.put(alloc, own, client, i),
        }
    }

    fn put(
        &mut self,
        alloc: Global,
        own: &Client,
        client: u32,
        i: u32,
    ) -> Result<(Request, usize), NoMemory>
        requires own { IsClient client own.now }
        requires known { i % 1001 < length own.now.names.items }
        ensures request { IfOk result (λ made. made.0 ≡ Request.Put (sample_name client i) (length self.old.records.items)) }
        ensures names { OnOk result (self.new.names ≡ self.old.names ++ sample_name client i ∷ []) }
        ensures records { OnOk result (self.new.records.items ≡ self.old.records.items ++ spec.sample_record i ∷ []) }
    {
        let val = self.records.len() as u64;
        let (name, number) = self.name(alloc, own, client, i)?;
        self.records.push(record_of(alloc, i)?)?;
        Ok((Request::Put { name, val }, number))
    }

    fn delete(
        &mut self,
        alloc: Global,
        own: &Client,
        client: u32,
        i: u32,
    ) -> Result<(Request, usize), NoMemory>
        requires own { IsClient client own.now }
        requires known { i % 1001 < length own.now.names.items }
        ensures request { IfOk result (λ made. made.0 ≡ Request.Delete (sample_name client i)) }
        ensures names { OnOk result (self.new.names ≡ self.old.names ++ sample_name client i ∷ []) }
        ensures records { OnOk result (self.new.records.items ≡ self.old.records.items) }
    {
        let (name, number) = self.name(alloc, own, client, i)?;
        Ok((Request::Delete { name }, number))
    }

    // The name of a request, and its number. It is kept.
    fn name(
        &mut self,
        alloc: Global,
        own: &Client,
        client: u32,
        i: u32,
    ) -> Result<(Text, usize), NoMemory>
        requires own { IsClient client own.now }
        requires known { i % 1001 < length own.now.names.items }
        ensures name { IfOk result (λ named. named.0 ≡ sample_name client i) }
        ensures names { OnOk result (self.new.names ≡ self.old.names ++ sample_name client i ∷ []) }
        ensures records { self.new.records.items ≡ self.old.records.items }
    {
        let place = (i % NAMES) as usize;
        let name = own.names[place].copy(alloc)?;
        let hint = self.numbers.get(place).copied();
        let number = self.names.push_known(alloc, &name, hint)?;
        self.note(place, number);
        Ok((name, number))
    }

    // The name at this place has this number.
    fn note(&mut self, place: usize, number: usize)
        ensures names { self.new.names ≡ self.old.names }
        ensures records { self.new.records.items ≡ self.old.records.items }
    {
        if place < self.numbers.len() {
            self.numbers[place] = number;
        }
    }
}

impl Client {
    // What the requests of this client are made of, with so many of its names.
    fn of(alloc: Global, client: u32, count: u32) -> Result<Client, NoMemory>
        ensures client { IfOk result (IsClient client) }
        ensures count { IfOk result (λ own. length own.names.items ≡ count) }
    {
        let mut names = Vec::with_capacity(alloc, count as usize)?;
        for i in 0..count {
            names.push(name_of(alloc, client, i)?)?;
        }
        let query = query_of(alloc, client)?;
        Ok(Client {
            names,
            query: Shared::new(alloc, query)?,
        })
    }
}

// The name in a client's request.
fn name_of(alloc: Global, client: u32, i: u32) -> Result<Text, NoMemory>
    ensures { IfOk result (λ name. name ≡ sample_name client i) }
{
    let mut text = String::new(alloc);
    push_name(&mut text, client, i)?;
    Text::of(alloc, text.as_str())
}

// What a client's listings ask.
fn query_of(alloc: Global, client: u32) -> Result<ListQuery, NoMemory>
    ensures { IfOk result (λ query. query ≡ spec.sample_query client) }
{
    Ok(ListQuery {
        prefix: prefix_of(alloc, client)?,
        delimiter: no_text(alloc),
        start_after: no_text(alloc),
        token: no_text(alloc),
        max_keys: LISTED,
        url: false,
    })
}

fn no_text(alloc: Global) -> Text
    ensures { result ≡ [] }
{
    Text::from_string(String::new(alloc))
}

// What a client's names begin with.
fn prefix_of(alloc: Global, client: u32) -> Result<Text, NoMemory>
    ensures { IfOk result (λ prefix. prefix ≡ spec.sample_prefix client) }
{
    let mut text = String::new(alloc);
    match write!(text, "s{client}/") {
        Ok(()) => Text::of(alloc, text.as_str()),
        Err(_) => Err(NoMemory),
    }
}

// The record of a put.
fn record_of(alloc: Global, i: u32) -> Result<Record, NoMemory>
    ensures { IfOk result (λ made. made ≡ spec.sample_record i) }
{
    Ok(Record {
        size: u64::from(i),
        etag: Text::of(alloc, "e")?,
        modified: u64::from(i),
    })
}
