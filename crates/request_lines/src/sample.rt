// The generated session.
ghost use Rattle.std.specs.Prelude.{◌≡◌, ◌<◌, ◌≤◌, ◌++◌, codes, length, IfOk, OnOk};
ghost use Rattle.std.specs.String.{string_bytes};
ghost use Rattle.request_lines.specs.Input.{IsSessionOf, most_input_bytes};
ghost use Rattle.request_lines.specs.SampleSession.{sample_session, most_sample_requests};
ghost use Rattle.request_lines.specs.Sample.{sample_text, sample_lines, sample_line, sample_put, sample_delete, sample_list, sample_name};

use key_names::NoMemory;
use std::alloc::Global;
use std::fmt::Write;

/// How many clients the generated session has.
pub(crate) const CLIENTS: u32 = 4;

/// The input of the generated session: four clients with `n` requests each, on names of their own.
///
/// ```
/// let input = sample_input(alloc, 1)?;
/// assert!(rt; input.starts_with(b"CLIENT\nPUT s0/0000 0 e 0\nCLIENT\nPUT s1/0000 0 e 0\n"));
/// ```
pub fn sample_input(alloc: Global, n: u32) -> Result<Vec<u8>, NoMemory>
    requires some { 0 < n }
    requires most { n ≤ most_sample_requests }
    ensures text { IfOk result (λ input. input.items ≡ sample_text n) }
    ensures session { IfOk result (λ input. IsSessionOf input.items (sample_session n)) }
    ensures short { IfOk result (λ input. length input.items ≤ most_input_bytes) }
{
    let mut text = String::new(alloc);
    for client in 0..CLIENTS {
        push_client(&mut text, client, n)?;
    }
    Ok(text.into_bytes())
}

// The lines of one client.
fn push_client(text: &mut String, client: u32, n: u32) -> Result<(), NoMemory>
    ensures { OnOk result (string_bytes text.new ≡ string_bytes text.old ++ codes "CLIENT\n" ++ sample_lines client n) }
{
    text.push_str("CLIENT\n")?;
    for i in 0..n {
        push_request(text, client, i)?;
    }
    Ok(())
}

// The line of one request: two puts, a removal and a listing come in turn.
#[tactic(auto, unfolding(crate::specs::Sample::sample_line))]
fn push_request(text: &mut String, client: u32, i: u32) -> Result<(), NoMemory>
    ensures { OnOk result (string_bytes text.new ≡ string_bytes text.old ++ sample_line client i) }
{
    match i % 4 {
        2 => push_delete(text, client, i),
        3 => push_list(text, client),
        _ => push_put(text, client, i),
    }
}

fn push_put(text: &mut String, client: u32, i: u32) -> Result<(), NoMemory>
    ensures { OnOk result (string_bytes text.new ≡ string_bytes text.old ++ sample_put client i) }
{
    text.push_str("PUT ")?;
    push_name(text, client, i)?;
    match write!(text, " {i} e {i}\n") {
        Ok(()) => Ok(()),
        Err(_) => Err(NoMemory),
    }
}

fn push_delete(text: &mut String, client: u32, i: u32) -> Result<(), NoMemory>
    ensures { OnOk result (string_bytes text.new ≡ string_bytes text.old ++ sample_delete client i) }
{
    text.push_str("DELETE ")?;
    push_name(text, client, i)?;
    text.push_str("\n")?;
    Ok(())
}

fn push_list(text: &mut String, client: u32) -> Result<(), NoMemory>
    ensures { OnOk result (string_bytes text.new ≡ string_bytes text.old ++ sample_list client) }
{
    match write!(text, "LIST prefix=s{client}/&max-keys=100\n") {
        Ok(()) => Ok(()),
        Err(_) => Err(NoMemory),
    }
}

/// The name in a request: 1,001 names come in turn.
pub(crate) fn push_name(text: &mut String, client: u32, i: u32) -> Result<(), NoMemory>
    ensures { OnOk result (string_bytes text.new ≡ string_bytes text.old ++ sample_name client i) }
{
    let x = 389 * u64::from(i) % 1001;
    let (thousands, hundreds, tens, ones) = (x / 1000, x / 100 % 10, x / 10 % 10, x % 10);
    match write!(text, "s{client}/{thousands}{hundreds}{tens}{ones}") {
        Ok(()) => Ok(()),
        Err(_) => Err(NoMemory),
    }
}
