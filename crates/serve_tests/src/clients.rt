// Several clients, each on a thread of its own, over one bucket, through the top call.
use crate::gates::{Holds, Seen, all_right, watched};
use crate::sessions::one_client;
use bucket_terms::Summary;
use serve_session::summary_line;
use std::alloc::Global;
use std::sync::Wait;
use std::test::Fail;
use std::thread::Threads;

const CLIENTS: u32 = 32;

// Two clients, and their one text. No contract gives these to the tests, so that they are not computed when the tests
// are checked.
fn two_clients() -> &'static str {
    "CLIENT\nHEAD b\nCLIENT\nPUT b 2 e2 20\n"
}

fn behind_the_second() -> &'static str {
    "{\"At\":1,\"Client\":0,\"ETag\":\"e2\",\"LastModified\":20,\"Line\":2,\"Size\":2,\"Status\":200}\n\
        {\"At\":1,\"Client\":1,\"Line\":4,\"Replaced\":false,\"Status\":200}\n\
        {\"At\":1,\"Client\":1,\"Key\":\"b\",\"Line\":4,\"Verb\":\"PUT\"}\n\
        {\"Updates\":1}\n"
}

// What the first client asks for is put by the second one alone, and the gate holds the first until that is answered. A
// runner that runs one client after another never lets client 1 begin; and if the gate is given another client, another
// line, or an answer that is not made, client 0 may look too early.
#[test]
fn clients_run_at_once(rt: HostRuntime) -> Result<(), Fail> {
    let input = two_clients().as_bytes();
    let holds = Holds::FirstClient { until: 4 };
    let text = Some(behind_the_second());
    let seen = watched(&rt, rt.alloc(), &["run"], input, 2, holds, text)?;
    assert_eq!(rt; seen, all_right(2));
    Ok(())
}

// What the gate sees of so many clients with one request each, of which none begins before all have come.
fn all_at_once<Rt: Threads + Wait + Sync>(
    rt: &Rt,
    alloc: Global,
    clients: u32,
) -> Result<Seen, Fail> {
    let input = one_client().as_bytes().repeat(alloc, clients as usize)?;
    let holds = Holds::UntilCome(clients);
    watched(rt, alloc, &["run"], &input, clients as usize, holds, None)
}

// As many clients as a session may have. A runner that has fewer of them at work at once lets none of them begin, and
// one that does not report to the gate lets none come.
#[test]
fn all_clients_are_at_work_at_once(rt: HostRuntime) -> Result<(), Fail> {
    let seen = all_at_once(&rt, rt.alloc(), CLIENTS)?;
    assert_eq!(rt; seen, all_right(CLIENTS));
    Ok(())
}

fn summary_of_seven() -> &'static str {
    "{\"Keys\":16,\"Listed\":8,\"Requests\":28,\"Updates\":16}\n"
}

// Each request of each client is reported to the gate once before and once after it is answered, with the same line.
#[test]
fn the_gate_is_told_of_each_request(rt: HostRuntime) -> Result<(), Fail> {
    let words = ["sample", "7"];
    let text = Some(summary_of_seven());
    let seen = watched(&rt, rt.alloc(), &words, &[], 4, Holds::Nothing, text)?;
    assert_eq!(rt; seen, all_right(28));
    Ok(())
}

#[test]
fn a_summary_is_one_line(rt: HostRuntime) -> Result<(), Fail> {
    let alloc = rt.alloc();
    let summary = Summary {
        keys: 2000,
        listed: 90200,
        requests: 4012,
        updates: 18446744073709551615,
    };
    let text =
        "{\"Keys\":2000,\"Listed\":90200,\"Requests\":4012,\"Updates\":18446744073709551615}\n";
    assert_eq!(rt; summary_line(alloc, &summary)?.as_str(), text);
    Ok(())
}
