// The line of a summary.
ghost use Rattle.std.specs.Prelude.{◌≡◌, IfOk, OnOk};
ghost use Rattle.serde_json.specs.Events.{SendsValue};
ghost use Rattle.answer_text.specs.MemberOrder.{StandInOrder};
ghost use Rattle.answer_text.specs.Lines.{always, whole};
ghost use Rattle.serve_session.specs.Sending.{SendsMember};
ghost use Rattle.serve_session.specs.Texts.{summary_members, summary_data};
ghost use Rattle.serve_session.specs.Served.{summary_text};

use bucket_terms::Summary;
use key_names::{NoMemory, Text};
use serde::{Described, Serialize, Serializer};
use std::alloc::Global;

/// The line of a summary: one JSON object, and LF.
///
/// ```
/// let summary = Summary { keys: 4, listed: 0, requests: 4, updates: 4 };
/// let line = summary_line(alloc, &summary)?;
/// assert_eq!(rt; line.as_str(), "{\"Keys\":4,\"Listed\":0,\"Requests\":4,\"Updates\":4}\n");
/// ```
pub fn summary_line(alloc: Global, summary: &Summary) -> Result<Text, NoMemory>
    ensures text { IfOk result (λ line. line ≡ summary_text summary.now) }
    ensures order { StandInOrder (summary_members summary.now) }
{
    // Writing to memory fails only when out of memory.
    let Ok(mut line) = serde_json::to_string(alloc, &Shown { summary: *summary }) else {
        return Err(NoMemory);
    };
    line.push('\n')?;
    Ok(Text::from_string(line))
}

// A summary, as it is shown.
#[derive(Drop)]
struct Shown {
    summary: Summary,
}

impl Described for Shown {
    ghost writes = { λ shown. SendsValue (summary_data shown.summary) };
}

impl Serialize for Shown {
    fn serialize<S: Serializer>(&self, out: &mut S) -> Result<(), S::Error> {
        let summary = self.summary;
        out.begin_map(Some(4))?;
        send_number(out, "Keys", summary.keys)?;
        send_number(out, "Listed", summary.listed)?;
        send_number(out, "Requests", summary.requests)?;
        send_number(out, "Updates", summary.updates)?;
        out.end_map()
    }
}

// A member: its name and its number.
fn send_number<S: Serializer>(out: &mut S, name: &str, number: u64) -> Result<(), S::Error>
    ensures { OnOk result (SendsMember (always name.now (whole number)) (S.written out.old) (S.written out.new)) }
{
    out.key(name)?;
    out.u64(number)
}
