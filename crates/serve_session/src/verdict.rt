// The line of a verdict.
ghost use Rattle.std.specs.Prelude.{◌≡◌, IfOk, OnOk};
ghost use Rattle.serde_json.specs.Events.{SendsValue};
ghost use Rattle.answer_text.specs.Lines.{object_of};
ghost use Rattle.answer_text.specs.MemberOrder.{StandInOrder};
ghost use Rattle.serve_session.specs.Served.{verdict_text};
ghost use Rattle.serve_session.specs.Texts.{verdict_members};

use key_names::{NoMemory, Text};
use replay_check::Verdict;
use serde::{Described, Serialize, Serializer};
use std::alloc::Global;

/// The line of a verdict: one JSON object, and LF.
///
/// ```
/// let line = verdict_line(alloc, Verdict::Wrong { line: 3 })?;
/// assert_eq!(rt; line.as_str(), "{\"Legal\":false,\"Wrong\":3}\n");
/// ```
pub fn verdict_line(alloc: Global, verdict: Verdict) -> Result<Text, NoMemory>
    ensures text { IfOk result (λ line. line ≡ verdict_text verdict) }
    ensures order { StandInOrder (verdict_members verdict) }
{
    // Writing to memory fails only when out of memory.
    let Ok(mut line) = serde_json::to_string(alloc, &Shown { verdict }) else {
        return Err(NoMemory);
    };
    line.push('\n')?;
    Ok(Text::from_string(line))
}

// A verdict, as it is shown.
#[derive(Drop)]
struct Shown {
    verdict: Verdict,
}

impl Described for Shown {
    ghost writes = { λ shown. SendsValue (object_of (verdict_members shown.verdict)) };
}

impl Serialize for Shown {
    fn serialize<S: Serializer>(&self, out: &mut S) -> Result<(), S::Error> {
        match self.verdict {
            Verdict::Legal => send_legal(out),
            Verdict::Wrong { line } => send_wrong(out, line),
        }
    }
}

fn send_legal<S: Serializer>(out: &mut S) -> Result<(), S::Error>
    ensures { OnOk result (SendsValue (object_of (verdict_members Verdict.Legal)) (S.written out.old) (S.written out.new)) }
{
    out.begin_map(Some(1))?;
    out.key("Legal")?;
    out.bool(true)?;
    out.end_map()
}

fn send_wrong<S: Serializer>(out: &mut S, line: u32) -> Result<(), S::Error>
    ensures { OnOk result (SendsValue (object_of (verdict_members (Verdict.Wrong line))) (S.written out.old) (S.written out.new)) }
{
    out.begin_map(Some(2))?;
    out.key("Legal")?;
    out.bool(false)?;
    out.key("Wrong")?;
    out.u64(u64::from(line))?;
    out.end_map()
}
