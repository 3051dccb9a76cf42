// Passes that put by single tries, which wait for nobody, and count what they meet.
ghost use Rattle.index_runs.specs.Runs.{GoesOn, IsClosed};

use crate::plan::{Asked, Run};
use crate::work::Event;
use bucket_terms::KeyPass;
use key_map::PassError;
use shared_index::{IndexPass, Try};
use std::alloc::{AllocError, Global};

/// How many tries have met what another pass was doing.
#[derive(Clone, Copy, Default, Drop)]
pub(crate) struct Met {
    pub(crate) busy: u32,
    pub(crate) moved: u32,
    pub(crate) pending: u32,
}

impl Met {
    fn count(&mut self, tried: Try) {
        let count = match tried {
            Try::Done(_) => return,
            Try::Busy => &mut self.busy,
            Try::Moved => &mut self.moved,
            Try::Pending => &mut self.pending,
        };
        *count = count.saturating_add(1);
    }
}

/// Tries as many puts as the run has requests. Returns those that were made, and what the others have met.
pub(crate) fn try_puts(
    alloc: Global,
    pass: &mut IndexPass<'_>,
    run: &Run,
) -> Result<Vec<Event>, AllocError>
    requires { IsClosed pass.old }
    ensures { GoesOn pass.old pass.new }
{
    let mut events = Vec::new(alloc);
    let mut met = Met::default();
    let mut random = run.random(pass.client());
    'tries: for line in 1..=run.requests {
        let key = random.below(u64::from(run.keys));
        let val = random.below(1_000_000);
        match try_put(pass, line, key, val) {
            Ok(Try::Done(done)) => events.push(Event::Answered {
                line,
                asked: Asked::Put { key, val },
                done,
            })?,
            Ok(tried) => met.count(tried),
            // No slot is free: settling may free those that were taken out.
            Err(_) => {
                pass.try_settle();
            }
        }
    }
    events.push(Event::Met(met))?;
    Ok(events)
}

/// One try of a put, which leaves no snapshot open.
fn try_put(pass: &mut IndexPass<'_>, line: u32, key: u64, val: u64) -> Result<Try, PassError>
    requires { IsClosed pass.old }
    ensures { GoesOn pass.old pass.new }
{
    match pass.try_put(line, key, val) {
        Ok(Try::Done(done)) => Ok(Try::Done(done)),
        Ok(Try::Busy) => Ok(Try::Busy),
        Ok(Try::Moved) => Ok(Try::Moved),
        Ok(Try::Pending) => Ok(Try::Pending),
        Err(error) => Err(error),
    }
}
