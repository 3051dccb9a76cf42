// The view of a seat after an announcement, and after a look at the announcement of another pass.
ghost use Rattle.std.specs.Prelude.{◌≡◌, OnOk, OnErr};
ghost use Rattle.core_events.specs.Announcing.{announced_view, smaller as smaller_of, lowered as lowered_by, ann_loaded};

use index_words::{NoMemory, View};

/// The view after a store of this value as its announcement.
pub fn announce(view: &mut View, value: u64)
    ensures { view.new ≡ announced_view view.old value }
{
    view.announced = value;
}

fn smaller(least: u64, word: u64) -> u64
    ensures { result ≡ smaller_of least word }
{
    if 0 < word && word - 1 < least {
        word - 1
    } else {
        least
    }
}

fn lowered(least: Option<u64>, word: u64) -> Option<u64>
    ensures { result ≡ lowered_by least word }
{
    match least {
        None => None,
        Some(least) => Some(smaller(least, word)),
    }
}

/// The view after a load that found this word as the announcement of another pass. After a refusal it is unchanged.
pub fn look_at_announcement(view: &mut View, pass: u32, word: u64) -> Result<(), NoMemory>
    ensures ok { OnOk result (view.new ≡ ann_loaded view.old pass word) }
    ensures err { OnErr result (view.new ≡ view.old) }
{
    view.reading.looked.push(pass)?;
    view.reading.least = lowered(view.reading.least, word);
    Ok(())
}
