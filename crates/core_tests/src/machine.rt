// Runs of the pure machine, up to their end or to the first event that is refused, and single steps.
use core_rule::*;
use index_words::{Change, Layout, PassSize, Update};
use std::alloc::{AllocError, Global};
use std::test::Fail;

/// With one pass of this size the root's words are 3 to 12: its lock is word 5, its mark word 6, and the head, the
/// plain link and the tag of its right side are words 8, 10 and 12.
const SIZE: PassSize = PassSize {
    nodes: 1,
    entries: 4,
    calls: 1,
};

const fn event(kind: Kind, word: u64, value: u64) -> Event {
    Event {
        seat: 0,
        kind,
        word,
        value,
        update: None,
    }
}

const fn enter() -> Event {
    event(Kind::Enter, 1, 1)
}

const fn leave() -> Event {
    event(Kind::Leave, 1, 2)
}

/// What a run answers: what a word then holds, or the place of the first event that is not allowed.
#[derive(Clone, Copy, Debug, PartialEq, Eq)]
enum Answer {
    Word(u64),
    NotAllowed(usize),
    Other,
}

fn answer_of(alloc: Global, events: &[Event], word: u64) -> Answer {
    let Some(layout) = Layout::new(&[SIZE]) else {
        return Answer::Other;
    };
    match run_of(alloc, &layout, &[SIZE], events) {
        Ok(state) => state.word(word).map_or(Answer::Other, Answer::Word),
        Err(RunError::NotAllowed(place)) => Answer::NotAllowed(place),
        Err(RunError::NoMemory) => Answer::Other,
    }
}

#[test]
fn a_run_ends_with_its_last_event_or_names_the_first_refused_one(
    rt: HostRuntime,
) -> Result<(), Fail> {
    let alloc = rt.alloc();
    assert_eq!(rt; answer_of(alloc, &[enter(), leave()], 1), Answer::Word(2));
    assert_eq!(rt; answer_of(alloc, &[enter(), leave()], 2), Answer::Word(0));
    assert_eq!(rt; answer_of(alloc, &[], 1), Answer::Word(0));
    assert_eq!(rt;
        answer_of(alloc, &[leave(), enter()], 1),
        Answer::NotAllowed(0)
    );
    assert_eq!(rt;
        answer_of(alloc, &[enter(), leave(), leave()], 1),
        Answer::NotAllowed(2)
    );
    Ok(())
}

/// The events of a put of key 5 with the value 7, except one that is left out.
fn put_events(alloc: Global, left_out: Option<usize>) -> Result<Vec<Event>, AllocError> {
    let put = Update {
        client: 0,
        line: 2,
        key: 5,
        change: Change::Put(7),
    };
    let raise = Event {
        seat: 0,
        kind: Kind::Raise,
        word: 0,
        value: 0,
        update: Some(put),
    };
    let events = [
        enter(),
        event(Kind::LoadStamp, 0, 0),
        event(Kind::Announce, 2, 1),
        event(Kind::LoadStamp, 0, 0),
        event(Kind::LoadLink, 10, 0),
        event(Kind::LoadTag, 12, 0),
        event(Kind::Fill, 13, 5),
        event(Kind::Fill, 14, 7),
        event(Kind::Fill, 23, 1),
        event(Kind::TryLock, 5, 1),
        event(Kind::LoadMark, 6, 0),
        event(Kind::LoadHead, 8, 0),
        event(Kind::Prepare, 8, 1),
        raise,
        event(Kind::Finalise, 24, 1),
        event(Kind::SetLink, 10, 1),
        event(Kind::Unlock, 5, 0),
        leave(),
        event(Kind::Announce, 2, 0),
    ];
    let mut kept = Vec::new(alloc);
    for (place, event) in events.iter().enumerate() {
        if left_out != Some(place) {
            kept.push(*event)?;
        }
    }
    Ok(kept)
}

#[test]
fn a_put_without_the_child_of_its_entry_is_refused_at_the_raise(
    rt: HostRuntime,
) -> Result<(), Fail> {
    let alloc = rt.alloc();
    let put = put_events(alloc, None)?;
    for (word, value) in [(0, 1), (1, 2), (2, 0), (5, 0), (8, 1), (10, 1), (24, 1)] {
        assert_eq!(rt; answer_of(alloc, &put, word), Answer::Word(value));
    }
    let without = put_events(alloc, Some(8))?;
    assert_eq!(rt; answer_of(alloc, &without, 0), Answer::NotAllowed(12));
    Ok(())
}

#[test]
fn a_put_whose_search_has_found_no_tag_is_refused_at_the_raise(
    rt: HostRuntime,
) -> Result<(), Fail> {
    let alloc = rt.alloc();
    let without = put_events(alloc, Some(5))?;
    assert_eq!(rt; answer_of(alloc, &without, 0), Answer::NotAllowed(12));
    Ok(())
}

#[test]
fn a_put_without_its_plain_link_is_refused_at_the_unlock(rt: HostRuntime) -> Result<(), Fail> {
    let alloc = rt.alloc();
    let without = put_events(alloc, Some(15))?;
    assert_eq!(rt; answer_of(alloc, &without, 0), Answer::NotAllowed(15));
    Ok(())
}

fn start_of(alloc: Global, sizes: &[PassSize]) -> Option<State> {
    let layout = Layout::new(sizes)?;
    State::start(alloc, &layout, sizes).ok()
}

#[test]
fn a_step_says_why_it_is_refused(rt: HostRuntime) -> Result<(), Fail> {
    let alloc = rt.alloc();
    let mut state = start_of(alloc, &[SIZE]).ok_or("no state")?;
    assert_eq!(rt; state.step(alloc, &leave()), Err(StepError::NotAllowed));
    assert_eq!(rt; state.step(alloc, &enter()), Ok(()));
    assert_eq!(rt; state.word(1), Some(1));
    assert_eq!(rt; state.word(5), Some(0));
    // the root's lock takes only the own number plus 1, and its mark takes nothing
    let lock = event(Kind::TryLock, 5, 1);
    assert_eq!(rt;
        state.step(alloc, &event(Kind::TryLock, 5, 2)),
        Err(StepError::NotAllowed)
    );
    assert_eq!(rt; state.word(5), Some(0));
    assert_eq!(rt; state.step(alloc, &lock), Ok(()));
    assert_eq!(rt; state.word(5), Some(1));
    assert_eq!(rt;
        state.step(alloc, &event(Kind::Mark, 6, 1)),
        Err(StepError::NotAllowed)
    );
    assert_eq!(rt; state.view(0).ok_or("no seat")?.held.nodes.len(), 1);
    Ok(())
}
