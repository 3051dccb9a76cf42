// A run as text. The first line has the size of each pass, as `nodes,entries,calls`, between single spaces. Each line
// after it is what a pass is asked for, as `ask SEAT put KEY VAL`, `ask SEAT remove KEY`, `ask SEAT open`,
// `ask SEAT get KEY` or `ask SEAT close`, or turns of passes, as `turns SEAT SEAT ..`.
use crate::seat::{Request, Seat};
use core_updates::PlanSlots;
use index_words::PassSize;
use std::alloc::Global;
use std::str::Split;

#[derive(Drop)]
pub(crate) struct Input {
    pub(crate) sizes: Vec<PassSize>,
    pub(crate) seats: Vec<Seat>,
    pub(crate) turns: Vec<usize>,
}

const NO_SLOTS: PlanSlots = PlanSlots {
    node: 0,
    at: 0,
    left: 0,
    right: 0,
    next: 0,
};

/// The run of a text. None if the text is not a run, or when out of memory.
pub(crate) fn input_of(alloc: Global, text: &str) -> Option<Input> {
    let mut input = Input {
        sizes: Vec::new(alloc),
        seats: Vec::new(alloc),
        turns: Vec::new(alloc),
    };
    if add_lines(alloc, &mut input, text).is_none() {
        drop(input);
        return None;
    }
    Some(input)
}

fn add_lines(alloc: Global, input: &mut Input, text: &str) -> Option<()> {
    let mut lines = text.lines();
    add_passes(alloc, input, lines.next()?)?;
    for line in lines {
        add_line(input, line)?;
    }
    Some(())
}

fn add_passes(alloc: Global, input: &mut Input, line: &str) -> Option<()> {
    let mut number = 0u32;
    for size in line.split(' ') {
        input.sizes.push(size_of(size)?).ok()?;
        input.seats.push(seat_of(alloc, number)).ok()?;
        number = number.checked_add(1)?;
    }
    Some(())
}

fn add_line(input: &mut Input, line: &str) -> Option<()> {
    let mut fields = line.split(' ');
    match fields.next()? {
        "ask" => {
            let seat = fields.next()?.parse::<usize>().ok()?;
            add_request(input.seats.get_mut(seat)?, fields)
        }
        "turns" => add_turns(&mut input.turns, fields),
        _ => None,
    }
}

fn add_request(seat: &mut Seat, fields: Split<'_, char>) -> Option<()> {
    seat.requests.push(request_of(fields)?).ok()
}

fn add_turns(turns: &mut Vec<usize>, fields: Split<'_, char>) -> Option<()> {
    for field in fields {
        turns.push(field.parse::<usize>().ok()?).ok()?;
    }
    Some(())
}

fn next_u32(fields: &mut Split<'_, char>) -> Option<u32> {
    fields.next()?.parse::<u32>().ok()
}

fn next_u64(fields: &mut Split<'_, char>) -> Option<u64> {
    fields.next()?.parse::<u64>().ok()
}

fn size_of(text: &str) -> Option<PassSize> {
    let mut fields = text.split(',');
    Some(PassSize {
        nodes: next_u32(&mut fields)?,
        entries: next_u32(&mut fields)?,
        calls: next_u32(&mut fields)?,
    })
}

fn seat_of(alloc: Global, number: u32) -> Seat {
    Seat {
        number,
        requests: Vec::new(alloc),
        at: 0,
        steps: Vec::new(alloc),
        update: None,
        left: None,
        right: None,
        removed: None,
        checks: false,
        plan: None,
        slots: NO_SLOTS,
    }
}

fn request_of(mut fields: Split<'_, char>) -> Option<Request> {
    Some(match fields.next()? {
        "put" => Request::Put {
            key: next_u64(&mut fields)?,
            val: next_u64(&mut fields)?,
        },
        "remove" => Request::Remove {
            key: next_u64(&mut fields)?,
        },
        "open" => Request::Open,
        "get" => Request::Get {
            key: next_u64(&mut fields)?,
        },
        "close" => Request::Close,
        _ => return None,
    })
}
