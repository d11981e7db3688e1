// Queues over a ring and over slots reply alike, and each keeps the last tickets of its places.
use crate::queue::ring::Ring;
use crate::queue::slots::Slots;
use crate::queue::{LineQueue, Rules};
use std::alloc::{AllocError, Global};
use std::test::*;

// How many places each queue has. The offers are from one place more.
const PLACES: usize = 2;

// How many calls a round has.
const TURNS: u32 = 41;

#[derive(Clone, Copy)]
enum Call {
    Offer { place: usize, number: u32 },
    Shut,
    Take { waits: bool },
}

// A shutdown in the middle. Otherwise half of the calls are offers, from each place in turn, and half of
// the takes wait.
fn call_at(turn: u32, seed: u32) -> Call {
    if turn == TURNS / 2 {
        return Call::Shut;
    }
    match seed >> 30 {
        0 => Call::Take { waits: false },
        1 => Call::Take { waits: true },
        _ => Call::Offer {
            place: turn as usize % (PLACES + 1),
            number: turn,
        },
    }
}

// The number's bytes; of every eighth number none.
fn line_of(alloc: Global, number: u32) -> Result<Vec<u8>, AllocError> {
    if number % 8 == 0 {
        return Ok(Vec::new(alloc));
    }
    number.to_le_bytes().to_vec(alloc)
}

fn over_ring(alloc: Global, limit: usize, lossy: bool) -> Result<Rules<Ring>, AllocError> {
    let ring = Ring::with_capacity(alloc, limit.max(1))?;
    Ok(Rules::over(ring, limit, lossy, vec![in alloc; 0u64; PLACES]?))
}

fn over_slots(alloc: Global, limit: usize, lossy: bool) -> Result<Rules<Slots>, AllocError> {
    let slots = Slots::with_capacity(alloc, limit.max(1))?;
    Ok(Rules::over(slots, limit, lossy, vec![in alloc; 0u64; PLACES]?))
}

// Whether both return the same last ticket of a place.
fn last_tickets_are_equal(ring: &Rules<Ring>, slots: &Rules<Slots>, place: usize) -> bool {
    ring.last_ticket(place) == slots.last_ticket(place)
}

// Whether both reply to a call alike, and count alike after it.
fn answer_alike(
    alloc: Global,
    ring: &mut Rules<Ring>,
    slots: &mut Rules<Slots>,
    call: Call,
) -> Result<bool, AllocError> {
    let alike = match call {
        Call::Offer { place, number } => {
            let line = line_of(alloc, number)?;
            let reply = ring.offer_from(place, line.clone()?);
            reply == slots.offer_from(place, line) && last_tickets_are_equal(ring, slots, place)
        }
        Call::Shut => ring.shut() == slots.shut(),
        Call::Take { waits } => ring.take(waits) == slots.take(waits),
    };
    Ok(alike && ring.counts() == slots.counts())
}

// Makes a round of calls of both, and returns how many replies were alike, and how many lines were handed.
fn play(
    alloc: Global,
    ring: Rules<Ring>,
    slots: Rules<Slots>,
    seed: u32,
) -> Result<(u32, u64), AllocError> {
    let (mut ring, mut slots, mut seed) = (ring, slots, seed);
    let mut alike = 0u32;
    for turn in 0..TURNS {
        seed = seed.wrapping_mul(1_664_525).wrapping_add(1_013_904_223);
        if answer_alike(alloc, &mut ring, &mut slots, call_at(turn, seed))? {
            alike = alike.saturating_add(1);
        }
    }
    Ok((alike, ring.counts().handed))
}

// Of 1,025 calls at each limit in each mode 1,000 are offers and takes.
#[test]
fn ring_and_slots_answer_alike(rt: HostRuntime) -> Result<(), Fail> {
    let alloc = rt.alloc();
    for limit in [0usize, 1, 3] {
        let mut handed = 0u64;
        for round in 0..50u32 {
            let lossy = round % 2 == 0;
            let ring = over_ring(alloc, limit, lossy)?;
            let slots = over_slots(alloc, limit, lossy)?;
            let (alike, lines) = play(alloc, ring, slots, round / 2)?;
            assert_eq!(rt; alike, TURNS, "limit {limit}, round {round}");
            handed = handed.saturating_add(lines);
        }
        assert!(rt; handed >= 100, "limit {limit}: {handed} lines");
    }
    Ok(())
}

// An offer from a place after some takes, its ticket if it is accepted, and the last tickets then.
struct Row {
    takes: u32,
    place: usize,
    ticket: Option<u64>,
    last_tickets: [u64; PLACES + 1],
}

// A queue of three lines, which a take closes once it is empty, since it has no sender.
static ROWS: [Row; 6] = [
    Row {
        takes: 0,
        place: 1,
        ticket: Some(1),
        last_tickets: [0, 1, 0],
    },
    Row {
        takes: 0,
        place: 0,
        ticket: Some(2),
        last_tickets: [2, 1, 0],
    },
    // The queue doesn't have this place.
    Row {
        takes: 0,
        place: 2,
        ticket: Some(3),
        last_tickets: [2, 1, 0],
    },
    // The queue is full.
    Row {
        takes: 0,
        place: 1,
        ticket: None,
        last_tickets: [2, 1, 0],
    },
    Row {
        takes: 1,
        place: 1,
        ticket: Some(4),
        last_tickets: [2, 4, 0],
    },
    // The queue is closed.
    Row {
        takes: 4,
        place: 0,
        ticket: None,
        last_tickets: [2, 4, 0],
    },
];

#[test]
fn keeps_the_last_ticket_of_each_place(rt: HostRuntime) -> Result<(), Fail> {
    let alloc = rt.alloc();
    let mut queue = LineQueue::with_places(alloc, 3, false, PLACES)?;
    queue.drop_sender();
    for place in 0..=PLACES {
        assert_eq!(rt; queue.last_ticket(place), 0, "place {place}");
    }
    for (number, row) in ROWS.iter().enumerate() {
        for _ in 0..row.takes {
            queue.take(false);
        }
        let reply = queue.offer_from(row.place, line_of(alloc, 1)?);
        assert_eq!(rt; reply.ok(), row.ticket, "row {number}");
        for (place, last) in row.last_tickets.iter().enumerate() {
            assert_eq!(rt;
                queue.last_ticket(place),
                *last,
                "row {number}, place {place}"
            );
        }
    }
    assert_eq!(rt; queue.counts().handed, 4);
    Ok(())
}
