//! The state of a key in plain numbers: as a second evaluation of the rules gives it, and as a table reports it.
use crate::second::{PlainStand, Time};
use lt_rules::{QueuedRequest, QueuedWriter};
use lt_table::KeyState;
use std::alloc::{AllocError, Global};

/// The state of a key. A queue entry outside the writers always counts as active here.
#[derive(Debug, PartialEq, Eq, Drop)]
pub struct Standing {
    pub holder: Option<(u64, Time)>,
    pub reserved: Option<PlainStand>,
    /// Ordered by number.
    pub writers: Vec<PlainStand>,
    /// The latest first.
    pub readers: Vec<PlainStand>,
    pub distinguished: Option<u64>,
}

/// The expected answer to a question.
#[derive(Drop)]
pub enum ExpectedAnswer {
    State(Standing),
    /// The letters that name the keys.
    Keys(Vec<u8>),
}

impl Standing {
    /// The state of a key that has no holder, no reservation and no queued request.
    pub fn empty(alloc: Global) -> Self {
        Standing {
            holder: None,
            reserved: None,
            writers: Vec::new(alloc),
            readers: Vec::new(alloc),
            distinguished: None,
        }
    }
}

fn stand_of(request: &QueuedRequest, active: bool) -> PlainStand {
    PlainStand {
        number: request.ticket.number(),
        txn: request.txn.map(|txn| txn.number()),
        time: (request.ts.wall, request.ts.logical),
        pass: request.pass,
        wait: request.ticket.wait(),
        active,
    }
}

fn writers_of(alloc: Global, writers: &[QueuedWriter]) -> Result<Vec<PlainStand>, AllocError> {
    let mut stands = Vec::new(alloc);
    for writer in writers {
        stands.push(stand_of(&writer.request, writer.active))?;
    }
    Ok(stands)
}

fn readers_of(alloc: Global, readers: &[QueuedRequest]) -> Result<Vec<PlainStand>, AllocError> {
    let mut stands = Vec::new(alloc);
    for reader in readers {
        stands.push(stand_of(reader, true))?;
    }
    Ok(stands)
}

/// The state that a table reports.
pub fn standing_of(alloc: Global, state: &KeyState) -> Result<Standing, AllocError> {
    Ok(Standing {
        holder: state
            .holder
            .map(|h| (h.txn.number(), (h.ts.wall, h.ts.logical))),
        reserved: state.reservation.map(|request| stand_of(&request, true)),
        writers: writers_of(alloc, &state.writers)?,
        readers: readers_of(alloc, &state.readers)?,
        distinguished: state.distinguished,
    })
}
