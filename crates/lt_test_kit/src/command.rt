//! Which commands can a test play, and which outcomes can they have? A [`CommandRow`] is one row of a test's table.
use lt_ids::Access;
use lt_rules::Reply;
use lt_table_core::{EnterError, Poll, Scan, ScanError, StepError};

/// A call of the table by one pass. A byte names a key (see [`crate::key`]); timestamps have the logical part 0.
#[derive(Drop)]
pub enum TableCommand {
    /// A request enters, with this transaction or without one. `longest` is its bound; 0 is no bound.
    Enter {
        txn: Option<u64>,
        wall: u64,
        accesses: Vec<(u8, Access)>,
        longest: u32,
    },
    /// A request of transaction 1 enters at time 0 to write `keys` keys, and names the first `twice` of them again.
    EnterMany {
        keys: usize,
        twice: usize,
    },
    Scan,
    Poll,
    Look {
        index: usize,
    },
    Acquire {
        txn: u64,
        wall: u64,
        key: u8,
    },
    Update {
        txn: u64,
        wall: u64,
        key: u8,
    },
    Finish {
        txn: u64,
        key: u8,
    },
    Leave,
}

/// The index of a pass, from 0, the command that it plays, and the expected outcome.
pub type CommandRow = (usize, TableCommand, CallOutcome);

/// A call of the table, as a test notes it when it runs out of memory.
#[derive(Clone, Copy, Debug, PartialEq, Eq)]
pub enum TableCall {
    Prepare,
    Open,
    OpenWith,
    Enter,
    Scan,
    Poll,
    Look,
    Leave,
    Acquire,
    AcquireIn,
    Update,
    UpdateIn,
    Finish,
    FinishIn,
    Inspect,
    InspectIn,
    LockedKeys,
    Close,
    CloseRest,
    /// Not a call: an allocation outside the calls failed, or a call was made again and answered differently.
    Beside,
}

/// The outcome of a command.
#[derive(Clone, Copy, Debug, PartialEq, Eq)]
pub enum CallOutcome {
    /// The request entered with this number.
    Entered(u64),
    NotEntered(EnterError),
    Scanned(Scan),
    NotScanned(ScanError),
    Polled(Poll),
    Stepped(Reply),
    NotStepped(StepError),
    Left,
    NotLeft(StepError),
    /// No call was made: the command does not fit what the seat holds, a free pass or a guard.
    Nothing,
}

impl CallOutcome {
    /// Whether the call ran out of memory.
    pub fn is_out_of_memory(&self) -> bool {
        match self {
            CallOutcome::NotEntered(error) => *error == EnterError::Memory,
            CallOutcome::NotScanned(error) => *error == ScanError::Memory,
            CallOutcome::NotStepped(error) | CallOutcome::NotLeft(error) => *error
                == StepError::Memory,
            _ => false,
        }
    }
}
