//! Where does each part of the picture lie, in pixels? The numbers saturate: they are far below the limits of a `u64`
//! for any picture that can be looked at.
use itoa::Buffer;
use lt_trace_show::{Claim, DrawnStep, Lane, Lanes};

/// The height of a lane.
const LANE: u64 = 38;

/// The top of the first lane.
const TOP: u64 = 58;

/// The height of a bar.
pub(crate) const BAR: u64 = 18;

/// The height of what is below the lanes: the steps' numbers and the legend.
const BELOW: u64 = 144;

/// The lanes' names and the legend are repeated after so many steps, some 1,100 pixels at the least.
const STEPS_BETWEEN: u64 = 40;

/// The numbers of the steps are repeated after so many lanes. A picture with more lanes has the legend at its top too.
const LANES_BETWEEN: u64 = 20;

/// The height of a row of the steps' numbers between lanes.
const NUMBERS: u64 = 24;

/// The height of the legend at the top.
const LEGEND: u64 = 84;

/// The least width of a picture, so that its legend fits.
const LEAST_WIDTH: u64 = 800;

/// The measures of a picture.
#[derive(Clone, Copy)]
pub(crate) struct Grid {
    /// The width of the column with the lanes' names.
    left: u64,
    /// The width of a step.
    step: u64,
    steps: u64,
    lanes: u64,
}

/// How many digits the number has.
fn digits(n: u64) -> u64 {
    let mut buffer = Buffer::new();
    buffer.format(n).len() as u64
}

/// The width of a lane's name.
fn name_width(lane: &Lane) -> u64 {
    match lane {
        Lane::Txn(number) => digits(*number).saturating_add(4).saturating_mul(8),
        Lane::Request(number) => digits(*number).saturating_add(8).saturating_mul(8),
    }
}

/// The width of the line that says whose a request is.
fn owner_width(owner: &Option<Claim>) -> u64 {
    match owner {
        Some(claim) if claim.txn > 0 => digits(claim.pass)
            .saturating_add(digits(claim.txn))
            .saturating_add(11)
            .saturating_mul(6),
        _ => 0,
    }
}

/// The width of a step: less for many steps, but always enough for the last step's number.
fn step_width(steps: &[DrawnStep]) -> u64 {
    let number = match steps.last() {
        Some(last) => digits(last.index).saturating_mul(8).saturating_add(8),
        None => 0,
    };
    let roomy = match steps.len() {
        0..=12 => 56,
        13..=24 => 44,
        25..=60 => 36,
        _ => 28,
    };
    number.max(roomy)
}

impl Grid {
    pub(crate) fn new(layout: &Lanes, owners: &[Option<Claim>], steps: &[DrawnStep]) -> Grid {
        let mut left = 80;
        for lane in &layout.lanes {
            left = left.max(name_width(lane));
        }
        for owner in owners {
            left = left.max(owner_width(owner));
        }
        Grid {
            left: left.saturating_add(24),
            step: step_width(steps),
            steps: steps.len() as u64,
            lanes: layout.lanes.len() as u64,
        }
    }

    /// The left edge of the lanes.
    pub(crate) fn left(self) -> u64 {
        self.left
    }

    /// The width of a step.
    pub(crate) fn step(self) -> u64 {
        self.step
    }

    /// In how many blocks the steps stand. Each block begins with the lanes' names.
    pub(crate) fn blocks(self) -> u64 {
        (self.steps.saturating_sub(1) / STEPS_BETWEEN).saturating_add(1)
    }

    /// The left edge of a block, from 0: where the column with the lanes' names begins.
    pub(crate) fn block(self, index: u64) -> u64 {
        self.left
            .saturating_add(self.step.saturating_mul(STEPS_BETWEEN))
            .saturating_mul(index)
    }

    /// The middle of the step with this number.
    pub(crate) fn x(self, number: u64) -> u64 {
        self.left
            .saturating_mul(number.saturating_sub(1) / STEPS_BETWEEN)
            .saturating_add(self.left)
            .saturating_add(self.step.saturating_mul(number))
            .saturating_sub(self.step / 2)
    }

    /// The right edge of the lanes.
    pub(crate) fn right(self) -> u64 {
        self.left
            .saturating_mul(self.blocks())
            .saturating_add(self.step.saturating_mul(self.steps))
    }

    /// The left end of a bar that begins at the step with this number, or at the left edge if the number is 0.
    pub(crate) fn bar_start(self, number: u64) -> u64 {
        self.x(number).max(self.left)
    }

    /// The right end of a bar that ends at the step with this number, or at the right edge if there is no such step.
    pub(crate) fn bar_end(self, number: u64) -> u64 {
        self.x(number).min(self.right())
    }

    /// Whether there are so many lanes that the top has the legend and numbers too.
    pub(crate) fn is_tall(self) -> bool {
        LANES_BETWEEN < self.lanes
    }

    /// How many rows of the steps' numbers stand above lanes.
    pub(crate) fn number_rows(self) -> u64 {
        if self.is_tall() {
            (self.lanes.saturating_sub(1) / LANES_BETWEEN).saturating_add(1)
        } else {
            0
        }
    }

    /// The index of the lane below this row of the steps' numbers, from 0.
    pub(crate) fn numbered_lane(self, row: u64) -> u64 {
        LANES_BETWEEN.saturating_mul(row)
    }

    /// The height of the legend and the numbers above the lane with this index.
    fn above(self, lane: u64) -> u64 {
        if self.is_tall() {
            (lane / LANES_BETWEEN)
                .saturating_add(1)
                .saturating_mul(NUMBERS)
                .saturating_add(LEGEND)
        } else {
            0
        }
    }

    /// The top of the lane with this index.
    pub(crate) fn top(self, lane: u64) -> u64 {
        LANE.saturating_mul(lane)
            .saturating_add(TOP)
            .saturating_add(self.above(lane))
    }

    /// The middle of the lane with this index.
    pub(crate) fn middle(self, lane: u64) -> u64 {
        self.top(lane).saturating_add(LANE / 2)
    }

    /// The height of a lane.
    pub(crate) fn lane(self) -> u64 {
        LANE
    }

    /// The bottom of the last lane.
    pub(crate) fn bottom(self) -> u64 {
        self.top(self.lanes.saturating_sub(1)).saturating_add(LANE)
    }

    /// The width of the picture.
    pub(crate) fn width(self) -> u64 {
        self.right().saturating_add(24).max(LEAST_WIDTH)
    }

    /// The height of the picture.
    pub(crate) fn height(self) -> u64 {
        self.bottom().saturating_add(BELOW)
    }
}
