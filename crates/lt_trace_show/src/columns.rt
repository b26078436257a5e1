//! How wide is each column of the table? The columns fill the width of the terminal exactly. Each has its least width,
//! and the rest goes first to what a usual step needs, and then to what a crowded key needs.
ghost use Rattle.std.specs.Prelude.{◌≡◌, ◌≤◌, ◌+◌, ◌*◌, ◌<◌, ◌^◌, ◌↔◌, All, IsSome, IfSome, get_or, sum};
ghost use Rattle.lt_trace_show.specs.declared.columns.TheConstants.{MOST_QUEUED};

/// The columns: step, pass, call, reply, holder, reserved, writers, readers, let.
pub const COLUMNS: usize = 9;

/// How many entries of a queue decide what its cell shows. The column of a queue is at most 16 wide and an entry takes at
/// least two, so nine are cut, and what is cut off does not show.
pub const MOST_QUEUED: usize = 9;

/// The least widths of all columns together.
const LEAST: usize = 40;

/// How the table is laid out.
#[derive(Clone, Copy)]
pub struct Layout {
    /// The width of a line in columns of the terminal, from 40 to 65535.
    width: usize,
    /// Whether ANSI colours mark the columns.
    pub colours: bool,
    ghost wide: { 40 ≤ width },
    ghost bounded: { width < 2 ^ 16 },
}

impl Layout {
    ghost use Rattle.std.specs.Prelude.{◌≡◌, ◌≤◌, ◌<◌, ◌^◌, ◌↔◌, IsSome, IfSome};

    /// The layout for a terminal of this width, or `None` below 40 columns.
    pub fn new(width: u16, colours: bool) -> Option<Layout>
        ensures some { IsSome result ↔ (40 ≤ width) }
        ensures width { IfSome result (λ layout. layout.width ≡ width) }
        ensures colours { IfSome result (λ layout. layout.colours ≡ colours) }
    {
        let width = width as usize;
        if width < LEAST {
            return None;
        }
        Some(Layout { width, colours })
    }

    /// The width of a line in columns of the terminal.
    pub fn width(&self) -> usize
        ensures value { result ≡ self.now.width }
        ensures wide { 40 ≤ result }
        ensures bounded { result < 2 ^ 16 }
    {
        self.width
    }
}

/// Takes from what is left, at most this much.
fn take(left: &mut usize, most: usize) -> usize
    ensures sum { result + left.new ≡ left.old }
    ensures most { result ≤ most }
{
    let taken = most.min(*left);
    *left -= taken;
    taken
}

/// The widths of the columns. A column's width includes the space before its text.
pub(crate) fn widths(width: usize) -> [usize; COLUMNS]
    requires wide { 40 ≤ width }
    requires bounded { width < 2 ^ 16 }
    ensures sum { sum result ≡ width }
    ensures each { All (λ w. 1 ≤ w) result }
    ensures writers { get_or result 6 0 < 2 * MOST_QUEUED }
    ensures readers { get_or result 7 0 < 2 * MOST_QUEUED }
{
    let mut left = width - LEAST;
    let call = 8 + take(&mut left, 12);
    let step = 4 + take(&mut left, 2);
    let pass = 3 + take(&mut left, 2);
    let reply = 5 + take(&mut left, 2);
    let holder = 5 + take(&mut left, 5);
    let writers = 4 + take(&mut left, 4);
    let lets = 3 + take(&mut left, 5);
    let readers = 4 + take(&mut left, 4);
    let reserved = 4 + take(&mut left, 5);
    let more_call = take(&mut left, 8);
    let more_writers = take(&mut left, 8);
    let more_readers = take(&mut left, 8);
    let more_reply = take(&mut left, 9);
    let more_holder = take(&mut left, 8);
    [
        step,
        pass,
        call + more_call,
        reply + more_reply,
        holder + more_holder,
        reserved,
        writers + more_writers,
        readers + more_readers,
        lets + left,
    ]
}
