//! Are the table and the picture as they were worked out by hand from `docs/RULES.md`? Each test plays a table of rows.
//! A call that runs out of memory is made again, so the tests also pass if any one allocation fails.
//!
//! The worked key has three writers and a reader, and `play` makes all calls as pass 3. Transaction 9 holds the lock;
//! requests 1, 2 and 5 wait to write, and 3 to read. When 9 finishes, 3 and 1 are let through, and 1 has the
//! reservation and then the lock. 2 leaves. When 1 finishes, 5 is let through and has the reservation, and leaves.
use lt_ids::{Access, IdError, Key, Ticket, Timestamp, TxnId};
use lt_plain::PlainTable;
use lt_rules::{Call, KeyState, KeyTable, Reply};
use lt_trace_picture::{PageRows, html, picture};
use lt_trace_show::{
    Arrow, Bar, ColourChoice, Lane, Layout, Phase, PictureError, ShownRange, ShownStep, Terminal,
    lanes_of, put_escaped, put_heading, put_key, put_printable, put_shown,
};
use std::alloc::{AllocError, Global};
use std::process::Abort;
use std::test::Fail;

fn txn(number: u64) -> Result<TxnId, Fail> {
    Ok(TxnId::new(number).ok_or("a transaction of this number")?)
}

/// The first wait of this request, whose transaction has its number.
fn visit(number: u64, wall: u64, access: Access) -> Result<Call, Fail> {
    Ok(Call::Visit {
        ticket: Ticket::new(number, 1).ok_or("a ticket")?,
        txn: Some(txn(number)?),
        ts: Timestamp { wall, logical: 0 },
        access,
        longest: 0,
    })
}

fn acquire(number: u64, wall: u64) -> Result<Call, Fail> {
    Ok(Call::Acquire {
        txn: txn(number)?,
        ts: Timestamp { wall, logical: 0 },
    })
}

fn finish(number: u64) -> Result<Call, Fail> {
    Ok(Call::Finish { txn: txn(number)? })
}

/// Ten requests wait, and the holder finishes: the readers 1 to 9 are let through, the latest first, and then 10, a writer.
fn crowd_calls() -> Result<[Call; 12], Fail> {
    Ok([
        acquire(99, 10)?,
        visit(1, 12, Access::Read)?,
        visit(2, 12, Access::Read)?,
        visit(3, 12, Access::Read)?,
        visit(4, 12, Access::Read)?,
        visit(5, 12, Access::Read)?,
        visit(6, 12, Access::Read)?,
        visit(7, 12, Access::Read)?,
        visit(8, 12, Access::Read)?,
        visit(9, 12, Access::Read)?,
        visit(10, 10, Access::Write)?,
        finish(99)?,
    ])
}

/// The calls of the worked key.
fn worked_calls() -> Result<[Call; 10], Fail> {
    Ok([
        acquire(9, 10)?,
        visit(1, 10, Access::Write)?,
        visit(2, 10, Access::Write)?,
        visit(3, 12, Access::Read)?,
        visit(5, 11, Access::Write)?,
        finish(9)?,
        acquire(1, 13)?,
        Call::Leave { number: 2 },
        finish(1)?,
        Call::Leave { number: 5 },
    ])
}

/// Request 2 is let through and loses its reservation to request 1.
fn lost_calls() -> Result<[Call; 4], Fail> {
    Ok([
        acquire(9, 10)?,
        visit(2, 10, Access::Write)?,
        finish(9)?,
        visit(1, 10, Access::Write)?,
    ])
}

fn key(alloc: Global, bytes: &[u8]) -> Result<Key, IdError> {
    match Key::from_bytes(alloc, bytes) {
        Err(IdError::Memory) => Key::from_bytes(alloc, bytes),
        made => made,
    }
}

/// Makes the call and shows it.
fn shown(
    alloc: Global,
    table: &mut PlainTable,
    key: &Key,
    index: u64,
    call: Call,
) -> Result<ShownStep, AllocError> {
    let mut lets = Vec::new(alloc);
    let reply = table.step(key, 3, &call, &mut lets)?;
    let mut tickets = Vec::new(alloc);
    for through in &lets {
        tickets.push(through.ticket)?;
    }
    Ok(ShownStep {
        index,
        pass: 3,
        call,
        reply,
        tickets,
        state: table.state(alloc, key)?,
    })
}

/// The steps of these calls at a new table.
fn play(alloc: Global, key: &Key, calls: &[Call]) -> Result<Vec<ShownStep>, AllocError> {
    let mut table = PlainTable::new(alloc);
    let mut steps = Vec::new(alloc);
    for call in calls {
        let index = (steps.len() as u64).saturating_add(1);
        steps.push(shown(alloc, &mut table, key, index, *call)?)?;
    }
    Ok(steps)
}

/// A range of steps, and the rows of its page.
#[derive(Drop)]
struct PicturePart {
    range: ShownRange,
    rows: PageRows,
}

impl PicturePart {
    fn new(alloc: Global, before: KeyState) -> PicturePart {
        PicturePart {
            range: ShownRange::new(alloc, before),
            rows: PageRows::new(alloc),
        }
    }

    fn push(&mut self, step: ShownStep) -> Result<(), AllocError> {
        self.rows.push(&step)?;
        self.range.push(step)
    }
}

/// The steps of these calls from this index on, with the state before them. The last `undrawn` steps are left out.
fn cut(
    alloc: Global,
    key: &Key,
    calls: &[Call],
    from: usize,
    undrawn: usize,
) -> Result<PicturePart, AllocError> {
    let mut part = PicturePart::new(alloc, KeyState::empty(alloc));
    let drawn = calls.len().saturating_sub(undrawn);
    for step in play(alloc, key, calls)? {
        if step.index < from as u64 {
            let ShownStep { state, .. } = step;
            part = PicturePart::new(alloc, state);
        } else if step.index <= drawn as u64 {
            part.push(step)?;
        }
    }
    part.range.goes_on = undrawn > 0;
    Ok(part)
}

/// The same, made again if memory ran out.
fn part_of(
    alloc: Global,
    calls: &[Call],
    from: usize,
    undrawn: usize,
) -> Result<PicturePart, Fail> {
    let key = key(alloc, b"k")?;
    match cut(alloc, &key, calls, from, undrawn) {
        Err(_) => Ok(cut(alloc, &key, calls, from, undrawn)?),
        Ok(part) => Ok(part),
    }
}

fn steps_of(alloc: Global, calls: &[Call]) -> Result<Vec<ShownStep>, Fail> {
    let key = key(alloc, b"k")?;
    match play(alloc, &key, calls) {
        Err(_) => Ok(play(alloc, &key, calls)?),
        Ok(steps) => Ok(steps),
    }
}

/// What a row of text shows.
#[derive(Clone, Copy)]
enum Shows<'a> {
    Key(&'a [u8]),
    Heading,
    Step(usize),
}

/// The name of the key that a row shows.
fn name_of<'a>(shows: Shows<'a>) -> &'a [u8] {
    match shows {
        Shows::Key(bytes) => bytes,
        _ => b"k",
    }
}

/// The line of a row. It is empty if there is no such step.
fn text(
    alloc: Global,
    layout: Layout,
    steps: &[ShownStep],
    key: &Key,
    shows: Shows,
) -> Result<Vec<u8>, AllocError> {
    let mut out = Vec::new(alloc);
    match shows {
        Shows::Key(_) => put_key(&mut out, layout, key)?,
        Shows::Heading => put_heading(&mut out, layout)?,
        Shows::Step(index) => {
            if let Some(step) = steps.get(index) {
                put_shown(&mut out, layout, step)?;
            }
        }
    }
    Ok(out)
}

/// A row: a width, whether there are colours, what is shown, and the line.
type LineRow<'a> = (u16, bool, Shows<'a>, &'a [u8]);

/// Fails unless each row shows its line.
fn expect_lines(
    rt: &impl Abort,
    alloc: Global,
    steps: &[ShownStep],
    rows: &[LineRow],
) -> Result<(), Fail> {
    for (width, colours, shows, want) in rows {
        let layout = Layout::new(*width, *colours).ok_or("a layout")?;
        let key = key(alloc, name_of(*shows))?;
        let found = match text(alloc, layout, steps, &key, *shows) {
            Err(_) => text(alloc, layout, steps, &key, *shows)?,
            Ok(found) => found,
        };
        assert_eq!(rt; found.as_slice(), *want);
    }
    Ok(())
}

const LINES: [LineRow; 18] = [
    (80, false, Shows::Key(b"k"), b" key k\n"),
    (
        80,
        false,
        Shows::Heading,
        b" step  pass call                reply  holder    reserv~ writers readers let\n",
    ),
    (
        80,
        false,
        Shows::Step(0),
        b" 1     3    acquire 9 10.0      taken  9 at 10.0 -       -       -       -\n",
    ),
    (
        80,
        false,
        Shows::Step(1),
        b" 2     3    visit 1.1 1 10.0 w  wait   9 at 10.0 -       1*      -       -\n",
    ),
    (
        80,
        false,
        Shows::Step(2),
        b" 3     3    visit 2.1 2 10.0 w  wait   9 at 10.0 -       1* 2    -       -\n",
    ),
    (
        80,
        false,
        Shows::Step(3),
        b" 4     3    visit 3.1 3 12.0 r  wait   9 at 10.0 -       1* 2    3       -\n",
    ),
    (
        80,
        false,
        Shows::Step(4),
        b" 5     3    visit 5.1 5 11.0 w  wait   9 at 10.0 -       1* 2 5  3       -\n",
    ),
    (
        80,
        false,
        Shows::Step(5),
        b" 6     3    finish 9            freed  -         1       2* 5    -       3.1 1.1\n",
    ),
    (
        80,
        false,
        Shows::Step(6),
        b" 7     3    acquire 1 13.0      taken  1 at 13.0 -       2* 5    -       -\n",
    ),
    (
        80,
        false,
        Shows::Step(7),
        b" 8     3    leave 2             left   1 at 13.0 -       5*      -       -\n",
    ),
    (
        80,
        false,
        Shows::Step(8),
        b" 9     3    finish 1            freed  -         5       -       -       5.1\n",
    ),
    (
        80,
        false,
        Shows::Step(9),
        b" 10    3    leave 5             left   -         -       -       -       -\n",
    ),
    // The narrowest table cuts most cells.
    (
        40,
        false,
        Shows::Key(b"0123456789012345678901234567890123456789"),
        b" key 0123456789012345678901234567890123~\n",
    ),
    (
        40,
        false,
        Shows::Heading,
        b" st~ p~ call    rep~ hol~ re~ wr~ re~ l~\n",
    ),
    (
        40,
        false,
        Shows::Step(4),
        b" 5   3  visit ~ wait 9 a~ -   1*~ 3   -\n",
    ),
    (
        40,
        false,
        Shows::Step(5),
        b" 6   3  finish~ fre~ -    1   2*~ -   3~\n",
    ),
    // Colours add their sequences and change nothing else.
    (40, true, Shows::Key(b"k"), b"\x1b[1m key k\x1b[0m\n"),
    (
        40,
        true,
        Shows::Step(7),
        b"\x1b[2m 8  \x1b[0m\x1b[2m 3 \x1b[0m\x1b[0m leave 2\x1b[0m\x1b[0m left\x1b[0m\
\x1b[34m 1 a~\x1b[0m\x1b[33m -  \x1b[0m\x1b[0m 5* \x1b[0m\x1b[0m -  \x1b[0m\x1b[36m - \x1b[0m\n",
    ),
];

#[test]
fn the_worked_key_is_shown_step_by_step(rt: HostRuntime) -> Result<(), Fail> {
    let steps = steps_of(rt.alloc(), &worked_calls()?)?;
    expect_lines(&rt, rt.alloc(), &steps, &LINES)
}

#[test]
fn an_inactive_writer_is_shown_in_parentheses(rt: HostRuntime) -> Result<(), Fail> {
    let steps = steps_of(rt.alloc(), &lost_calls()?)?;
    let rows: [LineRow; 1] = [(
        80,
        false,
        Shows::Step(3),
        b" 4     3    visit 1.1 1 10.0 w  pass   -         1       (2)     -       -\n",
    )];
    expect_lines(&rt, rt.alloc(), &steps, &rows)
}

#[test]
fn a_table_has_at_least_40_columns(rt: HostRuntime) {
    for (width, is_wide) in [(0u16, false), (39, false), (40, true), (65535, true)] {
        assert_eq!(rt; Layout::new(width, false).is_some(), is_wide, "at {width}");
    }
}

/// A terminal, what the options ask for, and the width and the colours that they give.
type TerminalRow = (Terminal, Option<u16>, ColourChoice, u16, bool);

const FILE: Terminal = Terminal {
    is_terminal: false,
    columns: Some(90),
    no_colour: false,
};

const WIDE: Terminal = Terminal {
    is_terminal: true,
    columns: Some(90),
    no_colour: false,
};

const PLAIN: Terminal = Terminal {
    is_terminal: true,
    columns: None,
    no_colour: true,
};

#[test]
fn the_options_decide_and_then_the_terminal(rt: HostRuntime) {
    let rows: [TerminalRow; 7] = [
        (FILE, None, ColourChoice::Auto, 120, false),
        (FILE, Some(60), ColourChoice::Always, 60, true),
        (WIDE, None, ColourChoice::Auto, 90, true),
        (WIDE, Some(60), ColourChoice::Never, 60, false),
        (PLAIN, None, ColourChoice::Auto, 80, false),
        (PLAIN, None, ColourChoice::Always, 80, true),
        (PLAIN, Some(60), ColourChoice::Never, 60, false),
    ];
    for (at, (terminal, asked, choice, width, colours)) in rows.iter().enumerate() {
        assert_eq!(rt; terminal.chosen_width(*asked), *width, "row {at}");
        assert_eq!(rt; terminal.has_colours(*choice), *colours, "row {at}");
    }
}

/// A bar: the index of its lane, its phase, and the numbers of the steps that began and ended it.
type BarRow = (usize, Phase, usize, usize);

/// An arrow: the number of its step, and the indexes of the lanes from which and to which it leads.
type ArrowRow = (usize, usize, usize);

/// The lanes, bars and arrows of some steps.
#[derive(Clone, Copy)]
struct PictureRow<'a> {
    lanes: &'a [Lane],
    bars: &'a [BarRow],
    arrows: &'a [ArrowRow],
}

/// Whether these are the bars of a row.
fn are_bars(bars: &[Bar], row: &[BarRow]) -> bool {
    let is_bar = |(bar, (lane, phase, first, end)): (&Bar, &BarRow)| {
        bar.lane == *lane && bar.phase == *phase && bar.first == *first && bar.end == *end
    };
    bars.len() == row.len() && bars.iter().zip(row).all(is_bar)
}

/// Whether these are the arrows of a row.
fn are_arrows(arrows: &[Arrow], row: &[ArrowRow]) -> bool {
    let is_arrow = |(arrow, (step, from, to)): (&Arrow, &ArrowRow)| {
        arrow.step == *step && arrow.from == *from && arrow.to == *to
    };
    arrows.len() == row.len() && arrows.iter().zip(row).all(is_arrow)
}

/// Fails unless the steps have these lanes, bars and arrows.
fn expect_picture(
    rt: &impl Abort,
    alloc: Global,
    range: &ShownRange,
    row: &PictureRow,
) -> Result<(), Fail> {
    let layout = match lanes_of(alloc, &range.before, &range.steps) {
        Err(PictureError::Memory) => lanes_of(alloc, &range.before, &range.steps)?,
        made => made?,
    };
    assert_eq!(rt; layout.lanes.as_slice(), row.lanes);
    assert!(rt; are_bars(&layout.bars, row.bars));
    assert!(rt; are_arrows(&layout.arrows, row.arrows));
    Ok(())
}

/// The whole worked key.
const WHOLE: PictureRow = PictureRow {
    lanes: &[
        Lane::Txn(1),
        Lane::Txn(9),
        Lane::Request(1),
        Lane::Request(2),
        Lane::Request(3),
        Lane::Request(5),
    ],
    bars: &[
        (0, Phase::Holds, 7, 9),
        (1, Phase::Holds, 1, 6),
        (2, Phase::Waits(1), 2, 6),
        (2, Phase::Reserved, 6, 7),
        (3, Phase::Waits(1), 3, 8),
        (4, Phase::Waits(1), 4, 6),
        (5, Phase::Waits(1), 5, 9),
        (5, Phase::Reserved, 9, 10),
    ],
    arrows: &[(6, 1, 4), (6, 1, 2), (9, 0, 5)],
};

/// Steps 7 to 9 of it. Before step 7, request 1 has the reservation, and 2 and 5 wait. After step 9, request 5 has it.
const MIDDLE: PictureRow = PictureRow {
    lanes: &[
        Lane::Txn(1),
        Lane::Request(1),
        Lane::Request(2),
        Lane::Request(5),
    ],
    bars: &[
        (0, Phase::Holds, 1, 3),
        (1, Phase::Reserved, 0, 1),
        (2, Phase::Waits(1), 0, 2),
        (3, Phase::Waits(1), 0, 3),
        (3, Phase::Reserved, 3, 4),
    ],
    arrows: &[(3, 0, 3)],
};

/// Step 6 alone. Before it transaction 9 holds the lock and all four wait; no bar of 2 and 5 ends.
const FINISH: PictureRow = PictureRow {
    lanes: &[
        Lane::Txn(9),
        Lane::Request(1),
        Lane::Request(2),
        Lane::Request(3),
        Lane::Request(5),
    ],
    bars: &[
        (0, Phase::Holds, 0, 1),
        (1, Phase::Waits(1), 0, 1),
        (1, Phase::Reserved, 1, 2),
        (2, Phase::Waits(1), 0, 2),
        (3, Phase::Waits(1), 0, 1),
        (4, Phase::Waits(1), 0, 2),
    ],
    arrows: &[(1, 0, 3), (1, 0, 1)],
};

const LOST: PictureRow = PictureRow {
    lanes: &[Lane::Txn(9), Lane::Request(1), Lane::Request(2)],
    bars: &[
        (0, Phase::Holds, 1, 3),
        (1, Phase::Reserved, 4, 5),
        (2, Phase::Waits(1), 2, 3),
        (2, Phase::Reserved, 3, 4),
        (2, Phase::Idle, 4, 5),
    ],
    arrows: &[(3, 0, 2)],
};

/// The step at which ten requests stop waiting.
const CROWD: PictureRow = PictureRow {
    lanes: &[
        Lane::Txn(99),
        Lane::Request(1),
        Lane::Request(2),
        Lane::Request(3),
        Lane::Request(4),
        Lane::Request(5),
        Lane::Request(6),
        Lane::Request(7),
        Lane::Request(8),
        Lane::Request(9),
        Lane::Request(10),
    ],
    bars: &[
        (0, Phase::Holds, 0, 1),
        (1, Phase::Waits(1), 0, 1),
        (2, Phase::Waits(1), 0, 1),
        (3, Phase::Waits(1), 0, 1),
        (4, Phase::Waits(1), 0, 1),
        (5, Phase::Waits(1), 0, 1),
        (6, Phase::Waits(1), 0, 1),
        (7, Phase::Waits(1), 0, 1),
        (8, Phase::Waits(1), 0, 1),
        (9, Phase::Waits(1), 0, 1),
        (10, Phase::Waits(1), 0, 1),
        (10, Phase::Reserved, 1, 2),
    ],
    arrows: &[
        (1, 0, 9),
        (1, 0, 8),
        (1, 0, 7),
        (1, 0, 6),
        (1, 0, 5),
        (1, 0, 4),
        (1, 0, 3),
        (1, 0, 2),
        (1, 0, 1),
        (1, 0, 10),
    ],
};

const NOTHING: PictureRow = PictureRow {
    lanes: &[],
    bars: &[],
    arrows: &[],
};

#[test]
fn each_range_of_steps_has_its_lanes_bars_and_arrows(rt: HostRuntime) -> Result<(), Fail> {
    let alloc = rt.alloc();
    let worked = worked_calls()?;
    let lost = lost_calls()?;
    let crowd = crowd_calls()?;
    // The calls, the first step, how many of the last steps are not drawn, and what is drawn.
    let rows: [(&[Call], usize, usize, &PictureRow); 6] = [
        (&worked, 1, 0, &WHOLE),
        (&worked, 7, 1, &MIDDLE),
        (&worked, 6, 4, &FINISH),
        (&lost, 1, 0, &LOST),
        (&crowd, 12, 0, &CROWD),
        (&[], 1, 0, &NOTHING),
    ];
    for (calls, from, undrawn, row) in rows {
        expect_picture(
            &rt,
            alloc,
            &part_of(alloc, calls, from, undrawn)?.range,
            row,
        )?;
    }
    Ok(())
}

fn printable(alloc: Global, bytes: &[u8]) -> Result<Vec<u8>, AllocError> {
    let mut out = Vec::new(alloc);
    put_printable(&mut out, bytes)?;
    Ok(out)
}

fn escaped(alloc: Global, bytes: &[u8]) -> Result<Vec<u8>, AllocError> {
    let mut out = Vec::new(alloc);
    put_escaped(&mut out, bytes)?;
    Ok(out)
}

#[test]
fn bytes_are_escaped(rt: HostRuntime) -> Result<(), Fail> {
    let rows: [(&[u8], &[u8], &[u8]); 5] = [
        (b"", b"", b""),
        (b"a/b 7~", b"a/b 7~", b"a/b 7~"),
        (b"<&>\"'", b"<&>\"'", b"&lt;&amp;&gt;&quot;'"),
        (
            b"\x00\x1f\x7f\xff",
            b"\\x00\\x1F\\x7F\\xFF",
            b"\\x00\\x1F\\x7F\\xFF",
        ),
        (b"&amp;", b"&amp;", b"&amp;amp;"),
    ];
    let alloc = rt.alloc();
    for (bytes, as_printable, as_markup) in rows {
        let found = match printable(alloc, bytes) {
            Err(_) => printable(alloc, bytes)?,
            Ok(found) => found,
        };
        assert_eq!(rt; found.as_slice(), as_printable);
        let found = match escaped(alloc, bytes) {
            Err(_) => escaped(alloc, bytes)?,
            Ok(found) => found,
        };
        assert_eq!(rt; found.as_slice(), as_markup);
    }
    Ok(())
}

/// How often the text has these bytes.
fn count_of(text: &[u8], part: &[u8]) -> usize {
    let mut count = 0usize;
    for start in 0..text.len() {
        if text[start..].starts_with(part) {
            count = count.saturating_add(1);
        }
    }
    count
}

/// Fails unless the text has each part as often as its row says.
fn expect_parts(rt: &impl Abort, text: &[u8], rows: &[(&[u8], usize)]) -> Result<(), Fail> {
    for (part, count) in rows {
        assert_eq!(rt; count_of(text, part), *count);
    }
    assert!(rt; text.is_ascii());
    Ok(())
}

/// Parts of a text, and how often it has each.
type PartRows<'a> = &'a [(&'a [u8], usize)];

// The legend has each kind of bar once, an arrow and eight markers.
const WHOLE_PARTS: PartRows = &[
    (b"<svg ", 1),
    (b"class=\"waits\"", 5),
    (b"class=\"holds\"", 3),
    (b"class=\"reserved\"", 3),
    (b"class=\"idle\"", 1),
    (b"class=\"arrow\"", 4),
    (b"class=\"halo\"", 3),
    (b"class=\"torn\"", 0),
    (b"<circle class=\"marker", 18),
    (b"a&lt;b&amp;c&quot;d", 1),
    (b"a<b", 0),
    (b">steps 1 to 10<", 1),
    (
        b">request 5 has the reservation, from step 9 to step 10<",
        1,
    ),
];

// Three bars begin before step 7, and one goes on beyond step 9.
const MIDDLE_PARTS: PartRows = &[
    (b">steps 7 to 9; earlier and later ones are not drawn<", 1),
    (
        b"<title>before them: holder - reserved 1 writers 2* 5 readers -<",
        1,
    ),
    (b">txn 1 holds the lock, from step 7 to step 9<", 1),
    (
        b">request 1 has the reservation, from before step 7 to step 7<",
        1,
    ),
    (b">request 2 waits, from before step 7 to step 8<", 1),
    (b">request 5 waits, from before step 7 to step 9<", 1),
    (
        b">request 5 has the reservation, from step 9 to beyond step 9<",
        1,
    ),
    (b"class=\"torn\"", 4),
];

// The last step is drawn, so a bar that is not over goes on to the end of the history.
const LOST_PARTS: PartRows = &[
    (b">steps 3 to 4; earlier ones are not drawn<", 1),
    (b">txn 9 holds the lock, from before step 3 to step 3<", 1),
    (b">request 2 waits, from before step 3 to step 3<", 1),
    (b">request 1 has the reservation, from step 4 on<", 1),
    (
        b">request 2 is queued and does not wait, from step 4 on<",
        1,
    ),
    (b"class=\"torn\"", 2),
];

fn picture_of(alloc: Global, key_bytes: &[u8], range: &ShownRange) -> Result<Vec<u8>, Fail> {
    let key = key(alloc, key_bytes)?;
    match picture(alloc, &key, range) {
        Err(PictureError::Memory) => Ok(picture(alloc, &key, range)?),
        made => Ok(made?),
    }
}

#[test]
fn the_picture_says_where_each_bar_begins_and_ends(rt: HostRuntime) -> Result<(), Fail> {
    let alloc = rt.alloc();
    let worked = worked_calls()?;
    let lost = lost_calls()?;
    // The calls, the first step, how many of the last steps are not drawn, and what the picture has.
    let rows: [(&[Call], usize, usize, PartRows); 3] = [
        (&worked, 1, 0, WHOLE_PARTS),
        (&worked, 7, 1, MIDDLE_PARTS),
        (&lost, 3, 0, LOST_PARTS),
    ];
    for (calls, from, undrawn, parts) in rows {
        let part = part_of(alloc, calls, from, undrawn)?;
        let svg = picture_of(alloc, b"a<b&c\"d", &part.range)?;
        expect_parts(&rt, &svg, parts)?;
    }
    Ok(())
}

// A key of 40 bytes is shown whole, and of a longer one the first 40 bytes.
const LONG_KEYS: [(&[u8], &[u8]); 2] = [
    (
        b"0123456789012345678901234567890123456789",
        b">key 0123456789012345678901234567890123456789</text>",
    ),
    (
        b"0123456789012345678901234567890123456789&",
        b"><title>0123456789012345678901234567890123456789&amp;</title>key 0123456789012345678901234567890123456789~</text>",
    ),
];

#[test]
fn a_long_key_is_cut_and_has_a_title(rt: HostRuntime) -> Result<(), Fail> {
    let alloc = rt.alloc();
    let part = looks_of(alloc, 1)?;
    for (key, shown) in LONG_KEYS {
        expect_parts(&rt, &picture_of(alloc, key, &part.range)?, &[(shown, 1)])?;
    }
    Ok(())
}

const PAGE_PARTS: PartRows = &[
    (b"<!DOCTYPE html>", 1),
    (b"<svg ", 1),
    (b"<tr>", 11),
    (b"<td> before</td>", 0),
    (b"<td> 3.1 1.1</td>", 1),
    (b"a&lt;b&amp;c&quot;d", 3),
    (b"<script", 0),
    (b"</html>\n", 1),
];

// The page has a row for the state before the first step.
const CUT_PAGE_PARTS: PartRows = &[
    (b"<tr>", 4),
    (b", steps 9 to 10; earlier ones are not drawn</h1>", 1),
    (
        b"<tr><td> before</td><td> -</td><td> -</td><td> -</td><td> 1 at 13.0</td><td> -</td><td> 5*</td><td> -</td><td> -</td></tr>",
        1,
    ),
];

fn page_of(alloc: Global, part: &PicturePart) -> Result<Vec<u8>, Fail> {
    let key = key(alloc, b"a<b&c\"d")?;
    match html(alloc, &key, &part.range, &part.rows) {
        Err(PictureError::Memory) => Ok(html(alloc, &key, &part.range, &part.rows)?),
        made => Ok(made?),
    }
}

#[test]
fn the_page_has_the_picture_and_the_steps(rt: HostRuntime) -> Result<(), Fail> {
    let alloc = rt.alloc();
    let worked = worked_calls()?;
    for (from, parts) in [(1, PAGE_PARTS), (9, CUT_PAGE_PARTS)] {
        let page = page_of(alloc, &part_of(alloc, &worked, from, 0)?)?;
        expect_parts(&rt, &page, parts)?;
    }
    Ok(())
}

/// This many looks at an empty key.
fn looks(alloc: Global, many: usize) -> Result<PicturePart, AllocError> {
    let mut part = PicturePart::new(alloc, KeyState::empty(alloc));
    for index in 0..many {
        part.push(ShownStep {
            index: (index as u64).saturating_add(1),
            pass: 1,
            call: Call::Look { number: 1 },
            reply: Reply::Nothing,
            tickets: Vec::new(alloc),
            state: KeyState::empty(alloc),
        })?;
    }
    Ok(part)
}

fn looks_of(alloc: Global, many: usize) -> Result<PicturePart, Fail> {
    match looks(alloc, many) {
        Err(_) => Ok(looks(alloc, many)?),
        Ok(part) => Ok(part),
    }
}

#[test]
fn more_than_400_steps_are_refused(rt: HostRuntime) -> Result<(), Fail> {
    let alloc = rt.alloc();
    let key = key(alloc, b"k")?;
    let part = looks_of(alloc, 401)?;
    assert!(rt;
        matches!(
            lanes_of(alloc, &part.range.before, &part.range.steps),
            Err(PictureError::TooManySteps)
        )
    );
    assert!(rt;
        matches!(
            picture(alloc, &key, &part.range),
            Err(PictureError::TooManySteps)
        )
    );
    assert!(rt;
        matches!(
            html(alloc, &key, &part.range, &part.rows),
            Err(PictureError::TooManySteps)
        )
    );
    let svg = picture_of(alloc, b"k", &looks_of(alloc, 400)?.range)?;
    assert!(rt; svg.starts_with(b"<svg "));
    Ok(())
}
