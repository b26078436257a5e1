//! How does the layout become a picture? From the back to the front: the lanes and the steps' columns, the bars, the
//! arrows, and a marker for each call; then the legend. The bars differ in their patterns and outlines and not only in
//! their colours, so the picture can be printed in grey.
ghost use Rattle.std.specs.Prelude.{◌≡◌, ◌<◌, ◌↔◌, Err, length};

use crate::drawing::{
    Area, RectColumn, column_start, end_text, end_titled_rect, put, put_marker, put_rect,
    put_torn_end, put_vertical, put_with_number, start_in_column, start_text, start_titled_rect,
};
use crate::grid::{BAR, Grid};
use crate::legend::put_legend;
use lt_ids::{Access, Key};
use lt_rules::Call;
use lt_text::put::put_number;
use lt_trace_show::{
    Arrow, Bar, Claim, DrawnStep, Lane, Lanes, Phase, PictureError, ShownRange, index_of, lane_of,
    lanes_of, owners_of, put_escaped, put_state, put_step_words,
};
use std::alloc::{AllocError, Global};

/// How many bytes of a key fit into the narrowest picture, however wide its letters are.
const MOST_KEY_SHOWN: usize = 40;

/// The styles, the patterns and the head of an arrow.
const STYLE: &[u8] = b"<style>\
text{font-family:Helvetica,Arial,sans-serif;font-size:13px;fill:#222}\
.key{font-size:17px;font-weight:bold}\
.steps,.number{fill:#555}\
.number{font-size:11px;text-anchor:middle;paint-order:stroke;stroke:#fff;stroke-width:4px}\
.name,.owner{text-anchor:end}\
.owner{font-size:11px;fill:#555}\
.between{fill:#fff;fill-opacity:.85}\
.letter{font-size:11px;font-weight:bold;text-anchor:middle;pointer-events:none}\
.even{fill:#f4f5f7}.odd{fill:#fff}\
.column{fill:#000;fill-opacity:0}.column:hover{fill-opacity:.06}\
.rule{stroke:#d9dce1;stroke-width:1}\
.holds{fill:#0072b2;stroke:#00466e}\
.reserved{fill:url(#dots);stroke:#a86400;stroke-width:1.5}\
.waits{fill:url(#stripes);stroke:#6b6b6b}\
.idle{fill:#fff;stroke:#6b6b6b;stroke-dasharray:4 3}\
.halo{stroke:#fff;stroke-width:5;fill:none}\
.arrow{stroke:#111;stroke-width:1.8;fill:none;marker-end:url(#head)}\
.marker{fill:#fff;stroke:#222;stroke-width:1.4}\
.none{stroke-dasharray:2.5 2}\
.torn{stroke:#fff;stroke-width:4;fill:none}\
</style>\n<defs>\
<pattern id=\"stripes\" width=\"7\" height=\"7\" patternUnits=\"userSpaceOnUse\" patternTransform=\"rotate(45)\">\
<rect width=\"7\" height=\"7\" fill=\"#ececec\"/><rect width=\"2.2\" height=\"7\" fill=\"#a9a9a9\"/></pattern>\
<pattern id=\"dots\" width=\"7\" height=\"7\" patternUnits=\"userSpaceOnUse\">\
<rect width=\"7\" height=\"7\" fill=\"#f0a830\"/><circle cx=\"3.5\" cy=\"3.5\" r=\"1.3\" fill=\"#7a4700\"/></pattern>\
<marker id=\"head\" viewBox=\"0 0 10 10\" refX=\"9\" refY=\"5\" markerWidth=\"6\" markerHeight=\"6\" orient=\"auto\">\
<path d=\"M0 0L10 5L0 10Z\" fill=\"#111\"/></marker></defs>\n";

/// Appends the name of a lane's owner.
fn put_name(out: &mut Vec<u8>, lane: Lane) -> Result<(), AllocError> {
    match lane {
        Lane::Txn(number) => put_with_number(out, b"txn ", number),
        Lane::Request(number) => put_with_number(out, b"request ", number),
    }
}

/// Appends the start of the picture, with its size.
fn put_start(out: &mut Vec<u8>, grid: Grid) -> Result<(), AllocError> {
    put(out, b"<svg xmlns=\"http://www.w3.org/2000/svg\"")?;
    put_with_number(out, b" width=\"", grid.width())?;
    put_with_number(out, b"\" height=\"", grid.height())?;
    put_with_number(out, b"\" viewBox=\"0 0 ", grid.width())?;
    put_with_number(out, b" ", grid.height())?;
    put(out, b"\">\n")?;
    put(out, STYLE)
}

/// Whether the key has steps before those that are drawn.
pub(crate) fn has_earlier(range: &ShownRange) -> bool {
    match range.steps.first() {
        Some(first) => first.index > 1,
        None => false,
    }
}

/// Appends which steps of the key are not drawn.
fn put_undrawn(out: &mut Vec<u8>, range: &ShownRange) -> Result<(), AllocError> {
    match (has_earlier(range), range.goes_on) {
        (true, true) => put(out, b"; earlier and later ones are not drawn"),
        (true, false) => put(out, b"; earlier ones are not drawn"),
        (false, true) => put(out, b"; later ones are not drawn"),
        (false, false) => Ok(()),
    }
}

/// Appends `steps FIRST to LAST`, and which steps of the key are not drawn.
pub(crate) fn put_range(out: &mut Vec<u8>, range: &ShownRange) -> Result<(), AllocError> {
    let (Some(first), Some(last)) = (range.steps.first(), range.steps.last()) else {
        return put(out, b"no steps");
    };
    put(out, b"steps ")?;
    put_number(out, first.index)?;
    put(out, b" to ")?;
    put_number(out, last.index)?;
    put_undrawn(out, range)
}

/// Appends a title with the state before the first step, if the key has earlier steps.
fn put_title_before(out: &mut Vec<u8>, range: &ShownRange) -> Result<(), AllocError> {
    if !has_earlier(range) {
        return Ok(());
    }
    put(out, b"<title>before them:")?;
    put_state(out, &range.before)?;
    put(out, b"</title>")
}

/// Appends the key. One that may be wider than the picture is cut and ends in `~`, and has a title with all of it.
fn put_key_name(out: &mut Vec<u8>, key: &[u8]) -> Result<(), AllocError> {
    if key.len() <= MOST_KEY_SHOWN {
        put(out, b"key ")?;
        return put_escaped(out, key);
    }
    put(out, b"<title>")?;
    put_escaped(out, key)?;
    put(out, b"</title>key ")?;
    let (shown, _) = key.split_at(MOST_KEY_SHOWN);
    put_escaped(out, shown)?;
    put(out, b"~")
}

/// Appends the key and the range of the steps.
fn put_head(out: &mut Vec<u8>, key: &Key, range: &ShownRange) -> Result<(), AllocError> {
    start_text(out, b"key", 24, 26)?;
    put_key_name(out, key.as_bytes())?;
    end_text(out)?;
    start_text(out, b"steps", 24, 46)?;
    put_title_before(out, range)?;
    put_range(out, range)?;
    end_text(out)
}

/// Appends the backgrounds of the lanes.
fn put_lanes(out: &mut Vec<u8>, grid: Grid, lanes: u64) -> Result<(), AllocError> {
    let width = grid.right().saturating_sub(grid.left());
    let rects = RectColumn::new(*out.allocator(), grid.left(), width, grid.lane())?;
    for index in 0..lanes {
        let class: &[u8] = if index % 2 == 0 { b"even" } else { b"odd" };
        rects.put(out, class, grid.top(index))?;
    }
    Ok(())
}

/// Appends whose a request is: its pass, and its transaction if it has one.
fn put_owner(out: &mut Vec<u8>, claim: Claim) -> Result<(), AllocError> {
    put(out, b"pass ")?;
    put_number(out, claim.pass)?;
    if claim.txn > 0 {
        put(out, b", txn ")?;
        put_number(out, claim.txn)?;
    }
    Ok(())
}

/// The starts of the texts at the start of a block: the names of the lanes, and below them whose their requests are.
#[derive(Drop)]
struct NameColumns {
    names: Vec<u8>,
    owners: Vec<u8>,
}

/// Appends the name of a lane, and below it whose its request is.
fn put_lane_name(
    out: &mut Vec<u8>,
    columns: &NameColumns,
    middle: u64,
    lane: Lane,
    owner: Option<Claim>,
) -> Result<(), AllocError> {
    let Some(claim) = owner else {
        start_in_column(out, &columns.names, middle.saturating_add(4))?;
        put_name(out, lane)?;
        return end_text(out);
    };
    start_in_column(out, &columns.names, middle.saturating_sub(2))?;
    put_name(out, lane)?;
    end_text(out)?;
    start_in_column(out, &columns.owners, middle.saturating_add(11))?;
    put_owner(out, claim)?;
    end_text(out)
}

/// Appends the names of the lanes at the start of a block. From the second block on they stand on a white area, which
/// lets the bars shine through.
fn put_names(
    out: &mut Vec<u8>,
    grid: Grid,
    block: u64,
    lanes: &[Lane],
    owners: &[Option<Claim>],
) -> Result<(), AllocError> {
    if block > 0 {
        let area = Area {
            x: grid.block(block),
            y: grid.top(0),
            width: grid.left(),
            height: grid.bottom().saturating_sub(grid.top(0)),
        };
        put_rect(out, b"between", area)?;
    }
    // The texts end here.
    let x = grid
        .block(block)
        .saturating_add(grid.left())
        .saturating_sub(10);
    let alloc = *out.allocator();
    let columns = NameColumns {
        names: column_start(alloc, b"name", x)?,
        owners: column_start(alloc, b"owner", x)?,
    };
    for index in 0..lanes.len().min(owners.len()) {
        put_lane_name(
            out,
            &columns,
            grid.middle(index as u64),
            lanes[index],
            owners[index],
        )?;
    }
    Ok(())
}

/// Appends the number of a step.
fn put_step_number(out: &mut Vec<u8>, column: &[u8], y: u64, index: u64) -> Result<(), AllocError> {
    start_in_column(out, column, y)?;
    put_number(out, index)?;
    end_text(out)
}

/// Appends the number of a step below the lanes, and above some of them if there are many.
fn put_step_numbers(out: &mut Vec<u8>, grid: Grid, x: u64, index: u64) -> Result<(), AllocError> {
    let column = column_start(*out.allocator(), b"number", x)?;
    for row in 0..grid.number_rows() {
        let top = grid.top(grid.numbered_lane(row));
        put_step_number(out, &column, top.saturating_sub(8), index)?;
    }
    put_step_number(out, &column, grid.bottom().saturating_add(18), index)
}

/// Appends the column of a step: a rule, and an area that shows the step's words to a pointer.
fn put_step_column(
    out: &mut Vec<u8>,
    grid: Grid,
    number: u64,
    step: &DrawnStep,
) -> Result<(), AllocError> {
    let x = grid.x(number);
    put_vertical(out, b"rule", x, grid.top(0), grid.bottom())?;
    let area = Area {
        x: x.saturating_sub(grid.step() / 2),
        y: grid.top(0),
        width: grid.step(),
        height: grid.bottom().saturating_sub(grid.top(0)),
    };
    start_titled_rect(out, b"column", area)?;
    put_step_words(out, step)?;
    end_titled_rect(out)
}

/// The class of a phase's bar, and what the phase is in words.
fn phase_words(phase: Phase) -> (&'static [u8], &'static [u8]) {
    match phase {
        Phase::Out => (b"out", b" is not here"),
        Phase::Waits(_) => (b"waits", b" waits"),
        Phase::Idle => (b"idle", b" is queued and does not wait"),
        Phase::Reserved => (b"reserved", b" has the reservation"),
        Phase::Holds => (b"holds", b" holds the lock"),
    }
}

/// Whether the bar goes on beyond the last step that is drawn.
fn is_cut(range: &ShownRange, bar: &Bar) -> bool {
    range.goes_on && range.steps.len() < bar.end
}

/// Appends where a bar begins.
fn put_bar_start(out: &mut Vec<u8>, range: &ShownRange, bar: &Bar) -> Result<(), AllocError> {
    if bar.first == 0 {
        put(out, b", from before")?;
    } else {
        put(out, b", from")?;
    }
    if let Some(step) = range.steps.get(bar.first.saturating_sub(1)) {
        put(out, b" step ")?;
        put_number(out, step.index)?;
    }
    Ok(())
}

/// Appends where a bar ends: at a step, beyond the last one, or nowhere.
fn put_bar_end(out: &mut Vec<u8>, range: &ShownRange, bar: &Bar) -> Result<(), AllocError> {
    let number = bar.end.saturating_sub(1);
    match (range.steps.get(number), range.steps.last()) {
        (Some(step), _) => {
            put(out, b" to step ")?;
            put_number(out, step.index)
        }
        (None, Some(last)) if range.goes_on => {
            put(out, b" to beyond step ")?;
            put_number(out, last.index)
        }
        _ => put(out, b" on"),
    }
}

/// Appends what the bar says in words.
fn put_bar_words(
    out: &mut Vec<u8>,
    layout: &Lanes,
    range: &ShownRange,
    bar: &Bar,
) -> Result<(), AllocError> {
    if let Some(lane) = layout.lanes.get(bar.lane) {
        put_name(out, *lane)?;
    }
    let (_, words) = phase_words(bar.phase);
    put(out, words)?;
    put_bar_start(out, range, bar)?;
    put_bar_end(out, range, bar)
}

/// Appends the torn ends of a bar that fills this area, where it goes on beyond the picture.
fn put_torn_ends(
    out: &mut Vec<u8>,
    range: &ShownRange,
    bar: &Bar,
    area: Area,
) -> Result<(), AllocError> {
    if bar.first == 0 {
        put_torn_end(out, area.x.saturating_sub(2), area.y)?;
    }
    if is_cut(range, bar) {
        let right = area.x.saturating_add(area.width);
        put_torn_end(out, right.saturating_sub(2), area.y)?;
    }
    Ok(())
}

/// Appends a bar.
fn put_bar(
    out: &mut Vec<u8>,
    grid: Grid,
    layout: &Lanes,
    range: &ShownRange,
    bar: &Bar,
) -> Result<(), AllocError> {
    let (class, _) = phase_words(bar.phase);
    let x = grid.bar_start(bar.first as u64);
    let area = Area {
        x,
        y: grid.middle(bar.lane as u64).saturating_sub(BAR / 2),
        width: grid.bar_end(bar.end as u64).saturating_sub(x),
        height: BAR,
    };
    start_titled_rect(out, class, area)?;
    put_bar_words(out, layout, range, bar)?;
    end_titled_rect(out)?;
    put_torn_ends(out, range, bar, area)
}

/// Appends the line of an arrow. It leads from the marker of the call to the edge of the bar whose wait the call ended.
fn put_arrow(out: &mut Vec<u8>, grid: Grid, class: &[u8], arrow: &Arrow) -> Result<(), AllocError> {
    let from = grid.middle(arrow.from as u64);
    let to = grid.middle(arrow.to as u64);
    let tip = if from < to {
        to.saturating_sub(BAR / 2)
    } else {
        to.saturating_add(BAR / 2)
    };
    put_vertical(out, class, grid.x(arrow.step as u64), from, tip)
}

/// Appends the arrows. White lines behind all of them set them off from the bars.
fn put_arrows(out: &mut Vec<u8>, grid: Grid, arrows: &[Arrow]) -> Result<(), AllocError> {
    for arrow in arrows {
        put_arrow(out, grid, b"halo", arrow)?;
    }
    for arrow in arrows {
        put_arrow(out, grid, b"arrow", arrow)?;
    }
    Ok(())
}

/// The letter of a call.
fn letter(call: Call) -> &'static [u8] {
    match call {
        Call::Visit {
            access: Access::Read,
            ..
        } => b"r",
        Call::Visit {
            access: Access::Write,
            ..
        } => b"w",
        Call::Acquire { .. } => b"A",
        Call::Update { .. } => b"U",
        Call::Finish { .. } => b"F",
        Call::Leave { .. } => b"L",
        Call::Look { .. } => b"?",
    }
}

/// The class of the marker of a step: another one if the key's state after it is the one before it.
fn marker_class(step: &DrawnStep) -> &'static [u8] {
    if step.changes_nothing {
        b"marker none"
    } else {
        b"marker"
    }
}

/// Appends the marker of a call, in the caller's lane.
fn put_call_marker(
    out: &mut Vec<u8>,
    grid: Grid,
    layout: &Lanes,
    number: u64,
    step: &DrawnStep,
) -> Result<(), AllocError> {
    let Some(index) = index_of(&layout.lanes, lane_of(step.call)) else {
        return Ok(());
    };
    put(out, b"<g><title>")?;
    put_step_words(out, step)?;
    put(out, b"</title>\n")?;
    put_marker(
        out,
        marker_class(step),
        grid.x(number),
        grid.middle(index as u64),
        letter(step.call),
    )?;
    put(out, b"</g>\n")
}

/// Appends the lanes and the columns of the steps.
fn put_background(
    out: &mut Vec<u8>,
    grid: Grid,
    layout: &Lanes,
    steps: &[DrawnStep],
) -> Result<(), AllocError> {
    put_lanes(out, grid, layout.lanes.len() as u64)?;
    let mut number = 1u64;
    for step in steps {
        put_step_column(out, grid, number, step)?;
        number = number.saturating_add(1);
    }
    Ok(())
}

/// Appends the numbers of the steps, over the arrows.
fn put_numbers(out: &mut Vec<u8>, grid: Grid, steps: &[DrawnStep]) -> Result<(), AllocError> {
    let mut number = 1u64;
    for step in steps {
        put_step_numbers(out, grid, grid.x(number), step.index)?;
        number = number.saturating_add(1);
    }
    Ok(())
}

/// Appends the bars, the arrows and the markers.
fn put_foreground(
    out: &mut Vec<u8>,
    grid: Grid,
    layout: &Lanes,
    range: &ShownRange,
) -> Result<(), AllocError> {
    for bar in &layout.bars {
        put_bar(out, grid, layout, range, bar)?;
    }
    put_arrows(out, grid, &layout.arrows)?;
    let mut number = 1u64;
    for step in &range.steps {
        put_call_marker(out, grid, layout, number, step)?;
        number = number.saturating_add(1);
    }
    Ok(())
}

/// Appends the picture with this layout.
pub(crate) fn put_picture(
    out: &mut Vec<u8>,
    key: &Key,
    layout: &Lanes,
    range: &ShownRange,
) -> Result<(), AllocError> {
    let owners = owners_of(*out.allocator(), &layout.lanes, range)?;
    let grid = Grid::new(layout, &owners, &range.steps);
    put_start(out, grid)?;
    put_head(out, key, range)?;
    put_background(out, grid, layout, &range.steps)?;
    put_foreground(out, grid, layout, range)?;
    put_numbers(out, grid, &range.steps)?;
    for block in 0..grid.blocks() {
        put_names(out, grid, block, &layout.lanes, &owners)?;
    }
    put_legend(out, grid)?;
    put(out, b"</svg>\n")
}

/// An SVG picture of these steps of the key, as ASCII text: the steps from left to right, and a lane for each
/// transaction and each request. A bar that began before the first step begins at the left edge, with a torn end, and so
/// ends one at the right edge that goes on beyond the last step. It fails with `TooManySteps` exactly for more than 400
/// steps, and otherwise only when an allocation fails.
pub fn picture(alloc: Global, key: &Key, range: &ShownRange) -> Result<Vec<u8>, PictureError>
    ensures too_many { (result ≡ Err PictureError.TooManySteps) ↔ (400 < length range.now.steps.items) }
{
    let layout = lanes_of(alloc, &range.before, &range.steps)?;
    let mut out = Vec::new(alloc);
    put_picture(&mut out, key, &layout, range)?;
    Ok(out)
}
