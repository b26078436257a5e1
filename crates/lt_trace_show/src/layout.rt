//! Which layout of a table do the words of the options ask for? [`width_of`] and [`choice_of`] read them.
//! [`layout_of`] has the [`Terminal`] decide what they leave open.
ghost use Rattle.std.specs.Prelude.{◌≤◌, IfSome};

use crate::columns::Layout;
use crate::terminal::{ColourChoice, Terminal};
use lt_text::number::number;

/// The least width of a table.
const LEAST_WIDTH: u16 = 40;

/// The width that a word spells, from 40 to 65535.
pub fn width_of(word: &str) -> Option<u16>
    ensures { IfSome result (λ width. 40 ≤ width) }
{
    match u16::try_from(number(word.as_bytes())?) {
        Ok(width) if width >= LEAST_WIDTH => Some(width),
        _ => None,
    }
}

/// The choice that a word spells.
pub fn choice_of(word: &str) -> Option<ColourChoice> {
    match word {
        "auto" => Some(ColourChoice::Auto),
        "always" => Some(ColourChoice::Always),
        "never" => Some(ColourChoice::Never),
        _ => None,
    }
}

/// The layout for this terminal, if this width and this choice were asked for.
pub fn layout_of(terminal: &Terminal, asked: Option<u16>, choice: ColourChoice) -> Option<Layout> {
    Layout::new(terminal.chosen_width(asked), terminal.has_colours(choice))
}
