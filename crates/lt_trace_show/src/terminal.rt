//! How wide is a table on standard output, and is it coloured? [`Terminal::chosen_width`] and [`Terminal::has_colours`]
//! decide, from what the user asks for and from what the program knows of its standard output.
ghost use Rattle.lt_trace_show.specs.declared.terminal.ColourChoice.TheVariants.{Always, Never, Auto};

/// The width of a table that goes to a file or a pipe.
const FILE_WIDTH: u16 = 120;

/// The width of a terminal that tells none.
const TERMINAL_WIDTH: u16 = 80;

/// What a program knows of its standard output.
#[derive(Clone, Copy)]
pub struct Terminal {
    /// Whether standard output is a terminal.
    pub is_terminal: bool,
    /// The width that the environment gives.
    pub columns: Option<u16>,
    /// Whether the environment asks for no colours.
    pub no_colour: bool,
}

/// When a table has colours.
#[derive(Clone, Copy)]
pub enum ColourChoice {
    Always,
    Never,
    /// On a terminal, unless the environment asks for none.
    Auto,
}

impl Terminal {
    ghost use Rattle.std.specs.Prelude.{◌≡◌, ◌↔◌, IfSome, IsTrue, None, true, false};

    /// The width of a table: the one asked for; or else 120 for a file, and for a terminal its width, or 80 if that is
    /// unknown.
    pub fn chosen_width(&self, asked: Option<u16>) -> u16
        ensures asked { IfSome asked (λ width. result ≡ width) }
        ensures file { asked ≡ None → self.now.is_terminal ≡ false → result ≡ 120 }
        ensures columns { asked ≡ None → self.now.is_terminal ≡ true → IfSome self.now.columns (λ width. result ≡ width) }
        ensures unknown { asked ≡ None → self.now.is_terminal ≡ true → self.now.columns ≡ None → result ≡ 80 }
    {
        if let Some(width) = asked {
            return width;
        }
        if !self.is_terminal {
            return FILE_WIDTH;
        }
        match self.columns {
            Some(width) => width,
            None => TERMINAL_WIDTH,
        }
    }

    /// Whether a table has colours.
    pub fn has_colours(&self, choice: ColourChoice) -> bool
        ensures always { choice ≡ Always → result ≡ true }
        ensures never { choice ≡ Never → result ≡ false }
        ensures auto { choice ≡ Auto →
            (IsTrue result ↔ ((self.now.is_terminal ≡ true) × (self.now.no_colour ≡ false))) }
    {
        match choice {
            ColourChoice::Always => true,
            ColourChoice::Never => false,
            ColourChoice::Auto => self.is_terminal && !self.no_colour,
        }
    }
}
