//! The session of a pass: what it has between two of its lines.
ghost use Rattle.std.specs.Prelude.{◌≡◌};
ghost use Rattle.lt_runner.specs.Sessions.{session_pass};
ghost use Rattle.lt_runner.specs.Turns.{Learns};

use lt_table_core::Guard;
use lt_words::{Front, Pass};

/// A pass between two of its lines: free, or with an open request.
pub enum Session {
    Free(Pass),
    Open(Guard),
}

impl Session {
    /// What the pass has seen, for another pass to learn.
    pub(crate) fn seen(&self) -> Front
        ensures of { result.of ≡ (session_pass self.now).of }
        ensures seen { result.seen ≡ (session_pass self.now).seen }
        ensures shown { result.shown ≡ (session_pass self.now).shown }
    {
        match self {
            Session::Free(pass) => pass.seen(),
            Session::Open(guard) => guard.seen(),
        }
    }

    /// Makes the pass learn what `front` has seen: afterwards the pass has seen that too.
    pub(crate) fn learn(&mut self, prefix: &Front)
        requires { prefix.now.of ≡ (session_pass self.old).of }
        ensures { Learns prefix.now self.old self.new }
    {
        match self {
            Session::Free(pass) => pass.learn(prefix),
            Session::Open(guard) => guard.learn(prefix),
        }
    }

    /// Abandons the pass, or the guard that holds it.
    pub fn abandon(self) {
        match self {
            Session::Free(pass) => pass.abandon(),
            Session::Open(guard) => guard.abandon(),
        }
    }
}
