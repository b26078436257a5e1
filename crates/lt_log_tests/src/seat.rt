//! How does a test keep a pass across threads and early returns?
ghost use Rattle.std.specs.Prelude.{◌≡◌, Some, IfSome};

use lt_words::Pass;

/// A pass that can be dropped: the pass is then given up.
pub struct DropPass {
    pub pass: Pass,
}

impl Drop for DropPass {
    fn drop(self) {
        let DropPass { pass } = self;
        pass.abandon();
    }
}

impl DropPass {
    /// The pass, wrapped, if there is one.
    pub fn of(pass: Option<Pass>) -> Option<DropPass>
        ensures { IfSome result (λ seat. pass ≡ Some seat.pass) }
    {
        match pass {
            Some(pass) => Some(DropPass { pass }),
            None => None,
        }
    }
}
