//! A call of the rules, with the pass that makes it.
ghost use Rattle.std.specs.Prelude.{◌≡◌, ◌≤◌};
ghost use Rattle.lt_ids.specs.declared.limits.TheConstants.{MAX_PASS};

use lt_rules::Call;

/// A call of the rules, and the pass that makes it.
#[derive(Clone, Copy)]
pub struct PassCall {
    pub pass: u32,
    pub call: Call,
    pub ghost pass_in_range: { (1 ≤ pass) × (pass ≤ MAX_PASS) },
}

impl PassCall {
    /// A call that is no visit. The rules do not ask which pass makes it.
    pub fn of(call: Call) -> PassCall
        ensures call { result.call ≡ call }
        ensures pass { result.pass ≡ 1 }
    {
        PassCall { pass: 1, call }
    }
}
