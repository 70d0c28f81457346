ghost use Rattle.std.specs.Prelude.{◌≡◌, true, false};

/// What a strike hands out: it stands for an iteration that is struck and has still to end. It names no session and no
/// price. Deal and annul take it, and nothing else does: it can be kept and handed on, and not let go before it is spent.
// The flag is what the drop asks about: without a `Drop` of its own, a slip let go would be turned away by the compiler, and not
// by the prover.
pub struct StrikeSlip {
    spent: bool,
}

// to let one go asks that it is spent, which nobody can show of a slip that a strike hands out
impl Drop for StrikeSlip {
    fn drop(self)
        requires { self.spent ≡ true }
    {
        let StrikeSlip { spent: _ } = self;
    }
}

impl StrikeSlip {
    pub(crate) fn make() -> StrikeSlip
        ensures { result.spent ≡ false }
    {
        StrikeSlip { spent: false }
    }

    pub(crate) fn spend(mut self) {
        self.spent = true;
    }
}
