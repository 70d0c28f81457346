use super::answer::TapeAnswer;
use arrayvec::ArrayVec;
use market::{Cancellation, Deal};
use session::Session;
use table_depository::TableDepository;

/// The most bytes that a tape may have, and so the most answers that its run comes to.
pub(crate) const MOST_BYTES: usize = 4096;

/// What the run of a tape comes to: an answer for each command, and the session that it leaves, closed.
#[derive(Drop)]
pub struct Played {
    // as many as a tape may have bytes: memory of a fixed size, in the value itself
    pub(crate) answers: ArrayVec<TapeAnswer, MOST_BYTES>,
    pub(crate) session: Session<TableDepository>,
}

impl Played {
    ghost use Rattle.std.specs.Prelude.{◌≡◌};
    ghost use Rattle.tape.specs.Results.{answers_in, deals_in, cancellations_in};

    /// The answers, in the order of the commands.
    pub fn answers(&self) -> &[TapeAnswer]
        ensures { result.now ≡ answers_in self.now }
    {
        self.answers.as_slice()
    }

    /// The deal list.
    pub fn deals(&self) -> &[Deal]
        ensures { result.now ≡ deals_in self.now }
    {
        self.session.deals()
    }

    /// The cancellation list.
    pub fn cancellations(&self) -> &[Cancellation]
        ensures { result.now ≡ cancellations_in self.now }
    {
        self.session.cancellations()
    }
}
