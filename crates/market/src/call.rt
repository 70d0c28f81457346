use super::fault::SessionFault;
use super::order::{NewOrder, OrderNumber};
use units::{Lots, Participant, Price};

/// A call of a session, as data.
#[derive(Clone, Copy, Debug, PartialEq, Eq)]
pub enum Call {
    Submit(NewOrder),
    Withdraw {
        participant: Participant,
        order: OrderNumber,
    },
    Strike,
    Annul,
    Close,
}

/// What an accepted call answers.
#[derive(Clone, Copy, Debug, PartialEq, Eq)]
pub enum Outcome {
    /// An order was accepted under this number, for these lots.
    Accepted { order: OrderNumber, lots: Lots },
    /// These lots of the order were annulled.
    Withdrawn { order: OrderNumber, lots: Lots },
    /// The iteration was struck at this cut-off.
    CutOff(Price),
    /// The iteration was abandoned: no waiting sell meets a waiting buy.
    Abandoned,
    /// All waiting orders were annulled: these lots together.
    Annulled(Lots),
}

/// The answer to a call.
pub type Answer = Result<Outcome, SessionFault>;
