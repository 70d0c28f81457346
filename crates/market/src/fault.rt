ghost use Rattle.std.specs.Prelude.{◌≡◌};
ghost use Rattle.market.specs.Refusals.{code_of};
ghost use Rattle.market.specs.declared.fault.SessionFault.TheVariants.{Depository as OfDepository};

use depository::DepositoryFault;
use units::RefusalCode;

/// Why a session refuses.
#[derive(Clone, Copy, Debug, PartialEq, Eq)]
pub enum SessionFault {
    /// 11: the participant's number is not one of 1 to 64.
    NoParticipant,
    /// 12: the limit is not one that an order may have.
    PriceOutOfRange,
    /// 13: no order may have so many lots, or so few.
    LotsOutOfRange,
    /// 14: the session has accepted all the orders that it can.
    SessionFull,
    /// 15: an own waiting order on the other side meets the limit.
    OwnOrderInTheWay,
    /// 16: no order of this participant has the number.
    NotOwnOrder,
    /// 17: nothing of the order waits.
    NothingWaits,
    /// 21: the call does not run in this phase.
    WrongPhase,
    /// 22: something is blocked in the depository that the session is to be opened over.
    SomethingBlocked,
    /// 23: the caller's slice is shorter than the summary.
    SliceTooShort,
    /// The depository's own refusal, as it is.
    Depository(DepositoryFault),
}

// The two conversions are written out: what they give stands in `from_gives`, and a derived From has no such clause.
impl From<DepositoryFault> for SessionFault {
    ghost from_gives = { λ fault r. r ≡ OfDepository fault };

    fn from(fault: DepositoryFault) -> SessionFault {
        SessionFault::Depository(fault)
    }
}

/// What the refusal is known by outside.
// Each layer has a table of its own: the numbers are all that these impls say.
impl From<SessionFault> for RefusalCode {
    ghost from_gives = { λ fault code. code ≡ code_of fault };

    fn from(fault: SessionFault) -> RefusalCode {
        let number = match fault {
            SessionFault::NoParticipant => 11,
            SessionFault::PriceOutOfRange => 12,
            SessionFault::LotsOutOfRange => 13,
            SessionFault::SessionFull => 14,
            SessionFault::OwnOrderInTheWay => 15,
            SessionFault::NotOwnOrder => 16,
            SessionFault::NothingWaits => 17,
            SessionFault::WrongPhase => 21,
            SessionFault::SomethingBlocked => 22,
            SessionFault::SliceTooShort => 23,
            SessionFault::Depository(fault) => return fault.into(),
        };
        RefusalCode { layer: 2, number }
    }
}
