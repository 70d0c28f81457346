ghost use Rattle.std.specs.Prelude.{◌≡◌};
ghost use Rattle.command.specs.Refusals.{code_of};
ghost use Rattle.command.specs.declared.fault.TapeFault.TheVariants.{NoSuchRule as NoRule, Session as OfSession, Depository as OfDepository};

use super::rule::UnknownRule;
use depository::DepositoryFault;
use market::SessionFault;
use units::RefusalCode;

/// Why a command of the tape is refused.
#[derive(Clone, Copy, Debug, PartialEq, Eq)]
pub enum TapeFault {
    /// 1: the byte is no command's.
    Unknown,
    /// 2: the tape ends before the command's operands do.
    CutShort,
    /// 3: no rule has the number that a deal names.
    NoSuchRule,
    /// The session's own refusal, as it is.
    Session(SessionFault),
    /// The depository's own refusal of a pay in, as it is.
    Depository(DepositoryFault),
}

// Conversions by hand: one that a macro derives says nothing of which fault it gives.
impl From<SessionFault> for TapeFault {
    ghost from_gives = { λ fault r. r ≡ OfSession fault };

    fn from(fault: SessionFault) -> TapeFault {
        TapeFault::Session(fault)
    }
}

impl From<DepositoryFault> for TapeFault {
    ghost from_gives = { λ fault r. r ≡ OfDepository fault };

    fn from(fault: DepositoryFault) -> TapeFault {
        TapeFault::Depository(fault)
    }
}

impl From<UnknownRule> for TapeFault {
    ghost from_gives = { λ _ r. r ≡ NoRule };

    fn from(_: UnknownRule) -> TapeFault {
        TapeFault::NoSuchRule
    }
}

/// What the refusal is known by outside.
// Each layer has a table of its own numbers.
impl From<TapeFault> for RefusalCode {
    ghost from_gives = { λ fault code. code ≡ code_of fault };

    fn from(fault: TapeFault) -> RefusalCode {
        let number = match fault {
            TapeFault::Unknown => 1,
            TapeFault::CutShort => 2,
            TapeFault::NoSuchRule => 3,
            TapeFault::Session(lower) => return lower.into(),
            TapeFault::Depository(lower) => return lower.into(),
        };
        RefusalCode { layer: 1, number }
    }
}
