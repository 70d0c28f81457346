ghost use Rattle.std.specs.Prelude.{◌≡◌};
ghost use Rattle.depository.specs.Refusals.{code_of};

use units::RefusalCode;

/// Why a depository refuses.
#[derive(Clone, Copy, Debug, PartialEq, Eq)]
pub enum DepositoryFault {
    /// 31: the participant's number is not one of 1 to 64.
    NoParticipant,
    /// 32: less is free than the call needs.
    FreeTooSmall,
    /// 33: less is blocked than the call needs.
    BlockedTooSmall,
    /// 34: all participants together would hold more than they may.
    PastTotal,
}

/// What the refusal is known by outside.
// Each layer has a table of its own: the numbers are all that these impls say.
impl From<DepositoryFault> for RefusalCode {
    ghost from_gives = { λ fault code. code ≡ code_of fault };

    fn from(fault: DepositoryFault) -> RefusalCode {
        let number = match fault {
            DepositoryFault::NoParticipant => 31,
            DepositoryFault::FreeTooSmall => 32,
            DepositoryFault::BlockedTooSmall => 33,
            DepositoryFault::PastTotal => 34,
        };
        RefusalCode { layer: 3, number }
    }
}
