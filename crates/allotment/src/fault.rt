ghost use Rattle.std.specs.Prelude.{◌≡◌};
ghost use Rattle.allotment.specs.declared.fault.AllotmentFault.TheVariants.{Depository as OfDepository, Sharing as OfSharing, List as OfList, Printing as OfPrinting};

use depository::DepositoryFault;
use ordered_list::ListFault;
use sharing::SharingFault;
use std::io;
use thiserror::Error;
use units::RefusalCode;

/// Why an allotment stopped: a refusal of a layer below, held whole, or a line that could not be printed.
// The conversions stand below: those that the derive could write say nothing of what they give.
#[derive(Debug, Drop, Error)]
pub(crate) enum AllotmentFault {
    #[error("refused, {}", RefusalCode::from(*.0))]
    Depository(DepositoryFault),
    #[error("refused, {}", RefusalCode::from(*.0))]
    Sharing(SharingFault),
    #[error("refused, {}", RefusalCode::from(*.0))]
    List(ListFault),
    #[error(transparent)]
    Printing(io::Error),
}

impl From<DepositoryFault> for AllotmentFault {
    ghost from_gives = { λ fault r. r ≡ OfDepository fault };

    fn from(fault: DepositoryFault) -> AllotmentFault {
        AllotmentFault::Depository(fault)
    }
}

impl From<SharingFault> for AllotmentFault {
    ghost from_gives = { λ fault r. r ≡ OfSharing fault };

    fn from(fault: SharingFault) -> AllotmentFault {
        AllotmentFault::Sharing(fault)
    }
}

impl From<ListFault> for AllotmentFault {
    ghost from_gives = { λ fault r. r ≡ OfList fault };

    fn from(fault: ListFault) -> AllotmentFault {
        AllotmentFault::List(fault)
    }
}

impl From<io::Error> for AllotmentFault {
    ghost from_gives = { λ fault r. r ≡ OfPrinting fault };

    fn from(fault: io::Error) -> AllotmentFault {
        AllotmentFault::Printing(fault)
    }
}
