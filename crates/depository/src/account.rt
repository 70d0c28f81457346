ghost use Rattle.std.specs.Prelude.{◌≡◌};
ghost use Rattle.depository.specs.Accounts.{account, is_empty};

use super::held::Holdings;
use units::{Lots, Money};

/// What one participant holds. Blocked amounts cover waiting orders; free ones are at the participant's hand.
// Four figures, and not two `Holdings`: the market's rules and the contracts of all layers above name each figure.
#[derive(Clone, Copy, PartialEq, Eq, Default)]
pub struct Account {
    pub free_lots: Lots,
    pub blocked_lots: Lots,
    pub free_money: Money,
    pub blocked_money: Money,
}

impl Account {
    pub const EMPTY: Account = Account {
        free_lots: Lots(0),
        blocked_lots: Lots(0),
        free_money: Money(0),
        blocked_money: Money(0),
    };

    /// Whether all four amounts are 0.
    pub fn is_empty(self) -> bool
        ensures { result ≡ is_empty self }
    {
        self == Account::EMPTY
    }

    pub(crate) fn of(free: Holdings, blocked: Holdings) -> Account
        ensures { result ≡ account free.lots.0 blocked.lots.0 free.money.0 blocked.money.0 }
    {
        Account {
            free_lots: free.lots,
            blocked_lots: blocked.lots,
            free_money: free.money,
            blocked_money: blocked.money,
        }
    }

    pub(crate) fn free(self) -> Holdings
        ensures lots { result.lots ≡ self.free_lots }
        ensures money { result.money ≡ self.free_money }
    {
        Holdings {
            lots: self.free_lots,
            money: self.free_money,
        }
    }

    pub(crate) fn blocked(self) -> Holdings
        ensures lots { result.lots ≡ self.blocked_lots }
        ensures money { result.money ≡ self.blocked_money }
    {
        Holdings {
            lots: self.blocked_lots,
            money: self.blocked_money,
        }
    }
}
