ghost use Rattle.std.specs.Prelude.{◌≡◌, ◌+◌, Ok, Some, None, cond, nat_le};
ghost use Rattle.units.specs.Answers.{check};
ghost use Rattle.depository.specs.Accounts.{in_all, lots_held, money_held};
ghost use Rattle.depository.specs.Amounts.{size, most_of, part_of, more, less};
ghost use Rattle.depository.specs.declared.fault.DepositoryFault.TheVariants.{PastTotal as TooMuch};

use super::amount::Amount;
use super::book::AccountBook;
use super::each_account::EachAccount;
use super::fault::DepositoryFault;
use units::{Lots, Money};

/// So many lots and so much money.
#[derive(Clone, Copy, PartialEq, Eq, Default)]
pub struct Holdings {
    pub lots: Lots,
    pub money: Money,
}

impl Holdings {
    /// Refuses an amount that would take the holdings of its kind past what all participants together may hold.
    pub fn room_for(self, what: Amount) -> Result<(), DepositoryFault>
        ensures { result ≡ check (nat_le (part_of what self + size what) (most_of what)) TooMuch (Ok tt) }
    {
        if self.part(what).saturating_add(what.size()) <= what.most() {
            Ok(())
        } else {
            Err(DepositoryFault::PastTotal)
        }
    }

    /// So much more, where there is room for it.
    pub(crate) fn plus(self, what: Amount) -> Result<Holdings, DepositoryFault>
        ensures { result ≡ check (nat_le (part_of what self + size what) (most_of what)) TooMuch (Ok (more what self)) }
    {
        self.room_for(what)?;
        let mut new = self;
        match what {
            Amount::Lots(n) => new.lots.0 += n.0,
            Amount::Money(n) => new.money.0 += n.0,
        }
        Ok(new)
    }

    /// So much less, where there is so much.
    pub(crate) fn minus(self, what: Amount) -> Option<Holdings>
        ensures { result ≡ cond (nat_le (size what) (part_of what self)) (Some (less what self)) None }
    {
        let mut new = self;
        match what {
            Amount::Lots(n) => new.lots.0 = self.lots.0.checked_sub(n.0)?,
            Amount::Money(n) => new.money.0 = self.money.0.checked_sub(n.0)?,
        }
        Some(new)
    }

    /// What there is of the amount's kind.
    fn part(self, what: Amount) -> u128
        ensures { result ≡ part_of what self }
    {
        match what {
            Amount::Lots(_) => u128::from(self.lots.0),
            Amount::Money(_) => self.money.0,
        }
    }
}

/// What all participants together hold, free and blocked.
pub fn held_in_all<B: AccountBook>(book: &B) -> Holdings
    ensures lots { result.lots.0 ≡ in_all lots_held (B.AccountBook.accounts book.now) }
    ensures money { result.money.0 ≡ in_all money_held (B.AccountBook.accounts book.now) }
{
    let mut held = Holdings::default();
    for account in EachAccount::of(book) {
        held.lots.0 += account.free_lots.0 + account.blocked_lots.0;
        held.money.0 += account.free_money.0 + account.blocked_money.0;
    }
    held
}
