ghost use Rattle.std.specs.Prelude.{◌≡◌};
ghost use Rattle.depository.specs.Changes.{after_answer};

use super::account::Account;
use super::change::Change;
use super::fault::DepositoryFault;

/// The account after the change. No figure may pass what all participants together may hold of its kind.
pub fn after(account: Account, change: Change) -> Result<Account, DepositoryFault>
    ensures { result ≡ after_answer change account }
{
    let free = account.free();
    let blocked = account.blocked();
    match change {
        Change::Block(what) => {
            let left = free.minus(what).ok_or(DepositoryFault::FreeTooSmall)?;
            Ok(Account::of(left, blocked.plus(what)?))
        }
        Change::Release(what) => {
            let left = blocked.minus(what).ok_or(DepositoryFault::BlockedTooSmall)?;
            Ok(Account::of(free.plus(what)?, left))
        }
        Change::Gain(what) => Ok(Account::of(free.plus(what)?, blocked)),
        Change::Lose(what) => {
            let left = free.minus(what).ok_or(DepositoryFault::FreeTooSmall)?;
            Ok(Account::of(left, blocked))
        }
        Change::Surrender(what) => {
            let left = blocked.minus(what).ok_or(DepositoryFault::BlockedTooSmall)?;
            Ok(Account::of(free, left))
        }
    }
}
