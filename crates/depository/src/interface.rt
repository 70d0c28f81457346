ghost use Rattle.std.specs.Prelude.{◌≡◌};
ghost use Rattle.depository.specs.Calls.{block_answer, block_after, release_answer, release_after, deliver_answer, deliver_after};

use super::amount::Amount;
use super::book::AccountBook;
use super::delivery::Delivery;
use super::fault::DepositoryFault;
use units::Participant;

/// Keeps what participants hold, blocks and releases it, and delivers it. A session sees this narrow interface alone:
/// these calls, and the balances of the `AccountBook` that a depository is.
///
/// Each call says what it makes of the 64 accounts and under which condition it refuses; a refused call leaves every
/// account as it was. An amount of 0 is an amount like any other.
// `who` and `what` stay two values: a struct of the two would say no more than they do.
pub trait Depository: AccountBook {
    /// Moves an amount from free to blocked. Refuses 31, 32.
    fn block(&mut self, who: Participant, what: Amount) -> Result<(), DepositoryFault>
        ensures answer { result ≡ block_answer (Self.AccountBook.accounts self.old) who what }
        ensures after { Self.AccountBook.accounts self.new ≡ block_after (Self.AccountBook.accounts self.old) who what };

    /// Moves an amount from blocked to free. Refuses 31, 33.
    fn release(&mut self, who: Participant, what: Amount) -> Result<(), DepositoryFault>
        ensures answer { result ≡ release_answer (Self.AccountBook.accounts self.old) who what }
        ensures after { Self.AccountBook.accounts self.new ≡ release_after (Self.AccountBook.accounts self.old) who what };

    /// Moves lots from the seller's blocked to the buyer's free, and money from the buyer's blocked to the seller's
    /// free. Both may be one participant. Refuses 31, 33.
    fn deliver(&mut self, delivery: Delivery) -> Result<(), DepositoryFault>
        ensures answer { result ≡ deliver_answer (Self.AccountBook.accounts self.old) delivery.seller delivery.buyer delivery.lots delivery.money }
        ensures after { Self.AccountBook.accounts self.new ≡ deliver_after (Self.AccountBook.accounts self.old) delivery.seller delivery.buyer delivery.lots delivery.money };
}
