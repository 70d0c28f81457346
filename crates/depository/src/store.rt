ghost use Rattle.std.specs.Prelude.{◌≡◌};
ghost use Rattle.depository.specs.Changes.{change_answer, change_after};

use super::book::AccountBook;
use super::change::Change;
use super::fault::DepositoryFault;
use units::Participant;

/// A book that can be written, one account at a time. All that a depository does is made of such changes.
pub trait AccountStore: AccountBook {
    /// Changes the participant's account. Refuses 31, then 32, 33 or 34, as the change asks.
    fn apply(&mut self, who: Participant, change: Change) -> Result<(), DepositoryFault>
        ensures answer { result ≡ change_answer (Self.AccountBook.accounts self.old) who change }
        ensures after { Self.AccountBook.accounts self.new ≡ change_after (Self.AccountBook.accounts self.old) who change };
}
