ghost use Rattle.std.specs.Prelude.{◌≡◌};
ghost use Rattle.depository.specs.Calls.{pay_in_answer, pay_in_after, pay_out_answer, pay_out_after};

use super::amount::Amount;
use super::book::AccountBook;
use super::fault::DepositoryFault;
use super::interface::Depository;
use units::Participant;

/// The back office's wider interface: what comes into the depository and what leaves it.
pub trait BackOffice: Depository {
    /// Adds an amount to what the participant has free. Refuses 31, 34.
    fn pay_in(&mut self, who: Participant, what: Amount) -> Result<(), DepositoryFault>
        ensures answer { result ≡ pay_in_answer (Self.AccountBook.accounts self.old) who what }
        ensures after { Self.AccountBook.accounts self.new ≡ pay_in_after (Self.AccountBook.accounts self.old) who what };

    /// Takes an amount from what the participant has free. Refuses 31, 32.
    fn pay_out(&mut self, who: Participant, what: Amount) -> Result<(), DepositoryFault>
        ensures answer { result ≡ pay_out_answer (Self.AccountBook.accounts self.old) who what }
        ensures after { Self.AccountBook.accounts self.new ≡ pay_out_after (Self.AccountBook.accounts self.old) who what };
}
