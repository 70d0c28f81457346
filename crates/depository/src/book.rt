ghost use Rattle.std.specs.Prelude.{◌≡◌, List, length};
ghost use Rattle.depository.specs.Accounts.{Within};
ghost use Rattle.depository.specs.Calls.{balances_answer};
ghost use Rattle.depository.specs.declared.account.Account.{Account};

use super::account::Account;
use super::fault::DepositoryFault;
use units::Participant;

/// The accounts of the 64 participants, to be read.
pub trait AccountBook {
    /// What the book means: participant 1's account, participant 2's, and so on.
    ghost accounts: { Self → List Account };

    /// The participant's account. Refuses 31.
    fn balances(&self, who: Participant) -> Result<Account, DepositoryFault>
        ensures { result ≡ balances_answer (accounts self.now) who };

    /// Everybody has an account.
    ghost everyone: { (b : Self) → length (accounts b) ≡ 64 };

    /// All participants together hold no more than the market allows.
    ghost within: { (b : Self) → Within (accounts b) };
}
