ghost use Rattle.std.specs.Prelude.{◌≡◌, ◌-◌, true, List};
ghost use Rattle.units.specs.Ranges.{is_participant};
ghost use Rattle.depository.specs.declared.account.Account.{Account};

use super::table::TableDepository;
use depository::{Account, AccountBook, AccountStore, Change, DepositoryFault, decide};
use units::Participant;

impl AccountBook for TableDepository {
    ghost accounts = { λ t. t.accounts };

    ghost everyone = { λ t. t.everyone };

    ghost within = { λ t. t.within };

    // The test stands in both stores, as the decision in `apply` does, before one write into memory of its own: in one place
    // it would need a second method, with a precondition.
    fn balances(&self, who: Participant) -> Result<Account, DepositoryFault> {
        if who.is_known() {
            Ok(self.accounts[place(who)])
        } else {
            Err(DepositoryFault::NoParticipant)
        }
    }
}

impl AccountStore for TableDepository {
    fn apply(&mut self, who: Participant, change: Change) -> Result<(), DepositoryFault> {
        let account = decide(self, who, change)?;
        self.accounts[place(who)] = account;
        Ok(())
    }
}

/// Where the account of a participant stands.
// That the participant is known follows from the caller's test: a checked participant, a type of its own, would be asked of
// the trait's callers, or tested a second time.
fn place(who: Participant) -> usize
    requires { is_participant who ≡ true }
    ensures { result ≡ who.0 - 1 }
{
    usize::from(who.0 - Participant::FIRST)
}
