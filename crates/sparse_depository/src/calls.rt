ghost use Rattle.std.specs.Prelude.{◌≡◌, true, take};
ghost use Rattle.units.specs.Ranges.{is_participant};
ghost use Rattle.depository.specs.Accounts.{of, changed, Within};
ghost use Rattle.depository.specs.declared.account.Account.{Account};
ghost use Rattle.sparse_depository.specs.Book.{accounts_in};
ghost use Rattle.sparse_depository.specs.EntriesLemmas.{length_accounts};

use super::exchange::{account_in, exchange};
use super::sparse::SparseDepository;
use depository::{Account, AccountBook, AccountStore, Change, DepositoryFault, decide};
use ordered_list::OrderedList;
use units::Participant;

impl AccountBook for SparseDepository {
    ghost accounts = { accounts_in };

    ghost everyone = { λ s. length_accounts (take s.count s.entries) };

    ghost within = { λ s. s.within };

    // The test stands in both stores, as the decision in `apply` does, before one write into memory of its own: in one place
    // it would need a second method, with a precondition.
    fn balances(&self, who: Participant) -> Result<Account, DepositoryFault> {
        if who.is_known() {
            Ok(self.account(who))
        } else {
            Err(DepositoryFault::NoParticipant)
        }
    }
}

// That the participant is known follows from the caller's test: a checked participant, a type of its own, would be asked of
// the trait's callers, or tested a second time.
impl SparseDepository {
    #[tactic(auto, using(crate::specs::EntriesLemmas::of_accounts))]
    fn account(&self, who: Participant) -> Account
        requires { is_participant who ≡ true }
        ensures { result ≡ of (accounts_in self.now) who }
    {
        account_in(&self.entries[..self.count], who)
    }

    fn keep(&mut self, who: Participant, account: Account)
        requires known { is_participant who ≡ true }
        requires bounded { Within (changed (accounts_in self.old) who (λ _. account)) }
        ensures { accounts_in self.new ≡ changed (accounts_in self.old) who (λ _. account) }
    {
        let mut list = OrderedList::over(&mut self.entries, self.count);
        exchange(&mut list, who, account);
        self.count = list.done();
    }
}

impl AccountStore for SparseDepository {
    fn apply(&mut self, who: Participant, change: Change) -> Result<(), DepositoryFault> {
        let account = decide(self, who, change)?;
        self.keep(who, account);
        Ok(())
    }
}
