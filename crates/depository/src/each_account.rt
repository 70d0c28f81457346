ghost use Rattle.std.specs.Prelude.{◌≡◌, ◌≤◌, true, drop};
ghost use Rattle.std.specs.Iterator.{YieldsFirst, item_count};
ghost use Rattle.units.specs.Ranges.{is_participant};
ghost use Rattle.depository.specs.Accounts.{of};

use super::account::Account;
use super::book::AccountBook;
use units::Participant;

/// The accounts of all participants, participant 1's first.
#[derive(Drop)]
pub struct EachAccount<'a, B: AccountBook> {
    book: &'a B,
    passed: u16,
    ghost few: { passed ≤ 64 },
}

impl<'a, B: AccountBook> EachAccount<'a, B> {
    pub fn of(book: &'a B) -> EachAccount<'a, B>
        ensures { drop result.passed (B.AccountBook.accounts result.book.now) ≡ B.AccountBook.accounts book.now }
    {
        EachAccount { book, passed: 0 }
    }
}

impl<'a, B: AccountBook> Iterator for EachAccount<'a, B> {
    type Item = Account;

    ghost next_gives = { YieldsFirst (λ s. drop s.passed (B.AccountBook.accounts s.book.now)) };

    ghost remaining = { item_count (λ s. drop s.passed (B.AccountBook.accounts s.book.now)) };

    fn next(&mut self) -> Option<Account> {
        if self.passed >= Participant::LAST {
            return None;
        }
        let account = account_of(self.book, Participant(self.passed + 1));
        self.passed += 1;
        Some(account)
    }
}

/// The account of a participant that there is. Nobody else's is asked for: a book sees what it is asked.
fn account_of<B: AccountBook>(book: &B, who: Participant) -> Account
    requires { is_participant who ≡ true }
    ensures { result ≡ of (B.AccountBook.accounts book.now) who }
{
    book.balances(who).unwrap()
}
