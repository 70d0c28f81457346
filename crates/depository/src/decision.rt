ghost use Rattle.std.specs.Prelude.{◌≡◌, true, IfOk, Ok, OnOk};
ghost use Rattle.units.specs.Ranges.{is_participant};
ghost use Rattle.depository.specs.Accounts.{changed, Within};
ghost use Rattle.depository.specs.Calls.{balances_answer};
ghost use Rattle.depository.specs.Changes.{room_answer, decided};

use super::account::Account;
use super::book::AccountBook;
use super::change::Change;
use super::fault::DepositoryFault;
use super::figures::after;
use super::held::held_in_all;
use units::Participant;

/// What a change makes of the participant's account, or the refusal: all that a store has to ask before it writes.
/// With the answer in its place, the totals stay within their bounds.
pub fn decide<B: AccountBook>(
    book: &B,
    who: Participant,
    change: Change,
) -> Result<Account, DepositoryFault>
    ensures answer { result ≡ decided (B.AccountBook.accounts book.now) who change }
    ensures known { OnOk result (is_participant who ≡ true) }
    ensures bounded { IfOk result (λ new. Within (changed (B.AccountBook.accounts book.now) who (λ _. new))) }
{
    let account = book.balances(who)?;
    has_room(book, change)?;
    fitting(book, who, change, account)
}

/// The participant's account after a change for which there is room in all: then there is room in the account.
fn fitting<B: AccountBook>(
    book: &B,
    who: Participant,
    change: Change,
    account: Account,
) -> Result<Account, DepositoryFault>
    requires there { Ok account ≡ balances_answer (B.AccountBook.accounts book.now) who }
    requires room { Ok tt ≡ room_answer (B.AccountBook.accounts book.now) change }
    ensures answer { result ≡ decided (B.AccountBook.accounts book.now) who change }
    ensures known { OnOk result (is_participant who ≡ true) }
    ensures bounded { IfOk result (λ new. Within (changed (B.AccountBook.accounts book.now) who (λ _. new))) }
{
    after(account, change)
}

/// Refuses what would come in past the total that all may hold.
fn has_room<B: AccountBook>(book: &B, change: Change) -> Result<(), DepositoryFault>
    ensures { result ≡ room_answer (B.AccountBook.accounts book.now) change }
{
    match change {
        Change::Gain(what) => held_in_all(book).room_for(what),
        _ => Ok(()),
    }
}
