ghost use Rattle.std.specs.Prelude.{◌≡◌, true, Ok, ◌&&◌};
ghost use Rattle.units.specs.Ranges.{is_participant};
ghost use Rattle.depository.specs.Accounts.{of, changed};
ghost use Rattle.depository.specs.Changes.{change_answer, changing};
ghost use Rattle.depository.specs.Amounts.{has_blocked};
ghost use Rattle.depository.specs.Calls.{handed_over, delivered, deliver_answer, deliver_after};
ghost use Rattle.depository.specs.declared.amount.Amount.TheVariants.{Lots as OfLots, Money as OfMoney};

use super::account::Account;
use super::amount::Amount;
use super::book::AccountBook;
use super::change::Change;
use super::fault::DepositoryFault;
use super::store::AccountStore;
use units::{Lots, Money, Participant};

/// Lots against money. Seller and buyer may be one participant.
#[derive(Clone, Copy, PartialEq, Eq)]
pub struct Delivery {
    pub seller: Participant,
    pub buyer: Participant,
    pub lots: Lots,
    pub money: Money,
}

impl Delivery {
    /// What `Depository::deliver` does, over any store of accounts.
    pub(crate) fn make_in<S: AccountStore>(self, store: &mut S) -> Result<(), DepositoryFault>
        ensures answer { result ≡ deliver_answer (S.AccountBook.accounts store.old) self.seller self.buyer self.lots self.money }
        ensures after { S.AccountBook.accounts store.new ≡ deliver_after (S.AccountBook.accounts store.old) self.seller self.buyer self.lots self.money }
    {
        let selling = store.balances(self.seller)?;
        let buying = store.balances(self.buyer)?;
        // both legs are looked at before either moves, so that a refusal moves neither
        if self.is_covered(selling, buying) {
            self.move_both(store);
            Ok(())
        } else {
            Err(DepositoryFault::BlockedTooSmall)
        }
    }

    /// Whether the seller's account has the lots blocked, and the buyer's the money.
    fn is_covered(self, selling: Account, buying: Account) -> bool
        ensures { result ≡ (has_blocked (OfLots self.lots) selling && has_blocked (OfMoney self.money) buying) }
    {
        self.lots <= selling.blocked_lots && self.money <= buying.blocked_money
    }

    /// Lots one way, money the other way.
    // That both are known follows from the caller's test, here and in `hand_over`: a checked participant, a type of its own,
    // would be asked of the trait's callers, or tested a second time.
    fn move_both<S: AccountStore>(self, store: &mut S)
        requires seller_known { is_participant self.seller ≡ true }
        requires buyer_known { is_participant self.buyer ≡ true }
        requires lots_there { has_blocked (OfLots self.lots) (of (S.AccountBook.accounts store.old) self.seller) ≡ true }
        requires money_there { has_blocked (OfMoney self.money) (of (S.AccountBook.accounts store.old) self.buyer) ≡ true }
        ensures { S.AccountBook.accounts store.new ≡ delivered (S.AccountBook.accounts store.old) self.seller self.buyer self.lots self.money }
    {
        hand_over(store, self.seller, self.buyer, Amount::Lots(self.lots));
        hand_over(store, self.buyer, self.seller, Amount::Money(self.money));
    }
}

/// Moves an amount from what one participant has blocked to what another, or the same, has free.
fn hand_over<S: AccountStore>(store: &mut S, giver: Participant, taker: Participant, what: Amount)
    requires giver_known { is_participant giver ≡ true }
    requires taker_known { is_participant taker ≡ true }
    requires there { has_blocked what (of (S.AccountBook.accounts store.old) giver) ≡ true }
    ensures { S.AccountBook.accounts store.new ≡ handed_over (S.AccountBook.accounts store.old) giver taker what }
{
    must(store, giver, Change::Surrender(what));
    must(store, taker, Change::Gain(what));
}

/// Makes a change that is known not to be refused.
fn must<S: AccountStore>(store: &mut S, who: Participant, change: Change)
    requires { change_answer (S.AccountBook.accounts store.old) who change ≡ Ok tt }
    ensures { S.AccountBook.accounts store.new ≡ changed (S.AccountBook.accounts store.old) who (changing change) }
{
    store.apply(who, change).unwrap();
}
