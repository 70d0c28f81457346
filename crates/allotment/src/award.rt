ghost use Rattle.std.specs.Prelude.{◌≡◌};
ghost use Rattle.allotment.specs.Bids.{saved_by, left_over, settle_answer, settle_after};

use super::bid::Bid;
use depository::{AccountBook, Amount, Delivery, Depository, DepositoryFault};
use units::{Lots, Money, Participant, Price};

/// A bid and its share of what is offered.
#[derive(Clone, Copy)]
pub(crate) struct Award {
    pub(crate) bid: Bid,
    pub(crate) share: Lots,
}

impl Award {
    /// What a deal at this price saves the bidder on its share; nothing where the price is not below the limit.
    pub(crate) fn saved(self, price: Price) -> Money
        ensures { result ≡ saved_by self.bid self.share price }
    {
        Price(self.bid.limit.0.saturating_sub(price.0)).times(self.share)
    }

    /// The cover of what the bid did not get.
    pub(crate) fn left_over(self) -> Money
        ensures { result ≡ left_over self.bid self.share }
    {
        let rest = self.bid.lots.0.saturating_sub(self.share.0);
        self.bid.limit.times(Lots(rest))
    }

    /// Settles the share at the price: lots against money, then the bidder gets back what it saved and the cover of
    /// what it did not get. Proved over every depository, from the contracts of its calls alone.
    pub(crate) fn settle<D: Depository>(
        self,
        depository: &mut D,
        seller: Participant,
        price: Price,
    ) -> Result<(), DepositoryFault>
        ensures answer { result ≡ settle_answer (D.AccountBook.accounts depository.old) seller self.bid self.share price }
        ensures after { D.AccountBook.accounts depository.new ≡ settle_after (D.AccountBook.accounts depository.old) seller self.bid self.share price }
    {
        let buyer = self.bid.who;
        depository.deliver(Delivery {
            seller,
            buyer,
            lots: self.share,
            money: price.times(self.share),
        })?;
        depository.release(buyer, Amount::Money(self.saved(price)))?;
        depository.release(buyer, Amount::Money(self.left_over()))
    }
}
