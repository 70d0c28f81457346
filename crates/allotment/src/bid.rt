ghost use Rattle.std.specs.Prelude.{◌≡◌};
ghost use Rattle.units.specs.Worth.{worth};

use ordered_list::Ranked;
use units::{Lots, Money, Participant, Price};

/// A buy order of the level.
#[derive(Clone, Copy, Default)]
pub(crate) struct Bid {
    pub(crate) number: u16,
    pub(crate) who: Participant,
    pub(crate) limit: Price,
    pub(crate) lots: Lots,
}

impl Bid {
    /// The money that a bid blocks.
    pub(crate) fn cover(self) -> Money
        ensures { result ≡ worth self.limit self.lots }
    {
        self.limit.times(self.lots)
    }
}

// the higher limit goes first, and of one limit the lower number
impl Ranked for Bid {
    ghost use Rattle.allotment.specs.Bids.{queue_order};
    ghost use Rattle.allotment.specs.QueueOrderLemmas.{lawful};

    ghost after = { queue_order };

    ghost apart = { lawful.apart };

    ghost chain = { lawful.chain };

    ghost alike = { lawful.alike };

    fn ranks_after(&self, other: &Bid) -> bool {
        (other.limit, self.number) > (self.limit, other.number)
    }
}
