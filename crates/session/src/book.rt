ghost use Rattle.std.specs.Prelude.{◌≡◌, ◌+◌, ◌*◌, ◌<◌, ◌≤◌, [], ◌∷◌, ◌++◌, length, Some as Found, ◌==◌, ◌&&◌};
ghost use Rattle.units.specs.declared.side.Side.TheVariants.{Sell as Selling, Buy as Buying};
ghost use Rattle.arrayvec.specs.ArrayVec.{array_vec_len};
ghost use Rattle.std.specs.List.{list_any};
ghost use Rattle.market.specs.Orders.{number_of, lots_in};
ghost use Rattle.market.specs.Calls.{joined_by, cancellation_of};
ghost use Rattle.session.specs.Lists.{first_with, without_first};

use super::queue::{Queue, entry_in, put_in, take_out};
use arrayvec::ArrayVec;
use market::{Cancellation, Deal, Order, OrderNumber, Resting};
use pricing::Waiting;
use units::{Lots, Participant, Side};

/// What a session has written down: order records, the two queues, deals and cancellations. None of the lists can overflow:
/// an order waits, or was cancelled, at most once, and every deal uses up one of two ends.
#[derive(Drop)]
pub(crate) struct Book {
    pub(crate) orders: ArrayVec<Order, 512>,
    pub(crate) sells: Queue,
    pub(crate) buys: Queue,
    pub(crate) deals: ArrayVec<Deal, 1024>,
    pub(crate) cancellations: ArrayVec<Cancellation, 512>,
    ghost few: { array_vec_len orders ≤ 512 },
    ghost cancelled_once: { array_vec_len cancellations + (length sells + length buys) ≤ array_vec_len orders },
    ghost dealt_out: { array_vec_len deals + (length sells + length buys) ≤ 2 * array_vec_len orders },
    ghost lots_bounded: { lots_in sells + lots_in buys ≤ 1000000 * array_vec_len orders },
}

impl Book {
    ghost use Rattle.session.specs.States.{queue_in};

    /// A book with nothing in it.
    pub(crate) fn new() -> Book
        ensures orders { result.orders.items ≡ [] }
        ensures sells { result.sells ≡ [] }
        ensures buys { result.buys ≡ [] }
        ensures deals { result.deals.items ≡ [] }
        ensures cancellations { result.cancellations.items ≡ [] }
    {
        Book {
            orders: ArrayVec::new(),
            sells: Queue::new(),
            buys: Queue::new(),
            deals: ArrayVec::new(),
            cancellations: ArrayVec::new(),
        }
    }

    /// Records an order, all of which waits.
    // That an order is no larger (`sized`) is a fact of what `admit` checked: a type for it would be `Lots` once more.
    pub(crate) fn enter(&mut self, order: Order)
        requires room { array_vec_len self.old.orders < 512 }
        requires sized { order.accepted.0 ≤ 1000000 }
        ensures orders { self.new.orders.items ≡ self.old.orders.items ++ (order ∷ []) }
        ensures sells { self.new.sells ≡ joined_by Selling order.side (record { order = order; lots = order.accepted }) self.old.sells }
        ensures buys { self.new.buys ≡ joined_by Buying order.side (record { order = order; lots = order.accepted }) self.old.buys }
        ensures deals { self.new.deals ≡ self.old.deals }
        ensures cancellations { self.new.cancellations ≡ self.old.cancellations }
    {
        self.orders.push(order);
        let entry = Resting::whole(order);
        match order.side {
            Side::Sell => put_in(&mut self.sells, entry),
            Side::Buy => put_in(&mut self.buys, entry),
        }
    }

    /// Whether an order of this participant has the number.
    pub(crate) fn is_own(&self, who: Participant, number: OrderNumber) -> bool
        ensures { result ≡ list_any (λ o. (o.number.0 == number.0) && o.participant.0 == who.0) self.now.orders.items }
    {
        self.orders
            .as_slice()
            .iter()
            .any(|order| order.number == number && order.participant == who)
    }

    /// A side's orders that wait, in queue order.
    pub(crate) fn queue(&self, side: Side) -> &[Resting]
        ensures { result.now ≡ queue_in side self.now }
    {
        match side {
            Side::Sell => self.sells.as_slice(),
            Side::Buy => self.buys.as_slice(),
        }
    }

    /// The two queues.
    pub(crate) fn queues(&self) -> Waiting<'_>
        ensures sells { result.sells.now ≡ self.now.sells }
        ensures buys { result.buys.now ≡ self.now.buys }
    {
        Waiting {
            sells: self.sells.as_slice(),
            buys: self.buys.as_slice(),
        }
    }

    /// What waits of an order, if anything does.
    pub(crate) fn entry_of(&self, number: OrderNumber) -> Option<Resting>
        ensures { result ≡ first_with number.0 (self.now.sells ++ self.now.buys) }
    {
        entry_in(self.sells.as_slice(), number).or_else(|| entry_in(self.buys.as_slice(), number))
    }

    /// All lots that wait.
    pub(crate) fn waiting_lots(&self) -> Lots
        ensures { result.0 ≡ lots_in (self.now.sells ++ self.now.buys) }
    {
        let sells = pricing::lots_in(self.sells.as_slice());
        let buys = pricing::lots_in(self.buys.as_slice());
        Lots(sells.0 + buys.0)
    }

    /// Takes a waiting order out of its queue and notes the cancellation.
    pub(crate) fn cancel(&mut self, entry: Resting)
        requires { first_with (number_of entry) (self.old.sells ++ self.old.buys) ≡ Found entry }
        ensures orders { self.new.orders ≡ self.old.orders }
        ensures sells { self.new.sells ≡ without_first (number_of entry) self.old.sells }
        ensures buys { self.new.buys ≡ without_first (number_of entry) self.old.buys }
        ensures deals { self.new.deals ≡ self.old.deals }
        ensures cancellations { self.new.cancellations.items ≡ self.old.cancellations.items ++ (cancellation_of entry ∷ []) }
    {
        let number = entry.order.number;
        take_out(&mut self.sells, number);
        take_out(&mut self.buys, number);
        self.note(entry);
    }

    /// Notes what was annulled of an order.
    pub(crate) fn note(&mut self, entry: Resting)
        requires { array_vec_len self.old.cancellations + (length self.old.sells + length self.old.buys) < array_vec_len self.old.orders }
        ensures orders { self.new.orders ≡ self.old.orders }
        ensures sells { self.new.sells ≡ self.old.sells }
        ensures buys { self.new.buys ≡ self.old.buys }
        ensures deals { self.new.deals ≡ self.old.deals }
        ensures cancellations { self.new.cancellations.items ≡ self.old.cancellations.items ++ (cancellation_of entry ∷ []) }
    {
        self.cancellations.push(Cancellation::from(entry));
    }

    /// Empties both queues.
    pub(crate) fn empty_queues(&mut self)
        ensures orders { self.new.orders ≡ self.old.orders }
        ensures sells { self.new.sells ≡ [] }
        ensures buys { self.new.buys ≡ [] }
        ensures deals { self.new.deals ≡ self.old.deals }
        ensures cancellations { self.new.cancellations ≡ self.old.cancellations }
    {
        self.sells.clear();
        self.buys.clear();
    }
}
