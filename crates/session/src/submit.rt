ghost use Rattle.std.specs.Prelude.{◌≡◌, ◌<◌, ◌≤◌, length, IfOk, Ok as Accepting, OnOk};
ghost use Rattle.market.specs.Calls.{own_in_the_way, submit_answer, submit_after};
ghost use Rattle.session.specs.Admission.{ranges_answer, admit_answer};

use super::session::Session;
use depository::Depository;
use market::{NewOrder, Order, OrderNumber, Resting, SessionFault};

impl<D: Depository> Session<D> {
    /// Takes an order: blocks its cover, gives it the next number and its record, and queues it. Refuses 21, 11, 12, 13,
    /// 14, 15, 32.
    pub fn submit(&mut self, order: NewOrder) -> Result<OrderNumber, SessionFault>
        ensures answer { result ≡ submit_answer self.old.state order.participant order.side order.limit order.lots }
        ensures after { self.new.state ≡ submit_after self.old.state order.participant order.side order.limit order.lots }
    {
        let accepted = self.admit(order)?;
        self.depository
            .block(order.participant, Resting::whole(accepted).cover())?;
        self.book.enter(accepted);
        Ok(accepted.number)
    }

    /// All checks but that of the cover. Answers the record that the order will have.
    fn admit(&self, order: NewOrder) -> Result<Order, SessionFault>
        ensures answer { result ≡ admit_answer self.now.state order.participant order.side order.limit order.lots }
        ensures room { OnOk result (length self.now.state.orders < 512) }
        ensures sized { IfOk result (λ o. o.accepted.0 ≤ 1000000) }
    {
        if !self.phase.is_gathering() {
            return Err(SessionFault::WrongPhase);
        }
        in_range(order)?;
        if self.book.orders.is_full() {
            return Err(SessionFault::SessionFull);
        }
        if self.is_in_the_way(order) {
            return Err(SessionFault::OwnOrderInTheWay);
        }
        Ok(order.numbered(OrderNumber(self.book.orders.len() as u16 + 1)))
    }

    /// Whether an own waiting order on the other side meets the limit.
    fn is_in_the_way(&self, order: NewOrder) -> bool
        ensures { result ≡ own_in_the_way self.now.state order.participant order.side order.limit }
    {
        self.book.queue(order.side.opposite()).iter().any(|entry| entry.order.participant
            == order.participant
            && order.meets(entry.order.limit))
    }
}

/// Whether participant, limit and lots are such as an order may have.
fn in_range(order: NewOrder) -> Result<(), SessionFault>
    ensures answer { result ≡ ranges_answer order.participant order.limit order.lots (Accepting tt) }
    ensures sized { OnOk result (order.lots.0 ≤ 1000000) }
{
    if !order.participant.is_known() {
        return Err(SessionFault::NoParticipant);
    }
    if !order.limit.in_range() {
        return Err(SessionFault::PriceOutOfRange);
    }
    if !order.lots.in_order_range() {
        return Err(SessionFault::LotsOutOfRange);
    }
    Ok(())
}
