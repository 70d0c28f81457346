//! Refusals at their edges, opening and handing back.

use super::orders::{number_of, order};
use depository::{Amount, BackOffice, Depository};
use market::OrderNumber;
use session::Session;
use std::test::Fail;
use table_depository::TableDepository;
use units::{Lots, Money, Participant, Side};

/// The number of the refusal, or 0.
// Numbers, and no faults, in the rows below: the rules know a refusal by its number.
fn sell(session: &mut Session<TableDepository>, who: u16, limit: u32, lots: u64) -> u8 {
    match session.submit(order(who, Side::Sell, limit, lots)) {
        Ok(_) => 0,
        Err(fault) => number_of(fault),
    }
}

fn stocked() -> TableDepository {
    let mut depository = TableDepository::new();
    let _ = depository.pay_in(Participant(1), Amount::Lots(Lots(2_000_000)));
    let _ = depository.pay_in(Participant(1), Amount::Money(Money(1_000_000)));
    depository
}

fn opened() -> Result<Session<TableDepository>, Fail> {
    match Session::open(stocked()) {
        Ok(session) => Ok(session),
        Err(_) => Err(Fail::new("not opened")),
    }
}

#[test]
fn the_513th_order_is_refused(rt: HostRuntime) -> Result<(), Fail> {
    let mut session = opened()?;
    for count in 1..=512 {
        assert_eq!(rt; sell(&mut session, 1, 100, 1), 0);
        assert_eq!(rt; session.orders().len(), count);
    }
    assert_eq!(rt; sell(&mut session, 1, 100, 1), 14);
    assert_eq!(rt; session.orders().len(), 512);
    Ok(())
}

#[test]
fn checks_come_in_their_order(rt: HostRuntime) -> Result<(), Fail> {
    let mut session = opened()?;
    assert_eq!(rt; sell(&mut session, 65, 0, 0), 11);
    assert_eq!(rt; sell(&mut session, 0, 0, 0), 11);
    assert_eq!(rt; sell(&mut session, 1, 0, 0), 12);
    assert_eq!(rt; sell(&mut session, 1, 1_000_000_001, 0), 12);
    assert_eq!(rt; sell(&mut session, 1, 1, 0), 13);
    assert_eq!(rt; sell(&mut session, 1, 1, 1_000_001), 13);
    assert_eq!(rt; sell(&mut session, 2, 1, 1), 32);
    assert_eq!(rt; sell(&mut session, 1, 1_000_000_000, 1_000_000), 0);
    Ok(())
}

#[test]
fn a_buy_meets_the_own_sell_from_its_limit_on(rt: HostRuntime) -> Result<(), Fail> {
    let mut session = opened()?;
    assert_eq!(rt; sell(&mut session, 1, 100, 5), 0);
    let met = session.submit(order(1, Side::Buy, 100, 1));
    assert_eq!(rt; met.map_err(number_of), Err(15));
    assert_eq!(rt;
        session.submit(order(1, Side::Buy, 99, 1)),
        Ok(OrderNumber(2))
    );
    Ok(())
}

#[test]
fn nothing_may_be_blocked_at_opening(rt: HostRuntime) -> Result<(), Fail> {
    let mut depository = stocked();
    let _ = depository.block(Participant(1), Amount::Money(Money(1)));
    match Session::open(depository) {
        Ok(_) => Err(Fail::new("opened over blocked money")),
        Err((fault, mut closed)) => {
            assert_eq!(rt; number_of(fault), 22);
            assert_eq!(rt; sell(&mut closed, 1, 100, 1), 21);
            match closed.hand_back() {
                Ok(_) => Ok(()),
                Err(_) => Err(Fail::new("a closed session hands its depository back")),
            }
        }
    }
}

#[test]
fn an_open_session_hands_nothing_back(rt: HostRuntime) -> Result<(), Fail> {
    match opened()?.hand_back() {
        Ok(_) => Err(Fail::new("handed back while open")),
        Err((fault, session)) => {
            assert_eq!(rt; number_of(fault), 21);
            assert_eq!(rt; session.orders().len(), 0);
            Ok(())
        }
    }
}

#[test]
fn what_is_withdrawn_is_free_again(rt: HostRuntime) -> Result<(), Fail> {
    let mut session = opened()?;
    assert_eq!(rt; sell(&mut session, 1, 100, 1_000_000), 0);
    assert_eq!(rt; sell(&mut session, 1, 100, 1_000_000), 0);
    assert_eq!(rt; sell(&mut session, 1, 100, 1), 32);
    assert_eq!(rt;
        session.withdraw(Participant(1), OrderNumber(1)),
        Ok(Lots(1_000_000))
    );
    assert_eq!(rt; sell(&mut session, 1, 100, 1_000_000), 0);
    Ok(())
}
