//! Best and summary of sells 100 x 40, 102 x 30 and buys 103 x 50, 101 x 30.

use super::orders::{number_of, order};
use depository::{Amount, BackOffice};
use market::{SessionFault, SummaryLine};
use session::Session;
use sparse_depository::SparseDepository;
use std::test::Fail;
use units::{Lots, Money, Participant, Price, Side};

const MARK: SummaryLine = SummaryLine {
    price: Price(7),
    supply: Lots(7),
    demand: Lots(7),
    volume: Lots(7),
    difference: 7,
};

fn four_orders() -> Result<Session<SparseDepository>, Fail> {
    let mut depository = SparseDepository::new();
    let _ = depository.pay_in(Participant(1), Amount::Lots(Lots(100)));
    let _ = depository.pay_in(Participant(2), Amount::Money(Money(100_000)));
    let Ok(mut session) = Session::open(depository) else {
        return Err(Fail::new("not opened"));
    };
    let _ = session.submit(order(1, Side::Sell, 102, 30));
    let _ = session.submit(order(1, Side::Sell, 100, 40));
    let _ = session.submit(order(2, Side::Buy, 101, 30));
    let _ = session.submit(order(2, Side::Buy, 103, 50));
    Ok(session)
}

fn line(price: u32, supply: u64, demand: u64) -> SummaryLine {
    SummaryLine {
        price: Price(price),
        supply: Lots(supply),
        demand: Lots(demand),
        volume: Lots(supply.min(demand)),
        difference: i128::from(supply) - i128::from(demand),
    }
}

#[test]
fn the_best_limits(rt: HostRuntime) -> Result<(), Fail> {
    let session = four_orders()?;
    assert_eq!(rt; session.best(Side::Sell), Some((Price(100), Lots(40))));
    assert_eq!(rt; session.best(Side::Buy), Some((Price(103), Lots(50))));
    Ok(())
}

#[test]
fn the_summary_leaves_what_lies_behind(rt: HostRuntime) -> Result<(), Fail> {
    let session = four_orders()?;
    let mut lines = [MARK; 5];
    assert_eq!(rt; session.summary(&mut lines), Ok(4));
    assert_eq!(rt;
        lines,
        [
            line(103, 70, 50),
            line(102, 70, 50),
            line(101, 40, 80),
            line(100, 40, 80),
            MARK
        ]
    );
    Ok(())
}

#[test]
fn a_slice_one_line_too_short_is_left_alone(rt: HostRuntime) -> Result<(), Fail> {
    let session = four_orders()?;
    let mut lines = [MARK; 3];
    let answer = session.summary(&mut lines);
    assert_eq!(rt; answer, Err(SessionFault::SliceTooShort));
    assert_eq!(rt; answer.map_err(number_of), Err(23));
    assert_eq!(rt; lines, [MARK; 3]);
    Ok(())
}
