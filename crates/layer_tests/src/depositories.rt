use crate::numbers::number;
use depository::{AccountBook, Amount, BackOffice, Delivery, Depository, held_in_all};
use sparse_depository::SparseDepository;
use std::process::Abort;
use table_depository::TableDepository;
use units::{Lots, Money, Participant, RefusalCode};

fn lots(n: u64) -> Amount {
    Amount::Lots(Lots(n))
}

fn money(n: u128) -> Amount {
    Amount::Money(Money(n))
}

fn delivery(seller: Participant, buyer: Participant, lots: u64, money: u128) -> Delivery {
    Delivery {
        seller,
        buyer,
        lots: Lots(lots),
        money: Money(money),
    }
}

/// Free lots, blocked lots, free money, blocked money; or, where that is refused, the refusal's number four times.
// Numbers, and no `Account`s, so that the rows that are wanted stand side by side.
fn amounts<B: AccountBook>(book: &B, who: u16) -> [u128; 4] {
    match book.balances(Participant(who)) {
        Ok(a) => [
            u128::from(a.free_lots.0),
            u128::from(a.blocked_lots.0),
            a.free_money.0,
            a.blocked_money.0,
        ],
        Err(fault) => [u128::from(RefusalCode::from(fault).number); 4],
    }
}

/// What the six calls answer for a participant; each would be refused for another reason too.
fn asked_of<D: BackOffice>(d: &mut D, who: u16) -> [u8; 6] {
    let who = Participant(who);
    let one = Participant(1);
    [
        number(d.block(who, lots(1))),
        number(d.release(who, money(1))),
        number(d.deliver(delivery(who, one, 1, 1))),
        number(d.deliver(delivery(one, who, 1, 1))),
        number(d.pay_in(who, lots(1_000_000_000_001))),
        number(d.pay_out(who, money(1))),
    ]
}

/// Participants are 1 to 64, and 31 comes before any other refusal.
fn participants<D: BackOffice>(rt: &impl Abort, d: &mut D) {
    assert_eq!(rt; asked_of(d, 0), [31; 6]);
    assert_eq!(rt; asked_of(d, 65), [31; 6]);
    assert_eq!(rt; asked_of(d, 64), [32, 33, 33, 33, 34, 32]);
    assert_eq!(rt; amounts(d, 65), [31; 4]);
    assert_eq!(rt; amounts(d, 64), [0; 4]);
}

/// Pay-ins up to the bounds and past them.
fn paid_in<D: BackOffice>(d: &mut D) -> [u8; 8] {
    [
        number(d.pay_in(Participant(1), lots(1_000_000_000_001))),
        number(d.pay_in(Participant(1), lots(999_999_999_999))),
        number(d.pay_in(Participant(2), lots(2))),
        number(d.pay_in(Participant(2), lots(1))),
        number(d.pay_in(Participant(3), lots(0))),
        number(d.pay_in(Participant(3), lots(1))),
        number(d.pay_in(Participant(3), money(1_000_000_000_000_000_000))),
        number(d.pay_in(Participant(4), money(1))),
    ]
}

fn totals<D: BackOffice>(rt: &impl Abort, d: &mut D) {
    assert_eq!(rt; paid_in(d), [34, 0, 34, 0, 0, 34, 0, 34]);
    let held = held_in_all(d);
    assert_eq!(rt; held.lots.0, 1_000_000_000_000);
    assert_eq!(rt; held.money.0, 1_000_000_000_000_000_000);
}

/// Of 5 free lots: 6 blocked, 3 blocked, 3 paid out, 2 paid out, 4 released, 2 released; and money that is not there.
fn blocked<D: BackOffice>(d: &mut D) -> [u8; 9] {
    let who = Participant(5);
    [
        number(d.pay_in(who, lots(5))),
        number(d.block(who, lots(6))),
        number(d.block(who, money(1))),
        number(d.block(who, money(0))),
        number(d.block(who, lots(3))),
        number(d.pay_out(who, lots(3))),
        number(d.pay_out(who, lots(2))),
        number(d.release(who, lots(4))),
        number(d.release(who, lots(2))),
    ]
}

fn free_and_blocked<D: BackOffice>(rt: &impl Abort, d: &mut D) {
    assert_eq!(rt; blocked(d), [0, 32, 32, 0, 0, 32, 0, 33, 0]);
    assert_eq!(rt; amounts(d, 5), [2, 1, 0, 0]);
}

/// Participant 1 blocks 4 lots and participant 2 blocks 300 money; then deliveries that fail at an end, and one of nothing.
fn undelivered<D: BackOffice>(d: &mut D) -> [u8; 8] {
    let seller = Participant(1);
    let buyer = Participant(2);
    [
        number(d.pay_in(seller, lots(4))),
        number(d.pay_in(buyer, money(300))),
        number(d.block(seller, lots(4))),
        number(d.block(buyer, money(300))),
        number(d.deliver(delivery(seller, buyer, 5, 300))),
        number(d.deliver(delivery(seller, buyer, 4, 301))),
        number(d.deliver(delivery(buyer, seller, 1, 1))),
        number(d.deliver(delivery(seller, buyer, 0, 0))),
    ]
}

fn deliveries<D: BackOffice>(rt: &impl Abort, d: &mut D) {
    assert_eq!(rt; undelivered(d), [0, 0, 0, 0, 33, 33, 33, 0]);
    assert_eq!(rt;
        [amounts(d, 1), amounts(d, 2)],
        [[0, 4, 0, 0], [0, 0, 0, 300]]
    );
    assert_eq!(rt;
        number(d.deliver(delivery(Participant(1), Participant(2), 4, 300))),
        0
    );
    assert_eq!(rt;
        [amounts(d, 1), amounts(d, 2)],
        [[0, 0, 300, 0], [4, 0, 0, 0]]
    );
}

/// Participant 9 blocks 10 lots and 1,000 of 1,050 money, and delivers 4 lots for 300 to itself.
fn to_itself<D: BackOffice>(d: &mut D) -> [u8; 5] {
    let who = Participant(9);
    [
        number(d.pay_in(who, lots(10))),
        number(d.block(who, lots(10))),
        number(d.pay_in(who, money(1_050))),
        number(d.block(who, money(1_000))),
        number(d.deliver(delivery(who, who, 4, 300))),
    ]
}

fn one_at_both_ends<D: BackOffice>(rt: &impl Abort, d: &mut D) {
    assert_eq!(rt; to_itself(d), [0; 5]);
    assert_eq!(rt; amounts(d, 9), [4, 6, 350, 700]);
}

/// Each case over a depository of its own.
fn all_cases<D: BackOffice + Drop, New: Fn() -> D>(rt: &impl Abort, new: New)
    requires { New.IsAlwaysCallable new }
{
    participants(rt, &mut new());
    totals(rt, &mut new());
    free_and_blocked(rt, &mut new());
    deliveries(rt, &mut new());
    one_at_both_ends(rt, &mut new());
}

#[test]
fn the_table(rt: HostRuntime) {
    all_cases(&rt, TableDepository::new);
}

#[test]
fn the_sparse_depository(rt: HostRuntime) {
    all_cases(&rt, SparseDepository::new);
}

/// How many entries there are after a call.
fn entries_after(d: &mut SparseDepository, who: u16, what: Amount) -> usize {
    let _ = d.pay_in(Participant(who), what);
    d.entry_count()
}

#[test]
fn entries_are_of_those_who_hold_something(rt: HostRuntime) {
    let mut d = SparseDepository::new();
    assert_eq!(rt; entries_after(&mut d, 3, money(0)), 0);
    assert_eq!(rt; entries_after(&mut d, 3, money(2)), 1);
    assert_eq!(rt; entries_after(&mut d, 2, lots(1)), 2);
    assert_eq!(rt; number(d.pay_out(Participant(3), money(2))), 0);
    assert_eq!(rt; d.entry_count(), 1);
}

#[test]
fn all_64_may_have_entries(rt: HostRuntime) {
    let mut d = SparseDepository::new();
    for number in (Participant::FIRST..=Participant::LAST).rev() {
        let _ = d.pay_in(Participant(number), lots(1));
    }
    assert_eq!(rt; d.entry_count(), 64);
    assert_eq!(rt; amounts(&d, 17), [1, 0, 0, 0]);
}
