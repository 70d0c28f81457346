use super::award::Award;
use super::bid::Bid;
use super::fault::AllotmentFault;
use super::queue::queued;
use depository::{Account, AccountBook, Amount, BackOffice, Depository};
use sharing::{Share, SharingRule};
use units::{Lots, Money, Participant, Price};

const SELLER: Participant = Participant(1);

const OFFERED: Lots = Lots(33);

const PRICE: Price = Price(100);

const LIMIT: Price = Price(103);

/// The whole allotment by one rule over one depository. Answers the four participants' balances at the end.
// `rt` and the depository stay two parameters, here and below: the one prints, the other is what is tried.
pub(crate) fn carry_out<R: SharingRule, D: BackOffice>(
    rt: &impl Print,
    rule_name: &str,
    kind: &str,
    rule: &R,
    depository: &mut D,
) -> Result<[Account; 4], AllotmentFault> {
    println!(rt; "")?;
    println!(rt; "{rule_name}, {kind} depository")?;
    pay_in(rt, depository, SELLER, Amount::Lots(OFFERED))?;
    pay_in(rt, depository, Participant(2), Amount::Money(Money(6_000)))?;
    pay_in(rt, depository, Participant(3), Amount::Money(Money(4_000)))?;
    pay_in(rt, depository, Participant(4), Amount::Money(Money(2_500)))?;
    offer(rt, depository)?;
    let level = level()?;
    for bid in level {
        block(rt, depository, bid)?;
    }
    for award in share(rt, rule, level)? {
        deal(rt, depository, award)?;
    }
    balances(rt, depository)
}

fn pay_in<D: BackOffice>(
    rt: &impl Print,
    depository: &mut D,
    who: Participant,
    what: Amount,
) -> Result<(), AllotmentFault> {
    depository.pay_in(who, what)?;
    match what {
        Amount::Lots(lots) => println!(rt; "  {who} pays in {lots} lots")?,
        Amount::Money(money) => println!(rt; "  {who} pays in {money} money")?,
    }
    Ok(())
}

fn offer<D: Depository>(rt: &impl Print, depository: &mut D) -> Result<(), AllotmentFault> {
    depository.block(SELLER, Amount::Lots(OFFERED))?;
    println!(rt; "  1 offers 33 lots: 33 lots blocked")?;
    Ok(())
}

fn bid(number: u16, who: u16, lots: u64) -> Bid {
    Bid {
        number,
        who: Participant(who),
        limit: LIMIT,
        lots: Lots(lots),
    }
}

/// The level's bids in queue order, whatever order they are handed in.
fn level() -> Result<[Bid; 3], AllotmentFault> {
    Ok(queued(bid(3, 4, 20), bid(1, 2, 50), bid(2, 3, 30))?)
}

fn block<D: Depository>(
    rt: &impl Print,
    depository: &mut D,
    bid: Bid,
) -> Result<(), AllotmentFault> {
    let cover = bid.cover();
    depository.block(bid.who, Amount::Money(cover))?;
    println!(rt;
        "  {who} bids for {lots} lots at {limit}: {cover} money blocked",
        who = bid.who,
        lots = bid.lots,
        limit = bid.limit
    )?;
    Ok(())
}

/// The level's line for a bid, with no share yet.
fn line(bid: Bid) -> Share {
    Share {
        lots: bid.lots,
        share: Lots(0),
    }
}

fn award(bid: Bid, share: Lots) -> Award {
    Award { bid, share }
}

/// The bids with what the rule gives each of them.
fn share<R: SharingRule>(
    rt: &impl Print,
    rule: &R,
    level: [Bid; 3],
) -> Result<[Award; 3], AllotmentFault> {
    let mut lines = level.map(line);
    rule.share(&mut lines, OFFERED)?;
    let [a, b, c] = lines.map(|line| line.share);
    println!(rt; "  33 lots are shared out: {a} of 50, {b} of 30, {c} of 20")?;
    // By place: arrays have no `zip`, and that of their iterators gives no array.
    let [first, second, third] = level;
    Ok([award(first, a), award(second, b), award(third, c)])
}

fn deal<D: Depository>(
    rt: &impl Print,
    depository: &mut D,
    award: Award,
) -> Result<(), AllotmentFault> {
    award.settle(depository, SELLER, PRICE)?;
    println!(rt;
        "  {who} gets {lots} lots from 1 for {money}; {saving} saved and {rest} not needed are released",
        who = award.bid.who,
        lots = award.share,
        money = PRICE.times(award.share),
        saving = award.saved(PRICE),
        rest = award.left_over()
    )?;
    Ok(())
}

/// Prints the balances of participants 1 to 4, and answers them.
fn balances<D: Depository>(
    rt: &impl Print,
    depository: &D,
) -> Result<[Account; 4], AllotmentFault> {
    println!(rt; "  participant  free lots  blocked lots  free money  blocked money")?;
    [1, 2, 3, 4].try_map(|who| balance(rt, depository, who))
}

fn balance<D: Depository>(
    rt: &impl Print,
    depository: &D,
    who: u16,
) -> Result<Account, AllotmentFault> {
    let account = depository.balances(Participant(who))?;
    println!(rt;
        "  {who:>11}  {free_lots:>9}  {blocked_lots:>12}  {free_money:>10}  {blocked_money:>13}",
        free_lots = account.free_lots.0,
        blocked_lots = account.blocked_lots.0,
        free_money = account.free_money.0,
        blocked_money = account.blocked_money.0
    )?;
    Ok(account)
}
