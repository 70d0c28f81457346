ghost use Rattle.std.specs.Prelude.{◌≡◌, ◌+◌, ◌*◌, ◌^◌, ◌<◌, ◌≤◌, sum};
ghost use Rattle.sharing.specs.Shares.{lots_of, shares_of, filled, Accepted};
ghost use Rattle.sharing.specs.ProRata.{first_share, first_shares, room_for, topped_up, pro_rata};
ghost use Rattle.std.proofs.lemmas.List.Elements.{length_all_zip};
ghost use Rattle.sharing.specs.RataLaws.{rata_within, rata_whole};

use super::check::checked_sum;
use super::fault::SharingFault;
use super::rule::SharingRule;
use super::shares::Share;
use super::take::take;
use units::Lots;

/// By size: each line gets its lots times the total over the sum of lots, rounded down. What is left then goes out one lot
/// a line, earliest line first, to the lines whose share is below their lots, even where it is 0.
#[derive(Clone, Copy)]
pub struct ProRata;

impl SharingRule for ProRata {
    ghost shares = { λ _. pro_rata };

    ghost each = { λ rule lots total a. length_all_zip ◌≤◌ (pro_rata lots total) lots (rata_within lots total a.reached) };

    ghost within = { λ rule lots total a. rata_within lots total a.reached };

    ghost whole = { λ rule lots total a. rata_whole lots total a.reached };

    fn share(&self, lines: &mut [Share], total: Lots) -> Result<(), SharingFault> {
        let offered = checked_sum(lines, total)?;
        write_first_shares(lines, total, offered);
        let given = sum_of_shares(lines);
        hand_out(lines, Lots(total.0 - given.0));
        Ok(())
    }
}

/// Writes each line's first share.
fn write_first_shares(lines: &mut [Share], total: Lots, offered: Lots)
    requires accepted { Accepted (lots_of lines.old) total.0 }
    requires all { offered.0 ≡ sum (lots_of lines.old) }
    ensures { lines.new ≡ filled lines.old (first_shares (lots_of lines.old) total.0) }
{
    for line in lines.iter_mut() {
        line.share = first_share(line.lots, total, offered);
    }
}

fn first_share(lots: Lots, total: Lots, offered: Lots) -> Lots
    requires { lots.0 * total.0 < 2 ^ 64 }
    ensures { result.0 ≡ first_share total.0 offered.0 lots.0 }
{
    if offered == Lots(0) {
        Lots(0)
    } else {
        Lots(lots.0 * total.0 / offered.0)
    }
}

// Beside `sum_of_lots` of check.rt: one function for both, told the field by a closure, would be longer than this line.
fn sum_of_shares(lines: &[Share]) -> Lots
    requires { sum (shares_of lines.now) < 2 ^ 64 }
    ensures { result.0 ≡ sum (shares_of lines.now) }
{
    Lots(lines.iter().map(|line| line.share.0).sum())
}

/// Gives the rest out on top of the shares that stand on the lines.
fn hand_out(lines: &mut [Share], rest: Lots)
    ensures { lines.new ≡ filled lines.old (topped_up (lots_of lines.old) (shares_of lines.old) rest.0) }
{
    let mut left = rest;
    for line in lines.iter_mut() {
        let extra = take(&mut left, room(*line));
        line.share = Lots(line.share.0 + extra.0);
    }
}

/// What a line can take of the rest: one lot, where its share is below its lots.
fn room(line: Share) -> Lots
    ensures answer { result.0 ≡ room_for line.lots.0 line.share.0 }
    ensures fits { line.share.0 + result.0 < 2 ^ 64 }
{
    if line.share < line.lots {
        Lots(1)
    } else {
        Lots(0)
    }
}
