ghost use Rattle.std.specs.Prelude.{◌≡◌, ◌≤◌};
ghost use Rattle.sharing.specs.Shares.{lots_of, filled};
ghost use Rattle.sharing.specs.ByTime.{by_time};
ghost use Rattle.std.proofs.lemmas.List.Elements.{length_all_zip};
ghost use Rattle.sharing.specs.TimeLaws.{time_within, time_whole};

use super::check::checked_sum;
use super::fault::SharingFault;
use super::rule::SharingRule;
use super::shares::Share;
use super::take::take;
use units::Lots;

/// Earlier lines first: each gets the lesser of its lots and what the lines before it left of the total.
#[derive(Clone, Copy)]
pub struct ByTime;

impl SharingRule for ByTime {
    ghost shares = { λ _. by_time };

    ghost each = { λ rule lots total a. length_all_zip ◌≤◌ (by_time lots total) lots (time_within lots total) };

    ghost within = { λ rule lots total a. time_within lots total };

    ghost whole = { λ rule lots total a. time_whole lots total a.reached };

    fn share(&self, lines: &mut [Share], total: Lots) -> Result<(), SharingFault> {
        checked_sum(lines, total)?;
        fill_by_time(lines, total);
        Ok(())
    }
}

// Not one function with pro rata's `hand_out`: that adds to the shares and this overwrites them, so that it would need a
// pass of its own, as long as this one, to clear them first. Nor one function for all three loops, given a closure
// `FnMut(Share) -> Lots` that carries what is left: it could promise a chain of the closure's steps, and each caller would
// have to work the shares out of that chain, for a loop of one line.
fn fill_by_time(lines: &mut [Share], total: Lots)
    ensures { lines.new ≡ filled lines.old (by_time (lots_of lines.old) total.0) }
{
    let mut left = total;
    for line in lines.iter_mut() {
        line.share = take(&mut left, line.lots);
    }
}
