ghost use Rattle.std.specs.Prelude.{◌≡◌, ◌^◌, ◌<◌, sum};
ghost use Rattle.sharing.specs.Shares.{lots_of, some_over, sum_or_fault};

use super::fault::SharingFault;
use super::shares::Share;
use units::Lots;

/// The most lines that a rule shares among.
pub const MOST_LINES: usize = 512;

/// The most lots that a line may have.
pub const LARGEST_LINE: u64 = 1_000_000;

/// The check that every rule makes before it writes: the sum of the lines' lots, or why nothing is shared out.
pub fn checked_sum(lines: &[Share], total: Lots) -> Result<Lots, SharingFault>
    ensures { result ≡ sum_or_fault (lots_of lines.now) total.0 }
{
    if lines.len() > MOST_LINES {
        return Err(SharingFault::TooManyLines);
    }
    if some_too_large(lines) {
        return Err(SharingFault::LineTooLarge);
    }
    let sum = sum_of_lots(lines);
    if total > sum {
        return Err(SharingFault::TotalTooLarge);
    }
    Ok(sum)
}

fn some_too_large(lines: &[Share]) -> bool
    ensures { result ≡ some_over (lots_of lines.now) }
{
    lines
        .iter()
        .map(|line| line.lots.0)
        .any(|lots| lots > LARGEST_LINE)
}

fn sum_of_lots(lines: &[Share]) -> Lots
    requires { sum (lots_of lines.now) < 2 ^ 64 }
    ensures { result.0 ≡ sum (lots_of lines.now) }
{
    Lots(lines.iter().map(|line| line.lots.0).sum())
}
