ghost use Rattle.std.specs.Prelude.{◌≡◌, map, None, unwrap_or};
ghost use Rattle.std.specs.List.{last_or};
ghost use Rattle.market.specs.CutOff.{highest};
ghost use Rattle.pricing.specs.Candidates.{volume_of, least_imbalance, candidate_lines};
ghost use Rattle.pricing.specs.Lines.{price_of};

use super::line::Line;
use super::span::Span;
use units::{Lots, Price};

/// The last and the highest price of the lines with the greatest volume and, of these, the least imbalance. The last is the
/// lowest where the lines go price downward. The definition says 0 where there is none.
pub(crate) fn candidates(lines: &[Line]) -> Span
    ensures low { result.low.0 ≡ unwrap_or (last_or None (map price_of (candidate_lines lines.now))) 0 }
    ensures high { result.high.0 ≡ highest (map price_of (candidate_lines lines.now)) }
{
    let volume = greatest_volume(lines);
    let imbalance = least_imbalance(lines, volume);
    let is_best = |line: &&Line| line.volume() == volume && line.imbalance() == imbalance;
    Span {
        low: lines
            .iter()
            .filter(&is_best)
            .map(|line| line.price)
            .last()
            .unwrap_or_default(),
        high: lines
            .iter()
            .filter(&is_best)
            .map(|line| line.price)
            .max()
            .unwrap_or_default(),
    }
}

/// The greatest volume of the lines: 0, as the definition says, where there is none.
fn greatest_volume(lines: &[Line]) -> Lots
    ensures { result.0 ≡ highest (map volume_of lines.now) }
{
    lines
        .iter()
        .map(|line| line.volume())
        .max()
        .unwrap_or_default()
}

/// The least imbalance of the lines with this volume: the most, as the definition says, where there is none.
fn least_imbalance(lines: &[Line], volume: Lots) -> Lots
    ensures { result.0 ≡ least_imbalance volume.0 lines.now }
{
    lines
        .iter()
        .filter(|line| line.volume() == volume)
        .map(|line| line.imbalance())
        .min()
        .unwrap_or(Lots(u64::MAX))
}
