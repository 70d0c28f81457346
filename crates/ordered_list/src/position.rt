ghost use Rattle.ordered_list.specs.Order.{RightPosition};

use crate::Ranked;

/// The position behind all lines that do not rank after `line`, sought from the back.
pub(crate) fn position_of<T: Ranked>(lines: &[T], line: &T) -> usize
    ensures { RightPosition T.Ranked.after line.now lines.now result }
{
    lines
        .iter()
        .rposition(|there| !there.ranks_after(line))
        .map_or(0, |last| last + 1)
}
