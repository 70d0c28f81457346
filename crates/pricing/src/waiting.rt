ghost use Rattle.std.specs.Prelude.{◌≡◌, ◌≤◌, [], ◌++◌, map, length, drop, reverse};
ghost use Rattle.market.specs.CutOff.{crosses as any_cross, cut_off_found, settled_between, by_sides, limit_of_earliest, waiting_at};
ghost use Rattle.market.specs.Queues.{Queues};
ghost use Rattle.pricing.specs.Lines.{summary_of, lines_at, next_limit};
ghost use Rattle.pricing.specs.Summaries.{summary_answer, summary_after};

use super::candidates::candidates;
use super::level::{first_level, last_level, lots_in};
use super::line::{Line, Lines};
use super::span::Span;
use market::{Resting, SessionFault, SummaryLine};
use std::cmp::Ordering;
use units::{Lots, Price};

/// The two queues of waiting orders: sells price upward, buys price downward.
// That they are such queues (`Queues`) is a premise of what is promised of them, and no fact of the type: the type would ask it
// of callers, and any slices are let in.
#[derive(Clone, Copy)]
pub struct Waiting<'a> {
    pub sells: &'a [Resting],
    pub buys: &'a [Resting],
}

impl Waiting<'_> {
    /// The one price of an iteration, or nothing where no waiting sell limit is at or below a waiting buy limit.
    pub fn cut_off(self) -> Option<Price>
        ensures { Queues self.entry.sells.now self.entry.buys.now → result ≡ cut_off_found self.entry.sells.now self.entry.buys.now }
    {
        if !self.crosses() {
            return None;
        }
        let mut lines = Lines::new();
        self.walk(&mut lines);
        let best = candidates(lines.as_slice());
        Some(self.settled_between(best))
    }

    /// Writes the summary to the front of the caller's slice, a line for each waiting limit, price downward, and answers how
    /// many lines that is. Where the slice is shorter than that it is left as it was.
    pub fn summary(self, lines: &mut [SummaryLine]) -> Result<usize, SessionFault>
        ensures answer { Queues self.entry.sells.now self.entry.buys.now → result ≡ summary_answer self.entry.sells.now self.entry.buys.now lines.old }
        ensures after { Queues self.entry.sells.now self.entry.buys.now → lines.new ≡ summary_after self.entry.sells.now self.entry.buys.now lines.old }
    {
        let mut walk = Lines::new();
        self.walk(&mut walk);
        let walked = walk.as_slice();
        if walked.len() > lines.len() {
            return Err(SessionFault::SliceTooShort);
        }
        write_lines(walked, lines);
        Ok(walked.len())
    }

    /// Whether some waiting sell limit is at or below some waiting buy limit: those of the first orders decide it.
    fn crosses(self) -> bool
        ensures { Queues self.entry.sells.now self.entry.buys.now → result ≡ any_cross self.entry.sells.now self.entry.buys.now }
    {
        match (self.sells, self.buys) {
            ([sell, ..], [buy, ..]) => sell.order.limit <= buy.order.limit,
            _ => false,
        }
    }

    /// Writes a line for each waiting limit, price downward: level by level, the sells from the back and the buys from the front.
    // Into the caller's lines: handed back by value, they would be copied whole, however few they are.
    fn walk(self, lines: &mut Lines)
        requires { lines.old ≡ [] }
        ensures { Queues self.entry.sells.now self.entry.buys.now → lines.new ≡ lines_at self.entry.sells.now self.entry.buys.now }
    {
        let Waiting {
            mut sells,
            mut buys,
        } = self;
        let mut supply = lots_in(sells);
        let mut demand = Lots(0);
        while let Some(price) = highest_limit(sells, buys) {
            let offered = last_level(sells, price);
            let asked = first_level(buys, price);
            demand = Lots(demand.0.saturating_add(asked.lots.0));
            let _ = lines.insert(Line {
                price,
                supply,
                demand,
            });
            supply = Lots(supply.0.saturating_sub(offered.lots.0));
            sells = offered.rest;
            buys = asked.rest;
        }
    }

    /// The one limit, or the mean of two limits if it is whole, or else one of the two.
    fn settled_between(self, span: Span) -> Price
        ensures { Queues self.entry.sells.now self.entry.buys.now → result.0 ≡ settled_between self.entry.sells.now self.entry.buys.now span.low.0 span.high.0 }
    {
        // A match: tried with `unwrap_or_else`, and the proof didn't close.
        match span.whole_mean() {
            Some(mean) => mean,
            None => self.by_sides(span),
        }
    }

    /// The lower limit where all sells exceed all buys, the higher where they are less, and otherwise the limit of the
    /// lowest-numbered order at one of the two.
    fn by_sides(self, span: Span) -> Price
        ensures { Queues self.entry.sells.now self.entry.buys.now → result.0 ≡ by_sides self.entry.sells.now self.entry.buys.now span.low.0 span.high.0 }
    {
        match lots_in(self.sells).cmp(&lots_in(self.buys)) {
            Ordering::Greater => span.low,
            Ordering::Less => span.high,
            Ordering::Equal => self.limit_of_earliest(span),
        }
    }

    /// The limit of the lowest-numbered order at one of two limits: 0, as the definition says, where there is none.
    fn limit_of_earliest(self, span: Span) -> Price
        ensures { result.0 ≡ limit_of_earliest (waiting_at span.low.0 span.high.0 (self.entry.sells.now ++ self.entry.buys.now)) }
    {
        self.sells
            .iter()
            .chain(self.buys)
            .filter(|entry| span.has_end(entry.order.limit))
            .min_by_key(|entry| entry.order.number)
            .map_or(Price(0), |earliest| earliest.order.limit)
    }
}

/// The higher of the limits at which the sells end and the buys begin.
fn highest_limit(sells: &[Resting], buys: &[Resting]) -> Option<Price>
    ensures { result ≡ next_limit (reverse sells.now) buys.now }
{
    let offer = sells.last().map(|entry| entry.order.limit);
    let bid = buys.first().map(|entry| entry.order.limit);
    offer.max(bid)
}

/// Writes lines to the front of the caller's slice as the summary has them.
fn write_lines(walked: &[Line], lines: &mut [SummaryLine])
    requires { length walked.now ≤ length lines.old }
    ensures { lines.new ≡ map summary_of walked.now ++ drop (length walked.now) lines.old }
{
    // By place: tried with `zip`, and the proof knows nothing of what a chain over `iter_mut` writes.
    for (i, line) in walked.iter().enumerate() {
        lines[i] = SummaryLine::from(*line);
    }
}
