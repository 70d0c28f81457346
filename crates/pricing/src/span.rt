ghost use Rattle.std.specs.Prelude.{◌≡◌, ◌||◌, ◌==◌, ◌+◌, ◌/◌, ◌%◌, cond, Some, None};

use units::Price;

/// The lowest and the highest of some prices.
#[derive(Clone, Copy)]
pub(crate) struct Span {
    pub(crate) low: Price,
    pub(crate) high: Price,
}

impl Span {
    /// The mean of the two, if it is whole.
    pub(crate) fn whole_mean(self) -> Option<Price>
        ensures { result ≡ cond ((self.low.0 + self.high.0) % 2 == 0) (Some (record { 0 = (self.low.0 + self.high.0) / 2 })) None }
    {
        let sum = u64::from(self.low.0) + u64::from(self.high.0);
        (sum % 2 == 0).then_some(Price((sum / 2) as u32))
    }

    /// Whether the price is one of the two.
    pub(crate) fn has_end(self, price: Price) -> bool
        ensures { result ≡ (price.0 == self.low.0 || price.0 == self.high.0) }
    {
        price == self.low || price == self.high
    }
}
