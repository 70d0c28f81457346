ghost use Rattle.std.specs.Prelude.{◌≡◌, Bool, true, false};
ghost use Rattle.ordered_list.specs.Order.{rank_alike};

/// Lines that have an order: of two lines one goes first or they rank alike, and both carry along a chain.
/// Not `Ord`, where what compares as equal is equal: two lines may rank alike and be of different participants or lots.
pub trait Ranked {
    // whether the first line ranks strictly after the second
    ghost after: { Self → Self → Bool };

    /// Whether this line ranks strictly after the other.
    fn ranks_after(&self, other: &Self) -> bool
        ensures { result ≡ after self.now other.now };

    ghost apart: { (x y : Self) → after x y ≡ true → after y x ≡ false };

    ghost chain: { (x y z : Self) → after x y ≡ true → after y z ≡ true → after x z ≡ true };

    ghost alike: { (x y z : Self) → rank_alike after x y ≡ true → rank_alike after y z ≡ true → rank_alike after x z ≡ true };
}
