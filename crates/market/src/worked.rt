ghost use Rattle.std.specs.Prelude.{◌≡◌};
ghost use Rattle.market.specs.Worked.{WorkedCases};

// Beside the one of crate sharing: each carries the cases of its own definitions.
/// How many strikes of small queues are worked out by hand, and proved to be what the definitions give.
pub fn worked_cases() -> u8
    ensures count { result ≡ 7 }
    ensures cases { WorkedCases }
{
    7
}
