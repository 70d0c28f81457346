ghost use Rattle.std.specs.Prelude.{◌≡◌};
ghost use Rattle.sharing.specs.Worked.{WorkedShares};

// Beside the one of crate market: each carries the cases of its own definitions.
/// How many shares of small levels are worked out by hand, and proved to be what the definitions of the rules give.
pub fn worked_cases() -> u8
    ensures count { result ≡ 3 }
    ensures shares { WorkedShares }
{
    3
}
