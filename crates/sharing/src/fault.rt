use units::RefusalCode;

/// Why nothing is shared out.
#[derive(Clone, Copy, Debug, PartialEq, Eq)]
pub enum SharingFault {
    /// There are over 512 lines.
    TooManyLines,
    /// A line has over 1,000,000 lots.
    LineTooLarge,
    /// The total is above the sum of the lines' lots.
    TotalTooLarge,
}

/// What the refusal is known by outside.
// Each layer has a table of its own: the numbers are all that these impls say.
impl From<SharingFault> for RefusalCode {
    ghost use Rattle.std.specs.Prelude.{◌≡◌};
    ghost use Rattle.sharing.specs.Refusals.{code_of};

    ghost from_gives = { λ fault code. code ≡ code_of fault };

    fn from(fault: SharingFault) -> RefusalCode {
        let number = match fault {
            SharingFault::TooManyLines => 41,
            SharingFault::LineTooLarge => 42,
            SharingFault::TotalTooLarge => 43,
        };
        RefusalCode { layer: 4, number }
    }
}
