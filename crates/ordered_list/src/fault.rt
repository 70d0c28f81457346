use units::RefusalCode;

/// Why a call on an ordered list was refused.
#[derive(Clone, Copy, Debug, PartialEq, Eq)]
pub enum ListFault {
    /// The memory has no room for another line.
    Full,
    /// The list has no line at this position.
    NoSuchPosition,
}

/// What the refusal is known by outside.
// Each layer has a table of its own: the numbers are all that these impls say.
impl From<ListFault> for RefusalCode {
    ghost use Rattle.std.specs.Prelude.{◌≡◌};
    ghost use Rattle.ordered_list.specs.Refusals.{code_of};

    ghost from_gives = { λ fault code. code ≡ code_of fault };

    fn from(fault: ListFault) -> RefusalCode {
        let number = match fault {
            ListFault::Full => 51,
            ListFault::NoSuchPosition => 52,
        };
        RefusalCode { layer: 6, number }
    }
}
