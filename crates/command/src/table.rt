ghost use Rattle.std.specs.Prelude.{◌≡◌, ℕ, List, ◌==◌};
ghost use Rattle.std.specs.List.{find};
ghost use Rattle.command.specs.Table.{table, width_in};
ghost use Rattle.command.specs.declared.table.TheConstants.{FORMATS};

/// The twelve commands as they stand on the tape: the command byte, and the widths in bytes of the operands behind it.
/// No command has more than three operands; where there are fewer the last widths are 0.
// A constant table of numbers, since a tape is bytes: what reading is held against is seen at a glance.
pub const FORMATS: [(u8, [u8; 3]); 12] = [
    (0x01, [2, 4, 0]), // pay in lots: participant, lots
    (0x02, [2, 8, 0]), // pay in money: participant, money
    (0x03, [0, 0, 0]), // open
    (0x10, [2, 4, 4]), // submit sell: participant, limit, lots
    (0x11, [2, 4, 4]), // submit buy: participant, limit, lots
    (0x12, [2, 2, 0]), // withdraw: participant, order
    (0x20, [0, 0, 0]), // strike
    (0x21, [2, 4, 0]), // add sell: participant, lots
    (0x22, [2, 4, 0]), // add buy: participant, lots
    (0x23, [1, 0, 0]), // deal: rule
    (0x24, [0, 0, 0]), // annul
    (0x30, [0, 0, 0]), // close
];

/// How many bytes of operands stand behind this command byte; none for a byte that is no command's.
pub fn width_of(byte: u8) -> Option<usize>
    ensures { result ≡ width_in table byte }
{
    let (_, [first, second, third]) = format_of(byte)?;
    Some(usize::from(first) + usize::from(second) + usize::from(third))
}

/// The row of a command byte.
fn format_of(byte: u8) -> Option<(u8, [u8; 3])>
    ensures { result ≡ find (λ (row : ℕ × List ℕ). row.0 == byte) FORMATS }
{
    FORMATS
        .iter()
        .copied()
        .find(|(command, _)| *command == byte)
}
