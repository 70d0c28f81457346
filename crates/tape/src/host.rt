ghost use Rattle.std.specs.Prelude.{◌≡◌, Some};
ghost use Rattle.std.specs.List.{join_with_byte};
ghost use Rattle.tape.specs.Hosts.{code_of, host_fields};

use super::line::Line;
use std::fmt;
use units::RefusalCode;

/// Why a tape is not run at all.
#[derive(Clone, Copy, Debug, PartialEq, Eq)]
pub enum HostFault {
    /// 61: the tape has more than 4,096 bytes.
    TapeTooLong,
}

/// What the refusal is known by outside.
// Each layer has a table of its own numbers.
impl From<HostFault> for RefusalCode {
    ghost from_gives = { λ fault code. code ≡ code_of fault };

    fn from(fault: HostFault) -> RefusalCode {
        match fault {
            HostFault::TapeTooLong => RefusalCode {
                layer: 5,
                number: 61,
            },
        }
    }
}

/// The one line of a tape that is not run: an answer's, at offset 0.
impl fmt::Display for HostFault {
    ghost output = { λ fault. Some (join_with_byte 32 (host_fields fault)) };

    fn fmt<W: fmt::Write>(&self, f: &mut fmt::Formatter<W>) -> fmt::Result {
        Line::refused(0, (*self).into()).fmt(f)
    }
}
