ghost use Rattle.std.specs.Prelude.{◌≡◌};
ghost use Rattle.command.specs.Rules.{checked_of};

use super::fault::TapeFault;
use super::rule::{Rule, UnknownRule};
use depository::Amount;
use market::{NewOrder, OrderNumber};
use units::{Lots, Participant, Side};

/// A command of the tape with its operands.
#[derive(Clone, Copy, Debug, PartialEq, Eq)]
pub enum Command {
    /// A pay in of lots or of money: two commands on the tape, as their operands differ in width.
    PayIn {
        participant: Participant,
        what: Amount,
    },
    Open,
    Submit(NewOrder),
    Withdraw {
        participant: Participant,
        order: OrderNumber,
    },
    Strike,
    Add {
        participant: Participant,
        side: Side,
        lots: Lots,
    },
    /// The rule that its number names, if one does.
    Deal {
        rule: Result<Rule, UnknownRule>,
    },
    Annul,
    Close,
}

impl Command {
    /// The command itself, unless it is a deal by a rule that there is not.
    pub fn checked(self) -> Result<Command, TapeFault>
        ensures { result ≡ checked_of self }
    {
        if let Command::Deal { rule } = self {
            let _ = rule?;
        }
        Ok(self)
    }
}
