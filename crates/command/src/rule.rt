/// The rule by which a deal shares out.
#[derive(Clone, Copy, Debug, PartialEq, Eq)]
pub enum Rule {
    ByTime,
    ProRata,
}

/// A number that is no rule's: reading a rule's number alone makes one.
#[derive(Clone, Copy, Debug, PartialEq, Eq)]
pub struct UnknownRule(u8);

impl UnknownRule {
    ghost use Rattle.std.specs.Prelude.{◌≡◌};

    /// The number.
    pub fn number(self) -> u8
        ensures { result ≡ self.0 }
    {
        self.0
    }
}

impl TryFrom<u8> for Rule {
    ghost use Rattle.std.specs.Prelude.{◌≡◌};
    ghost use Rattle.command.specs.RuleNumbers.{rule_of};

    type Error = UnknownRule;

    ghost try_from_gives = { λ number r. r ≡ rule_of number };

    fn try_from(number: u8) -> Result<Rule, UnknownRule> {
        match number {
            0 => Ok(Rule::ByTime),
            1 => Ok(Rule::ProRata),
            _ => Err(UnknownRule(number)),
        }
    }
}
