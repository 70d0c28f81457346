use std::fmt;

/// What a refusal is known by outside: the layer that refused, and the number of its rule.
// Numbers, since they stand in results and in the rules; inside, each layer has an enum.
#[derive(Clone, Copy, Debug, PartialEq, Eq)]
pub struct RefusalCode {
    pub layer: u8,
    pub number: u8,
}

impl fmt::Display for RefusalCode {
    ghost use Rattle.std.specs.Prelude.{Some};
    ghost use Rattle.units.specs.Spoken.{spoken};

    ghost output = { λ code. Some (spoken code) };

    fn fmt<W: fmt::Write>(&self, f: &mut fmt::Formatter<W>) -> fmt::Result {
        let RefusalCode { layer, number } = self;
        write!(f, "layer {layer}, number {number}")
    }
}
