#![tactic(auto)]

//! Runs whole tapes and compares the lines of the result.

#[cfg(test)]
mod cases;

#[cfg(test)]
mod tests {
    use super::cases;
    use super::cases::Case;
    use report::{lines_of, refusal_line};
    use std::process::Abort;
    use std::test::Fail;
    use tape::play;

    // The match is `hall`'s own, written out here as well: it is what the program does with a tape, and a program lends no
    // function to tests.
    fn run(rt: &(impl Abort + AllocGlobal), cases: &[Case]) -> Result<(), Fail> {
        for case in cases {
            let text = match play(case.tape) {
                Ok(played) => lines_of(rt.alloc(), &played)?,
                Err(fault) => refusal_line(rt.alloc(), fault)?,
            };
            assert!(rt; text.as_str() == case.lines, "{}", case.name);
        }
        Ok(())
    }

    #[test]
    fn refused_commands(rt: HostRuntime) -> Result<(), Fail> {
        run(&rt, &cases::REFUSED_COMMANDS)
    }

    #[test]
    fn ends_of_tapes(rt: HostRuntime) -> Result<(), Fail> {
        run(&rt, &cases::ENDS_OF_TAPES)
    }

    #[test]
    fn strikes(rt: HostRuntime) -> Result<(), Fail> {
        run(&rt, &cases::STRIKES)
    }

    #[test]
    fn too_long_by_one_byte(rt: HostRuntime) -> Result<(), Fail> {
        let tape = [0x20; 4097];
        match play(&tape) {
            Ok(_) => Err(Fail::new("4,097 bytes were run")),
            Err(fault) => {
                let line = refusal_line(rt.alloc(), fault)?;
                assert!(rt; line.as_str() == "0 5 61 0 0\n");
                Ok(())
            }
        }
    }
}
