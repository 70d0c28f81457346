ghost use Rattle.std.specs.Prelude.{◌≡◌, ◌++◌, IfOk, OnOk, string_bytes};
ghost use Rattle.std.specs.List.{flat_map};
ghost use Rattle.tape.specs.Hosts.{code_of};
ghost use Rattle.report.specs.Lines.{line_with, refusal_line, text_of, Prints};

use std::alloc::{AllocError, Global};
use std::fmt::Display;
use tape::{HostFault, Played};

/// The lines of a run: answers, then deals, then cancellations.
#[tactic(auto, using(std::proofs::Common::append_assoc))]
pub fn lines_of(heap: Global, played: &Played) -> Result<String, AllocError>
    ensures { IfOk result (λ t. string_bytes t ≡ text_of played.now) }
{
    let mut text = String::new(heap);
    append(&mut text, played.answers())?;
    append(&mut text, played.deals())?;
    append(&mut text, played.cancellations())?;
    Ok(text)
}

/// The one line of a tape that was not run.
pub fn refusal_line(heap: Global, fault: HostFault) -> Result<String, AllocError>
    ensures { IfOk result (λ t. string_bytes t ≡ refusal_line (code_of fault)) }
{
    format!(in heap; "{fault}\n")
}

/// Writes a line for each behind the text.
fn append<T: Display>(text: &mut String, lines: &[T]) -> Result<(), AllocError>
    ensures { Prints T.Display.output → OnOk result (string_bytes text.new ≡ string_bytes text.old ++ flat_map (line_with T.Display.output) lines.now) }
{
    for line in lines {
        writeln!(text, "{line}")?;
    }
    Ok(())
}
