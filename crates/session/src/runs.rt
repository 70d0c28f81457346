ghost use Rattle.std.specs.Prelude.{◌≡◌, min, length, drop};
ghost use Rattle.market.specs.declared.call.Call.TheVariants.{Strike as Striking, Annul as Annulling};
ghost use Rattle.market.specs.Law.{SoundFrom, Law};
ghost use Rattle.market.specs.Runs.{answer_to, desk_after, Run};
ghost use Rattle.session.specs.Desks.{desk_of, calls_made};
ghost use Rattle.session.specs.Slips.{IsUnspent};

use super::session::Session;
use super::slip::StrikeSlip;
use depository::Depository;
use market::{Answer, Call, Outcome, SessionFault};

/// Makes calls one after the other, as many as there is room for answers, and writes the answer of each. It takes the strike
/// slip, if one is held, and hands it on: a strike gives one and annul takes it. Annul without a slip, and a strike while one
/// is held, are refused by 21.
pub fn run<D: Depository>(
    session: &mut Session<D>,
    slip: Option<StrikeSlip>,
    calls: &[Call],
    answers: &mut [Answer],
) -> Option<StrikeSlip>
    ensures run { Run (desk_of session.old slip) (calls_made calls.now answers.new) (desk_of session.new result) }
    ensures unspent { IsUnspent slip → IsUnspent result }
    ensures behind { drop (min (length calls.now) (length answers.old)) answers.new ≡ drop (min (length calls.now) (length answers.old)) answers.old }
    ensures sound { SoundFrom (desk_of session.old slip) session.new.state }
    ensures law { Law }
{
    let mut held = slip;
    // By place: `calls.iter().zip(answers.iter_mut())` was tried, and the loop's invariant cannot say what stands behind the
    // references that the iterator gave out.
    for i in 0..calls.len().min(answers.len()) {
        let (answer, next) = step(session, held, calls[i]);
        held = next;
        answers[i] = answer;
    }
    held
}

// The slip is handed on by value here and below: a struct of session and slip would be taken apart at each call.
/// One call, whichever it is.
fn step<D: Depository>(
    session: &mut Session<D>,
    slip: Option<StrikeSlip>,
    call: Call,
) -> (Answer, Option<StrikeSlip>)
    ensures answer { result.0 ≡ answer_to call (desk_of session.old slip) }
    ensures unspent { IsUnspent slip → IsUnspent result.1 }
    ensures after { desk_of session.new result.1 ≡ desk_after call (desk_of session.old slip) }
{
    // by cases, and no table of closures: runs quantify over calls, so a call is a value
    match call {
        Call::Submit(order) => {
            let accepted = |number| Outcome::Accepted {
                order: number,
                lots: order.lots,
            };
            (session.submit(order).map(accepted), slip)
        }
        Call::Withdraw { participant, order } => {
            let withdrawn = |lots| Outcome::Withdrawn { order, lots };
            (session.withdraw(participant, order).map(withdrawn), slip)
        }
        Call::Strike => strike(session, slip),
        Call::Annul => annul(session, slip),
        Call::Close => (session.close().map(Outcome::Annulled), slip),
    }
}

/// A strike, unless a slip is held already.
fn strike<D: Depository>(
    session: &mut Session<D>,
    slip: Option<StrikeSlip>,
) -> (Answer, Option<StrikeSlip>)
    ensures answer { result.0 ≡ answer_to Striking (desk_of session.old slip) }
    ensures unspent { IsUnspent slip → IsUnspent result.1 }
    ensures after { desk_of session.new result.1 ≡ desk_after Striking (desk_of session.old slip) }
{
    match slip {
        Some(held) => (Err(SessionFault::WrongPhase), Some(held)),
        None => match session.strike() {
            Ok(Some((cut_off, new))) => (Ok(Outcome::CutOff(cut_off)), Some(new)),
            Ok(None) => (Ok(Outcome::Abandoned), None),
            Err(fault) => (Err(fault), None),
        },
    }
}

/// An annul, if there is a slip to spend.
fn annul<D: Depository>(
    session: &mut Session<D>,
    slip: Option<StrikeSlip>,
) -> (Answer, Option<StrikeSlip>)
    ensures answer { result.0 ≡ answer_to Annulling (desk_of session.old slip) }
    ensures unspent { IsUnspent slip → IsUnspent result.1 }
    ensures after { desk_of session.new result.1 ≡ desk_after Annulling (desk_of session.old slip) }
{
    match slip {
        None => (Err(SessionFault::WrongPhase), None),
        Some(held) => match session.annul(held) {
            Ok(lots) => (Ok(Outcome::Annulled(lots)), None),
            Err((fault, back)) => (Err(fault), Some(back)),
        },
    }
}
