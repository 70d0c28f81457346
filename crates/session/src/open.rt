ghost use Rattle.std.specs.Prelude.{◌≡◌, IfOk};
ghost use Rattle.market.specs.Calls.{nothing_blocked, open_answer, opened};
ghost use Rattle.market.specs.Law.{Kept, NewlyOpened, CallsKeep};
ghost use Rattle.session.specs.Opening.{session_in, refusal_in};

use super::book::Book;
use super::session::Session;
use depository::{AccountBook, Depository, EachAccount};
use market::{Phase, SessionFault};
use units::{Lots, Money};

impl<D: Depository> Session<D> {
    /// Opens a session over a depository. Where anything is blocked in it (22), the session that comes with the refusal is
    /// Closed: it counts as not opened, and is there to hand the depository back.
    // Not inlined: a session is large, and the compiler takes minutes over a caller that builds one in place and moves it on.
    #[inline(never)]
    pub fn open(depository: D) -> Result<Session<D>, (SessionFault, Session<D>)>
        ensures answer { refusal_in result ≡ open_answer (D.AccountBook.accounts depository) }
        ensures session { (session_in result).state ≡ opened (D.AccountBook.accounts depository) }
        ensures newly { IfOk result (λ s. NewlyOpened s.state) }
        ensures kept { Kept (session_in result).state }
        ensures calls_keep { CallsKeep }
    {
        let mut session = Session {
            depository,
            phase: Phase::Closed,
            book: Book::new(),
        };
        if !nothing_blocked(&session.depository) {
            return Err((SessionFault::SomethingBlocked, session));
        }
        session.phase = Phase::Gathering;
        Ok(session)
    }
}

/// Whether nobody has anything blocked.
fn nothing_blocked<B: AccountBook>(book: &B) -> bool
    ensures { result ≡ nothing_blocked (B.AccountBook.accounts book.now) }
{
    EachAccount::of(book).all(|account| account.blocked_lots == Lots(0)
        && account.blocked_money == Money(0))
}
