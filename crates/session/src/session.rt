use super::book::Book;
use depository::{AccountBook, Depository};
use market::Phase;
use std::marker::Model;

/// A session: the trading of one instrument, from the first order to the close, over a depository of any kind. Of the
/// depository it sees the narrow interface alone, and it holds it until it is closed.
#[derive(Drop)]
pub struct Session<D: Depository> {
    pub(crate) depository: D,
    pub(crate) phase: Phase,
    pub(crate) book: Book,
}

// Seen as its depository and what it means. Every session has what calls rely on, from open on.
impl<D: Depository> Model for Session<D> {
    ghost use Rattle.market.specs.Law.{Kept};
    ghost use Rattle.session.specs.Seen.{Seen};

    ghost Value = { Seen D };

    ghost use Rattle.session.specs.States.{state_of};

    ghost view = { λ s. record { depository = s.depository; state = state_of s.phase s.book (D.AccountBook.accounts s.depository) } };

    ghost invariant = { λ s. Kept (state_of s.phase s.book (D.AccountBook.accounts s.depository)) };
}
