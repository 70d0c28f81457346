ghost use Rattle.std.specs.Prelude.{◌≡◌, ℕ, ◌≤◌, List, length, sum};
ghost use Rattle.std.specs.List.{AllZip};
ghost use Rattle.sharing.specs.Shares.{lots_of, Accepted, sharing_answer, lines_after};

use super::fault::SharingFault;
use super::shares::Share;
use units::Lots;

/// A way to share a total out among the lines of one price level, which stand in the order of their time.
///
/// To write a rule of your own, in a crate of your own (`ByTime` is the smallest example):
///
/// 1. Say in a file of specs/ which shares the rule gives: a function from the lines' lots and the total to the shares.
///    `shares` names it. It has no other input but the rule itself, so a rule's settings are fields of its struct.
/// 2. Prove the three laws of that function. They are owed only where lines and total are `Accepted`, that is where
///    nothing is refused; elsewhere it may be anything.
/// 3. Let `share` begin with `checked_sum(lines, total)?`, which refuses exactly where every rule refuses, and answers the
///    sum of the lots. Then write each line's share, and leave its lots. Nothing is written before the check.
///
/// Of this crate's lemmas, `check_passed`, `answered` and `written` (proofs/Faults.antt) close the method's two clauses, and
/// those of specs/Walks.antt a loop that writes a share on each line.
pub trait SharingRule {
    /// The shares of the lines with these lots, in their order, out of this total.
    ghost shares: { Self → List ℕ → ℕ → List ℕ };

    /// Writes each line's share beside its lots. A refused call leaves all lines as they were.
    fn share(&self, lines: &mut [Share], total: Lots) -> Result<(), SharingFault>
        ensures answer { result ≡ sharing_answer (lots_of lines.old) total.0 }
        ensures after { lines.new ≡ lines_after (shares self.now) lines.old total.0 };

    /// Each line has a share.
    ghost each: { (rule : Self) (lots : List ℕ) (total : ℕ) → Accepted lots total → length (shares rule lots total) ≡ length lots };

    /// No share is above its line's lots.
    ghost within: { (rule : Self) (lots : List ℕ) (total : ℕ) → Accepted lots total → AllZip ◌≤◌ (shares rule lots total) lots };

    /// Together they make the total.
    ghost whole: { (rule : Self) (lots : List ℕ) (total : ℕ) → Accepted lots total → sum (shares rule lots total) ≡ total };
}
