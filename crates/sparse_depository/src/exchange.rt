ghost use Rattle.std.specs.Prelude.{◌≡◌, ℕ, ◌<◌, ◌≤◌, true, length, MatchOption, ◌≢◌, slice_index_or};
ghost use Rattle.ordered_list.specs.Lent.{lines_in};
ghost use Rattle.sparse_depository.specs.Entries.{look, number, rising, without, replaced, nobody};

use super::entry::AccountEntry;
use depository::Account;
use ordered_list::OrderedList;
use units::Participant;

/// What the entries say of a participant: an empty account where there is no entry.
pub(crate) fn account_in(entries: &[AccountEntry], who: Participant) -> Account
    ensures { result ≡ look entries.now who.0 }
{
    match entries.iter().find(|entry| entry.who == who) {
        Some(entry) => entry.account,
        None => Account::EMPTY,
    }
}

/// The index of the participant's entry, if there is one.
// A session's queue finds and takes out its entries likewise: by participant here, by order number there. The keys are two,
// and the library's `position` and `find` do the work.
fn position_of(entries: &[AccountEntry], who: Participant) -> Option<usize>
    ensures { MatchOption result ((k : ℕ) → k < length entries.now → number (slice_index_or entries.now k nobody) ≢ who.0) (λ i. (i < length entries.now) × (number (slice_index_or entries.now i nobody) ≡ who.0)) }
{
    entries.iter().position(|entry| entry.who == who)
}

/// Takes the participant's entry out of the list, if there is one.
fn take_out(list: &mut OrderedList<'_, AccountEntry>, who: Participant)
    requires few { list.old.len ≤ length list.old.lines.now }
    requires rises { rising 1 (lines_in list.old) ≡ true }
    ensures same { list.new.lines.ghost_name ≡ list.old.lines.ghost_name }
    ensures long { length list.new.lines.now ≡ length list.old.lines.now }
    ensures few { list.new.len ≤ length list.new.lines.now }
    ensures list { lines_in list.new ≡ without who.0 (lines_in list.old) }
{
    let Some(at) = position_of(list.lines(), who) else {
        return;
    };
    let _ = list.remove(at);
}

/// Gives the participant this account: its entry goes, and a new one comes where something is held.
pub(crate) fn exchange(list: &mut OrderedList<'_, AccountEntry>, who: Participant, account: Account)
    requires few { list.old.len ≤ length list.old.lines.now }
    requires rises { rising 1 (lines_in list.old) ≡ true }
    requires room { length (replaced who account (lines_in list.old)) ≤ length list.old.lines.now }
    ensures same { list.new.lines.ghost_name ≡ list.old.lines.ghost_name }
    ensures long { length list.new.lines.now ≡ length list.old.lines.now }
    ensures few { list.new.len ≤ length list.new.lines.now }
    ensures list { lines_in list.new ≡ replaced who account (lines_in list.old) }
{
    take_out(list, who);
    if account.is_empty() {
        return;
    }
    let _ = list.insert(AccountEntry { who, account });
}
