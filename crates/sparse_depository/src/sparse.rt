ghost use Rattle.std.specs.Prelude.{◌≡◌, ◌≤◌, true, length, take, replicate};
ghost use Rattle.depository.specs.Accounts.{empty, Within};
ghost use Rattle.sparse_depository.specs.Entries.{accounts_of, rising, all_hold};

use super::entry::AccountEntry;

/// The accounts of those who hold something, in the order of their participants' numbers.
///
/// The memory has a place for each of the 64 participants, so it never runs out.
// Memory with a count, and no `OrderedArray`. Ghost fields, and no model: the laws of a book hold of each value of its type,
// and a model that forgets the memory behind the entries, as that of `OrderedArray` does, would take `Copy` from it.
#[derive(Clone, Copy)]
pub struct SparseDepository {
    pub(crate) entries: [AccountEntry; 64],
    pub(crate) count: usize,
    ghost long: { length entries ≡ 64 },
    ghost few: { count ≤ 64 },
    ghost rises: { rising 1 (take count entries) ≡ true },
    ghost hold: { all_hold (take count entries) ≡ true },
    ghost within: { Within (accounts_of (take count entries)) },
}

impl SparseDepository {
    ghost use Rattle.sparse_depository.specs.Book.{accounts_in};

    /// Nobody holds anything, so there is no entry.
    #[tactic(auto, using(crate::specs::EntriesLemmas::no_entries, crate::specs::EntriesLemmas::within_none))]
    pub fn new() -> SparseDepository
        ensures accounts { accounts_in result ≡ replicate 64 empty }
        ensures none { result.count ≡ 0 }
    {
        SparseDepository {
            entries: [AccountEntry::default(); 64],
            count: 0,
        }
    }

    /// For how many participants there is an entry.
    pub fn entry_count(&self) -> usize
        ensures { result ≡ length (take self.now.count self.now.entries) }
    {
        self.count
    }
}
