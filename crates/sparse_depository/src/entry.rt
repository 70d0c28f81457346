ghost use Rattle.sparse_depository.specs.Entries.{by_participant, number};
ghost use Rattle.ordered_list.proofs.Keys.{upward-lawful};

use depository::Account;
use ordered_list::Ranked;
use units::Participant;

/// The account that the sparse depository keeps of one participant.
#[derive(Clone, Copy, Default)]
pub(crate) struct AccountEntry {
    pub(crate) who: Participant,
    pub(crate) account: Account,
}

impl Ranked for AccountEntry {
    ghost after = { by_participant };

    ghost apart = { (upward-lawful number).apart };

    ghost chain = { (upward-lawful number).chain };

    ghost alike = { (upward-lawful number).alike };

    fn ranks_after(&self, other: &AccountEntry) -> bool {
        self.who > other.who
    }
}
