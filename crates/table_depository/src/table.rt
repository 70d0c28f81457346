ghost use Rattle.std.specs.Prelude.{◌≡◌, length, replicate};
ghost use Rattle.depository.specs.Accounts.{empty, Within};

use depository::Account;

/// Every participant's account, participant 1's first.
// Ghost fields, and no model: the laws of a book hold of each value of its type, and a model's value does not carry its
// invariant.
#[derive(Clone, Copy)]
pub struct TableDepository {
    pub(crate) accounts: [Account; 64],
    ghost everyone: { length accounts ≡ 64 },
    ghost within: { Within accounts },
}

impl TableDepository {
    /// Nobody holds anything.
    pub fn new() -> TableDepository
        ensures { result.accounts ≡ replicate 64 empty }
    {
        TableDepository {
            accounts: [Account::EMPTY; 64],
        }
    }
}
