#![tactic(auto)]

//! What participants hold: what every depository means and promises, and what one is made of. Who writes one keeps the
//! accounts in memory of their own and brings one write, `AccountStore::apply`; every store is then a depository with a
//! back office.

mod account;
mod amount;
mod back_office;
mod book;
mod change;
mod decision;
mod delivery;
mod each_account;
mod every_store;
mod fault;
mod figures;
mod held;
mod interface;
mod store;

pub use account::Account;
pub use amount::Amount;
pub use back_office::BackOffice;
pub use book::AccountBook;
pub use change::Change;
pub use decision::decide;
pub use delivery::Delivery;
pub use each_account::EachAccount;
pub use fault::DepositoryFault;
pub use figures::after;
pub use held::{Holdings, held_in_all};
pub use interface::Depository;
pub use store::AccountStore;
