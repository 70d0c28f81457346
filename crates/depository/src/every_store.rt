use super::amount::Amount;
use super::back_office::BackOffice;
use super::change::Change;
use super::delivery::Delivery;
use super::fault::DepositoryFault;
use super::interface::Depository;
use super::store::AccountStore;
use units::Participant;

impl<S: AccountStore> Depository for S {
    fn block(&mut self, who: Participant, what: Amount) -> Result<(), DepositoryFault> {
        self.apply(who, Change::Block(what))
    }

    fn release(&mut self, who: Participant, what: Amount) -> Result<(), DepositoryFault> {
        self.apply(who, Change::Release(what))
    }

    fn deliver(&mut self, delivery: Delivery) -> Result<(), DepositoryFault> {
        delivery.make_in(self)
    }
}

impl<S: AccountStore> BackOffice for S {
    fn pay_in(&mut self, who: Participant, what: Amount) -> Result<(), DepositoryFault> {
        self.apply(who, Change::Gain(what))
    }

    fn pay_out(&mut self, who: Participant, what: Amount) -> Result<(), DepositoryFault> {
        self.apply(who, Change::Lose(what))
    }
}
