use market::{NewOrder, SessionFault};
use units::{Lots, Participant, Price, RefusalCode, Side};

/// An order as it is handed in.
pub(crate) fn order(who: u16, side: Side, limit: u32, lots: u64) -> NewOrder {
    NewOrder {
        participant: Participant(who),
        side,
        limit: Price(limit),
        lots: Lots(lots),
    }
}

/// What the rules know a refusal by.
pub(crate) fn number_of(fault: SessionFault) -> u8 {
    RefusalCode::from(fault).number
}
