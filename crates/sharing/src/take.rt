ghost use Rattle.std.specs.Prelude.{◌≡◌, ◌-◌, min};

use units::Lots;

/// Takes from what is left as many lots as there is room for, and answers how many.
pub(crate) fn take(left: &mut Lots, room: Lots) -> Lots
    ensures taken { result.0 ≡ min room.0 left.old.0 }
    ensures rest { left.new.0 ≡ left.old.0 - min room.0 left.old.0 }
{
    let part = room.min(*left);
    left.0 -= part.0;
    part
}
