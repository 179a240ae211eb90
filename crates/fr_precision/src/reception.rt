ghost use Rattle.fr_precision.specs.Reception.{ArrivalsLieInSlots, RoomChecksSuffice};

/// The law of reception: where the action point leaves room in its slot for how far the action points lie
/// apart, as it does for the precision under the last two checks, each frame arrives within its slot.
pub fn frames_arrive_in_slots()
    ensures arrives { ArrivalsLieInSlots }
    ensures checks { RoomChecksSuffice }
{}
