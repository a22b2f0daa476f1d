//! Laws of the room that is left, each as the contract of a call that does nothing.
ghost use Rattle.plant_room.specs.Laws.{EntriesLeaveRoom, StartsHaveRoom};

/// Every legal entry that the protocol's counts allow, but an ending, leaves less room to be needed, by at least what it takes
/// itself; of text a line does not.
pub fn entries_leave_room()
    ensures { EntriesLeaveRoom }
{}

/// How much room is needed from the start on.
pub fn starts_have_room()
    ensures { StartsHaveRoom }
{}
