ghost use Rattle.hg_event.specs.FirstLaws.{EventsAreSized, FirstFaultsAreFaults, FirstsAreRead, FirstsStand};
ghost use Rattle.hg_event.specs.FirstLaws.{NoneTrails, ShortsAreShort};
ghost use Rattle.hg_event.specs.Laws.{RowsAreOne, RowsAreSpelled, SpellingsAreOne, SpellingsAreRead};

/// A law: one row has exactly one spelling, which spells no other row, and reading gives the row again.
pub fn one_spelling()
    ensures some { RowsAreSpelled }
    ensures one { SpellingsAreOne }
    ensures of_one { RowsAreOne }
    ensures read { SpellingsAreRead }
{}

/// A law: an event at the front of some bytes is read whatever follows it, and until it is whole no more is said of it
/// than that the bytes are too few; what sizes events have; and the fault at the front is that of all the bytes.
pub fn front_events()
    ensures stand { FirstsStand }
    ensures read { FirstsAreRead }
    ensures sized { EventsAreSized }
    ensures short { ShortsAreShort }
    ensures none_trails { NoneTrails }
    ensures faults { FirstFaultsAreFaults }
{}
