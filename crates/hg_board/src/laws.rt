ghost use Rattle.hg_board.specs.Laws.{MakesAddOne, OtherMakesAddNone, OtherPublishesAddNone, OtherPutsAddNone, PublishesAddOne, PutsAddOne, TurnsTakeEach};

/// A law: a put that was accepted adds one change, as the node does; any other adds none.
pub fn shared_puts_add_one<V>()
    ensures one { PutsAddOne V }
    ensures none { OtherPutsAddNone V }
{}

/// A law: to make an event adds one change, as the node does; to be refused adds none.
pub fn shared_makes_add_one<V>()
    ensures one { MakesAddOne V }
    ensures none { OtherMakesAddNone V }
{}

/// A law: to publish adds one change where it marks a witness, as the node does; else none.
pub fn shared_publishes_add_one<V>()
    ensures one { PublishesAddOne V }
    ensures none { OtherPublishesAddNone V }
{}

/// A law: events of different names that come in one turn are put one after the other, but for those whose names the node
/// had.
pub fn turns_take_each<V>()
    ensures { TurnsTakeEach V }
{}
