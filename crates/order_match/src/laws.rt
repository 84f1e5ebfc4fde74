ghost use Rattle.order_match.specs.Laws.{BooksGoOn, EventsAreCounted, NothingIsLost, RequestsAreOne, RequestsAreRead};

/// A law: the book of an order goes on where the order does, and counts its events.
pub fn books_go_on()
    ensures more { BooksGoOn }
    ensures count { EventsAreCounted }
{}

/// A law: what was placed on a side was traded, or rests, or was taken back; as much is bought as is sold.
pub fn nothing_is_lost()
    ensures { NothingIsLost }
{}

/// A law: a request and the bytes of its payload are told by each other.
pub fn requests_are_spelled()
    ensures read { RequestsAreRead }
    ensures one { RequestsAreOne }
{}
