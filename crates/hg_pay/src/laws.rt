ghost use Rattle.hg_pay.specs.Laws.{BooksGoOn, EffectsAreMany, PaysAreRead, PaysAreOne, RowsLeaveTheBook, SumIsKept};

/// A law: the sum of all balances never changes, whatever is ordered.
pub fn sum_is_kept()
    ensures { SumIsKept }
{}

/// A law: the book of an order has an effect of each of its events, goes on where the order does, and stays where rows
/// come.
pub fn books_go_on()
    ensures effects { EffectsAreMany }
    ensures more { BooksGoOn }
    ensures rows { RowsLeaveTheBook }
{}

/// A law: transfers and the bytes of their payload are told by each other.
pub fn pays_are_spelled()
    ensures read { PaysAreRead }
    ensures one { PaysAreOne }
{}
