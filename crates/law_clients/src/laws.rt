ghost use Rattle.law_clients.specs.Laws.{WrittenInOrder, WrittenIsLogged};

/// Of a connection that was answered each call that ended by a reply is logged for what was asked, with this reply, between
/// its begin and its end, and changed the table by this entry alone; those of one sequence in the order of the requests.
pub fn written_is_logged()
    ensures { WrittenIsLogged }
{}

/// Where no two calls of the connection overlap, all of them are so logged in the order of the requests.
pub fn written_in_order()
    ensures { WrittenInOrder }
{}
