ghost use Rattle.std.specs.Prelude.{◌≡◌, ◌≢◌, ◌+◌, ◌++◌, ◌∷◌, [], Some, None, drop, false, IsSome, OnSome};
ghost use Rattle.slab.specs.Slab.{slab_len, Updates};
ghost use Rattle.ready_places.specs.Placed.{HasPlace, placed_at};
ghost use Rattle.ready_places.specs.Queue.{first_of};
ghost use Rattle.ready_worker.specs.Queued.{AreQueued, StayQueued};

use crate::notice::Notice;
use ready_client::Turn;
use ready_places::Places;

/// Puts the values of all that is told of and has a place at the head of the queue, and says how many didn't stand in it.
pub(crate) fn queue_all<T: Drop>(places: &mut Places<T>, notices: &[Notice]) -> usize
    ensures values { places.new.values ≡ places.old.values }
    ensures queued { AreQueued places.new notices.now }
    ensures stay { StayQueued places.old.queue places.new.queue }
{
    let mut count: usize = 0;
    'notices: for notice in notices {
        if places.put_first(notice.key) {
            count = count.saturating_add(1);
        }
    }
    count
}

/// Settles what becomes of the value at the head of the queue after its turn: it is queued again, at the end, waits to be told
/// of, or is let go.
pub(crate) fn settle<T: Drop>(places: &mut Places<T>, key: usize, turn: Turn) -> Option<T>
    requires place { HasPlace places.old key }
    requires first { first_of places.old.queue ≡ Some key }
    ensures more { turn ≡ Turn.More → places.new ≡ record places.old { queue = drop 1 places.old.queue ++ key ∷ [] } }
    ensures waits { turn ≢ Turn.More → turn ≢ Turn.Over
        → places.new ≡ record places.old { queue = drop 1 places.old.queue } }
    ensures stays { turn ≢ Turn.Over → result ≡ None }
    ensures over { turn ≡ Turn.Over → Updates places.old.values places.new.values key None }
    ensures gone { turn ≡ Turn.Over → IsSome result × (result ≡ placed_at places.old key) }
    ensures queue { turn ≡ Turn.Over → places.new.queue ≡ drop 1 places.old.queue }
    ensures len { OnSome result (slab_len places.new.values + 1 ≡ slab_len places.old.values) }
{
    let _ = places.take_first();
    match turn {
        Turn::More => places.put_last(key),
        Turn::Waits | Turn::AwaitsCall | Turn::AwaitsCaller => {}
        Turn::Over => return places.remove(key),
    }
    None
}

/// What a turn comes to where calls may be under way: a client is over only once these have ended.
pub(crate) fn with_call(turn: Turn, has_calls: bool) -> Turn
    ensures over { result ≡ Turn.Over → (turn ≡ Turn.Over) × (has_calls ≡ false) }
    ensures other { turn ≢ Turn.Over → result ≡ turn }
    ensures none { has_calls ≡ false → result ≡ turn }
{
    match turn {
        Turn::Over if has_calls => Turn::AwaitsCall,
        _ => turn,
    }
}
