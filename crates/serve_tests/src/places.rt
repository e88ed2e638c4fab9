// A queue of values that have a place: each that is put is taken, in the order that was asked for.
use ready_places::Places;
use std::alloc::Global;
use std::process::Abort;

/// How many values there are.
const COUNT: usize = 1_000;

/// All of them have a place, and none is queued.
fn placed(rt: &impl Abort, alloc: Global) -> Places<usize> {
    let mut places = Places::new(alloc);
    for value in 0..COUNT {
        assert!(rt; places.insert(value), "value {value} has a place");
    }
    places
}

/// The next that is taken is this one.
fn takes(rt: &impl Abort, places: &mut Places<usize>, wanted: Option<usize>) {
    assert_eq!(rt; places.take_first(), wanted);
}

#[test]
fn are_taken_in_their_order(rt: HostRuntime) {
    let mut places = placed(&rt, rt.alloc());
    for _ in 0..100 {
        for key in 0..COUNT {
            places.put_last(key);
            places.put_last(key);
        }
        for key in 0..COUNT {
            takes(&rt, &mut places, Some(key));
        }
        takes(&rt, &mut places, None);
    }
}

#[test]
fn those_put_first_come_before_those_put_last(rt: HostRuntime) {
    let mut places = placed(&rt, rt.alloc());
    for key in 0..COUNT {
        if key % 2 == 0 {
            places.put_last(key);
        } else {
            assert!(rt; places.put_first(key));
        }
        assert!(rt; !places.put_first(key));
    }
    for key in (0..COUNT).rev() {
        if key % 2 == 1 {
            takes(&rt, &mut places, Some(key));
        }
    }
    for key in 0..COUNT {
        if key % 2 == 0 {
            takes(&rt, &mut places, Some(key));
        }
    }
    takes(&rt, &mut places, None);
}
