// An unfinished update on the key, and then a loss, by the calls of one thread over a shared group.
ghost use Rattle.std.specs.Prelude.{◌≡◌, ◌≢◌, ◌<◌, length};
ghost use Rattle.group_types.specs.Names.{IsProcess};
ghost use Rattle.group_stage.specs.Seated.{AreSeatsOf, IsOf, callers_of, shape_of};

use crate::stage::calls::{get, set};
use group_calls::{Answer, Cause};
use group_core::Nodes;
use group_stage::{Seat, Seats, Stage, StageAnswer};
use group_types::{Partition, ProcessId, Shape};
use memc_table::{Op, Reply};
use std::alloc::{AllocError, Global};
use std::test::Fail;

const D0: ProcessId = ProcessId::DataNode(0);

const P0: ProcessId = ProcessId::ParityNode(0);

/// Whether the call became an event with this answer.
fn is_made(ended: Result<StageAnswer, AllocError>, wanted: Answer) -> bool {
    match ended {
        Ok(answer) => answer == StageAnswer::Made(wanted),
        Err(AllocError) => false,
    }
}

fn asks(stage: &Stage, seat: &mut Seat, op: &Op, wanted: Answer) -> bool
    requires seat { IsOf stage.now seat.old }
    requires process { 0 < (shape_of stage.now).k }
    ensures { IsOf stage.now seat.new }
{
    is_made(stage.try_ask(seat, op, D0), wanted)
}

fn collects(stage: &Stage, seat: &mut Seat, wanted: Answer) -> bool
    requires seat { IsOf stage.now seat.old }
    requires process { 0 < (shape_of stage.now).k }
    ensures { IsOf stage.now seat.new }
{
    is_made(stage.try_collect(seat, 0, D0), wanted)
}

fn delivers(stage: &Stage, seat: &mut Seat, from: ProcessId, to: ProcessId, wanted: Answer) -> bool
    requires seat { IsOf stage.now seat.old }
    requires from { IsProcess (shape_of stage.now) from }
    requires to { IsProcess (shape_of stage.now) to }
    requires apart { from ≢ to }
    ensures { IsOf stage.now seat.new }
{
    is_made(stage.try_deliver(seat, from, to), wanted)
}

fn flushes(stage: &Stage, seat: &mut Seat) -> bool
    requires seat { IsOf stage.now seat.old }
    requires process { 0 < (shape_of stage.now).k }
    ensures { IsOf stage.now seat.new }
{
    is_made(stage.try_flush(seat, D0), Answer::Done)
}

fn fails(stage: &Stage, seat: &mut Seat) -> bool
    requires seat { IsOf stage.now seat.old }
    requires process { 0 < (shape_of stage.now).m }
    ensures { IsOf stage.now seat.new }
{
    is_made(stage.try_fail(seat, P0, 0), Answer::Done)
}

fn pending() -> Answer {
    Answer::Retry(Cause::Pending {
        partition: Partition(0),
        number: 1,
    })
}

// The calls of the row: two sets of one key, and a get.
#[derive(Drop)]
struct Ops {
    first: Op,
    second: Op,
    get: Op,
}

// The update waits.
fn begins(stage: &Stage, one: &mut Seat, two: &mut Seat, ops: &Ops) -> bool
    requires one { IsOf stage.now one.old }
    requires two { IsOf stage.now two.old }
    requires data { 0 < (shape_of stage.now).k }
    ensures one { IsOf stage.now one.new }
    ensures two { IsOf stage.now two.new }
{
    let mut good = asks(stage, one, &ops.first, Answer::Ticket(1));
    good = asks(stage, two, &ops.second, pending()) && good;
    good = asks(stage, two, &ops.get, Answer::Reply(Reply::Miss)) && good;
    collects(stage, one, Answer::NotYet) && good
}

// It is settled, and the next one waits.
fn settles(stage: &Stage, one: &mut Seat, two: &mut Seat, ops: &Ops) -> bool
    requires one { IsOf stage.now one.old }
    requires two { IsOf stage.now two.old }
    requires data { 0 < (shape_of stage.now).k }
    requires parity { 0 < (shape_of stage.now).m }
    ensures one { IsOf stage.now one.new }
    ensures two { IsOf stage.now two.new }
{
    let mut good = delivers(stage, one, D0, P0, Answer::Done);
    good = delivers(stage, one, P0, D0, Answer::Done) && good;
    good = collects(stage, one, Answer::Reply(Reply::Stored)) && good;
    good = collects(stage, one, Answer::Stranger) && good;
    good = delivers(stage, one, D0, P0, Answer::Idle) && good;
    asks(stage, two, &ops.second, Answer::Ticket(2)) && good
}

// The row, and then a flush and a loss.
fn plays(stage: &Stage, one: &mut Seat, two: &mut Seat, ops: &Ops) -> bool
    requires one { IsOf stage.now one.old }
    requires two { IsOf stage.now two.old }
    requires data { 0 < (shape_of stage.now).k }
    requires parity { 0 < (shape_of stage.now).m }
    ensures one { IsOf stage.now one.new }
    ensures two { IsOf stage.now two.new }
{
    let mut good = begins(stage, one, two, ops);
    good = settles(stage, one, two, ops) && good;
    good = flushes(stage, one) && good;
    fails(stage, two) && good
}

fn only_the_parity_is_dead(nodes: &Nodes) -> bool {
    nodes.count() == 2 && !nodes.node(0).is_dead() && nodes.node(1).is_dead()
}

// Whether the row is played, and the nodes are there when the stage is closed.
fn closes(stage: Stage, all: Seats, ops: &Ops) -> bool
    requires seats { AreSeatsOf stage all.seats }
    requires many { length all.seats ≡ callers_of stage }
    requires made { length all.seats ≡ all.made }
    requires data { 0 < (shape_of stage).k }
    requires parity { 0 < (shape_of stage).m }
{
    let mut seats = all;
    let Some(mut two) = seats.take() else {
        return false;
    };
    let Some(mut one) = seats.take() else {
        return false;
    };
    let good = plays(&stage, &mut one, &mut two, ops);
    seats.put(one);
    seats.put(two);
    match stage.close(seats) {
        Ok(nodes) => good && only_the_parity_is_dead(&nodes),
        Err(_) => false,
    }
}

fn row(alloc: Global, shape: Shape, ops: &Ops) -> bool
    requires data { 0 < shape.k }
    requires parity { 0 < shape.m }
{
    match Stage::new(alloc, shape, 2) {
        Ok((stage, seats)) => closes(stage, seats, ops),
        Err(AllocError) => false,
    }
}

#[test]
fn one_thread_plays_a_row(rt: HostRuntime) -> Result<(), Fail> {
    let alloc = rt.alloc();
    let shape = Shape::new(1, 1, 1, 16)?;
    let ops = Ops {
        first: set(&rt, alloc, 1),
        second: set(&rt, alloc, 2),
        get: get(&rt, alloc),
    };
    let good = row(alloc, shape, &ops);
    drop(ops);
    assert!(rt; good);
    Ok(())
}
