ghost use Rattle.std.specs.Prelude.{◌≡◌, ◌↔◌, IsTrue, IfOk};
ghost use Rattle.scenario_run.specs.Lines.{lines_of};
ghost use Rattle.run_verify.specs.Passing.{RunFitsValue};
ghost use Rattle.run_verify.specs.Runs.{ArePlacesOf, IsRunAmong, Names, Rise, rank_of};

use group_types::{Run, Shape};
use scenario_run::cut_line;
use std::alloc::{AllocError, Global};
use std::marker::Model;
use transcript_text::Place;
use transcript_text::place::read_place;

/// The places that a transcript tells, in order. Those of a right one rise, so that a run is found by halving.
#[derive(Drop)]
pub(crate) struct Places {
    places: Vec<Place>,
    rising: bool,
}

impl Model for Places {
    ghost use Rattle.std.specs.Prelude.{List, IsTrue};
    ghost use Rattle.run_verify.specs.Runs.{Rise};
    ghost use Rattle.transcript_text.specs.declared.place.Place.{Place};

    ghost Value = { List Place };

    ghost view = { λ p. p.places.items };

    ghost invariant = { λ p. IsTrue p.rising → Rise p.places.items };
}

impl Places {
    /// Reads the places of a transcript.
    pub(crate) fn read(alloc: Global, text: &[u8]) -> Result<Places, AllocError>
        ensures { IfOk result (ArePlacesOf (lines_of text.now)) }
    {
        let places = read_places(alloc, text)?;
        let rising = rise(&places);
        Ok(Places { places, rising })
    }

    /// The run of a value of this length, by the first place that names its update and can be.
    pub(crate) fn find(&self, shape: Shape, partition: u32, number: u64, len: usize) -> Option<Run>
        ensures { IsRunAmong self.now shape partition number len result }
    {
        if self.rising {
            return find_rising(&self.places, shape, partition, number, len);
        }
        find_run(&self.places, shape, partition, number, len)
    }
}

/// The places that a transcript tells, in order.
fn read_places(alloc: Global, text: &[u8]) -> Result<Vec<Place>, AllocError>
    ensures { IfOk result (λ places. ArePlacesOf (lines_of text.now) places.items) }
{
    let mut places = Vec::new(alloc);
    let mut rest = text;
    'lines: while !rest.is_empty() {
        let (line, more) = cut_line(rest);
        if let Some(place) = read_place(line) {
            places.push(place)?;
        }
        rest = more;
    }
    Ok(places)
}

/// Whether each place is behind the one before.
fn rise(places: &[Place]) -> bool
    ensures { IsTrue result → Rise places.now }
{
    let mut rest = places;
    'places: while let [place, next, ..] = rest {
        if rank(*next) <= rank(*place) {
            return false;
        }
        rest = &rest[1..];
    }
    true
}

/// The rank of a place.
fn rank(place: Place) -> u128
    ensures { result ≡ rank_of place.partition place.number }
{
    rank_of(place.partition, place.number)
}

/// A number by which places are in the order of their partitions, and then of their own numbers.
fn rank_of(partition: u32, number: u64) -> u128
    ensures { result ≡ rank_of partition number }
{
    u128::from(partition) * (1 << 64) + u128::from(number)
}

/// The run that is found so among places that rise.
fn find_rising(
    places: &[Place],
    shape: Shape,
    partition: u32,
    number: u64,
    len: usize,
) -> Option<Run>
    requires { Rise places.now }
    ensures { IsRunAmong places.now shape partition number len result }
{
    let wanted = rank_of(partition, number);
    let first = places.partition_point(|place| rank(*place) < wanted);
    if first == places.len() {
        return None;
    }
    let place = places[first];
    if is_named(place, shape, partition, number, len) {
        return Some(place.run);
    }
    None
}

/// The run that is found so among any places.
fn find_run(places: &[Place], shape: Shape, partition: u32, number: u64, len: usize) -> Option<Run>
    ensures { IsRunAmong places.now shape partition number len result }
{
    let mut rest = places;
    'places: while let [place, more @ ..] = rest {
        if is_named(*place, shape, partition, number, len) {
            return Some(place.run);
        }
        rest = more;
    }
    None
}

/// Whether a place names this update, and can be the run of a value of this length.
fn is_named(place: Place, shape: Shape, partition: u32, number: u64, len: usize) -> bool
    ensures { IsTrue result ↔ Names shape partition number len place }
{
    place.partition == partition && place.number == number && is_fit(shape, place.run, len)
}

/// Whether a run has this length, and lies in the space.
pub(crate) fn is_fit(shape: Shape, run: Run, len: usize) -> bool
    ensures { IsTrue result ↔ RunFitsValue shape len run }
{
    run.len as usize == len && u64::from(run.at) + u64::from(run.len) <= u64::from(shape.space())
}
