//! Whether a centre was full where an agent's entry, which it hasn't made, could stand.
ghost use Rattle.std.specs.Prelude.{◌≡◌, ◌↔◌, ◌<◌, ◌≤◌, All, IsTrue, length, ℕ};
ghost use Rattle.std.specs.List.Sorted.{IsPartitionPoint};
ghost use Rattle.tc_desk.specs.Served.{WasFull};
ghost use Rattle.tc_model.specs.State.{Origin};
ghost use Rattle.tc_rows.specs.Fulls.{ArePoints};
ghost use Rattle.tc_rows.specs.Fulls as fulls;
ghost use Rattle.tc_rows.specs.Gaps.{HasLoadWithin, HasPointWithin, IsBehind, IsBetween};
ghost use Rattle.tc_rows.specs.Gaps.{IsLoadedWithin, IsNextPlace, WasFullSomehow};
ghost use Rattle.tc_rows.specs.Made.{AreAllMade, HasNoEntry, lists_of};

use crate::fulls::{FullPoint, Load};
use crate::made::{Made, Makers, cut, made_by};
use tc_model::{CallId, Entry};

/// Whether the centre was full when the agent came to an ask of which no entry has the number.
pub(crate) fn was_full(points: &[FullPoint], makers: &Makers, history: &[Entry], id: CallId) -> bool
    requires made { AreAllMade (lists_of makers.now.items) history.now }
    requires none { HasNoEntry id.agent id.number history.now }
    requires rise { fulls.Rise points.now }
    ensures { (origin : Origin) → ArePoints origin history.now points.now
        → (IsTrue result ↔ WasFullSomehow origin history.now id) }
{
    let (from, to) = gap(makers, history, id);
    has_point(points, from, to)
}

/// Whether it was full with this load.
pub(crate) fn was_full_with(
    points: &[FullPoint],
    makers: &Makers,
    history: &[Entry],
    id: CallId,
    load: Load,
) -> bool
    requires made { AreAllMade (lists_of makers.now.items) history.now }
    requires none { HasNoEntry id.agent id.number history.now }
    requires rise { fulls.Rise points.now }
    ensures { (origin : Origin) → ArePoints origin history.now points.now
        → (IsTrue result ↔ WasFull origin history.now id load.weight load.pending) }
{
    let (from, to) = gap(makers, history, id);
    has_load(points, from, to, load)
}

// The first and the last place at which an entry of this number, which the agent hasn't made, could
// stand.
fn gap(makers: &Makers, history: &[Entry], id: CallId) -> (usize, usize)
    requires made { AreAllMade (lists_of makers.now.items) history.now }
    requires none { HasNoEntry id.agent id.number history.now }
    ensures { (place : ℕ) → place ≤ length history.now
        → (IsBetween id.agent id.number history.now place
        ↔ ((result.0 ≤ place) × (place ≤ result.1))) }
{
    let made = made_by(makers, id.agent);
    let first = cut(made, id.number);
    (
        place_behind(made, first),
        place_of_next(made, first, history.len()),
    )
}

// The place behind the last of the first entries.
fn place_behind(made: &[Made], first: usize) -> usize
    requires inside { first ≤ length made.now }
    requires small { All (λ m. m.place < usize.MAX) made.now }
    ensures { IsBehind made.now first result }
{
    if first == 0 {
        return 0;
    }
    made[first - 1].place + 1
}

// The place of the next entry, or the end where there is none.
fn place_of_next(made: &[Made], next: usize, end: usize) -> usize
    ensures { IsNextPlace made.now next end result }
{
    match made.get(next) {
        Some(m) => m.place,
        None => end,
    }
}

// Whether a point stands between these places.
fn has_point(points: &[FullPoint], from: usize, to: usize) -> bool
    requires { fulls.Rise points.now }
    ensures { IsTrue result ↔ HasPointWithin points.now from to }
{
    let first = point_at(points, from);
    match points.get(first) {
        Some(point) => point.place <= to,
        None => false,
    }
}

// Whether a point with this load stands between these places.
fn has_load(points: &[FullPoint], from: usize, to: usize, load: Load) -> bool
    requires { fulls.Rise points.now }
    ensures { IsTrue result ↔ HasLoadWithin points.now from to load }
{
    let first = point_of(points, load.weight);
    match points.get(first) {
        Some(point) => is_loaded_within(point, from, to, load),
        None => false,
    }
}

// Whether the point has this load, and stands between these places.
fn is_loaded_within(point: &FullPoint, from: usize, to: usize, load: Load) -> bool
    ensures { IsTrue result ↔ IsLoadedWithin point.now from to load }
{
    point.load.weight == load.weight
        && point.load.pending == load.pending
        && from <= point.place
        && point.place <= to
}

// How many of the points stand before this place: they are the first.
fn point_at(points: &[FullPoint], place: usize) -> usize
    requires { fulls.Rise points.now }
    ensures inside { result ≤ length points.now }
    ensures point { IsPartitionPoint (λ p. p.place < place) (λ p. place ≤ p.place)
        points.now result }
{
    points.partition_point(|p| p.place < place)
}

// How many of the points have less weight: they are the first.
fn point_of(points: &[FullPoint], weight: u64) -> usize
    requires { fulls.Rise points.now }
    ensures inside { result ≤ length points.now }
    ensures point { IsPartitionPoint (λ p. p.load.weight < weight) (λ p. weight ≤ p.load.weight)
        points.now result }
{
    points.partition_point(|p| p.load.weight < weight)
}
