//! What the parts of a network file ask of each other.
ghost use Rattle.std.specs.Prelude.{◌≡◌};
ghost use Rattle.formats.specs.NetworkFile.{second_before, least_second, least_reached};

use model::Point;

/// The form of a network file, its first number.
pub const NETWORK_FORM: u32 = 1;

/// The second that a road point's gap counts from, after the point `before`, if there is one.
pub fn second_before(before: Option<Point>) -> u32
    ensures { result ≡ second_before before }
{
    before.map_or(0, |p| p.second)
}

/// The least second that a road's point can have, after the point `before`, if there is one.
pub fn least_second(before: Option<Point>) -> u64
    ensures { result ≡ least_second before }
{
    before.map_or(0, |p| p.second as u64 + 1)
}

/// The least arrival that a road's point can have, after the point `before`, if there is one.
pub fn least_arrival(before: Option<Point>) -> u64
    ensures { result ≡ least_reached before }
{
    before.map_or(0, Point::reached)
}
