//! The road book.
ghost use Rattle.std.specs.Prelude.{◌≡◌, ◌<◌, ◌≤◌, length};
ghost use Rattle.model.specs.Clock.{horizon};
ghost use Rattle.meanings.specs.Roads.{reached, between, ridden, driven, Rising, Steady, Timely};
ghost use Rattle.meanings.proofs.Lawful.{roads_lawful};

use crate::lists::Lists;
use crate::walks::timely;
use book::Book;
use model::{HORIZON, Point};

/// Each service has a list of points, and arrivals between them in proportion.
pub type Roads<'a> = Lists<'a, Point>;

/// The arrival between two neighbouring points, rounded down.
fn between(from: Point, to: Point, coming: u32) -> u32
    requires { (from.second ≤ coming) × ((coming < to.second) × ((reached from ≤ reached to) × (reached to ≤ horizon))) }
    ensures { result ≡ between from to coming }
{
    let start = from.second + from.travel;
    let rise = (to.second + to.travel - start) as u64;
    let gone = (coming - from.second) as u64;
    let whole = (to.second - from.second) as u64;
    let part = rise * gone / whole;
    start + part as u32
}

/// The arrival by the points of a road.
fn ridden(points: &[Point], coming: u32) -> u32
    requires soon { coming ≤ horizon }
    requires timely { Timely points.now }
    requires rising { Rising points.now }
    requires steady { Steady points.now }
    ensures { result ≡ ridden points.now coming }
{
    let Some((first, more)) = points.split_first() else {
        return coming;
    };
    if coming < first.second {
        return coming + first.travel;
    }
    let mut last = first;
    for next in more {
        if coming < next.second {
            return between(*last, *next, coming);
        }
        last = next;
    }
    coming + last.travel
}

impl<'a> Book for Lists<'a, Point> {
    ghost services = { λ b. length b.spans.now };

    ghost answer = { λ b. driven b.rows.now b.spans.now };

    ghost lawful = { λ b. roads_lawful b.rows.now b.spans.now b.sound };

    fn count(&self) -> u32 {
        self.services()
    }

    fn arrival(&self, service: u32, coming: u32) -> Option<u32> {
        let points = self.list(service)?;
        if coming > HORIZON {
            return None;
        }
        timely(ridden(points, coming))
    }
}
