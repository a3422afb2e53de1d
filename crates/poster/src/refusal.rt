//! The tests that a poster is put to before anything is listed.
ghost use Rattle.std.specs.Prelude.{◌≡◌, Some, None, MatchResult};
ghost use Rattle.poster.specs.Posted.{refusal_of};

use model::{HORIZON, Refusal};
use network::Network;

/// Puts a poster to the tests, where there are so many queue slots: refused by the first that fails.
pub(crate) fn test(
    network: Network<'_>,
    stop: u32,
    second: u32,
    slots: usize,
) -> Result<(), Refusal>
    ensures { MatchResult result (λ _. refusal_of network.entry.stops network.entry.arcs.now stop second slots ≡ None) (λ refused. refusal_of network.entry.stops network.entry.arcs.now stop second slots ≡ Some refused) }
{
    if stop >= network.stops() {
        return Err(Refusal::NoSuchStart);
    }
    if second > HORIZON {
        return Err(Refusal::SecondAboveHorizon);
    }
    if slots < network.leaving(stop).numbers().len() {
        return Err(Refusal::QueueShort);
    }
    Ok(())
}
