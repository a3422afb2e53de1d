//! What is proved of trips and of two small worlds, as a contract.
ghost use Rattle.std.specs.Prelude.{◌≡◌, true};
ghost use Rattle.model.specs.Claims.{Theorems};
ghost use Rattle.model.specs.Journeys.{OneWalkBeatsTwo, TwoWalksToABoat};

/// Whether the theorems about trips hold, and the worked journeys are as they should be: they do, and they are.
pub fn theorems_hold() -> bool
    ensures answer { result ≡ true }
    ensures trips { Theorems }
    ensures one_walk_beats_two { OneWalkBeatsTwo }
    ensures two_walks_to_a_boat { TwoWalksToABoat }
{
    // a value and no empty body: the answer is promised, and an edit can turn it
    let proved = true;
    proved
}
