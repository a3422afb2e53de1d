//! Numbers that look like chance, and are the same in every run.
#![tactic(auto)]

ghost use Rattle.std.specs.Prelude.{◌≡◌, ◌<◌, ◌%◌, eqb};
ghost use Rattle.chance.specs.Falls.{stepped, upper};

/// A linear congruential generator of 64 bits, of which the upper half is used.
#[derive(Drop)]
pub struct Dice {
    state: u64,
}

impl Dice {
    /// Dice that fall by this seed.
    pub fn new(seed: u64) -> Dice
        ensures { result.state ≡ stepped seed }
    {
        let mut dice = Dice { state: seed };
        dice.roll();
        dice
    }

    fn roll(&mut self)
        ensures { self.new.state ≡ stepped self.old.state }
    {
        self.state = self
            .state
            .wrapping_mul(6_364_136_223_846_793_005)
            .wrapping_add(1_442_695_040_888_963_407);
    }

    /// The next number below the bound; 0 where the bound is 0.
    pub fn below(&mut self, bound: u32) -> u32
        ensures after { self.new.state ≡ stepped self.old.state }
        ensures none { bound ≡ 0 → result ≡ 0 }
        ensures drawn { 0 < bound → result ≡ upper (stepped self.old.state) % bound }
        ensures within { 0 < bound → result < bound }
    {
        self.roll();
        if bound == 0 {
            return 0;
        }
        let upper = (self.state / 4_294_967_296) as u32;
        upper % bound
    }

    /// Whether chance has it, once in so many times.
    pub fn once_in(&mut self, times: u32) -> bool
        ensures after { self.new.state ≡ stepped self.old.state }
        ensures so { 0 < times → result ≡ eqb (upper (stepped self.old.state) % times) 0 }
    {
        self.below(times) == 0
    }
}
