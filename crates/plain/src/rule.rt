//! A rule as plain parts.
ghost use Rattle.std.specs.Prelude.{◌≡◌, ◌-◌, ◌*◌, ◌^◌, min};
ghost use Rattle.plain.specs.Parts.{states_of, boarded};

/// The most states of a pair.
// its own, as the labels below: planners take theirs from `model`, and are set against this
const MOST_STATES: u32 = 64;

/// How many labels there are.
const LABELS: usize = 6;

/// So many states, a next state for each of them and each label, and whether each is an end.
#[derive(Drop)]
pub struct PlainTable {
    pub states: u32,
    // flat, state after state, as the maker of a table rule takes it
    pub next: Vec<Option<u32>>,
    pub ends: Vec<bool>,
}

/// One of the two rules of a pair.
#[derive(Drop)]
pub enum Part {
    /// Everything goes: one state, which is an end.
    Any,
    /// At most so many boardings: the state is their number.
    Boardings(u32),
    Table(PlainTable),
}

/// Both parts at once; a rule that is no pair has `Any` beside it.
#[derive(Drop)]
pub struct PlainRule {
    pub first: Part,
    pub second: Part,
}

impl Part {
    fn states(&self) -> u32
        ensures { result ≡ states_of self.now }
    {
        match self {
            Part::Any => 1,
            Part::Boardings(most) => most.saturating_add(1),
            Part::Table(table) => table.states,
        }
    }

    fn next(&self, state: u32, label: u32) -> Option<u32> {
        match self {
            Part::Any => Some(state),
            Part::Boardings(most) => boarded(*most, state, label),
            Part::Table(table) => *table.next.get(state as usize * LABELS + label as usize)?,
        }
    }

    fn ends(&self, state: u32) -> bool {
        match self {
            Part::Any | Part::Boardings(_) => true,
            Part::Table(table) => table.ends.get(state as usize) == Some(&true),
        }
    }
}

/// Bus, ship and rail, 1 to 3, are boardings: one more each, up to the most; other labels stay.
fn boarded(most: u32, state: u32, label: u32) -> Option<u32>
    ensures { result ≡ boarded most state label }
{
    if matches!(label, 1..=3) {
        state.checked_add(1).filter(|next| *next <= most)
    } else {
        Some(state)
    }
}

impl PlainRule {
    /// The number of states, or 65 where that is above 64.
    pub fn states(&self) -> u32
        ensures { result ≡ min (min (states_of self.now.first * states_of self.now.second) (2 ^ 32 - 1)) 65 }
    {
        self.first
            .states()
            .saturating_mul(self.second.states())
            .min(MOST_STATES + 1)
    }

    /// The next state: both parts step, and `i * k2 + j` stands for `i` and `j`.
    pub fn next(&self, state: u32, label: u32) -> Option<u32> {
        let width = self.second.states();
        let first = self.first.next(state.checked_div(width)?, label)?;
        let second = self.second.next(state.checked_rem(width)?, label)?;
        first.checked_mul(width)?.checked_add(second)
    }

    /// Whether both parts end there.
    pub fn ends(&self, state: u32) -> bool {
        let width = self.second.states();
        match (state.checked_div(width), state.checked_rem(width)) {
            (Some(first), Some(second)) => self.first.ends(first) && self.second.ends(second),
            _ => false,
        }
    }
}
