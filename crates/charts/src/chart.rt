// The trait of control charts. A chart means its ghost members; whatever is built on charts is proved against them alone.
// Every `impl` writes all of them out: a default of one sees no other.
ghost use Rattle.std.specs.Prelude.{◌≡◌, ℕ, List, ℤ, Option};
ghost use Rattle.charts.specs.Answers.{checked_step, leaf_size, size_of, started, stepped, looked};
ghost use Rattle.charts.specs.Model.{Lawful};
ghost use Rattle.charts.specs.Scores.{listed};

use crate::fault::ChartFault;
use crate::scores::Scores;
use common::is_score;

// How many states a chart has, and how many leaves.
#[derive(Clone, Copy, Debug, PartialEq, Eq)]
pub struct Size {
    pub states: u32,
    pub leaves: u32,
}

impl Size {
    // The size of one leaf with this many states.
    pub fn of_leaf(states: u32) -> Size
        ensures { result ≡ leaf_size states }
    {
        Size { states, leaves: 1 }
    }

    // Whether a chart of this size steps from this state by this score: refusal 6 where the state is not below the size, or
    // the number is no score.
    pub fn check(self, state: u32, score: i16) -> Result<(), ChartFault>
        ensures { result ≡ checked_step self.states state score }
    {
        if state < self.states && is_score(score.into()) {
            Ok(())
        } else {
            Err(ChartFault::OutOfRange)
        }
    }
}

pub trait Chart {
    // the number of states, which are numbered from 0; absent above 65,536, and where the leaves pass 16
    ghost size: { Self → Option ℕ };

    ghost start: { Self → ℕ };

    // the number of bits in a word
    ghost leaves: { Self → ℕ };

    // the state after a score
    ghost next: { Self → ℕ → ℤ → ℕ };

    // the alarm word at a score
    ghost word: { Self → ℕ → ℤ → ℕ };

    // the alarm word that a whole list of scores, the oldest first, has by itself
    ghost look: { Self → List ℤ → ℕ };

    fn size(&self) -> Option<Size>
        ensures { result ≡ size_of (size self.now) (leaves self.now) };

    // The start state, or refusal 5.
    fn start(&self) -> Result<u32, ChartFault>
        ensures { result ≡ started (size self.now) (start self.now) };

    // The next state and the alarm word, or refusal 5 or 6.
    fn step(&self, state: u32, score: i16) -> Result<(u32, u16), ChartFault>
        ensures { result ≡ stepped (size self.now) (next self.now) (word self.now) state score };

    // The look-back word, or refusal 5, 15 or 6.
    fn look(&self, scores: Scores<'_>) -> Result<u16, ChartFault>
        ensures { result ≡ looked (size self.now) (look self.now) (listed scores.entry) };

    ghost lawful: { (c : Self) → Lawful (record { size = size c; start = start c; leaves = leaves c; next = next c; word = word c; look = look c }) };
}
