// A runs rule, as the Western Electric rules have several: it alarms when at least t of the last m scores are above y.
// With fewer than m scores all of them are taken.
#![tactic(auto)]

ghost use Rattle.std.specs.Prelude.{◌≡◌, ◌-◌, ◌%◌, ◌^◌, ◌<◌, ◌≤◌, true, if◌then◌else◌};
ghost use Rattle.common.specs.Made.{Made};
ghost use Rattle.common.specs.Score.{is_score};
ghost use Rattle.charts.specs.Answers.{leaf_size};
ghost use Rattle.charts.specs.Scores.{listed};
ghost use Rattle.charts.specs.Words.{bit};
ghost use Rattle.runs.specs.Runs.{count_in, last_scores, marked, reached, runs};
ghost use Rattle.runs.specs.Settings.{runs_fault};
ghost use Rattle.runs.specs.RunsLaws.{runs_lawful};

use charts::{Chart, ChartFault, Scores, SettingFault, Size};
use common::is_score;

// No mark is set.
const START: u32 = 0;

#[derive(Clone, Copy, Debug, PartialEq, Eq)]
pub struct Runs {
    t: u8,
    m: u8,
    y: i16,
    ghost several: { 2 ≤ t },
    ghost within: { t ≤ m },
    ghost few: { m ≤ 8 },
    // said here and in two other rules: a type for it would hold a proof, and no definition could write its values out
    ghost level: { is_score y ≡ true },
}

impl Runs {
    pub fn new(t: u8, m: u8, y: i16) -> Result<Runs, SettingFault>
        ensures { Made (runs_fault t m y) (λ s. (s.t ≡ t) × (s.m ≡ m) × (s.y ≡ y)) result }
    {
        if 2 <= t && t <= m && m <= 8 && is_score(y.into()) {
            Ok(Runs { t, m, y })
        } else {
            Err(SettingFault::OutOfRange)
        }
    }

    // A state for each way to mark m - 1 scores.
    fn extent(&self) -> Size
        ensures { result ≡ leaf_size (2 ^ (self.now.m - 1)) }
    {
        Size::of_leaf(1 << (self.m - 1))
    }

    // Whether at least t of the last m scores count, by their marks.
    #[tactic(auto, using(crate::specs::Marks::ones_all))]
    fn alarms(&self, marks: u32) -> bool
        requires { marks < 2 ^ self.now.m }
        ensures { result ≡ reached self.now.t self.now.m marks }
    {
        marks.count_ones() >= self.t.into()
    }

    // The next state and the word, by the marks of the last m scores: those of the state, moved up, and the score's own in
    // the lowest bit.
    #[tactic(auto, using(crate::specs::Marks::marked_below))]
    fn settle(&self, state: u32, score: i16) -> (u32, u16)
        requires { state < 2 ^ (self.now.m - 1) }
        ensures next { result.0 ≡ (if reached self.now.t self.now.m (marked self.now.y state score) then 0 else marked self.now.y state score % 2 ^ (self.now.m - 1)) }
        ensures word { result.1 ≡ bit (reached self.now.t self.now.m (marked self.now.y state score)) }
    {
        let marks = 2 * state + u32::from(score > self.y);
        if self.alarms(marks) {
            (START, 1)
        } else {
            (marks % self.extent().states, 0)
        }
    }

    // How many of the last m scores count.
    fn recent(&self, scores: Scores<'_>) -> usize
        ensures { result ≡ count_in self.now.y (last_scores self.now.m (listed scores.entry)) }
    {
        scores
            .latest_first()
            .take(self.m.into())
            .filter(|score| *score > self.y)
            .count()
    }
}

impl Chart for Runs {
    ghost size = { λ r. (runs r.t r.m r.y).size };

    ghost start = { λ r. (runs r.t r.m r.y).start };

    ghost leaves = { λ r. (runs r.t r.m r.y).leaves };

    ghost next = { λ r. (runs r.t r.m r.y).next };

    ghost word = { λ r. (runs r.t r.m r.y).word };

    ghost look = { λ r. (runs r.t r.m r.y).look };

    ghost lawful = { λ r. runs_lawful r.t r.m r.y r.several r.within r.few };

    fn size(&self) -> Option<Size> {
        Some(self.extent())
    }

    fn start(&self) -> Result<u32, ChartFault> {
        Ok(START)
    }

    fn step(&self, state: u32, score: i16) -> Result<(u32, u16), ChartFault> {
        self.extent().check(state, score)?;
        Ok(self.settle(state, score))
    }

    fn look(&self, scores: Scores<'_>) -> Result<u16, ChartFault> {
        scores.check()?;
        Ok((self.recent(scores) >= self.t.into()).into())
    }
}
