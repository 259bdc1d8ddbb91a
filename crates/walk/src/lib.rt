// A random walk with two limits: the running total of the scores, which alarms at h or above and at -h or below.
#![tactic(auto)]

ghost use Rattle.std.specs.Prelude.{◌≡◌, ◌-◌, ◌*◌, ◌<◌, ◌≤◌, if◌then◌else◌, Ok};
ghost use Rattle.common.specs.Made.{Made};
ghost use Rattle.charts.specs.Answers.{leaf_size};
ghost use Rattle.charts.specs.Scores.{listed, checked};
ghost use Rattle.charts.specs.Words.{bit};
ghost use Rattle.walk.specs.Settings.{walk_fault};
ghost use Rattle.walk.specs.Walk.{total, outside, state_of, moved, walk};
ghost use Rattle.walk.specs.WalkLaws.{walk_lawful};

use charts::{Chart, ChartFault, Scores, SettingFault, Size};

#[derive(Clone, Copy, Debug, PartialEq, Eq)]
pub struct Walk {
    h: u16,
    ghost some: { 1 ≤ h },
    ghost few: { h ≤ 2048 },
}

impl Walk {
    pub fn new(h: u16) -> Result<Walk, SettingFault>
        ensures { Made (walk_fault h) (λ w. w.h ≡ h) result }
    {
        if (1..=2048).contains(&h) {
            Ok(Walk { h })
        } else {
            Err(SettingFault::OutOfRange)
        }
    }

    // A state for each total between the limits.
    fn extent(&self) -> Size
        ensures { result ≡ leaf_size (2 * self.now.h - 1) }
    {
        Size::of_leaf(2 * u32::from(self.h) - 1)
    }

    // The state of total 0.
    fn middle(&self) -> u32
        ensures { result ≡ self.now.h - 1 }
    {
        u32::from(self.h) - 1
    }

    // The total that a score makes of a state.
    fn shift(&self, state: u32, score: i16) -> i32
        requires { state < 2 * self.now.h - 1 }
        ensures { result ≡ moved self.now.h state score }
    {
        // a cast that loses nothing, which is proved; `try_from` would add a refusal that never comes
        state as i32 - (i32::from(self.h) - 1) + i32::from(score)
    }

    fn alarms(&self, total: i32) -> bool
        ensures { result ≡ outside self.now.h total }
    {
        total.unsigned_abs() >= self.h.into()
    }

    // The next state and the word, by the total.
    fn settle(&self, total: i32) -> (u32, u16)
        ensures next { result.0 ≡ (if outside self.now.h total then self.now.h - 1 else state_of self.now.h total) }
        ensures word { result.1 ≡ bit (outside self.now.h total) }
    {
        if self.alarms(total) {
            (self.middle(), 1)
        } else {
            // between the limits, so that nothing wraps
            (self.middle().wrapping_add_signed(total), 0)
        }
    }
}

// The sum of a list. 4,096 scores change a sum by at most 1,000 each.
fn total(scores: Scores<'_>) -> i32
    requires { checked (listed scores) ≡ Ok tt }
    ensures { result ≡ total (listed scores.entry) }
{
    let mut sum = 0;
    for score in scores.latest_first() {
        sum += i32::from(score);
    }
    sum
}

impl Chart for Walk {
    ghost size = { λ w. (walk w.h).size };

    ghost start = { λ w. (walk w.h).start };

    ghost leaves = { λ w. (walk w.h).leaves };

    ghost next = { λ w. (walk w.h).next };

    ghost word = { λ w. (walk w.h).word };

    ghost look = { λ w. (walk w.h).look };

    ghost lawful = { λ w. walk_lawful w.h w.some w.few };

    fn size(&self) -> Option<Size> {
        Some(self.extent())
    }

    fn start(&self) -> Result<u32, ChartFault> {
        Ok(self.middle())
    }

    fn step(&self, state: u32, score: i16) -> Result<(u32, u16), ChartFault> {
        self.extent().check(state, score)?;
        Ok(self.settle(self.shift(state, score)))
    }

    fn look(&self, scores: Scores<'_>) -> Result<u16, ChartFault> {
        scores.check()?;
        Ok(self.alarms(total(scores)).into())
    }
}
