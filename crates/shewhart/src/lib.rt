// The Shewhart limit: it alarms when the latest score is above c.
#![tactic(auto)]

ghost use Rattle.std.specs.Prelude.{◌≡◌, true};
ghost use Rattle.common.specs.Made.{Made};
ghost use Rattle.common.specs.Score.{is_score};
ghost use Rattle.shewhart.specs.Settings.{shewhart_fault};
ghost use Rattle.shewhart.specs.Shewhart.{shewhart};
ghost use Rattle.shewhart.specs.ShewhartLaws.{shewhart_lawful};

use charts::{Chart, ChartFault, Scores, SettingFault, Size};
use common::is_score;

// It remembers nothing.
const STATES: u32 = 1;

const START: u32 = 0;

#[derive(Clone, Copy, Debug, PartialEq, Eq)]
pub struct Shewhart {
    c: i16,
    // said here and in two other rules: a type for it would hold a proof, and no definition could write its values out
    ghost limit: { is_score c ≡ true },
}

impl Shewhart {
    pub fn new(c: i16) -> Result<Shewhart, SettingFault>
        ensures { Made (shewhart_fault c) (λ s. s.c ≡ c) result }
    {
        if is_score(c.into()) {
            Ok(Shewhart { c })
        } else {
            Err(SettingFault::OutOfRange)
        }
    }
}

impl Chart for Shewhart {
    ghost size = { λ s. (shewhart s.c).size };

    ghost start = { λ s. (shewhart s.c).start };

    ghost leaves = { λ s. (shewhart s.c).leaves };

    ghost next = { λ s. (shewhart s.c).next };

    ghost word = { λ s. (shewhart s.c).word };

    ghost look = { λ s. (shewhart s.c).look };

    ghost lawful = { λ s. shewhart_lawful s.c };

    fn size(&self) -> Option<Size> {
        Some(Size::of_leaf(STATES))
    }

    fn start(&self) -> Result<u32, ChartFault> {
        Ok(START)
    }

    fn step(&self, state: u32, score: i16) -> Result<(u32, u16), ChartFault> {
        Size::of_leaf(STATES).check(state, score)?;
        Ok((START, (score > self.c).into()))
    }

    fn look(&self, scores: Scores<'_>) -> Result<u16, ChartFault> {
        scores.check()?;
        Ok(scores.latest().is_some_and(|latest| latest > self.c).into())
    }
}
