// Page's one-sided cumulative sum (Biometrika 1954), with a headstart as Lucas and Crosier gave it. It alarms when the
// sum reaches h. Its look-back is Barnard's V-mask, with the headstart added to the sum of the whole list alone.
#![tactic(auto)]

ghost use Rattle.std.specs.Prelude.{◌≡◌, ◌<◌, ◌≤◌, true, pos, ◌-ℤ◌, Ok, int_le};
ghost use Rattle.common.specs.Made.{Made};
ghost use Rattle.common.specs.Score.{is_score};
ghost use Rattle.charts.specs.Answers.{leaf_size};
ghost use Rattle.charts.specs.Scores.{listed, checked};
ghost use Rattle.page.specs.Page.{masked, page};
ghost use Rattle.page.specs.Settings.{page_fault};
ghost use Rattle.page.specs.PageLaws.{page_lawful};

use charts::{Chart, ChartFault, Scores, SettingFault, Size};
use common::is_score;

#[derive(Clone, Copy, Debug, PartialEq, Eq)]
pub struct Page {
    h: u16,
    k: i16,
    s0: u16,
    ghost few: { h ≤ 4096 },
    // said here and in two other rules: a type for it would hold a proof, and no definition could write its values out
    ghost reference: { is_score k ≡ true },
    ghost ahead: { s0 < h },
}

impl Page {
    pub fn new(h: u16, k: i16, s0: u16) -> Result<Page, SettingFault>
        ensures { Made (page_fault h k s0) (λ p. (p.h ≡ h) × (p.k ≡ k) × (p.s0 ≡ s0)) result }
    {
        if (1..=4096).contains(&h) && is_score(k.into()) && s0 < h {
            Ok(Page { h, k, s0 })
        } else {
            Err(SettingFault::OutOfRange)
        }
    }

    // A state for each sum below h.
    fn extent(&self) -> Size
        ensures { result ≡ leaf_size self.now.h }
    {
        Size::of_leaf(self.h.into())
    }

    // What a score adds to a sum.
    fn excess(&self, score: i16) -> i32
        ensures { result ≡ score -ℤ self.now.k }
    {
        i32::from(score) - i32::from(self.k)
    }

    fn alarms(&self, sum: i32) -> bool
        ensures { result ≡ int_le (pos self.now.h) sum }
    {
        sum >= self.h.into()
    }

    // Whether the V-mask alarms: sums over trailing parts, the shortest first. 4,096 scores change a sum by at most 2,000
    // each.
    fn mask(&self, scores: Scores<'_>) -> bool
        requires { checked (listed scores) ≡ Ok tt }
        ensures { result ≡ masked self.now.h self.now.k self.now.s0 (listed scores.entry) }
    {
        let mut sum = 0;
        for score in scores.latest_first() {
            sum += self.excess(score);
            if self.alarms(sum) {
                return true;
            }
        }
        self.alarms(i32::from(self.s0) + sum)
    }
}

impl Chart for Page {
    ghost size = { λ p. (page p.h p.k p.s0).size };

    ghost start = { λ p. (page p.h p.k p.s0).start };

    ghost leaves = { λ p. (page p.h p.k p.s0).leaves };

    ghost next = { λ p. (page p.h p.k p.s0).next };

    ghost word = { λ p. (page p.h p.k p.s0).word };

    ghost look = { λ p. (page p.h p.k p.s0).look };

    ghost lawful = { λ p. page_lawful p.h p.k p.s0 p.few p.ahead };

    fn size(&self) -> Option<Size> {
        Some(self.extent())
    }

    fn start(&self) -> Result<u32, ChartFault> {
        Ok(self.s0.into())
    }

    fn step(&self, state: u32, score: i16) -> Result<(u32, u16), ChartFault> {
        self.extent().check(state, score)?;
        // a cast that loses nothing, which is proved; a saturating sum branches on the sign of what is added
        let sum = state as i32 + self.excess(score);
        if self.alarms(sum) {
            Ok((self.s0.into(), 1))
        } else if sum > 0 {
            Ok((sum.unsigned_abs(), 0))
        } else {
            Ok((0, 0))
        }
    }

    fn look(&self, scores: Scores<'_>) -> Result<u16, ChartFault> {
        scores.check()?;
        Ok(self.mask(scores).into())
    }
}
