// The scores that a look-back reads, the oldest first. A look-back copies none of them.
ghost use Rattle.std.specs.Prelude.{◌≡◌, reverse};
ghost use Rattle.std.specs.Iterator.{YieldsFirst, item_count};
ghost use Rattle.charts.specs.Scores.{are_scores, checked, latest, listed, LastOf, to_come};

use crate::fault::ChartFault;
use common::is_score;

// The most scores that a look-back takes.
pub const MOST_SCORES: usize = 4096;

#[derive(Clone, Copy, Debug)]
pub struct Scores<'a> {
    list: &'a [i16],
}

impl<'a> Scores<'a> {
    pub fn new(list: &'a [i16]) -> Scores<'a>
        ensures { listed result ≡ list.now }
    {
        Scores { list }
    }

    // Whether a look-back takes the list: refusal 15 where it is too long, then 6 where a number of it is no score.
    pub fn check(self) -> Result<(), ChartFault>
        ensures { result ≡ checked (listed self.entry) }
    {
        if self.list.len() > MOST_SCORES {
            Err(ChartFault::TooLong)
        } else if are_scores(self.list) {
            Ok(())
        } else {
            Err(ChartFault::OutOfRange)
        }
    }

    // The latest score, and the scores before it.
    pub fn split_last(self) -> Option<(i16, Scores<'a>)>
        ensures { LastOf listed (listed self.entry) result }
    {
        let (last, list) = self.list.split_last()?;
        Some((*last, Scores { list }))
    }

    pub fn latest(self) -> Option<i16>
        ensures { result ≡ latest (listed self.entry) }
    {
        self.list.last().copied()
    }

    // The scores one by one, the latest first.
    pub fn latest_first(self) -> LatestFirst<'a>
        ensures { to_come result ≡ reverse (listed self.entry) }
    {
        LatestFirst { left: self }
    }
}

// An iterator over scores, from the latest to the oldest.
#[derive(Clone, Debug, Drop)]
pub struct LatestFirst<'a> {
    left: Scores<'a>,
}

impl Iterator for LatestFirst<'_> {
    type Item = i16;

    ghost next_gives = { YieldsFirst to_come };

    ghost remaining = { item_count to_come };

    fn next(&mut self) -> Option<i16> {
        let (score, before) = self.left.split_last()?;
        self.left = before;
        Some(score)
    }
}

fn are_scores(list: &[i16]) -> bool
    ensures { result ≡ are_scores list.now }
{
    list.iter().all(|x| is_score(i32::from(*x)))
}
