// A count of events, scored by its distance from a centre.
ghost use Rattle.scoring.specs.Count.{count_score};
ghost use Rattle.std.proofs.Common.{rules};

use crate::fault::SourceFault;
use crate::source::Source;
use common::is_score;

#[derive(Clone, Copy, Debug, PartialEq, Eq)]
pub struct Count {
    pub centre: u16,
}

impl Source for Count {
    type Reading = u16;

    ghost score = { λ s. count_score s.centre };

    ghost within = { Prim.search rules };

    fn score(&self, reading: u16) -> Result<i16, SourceFault> {
        let difference = i32::from(reading) - i32::from(self.centre);
        if is_score(difference) {
            // a cast that loses nothing, which is proved; `try_from` would add a refusal that never comes
            Ok(difference as i16)
        } else {
            Err(SourceFault::OffCount(difference))
        }
    }
}
