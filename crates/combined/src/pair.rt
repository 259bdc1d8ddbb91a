// Two charts side by side: both read every score, and where either alarms both go to their starts.
ghost use Rattle.std.specs.Prelude.{◌≡◌, ◌+◌, ◌*◌, ◌^◌, ◌<◌, ◌≤◌};
ghost use Rattle.std.specs.Option.{ok_or};
ghost use Rattle.charts.specs.Of.{of};
ghost use Rattle.charts.specs.declared.fault.ChartFault.TheVariants.{NoSize};
ghost use Rattle.combined.specs.Pair.{pair, sizes};
ghost use Rattle.combined.specs.PairLaws.{pair_lawful};

use charts::{Chart, ChartFault, Scores, Size};

#[derive(Clone, Debug, Drop, PartialEq, Eq)]
pub struct Pair<A, B> {
    pub first: A,
    pub second: B,
}

// The sizes of a pair and of both its charts. They are neither printed nor compared.
#[derive(Clone, Copy)]
struct Sizes {
    pair: Size,
    first: Size,
    second: Size,
}

impl<A: Chart, B: Chart> Pair<A, B> {
    // The sizes of the pair and of both charts, where the pair has one.
    fn sizes(&self) -> Option<Sizes>
        ensures { result ≡ sizes (of A.Chart self.now.first) (of B.Chart self.now.second) }
    {
        let first = self.first.size()?;
        let second = self.second.size()?;
        let states = first.states.checked_mul(second.states)?;
        let leaves = first.leaves.checked_add(second.leaves)?;
        if states <= 65536 && leaves <= 16 {
            let pair = Size { states, leaves };
            Some(Sizes {
                pair,
                first,
                second,
            })
        } else {
            None
        }
    }

    // The same, or refusal 5.
    fn sized(&self) -> Result<Sizes, ChartFault>
        ensures { result ≡ ok_or (sizes (of A.Chart self.now.first) (of B.Chart self.now.second)) NoSize }
    {
        self.sizes().ok_or(ChartFault::NoSize)
    }
}

impl<A: Chart, B: Chart> Chart for Pair<A, B> {
    ghost size = { λ p. (pair (of A.Chart p.first) (of B.Chart p.second)).size };

    ghost start = { λ p. (pair (of A.Chart p.first) (of B.Chart p.second)).start };

    ghost leaves = { λ p. (pair (of A.Chart p.first) (of B.Chart p.second)).leaves };

    ghost next = { λ p. (pair (of A.Chart p.first) (of B.Chart p.second)).next };

    ghost word = { λ p. (pair (of A.Chart p.first) (of B.Chart p.second)).word };

    ghost look = { λ p. (pair (of A.Chart p.first) (of B.Chart p.second)).look };

    ghost lawful = { λ c. pair_lawful _ _ (A.Chart.lawful c.first) (B.Chart.lawful c.second) };

    fn size(&self) -> Option<Size> {
        self.sizes().map(|sizes| sizes.pair)
    }

    fn start(&self) -> Result<u32, ChartFault> {
        let sizes = self.sized()?;
        let first_start = self.first.start()?;
        let second_start = self.second.start()?;
        Ok(first_start * sizes.second.states + second_start)
    }

    fn step(&self, state: u32, score: i16) -> Result<(u32, u16), ChartFault> {
        let sizes = self.sized()?;
        sizes.pair.check(state, score)?;
        let states = sizes.second.states;
        let (first_next, first_word) = self.first.step(state / states, score)?;
        let (second_next, second_word) = self.second.step(state % states, score)?;
        let word = join(first_word, second_word, sizes.first.leaves);
        if word == 0 {
            Ok((first_next * states + second_next, word))
        } else {
            Ok((self.start()?, word))
        }
    }

    fn look(&self, scores: Scores<'_>) -> Result<u16, ChartFault> {
        let sizes = self.sized()?;
        let first_word = self.first.look(scores)?;
        let second_word = self.second.look(scores)?;
        Ok(join(first_word, second_word, sizes.first.leaves))
    }
}

// The word of two parts: the bits of `high` above the lower `leaves`.
fn join(low: u16, high: u16, leaves: u32) -> u16
    requires narrow { leaves ≤ 16 }
    requires fits { low + 2 ^ leaves * high < 2 ^ 16 }
    ensures { result ≡ low + 2 ^ leaves * high }
{
    // a cast that loses nothing, which is proved; `try_from` would add a refusal that never comes
    (u32::from(low) + (u32::from(high) << leaves)) as u16
}
