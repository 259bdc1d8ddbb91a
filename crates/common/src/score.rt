// A score is a whole number from -1,000 to 1,000.
ghost use Rattle.std.specs.Prelude.{◌≡◌};
ghost use Rattle.common.specs.Score.{is_score};

pub fn is_score(x: i32) -> bool
    ensures { result ≡ is_score x }
{
    (-1000..=1000).contains(&x)
}
