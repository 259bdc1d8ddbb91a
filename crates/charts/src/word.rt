// Alarm words: a bit for each leaf, from the lowest, set where that leaf alarms.
ghost use Rattle.std.specs.Prelude.{◌≡◌};
ghost use Rattle.charts.specs.Words.{alarmed};

// Whether the leaf at this place, from 0, alarms.
pub fn alarms(word: u16, leaf: u32) -> bool
    ensures { result ≡ alarmed word leaf }
{
    leaf < 16 && (word >> leaf) % 2 == 1
}
