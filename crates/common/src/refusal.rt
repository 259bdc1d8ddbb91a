// A refusal is a number, by docs/REFUSALS.md, and what goes with it.
ghost use Rattle.std.specs.Prelude.{◌≡◌};
ghost use Rattle.common.specs.declared.refusal.Refusal.{Refusal};
ghost use Rattle.common.specs.Refusals.{bare, carrying};

#[derive(Clone, Copy, Debug, PartialEq)]
pub struct Refusal {
    // one of docs/REFUSALS.md: halls and the office know a refusal by its number, and code matches on the fault
    pub number: u8,
    pub carried: Option<Carried>,
}

// What a refusal carries besides its number.
#[derive(Clone, Copy, Debug, PartialEq)]
pub enum Carried {
    // a reading, or the quotient that was made of it
    Value(f64),
    // a count less its centre
    Difference(i32),
    // the place of a reading in its list, from 0
    Place(usize),
}

impl Refusal {
    // A number that carries nothing.
    pub fn bare(number: u8) -> Refusal
        ensures { result ≡ bare number }
    {
        Refusal {
            number,
            carried: None,
        }
    }

    // A number with what it carries.
    pub fn carrying(number: u8, carried: Carried) -> Refusal
        ensures { result ≡ carrying number carried }
    {
        Refusal {
            number,
            carried: Some(carried),
        }
    }
}

// Why a call is declined. The refusal is defined over all cases of a fault. No `From` stands in its place, since
// generic code would know a relation and not the definition.
pub trait Fault {
    ghost refusal: { Self → Refusal };

    fn refusal(&self) -> Refusal
        ensures { result ≡ refusal self.now };
}
