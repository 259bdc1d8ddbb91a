// Why a program declines what it is given, in one line.
#![tactic(auto)]

ghost use Rattle.std.specs.Prelude.{◌≡◌, Some};
ghost use Rattle.complaints.specs.Texts.{complaint_text, place_text};
ghost use Rattle.complaints.specs.declared.Complaint.TheVariants.{Refused};

use common::{Fault, Refusal};
use std::error::Error;
use std::fmt;

// Where the cause stands. Arguments and lines count from 1.
#[derive(Clone, Copy, Debug, PartialEq, Eq)]
pub enum Place<'a> {
    Argument(usize),
    Line(usize),
    // a place of another kind, by the name of that kind
    Other { kind: &'a str, place: usize },
}

// Written by hand, as the next one is: of what a derived one prints no contract says anything.
impl fmt::Display for Place<'_> {
    ghost output = { λ place. Some (place_text place) };

    fn fmt<W: fmt::Write>(&self, f: &mut fmt::Formatter<W>) -> fmt::Result {
        match self {
            Place::Argument(place) => write!(f, "argument {place}"),
            Place::Line(place) => write!(f, "line {place}"),
            Place::Other { kind, place } => write!(f, "{kind} {place}"),
        }
    }
}

#[derive(Clone, Copy, Debug, PartialEq)]
pub enum Complaint<'a> {
    // what stands at the place is not what is to stand there
    Unfit {
        place: Place<'a>,
        wanted: &'a str,
        found: &'a str,
    },
    // a call declines what stands at the place, by the rule that it breaks
    Refused {
        refusal: Refusal,
        place: Place<'a>,
        rule: &'a str,
    },
}

impl<'a> Complaint<'a> {
    pub fn refused<F: Fault>(fault: &F, place: Place<'a>, rule: &'a str) -> Complaint<'a>
        ensures { result ≡ Refused (F.refusal fault.now) place.entry rule.entry }
    {
        Complaint::Refused {
            refusal: fault.refusal(),
            place,
            rule,
        }
    }
}

impl fmt::Display for Complaint<'_> {
    ghost output = { λ complaint. Some (complaint_text complaint) };

    fn fmt<W: fmt::Write>(&self, f: &mut fmt::Formatter<W>) -> fmt::Result {
        match self {
            Complaint::Unfit {
                place,
                wanted,
                found,
            } => write!(f, "{place} is to be {wanted}, and is '{found}'"),
            Complaint::Refused {
                refusal,
                place,
                rule,
            } => {
                let number = refusal.number;
                write!(f, "refusal {number} at {place}: {rule}")
            }
        }
    }
}

impl Error for Complaint<'_> {}
