// The words of the command line, read one after the other.
use complaints::{Complaint, Place};
use std::str::FromStr;

#[derive(Clone, Debug, Drop)]
pub struct Words<'a> {
    rest: &'a [String],
    // counted beside, since a missing word has a place too
    read: usize,
}

impl<'a> Words<'a> {
    pub fn new(words: &'a [String]) -> Words<'a> {
        Words {
            rest: words,
            read: 0,
        }
    }

    // The place of the next word.
    pub fn place(&self) -> Place<'a> {
        Place::Argument(self.read.saturating_add(1))
    }

    fn next_word(&mut self) -> Option<&'a str> {
        let (word, rest) = self.rest.split_first()?;
        self.rest = rest;
        self.read = self.read.saturating_add(1);
        Some(word.as_str())
    }

    pub fn keyword(&mut self, wanted: &'a str) -> Result<(), Complaint<'a>> {
        let place = self.place();
        let found = self.next_word().unwrap_or("");
        if found == wanted {
            Ok(())
        } else {
            Err(Complaint::Unfit {
                place,
                wanted,
                found,
            })
        }
    }

    // The next word as a number, which is to be `wanted`.
    pub fn number<N: FromStr>(&mut self, wanted: &'a str) -> Result<N, Complaint<'a>>
    where
        N::Err: Drop,
    {
        let place = self.place();
        let found = self.next_word().unwrap_or("");
        found.parse().map_err(|_| Complaint::Unfit {
            place,
            wanted,
            found,
        })
    }

    pub fn end(&mut self) -> Result<(), Complaint<'a>> {
        let place = self.place();
        // what is left is the error, so no method of `Option` hands it on
        match self.next_word() {
            None => Ok(()),
            Some(found) => Err(Complaint::Unfit {
                place,
                wanted: "the end",
                found,
            }),
        }
    }
}
