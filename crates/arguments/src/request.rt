// What the command line asks for: a source, and the leaves that are set side by side.
use crate::words::Words;
use combined::Pair;
use complaints::Complaint;
use page::Page;
use scoring::Count;
use shewhart::Shewhart;

#[derive(Clone, Debug, Drop, PartialEq, Eq)]
pub struct Request {
    pub source: Count,
    pub chart: Pair<Page, Shewhart>,
}

pub fn request_of(words: &[String]) -> anyhow::Result<Request> {
    Ok(asked(words)?)
}

fn asked(words: &[String]) -> Result<Request, Complaint<'_>> {
    let mut rest = Words::new(words);
    let source = count_of(&mut rest)?;
    let first = page_of(&mut rest)?;
    let second = shewhart_of(&mut rest)?;
    rest.end()?;
    let chart = Pair { first, second };
    Ok(Request { source, chart })
}

fn count_of<'a>(words: &mut Words<'a>) -> Result<Count, Complaint<'a>> {
    words.keyword("count")?;
    let centre = words.number("a centre from 0 to 65535")?;
    Ok(Count { centre })
}

fn page_of<'a>(words: &mut Words<'a>) -> Result<Page, Complaint<'a>> {
    let place = words.place();
    words.keyword("page")?;
    let h = words.number("h of page, from 1 to 4096")?;
    let k = words.number("k of page, from -1000 to 1000")?;
    let s0 = words.number("s0 of page, from 0 to h - 1")?;
    Page::new(h, k, s0).map_err(|fault| {
        let rule = "page takes h from 1 to 4096, k from -1000 to 1000, s0 from 0 to h - 1";
        Complaint::refused(&fault, place, rule)
    })
}

fn shewhart_of<'a>(words: &mut Words<'a>) -> Result<Shewhart, Complaint<'a>> {
    let place = words.place();
    words.keyword("shewhart")?;
    let c = words.number("c of shewhart, from -1000 to 1000")?;
    Shewhart::new(c).map_err(|fault| {
        let rule = "shewhart takes c from -1000 to 1000";
        Complaint::refused(&fault, place, rule)
    })
}
