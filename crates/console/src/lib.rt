// What `lookback` reads and prints: a column of counts, and the report of a look-back.
#![tactic(auto)]

mod counts;
mod report;

use arguments::Request;
use counts::counts_of;
use report::look;
use std::alloc::Global;

pub const LOOKBACK_HELP: &str = "\
lookback count CENTRE page H K S0 shewhart C

Reads a column of counts from standard input, one a line, the oldest first, and says
whether Page's rule or the Shewhart limit alarms on the last morning.

  count CENTRE    a count scores its distance from CENTRE, 0 to 65535;
                  a score lies within 1000 either way
  page H K S0     decision interval H, 1 to 4096; reference value K, -1000 to 1000;
                  headstart S0, 0 to H - 1
  shewhart C      the limit, -1000 to 1000

Example: printf '102\\n100\\n103\\n107\\n' | lookback count 100 page 10 1 4 shewhart 6
";

// What `lookback` prints for this request and this column of counts, or why it declines.
pub fn report_of(heap: Global, request: &Request, column: &[u8]) -> anyhow::Result<String> {
    let counts = counts_of(heap, column)?;
    let report = look(heap, request, &counts)?;
    Ok(format!(in heap; "{report}")?)
}
