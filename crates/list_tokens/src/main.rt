//! Lists the tokens of a text: reads standard input and writes a line for each token, then the end or the fault.

#![tactic(auto)]

use listing::list_tokens;
use std::io;
use std::io::Read;
use text_source::TextSource;

fn main(rt: HostRuntime) -> io::Result<()> {
    let heap = rt.alloc();
    let mut input = Vec::new(heap);
    rt.stdin().read_to_end(&mut input)?;
    let mut source = TextSource::new(input.as_slice());
    let lines = list_tokens(heap, &mut source)?;
    rt.write_all(lines.as_slice())
}
