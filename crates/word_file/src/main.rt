// Prints the filled words of a file of Counts.
#![tactic(auto)]

use std::io;
use std::io::Read;
use word_report::report::report;

fn main(rt: HostRuntime) -> io::Result<()> {
    let heap = rt.alloc();
    let mut bytes = Vec::new(heap);
    rt.stdin().read_to_end(&mut bytes)?;
    rt.print(report(heap, &bytes)?)
}
