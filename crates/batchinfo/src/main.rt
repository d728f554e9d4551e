// Prints what the batch file on standard input holds, or why it is refused.
#![tactic(auto)]

use std::io;

// One byte more than a batch file may have: with it the file is refused, so no more need be read.
const ENOUGH: usize = 1_048_577;

fn main(rt: HostRuntime) -> io::Result<()> {
    let heap = rt.alloc();
    let bytes = input::read_at_most(heap, &mut rt.stdin(), ENOUGH)?;
    let text = info::report(heap, bytes.as_slice())?;
    rt.print(text)
}
