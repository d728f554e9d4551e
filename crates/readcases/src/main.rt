// Reads a table of batch files from standard input, and prints for each what `batchinfo` prints for it.
//
// A line of the table is a case: its label, and then the parts of its file, parted by blanks. A part is
// a hex string, or `HEX*COUNT`: the bytes of HEX, COUNT times. A label alone is a file of no bytes.
#![tactic(auto)]

mod case;
mod case_fault;
mod file;
mod hex;
mod part;

use case::Case;

// More than the table has. What stands past it is not read.
const TABLE_MOST: usize = 1_048_576;

fn main(rt: HostRuntime) -> anyhow::Result<()> {
    let heap = rt.alloc();
    let bytes = input::read_at_most(heap, &mut rt.stdin(), TABLE_MOST)?;
    let table = std::str::from_utf8(bytes.as_slice())?;
    for line in table.lines() {
        let case = Case::parse(heap, line)?;
        rt.print(case.report(heap)?)?;
    }
    Ok(())
}
