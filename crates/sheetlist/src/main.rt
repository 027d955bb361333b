// Lists the sheet on standard input.
#![tactic(auto)]

use std::io;

fn main(rt: HostRuntime) -> io::Result<()> {
    let mut input = rt.stdin();
    let mut output = rt.stdout();
    sheet_listing::list_input(&mut input, &mut output)
}
