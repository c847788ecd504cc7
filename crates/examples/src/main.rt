// Runs the calls that standard input lists, one on a line, and prints every line with its answer and the whole output.
//
// A line is a call's name and then its operands:
//
//     61           two hexadecimal digits are a byte
//     =5           the number 5 in two bytes, low byte first
//     "ä"          text
//     [61]*300     what stands in brackets, 300 times
//     ,            parts the first operand from the second
//     #7           the call's number: a count, or the number of an operation
//     >20          an output of 20 bytes, filled with EE before the call; of transform's two the first stands first
//
// A line that begins with `;` is a remark. No output has more than 40,000 bytes. Of more than 64 bytes their number and a sum are
// printed.
#![tactic(auto)]

use harness::inner::line;
use harness::inner::printer::Printer;
use std::io::BufWriter;

mod calls;

fn main(rt: HostRuntime) -> std::io::Result<()> {
    let alloc = rt.alloc();
    let input = line::input(&rt)?;
    let mut to = Printer {
        to: BufWriter::new(alloc, std::io::writer(&rt))?,
    };
    line::answered(&mut to, alloc, &input, |to, line| {
        calls::answer(to, alloc, line);
    })?;
    to.flush();
    Ok(())
}
