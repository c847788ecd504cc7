// Runs the program `play` on each file that its arguments name: prints the name, then what the program writes, and ends the line.
// What can't be written is left out.
#![tactic(auto)]

use std::env;
use std::fs::File;
use std::os::fd::AsRawFd;

fn main(rt: HostRuntime) -> std::io::Result<()> {
    for name in env::args(&rt)?.skip(1) {
        let _ = print!(rt; "{name}: ");
        let file = File::open(&rt, name.as_str())?;
        play_program::inner::serve(file.as_raw_fd());
        let _ = println!(rt);
    }
    Ok(())
}
