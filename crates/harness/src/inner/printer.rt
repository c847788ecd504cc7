// Where the programs print to.
ghost use Rattle.std.specs.Io.KnownBytes.{Keeps};

use std::fmt::Display;
use std::io::Write;

// What can't be written is left out.
#[derive(Drop)]
pub struct Printer<W> {
    pub to: W,
}

impl<W: Write> Printer<W> {
    // What `write!` and `writeln!` call.
    pub fn write_fmt<D: Display + Drop>(&mut self, text: D) {
        let _ = self.to.write_fmt(text);
    }

    pub fn write_all(&mut self, bytes: &[u8]) {
        let _ = self.to.write_all(bytes);
    }

    // What was held back is written.
    pub fn flush(&mut self)
        ensures { Keeps (W.contents self.old.to) (W.contents self.new.to) }
    {
        let _ = self.to.flush();
    }
}
