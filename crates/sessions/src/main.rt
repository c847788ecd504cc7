// Runs lists of calls on two sessions, `a` and `b`: each line of standard input is printed with its answer. A line is written
// as in `examples`; its name is the session's letter, a dot and one of these:
//
//     a.open #5 >40000             opens the log for texts that have 5 characters, in a buffer of 40,000 bytes
//     a.accept EDIT #2 >900 >50    accepts an edit written against revision 2, the log in a buffer of 900 bytes, with an
//                                  output of 50 bytes for the counterparts
//     a.accept EDIT, =255 #2 ..    the same 255 times; the last answer is printed
//     a.newest EDIT, =255 ..       each time against the revision that is then the newest (once without a number)
//     a.undo "guest" #2 >80 >50    takes revision 2 back, with scratch buffers of 80 bytes and an output of 50 for the
//                                  counterparts
//     a.undo "guest", =70 =900 ..  the same, with 70 bytes in the second scratch buffer and the log in a buffer of 900
//     b.relay >900                 accepts the counterparts of the last accepted edit or undo, oldest first, each against the newest
//                                  revision, up to the first that is refused
//     a.summary >50                the summary, with an output of 50 bytes
//     a.play "guest" >80 >60       plays the log, with scratch buffers of 80 bytes and an output of 60
//     a.play "guest" #70 >80 >60   the same, with 70 bytes in the second scratch buffer
//     a.put 07 #4                  writes the byte 07 at place 4 of the log, past all calls
//     a.show                       the log: its contents, and the whole buffer of 40,000 bytes
//
// No buffer has more than 40,000 bytes. R, I and D stand for retain, insert and delete; of several records the first and the
// last are printed, and of a record its first eight operations.
#![tactic(auto)]

use harness::inner::line;
use harness::inner::printer::Printer;
use harness_calls::inner::answer;
use std::io::BufWriter;

fn main(rt: HostRuntime) -> std::io::Result<()> {
    let alloc = rt.alloc();
    let input = line::input(&rt)?;
    let mut to = Printer {
        to: BufWriter::new(alloc, std::io::writer(&rt))?,
    };
    let mut a = line::untouched(alloc, line::MOST)?;
    let mut b = line::untouched(alloc, line::MOST)?;
    let mut kept = Vec::new(alloc);
    line::answered(&mut to, alloc, &input, |to, line| {
        // The session's letter begins the line.
        match line.name() {
            [b'b', ..] => answer(to, alloc, line, &mut b, &mut kept),
            _ => answer(to, alloc, line, &mut a, &mut kept),
        }
    })?;
    to.flush();
    Ok(())
}
