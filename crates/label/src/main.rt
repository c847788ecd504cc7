// A label, three translators who change it at the same time, and a server that their edits reach in each order: prints what ships.
// At the end one of them takes an edit back that the others' came after.
// A translator's copy is a log too. Its own edit is in it from the start; then come the counterparts that the server hands out
// for this edit, and the server's revisions from there on.
#![tactic(auto)]

use answers::Refusal;
use harness::inner::printer::Printer;
use harness::inner::tell::Reason;
use harness::inner::words;
use std::alloc::{AllocError, Global};
use std::io::{BufWriter, Write};

const LABEL: &str = "Geraete sperren, die hier in der Liste vorkommen";

// So many characters it has.
const LENGTH: u64 = 48;

// Characters that are kept, those that are deleted behind them, what is typed there, and how many are kept behind that.
fn edit(
    alloc: Global,
    kept: u64,
    deleted: u64,
    typed: &str,
    behind: u64,
) -> Result<Vec<u8>, AllocError> {
    let mut x = vec![in alloc; 0; 128]?;
    let mut y = vec![in alloc; 0; 128]?;
    let _ = builders::retain(&[0; 8], kept, &mut x);
    let _ = builders::delete(&x, deleted, &mut y);
    let _ = builders::insert(&y, typed.as_bytes(), &mut x);
    let _ = builders::retain(&x, behind, &mut y);
    Ok(y)
}

// The label's log: the server's, or a translator's copy.
#[derive(Drop)]
struct Log {
    bytes: Vec<u8>,
}

impl Log {
    fn open(alloc: Global) -> Result<Log, AllocError> {
        let mut bytes = vec![in alloc; 0; 1024]?;
        let _ = session_log::open(LENGTH, &mut bytes);
        Ok(Log { bytes })
    }

    // An edit against revision r, and its counterparts.
    fn accept(
        &mut self,
        to: &mut Printer<impl Write>,
        alloc: Global,
        edit: &[u8],
        r: u64,
    ) -> Result<Vec<u8>, AllocError> {
        let mut parts = vec![in alloc; 0; 512]?;
        let w = accept::accept(edit, r, &mut self.bytes, &mut parts);
        Ok(counterparts(to, w, parts))
    }

    // Revision k is taken back, with so much room for the counterparts.
    fn take_back(
        &mut self,
        to: &mut Printer<impl Write>,
        alloc: Global,
        k: u64,
        room: usize,
    ) -> Result<Vec<u8>, AllocError> {
        let label = LABEL.as_bytes();
        let mut x = vec![in alloc; 0; 256]?;
        let mut y = vec![in alloc; 0; 256]?;
        let mut parts = vec![in alloc; 0; room]?;
        let w = undo::undo(&mut self.bytes, k, label, &mut x, &mut y, &mut parts);
        Ok(counterparts(to, w, parts))
    }

    // Records go into a copy.
    fn take(&mut self, to: &mut Printer<impl Write>, records: &[u8]) {
        harness_calls::inner::pass_on(to, records, &mut self.bytes);
    }

    // The server's revisions that a copy hasn't got go out to it, and then it has the server's label.
    fn meets(
        &mut self,
        to: &mut Printer<impl Write>,
        alloc: Global,
        server: &Log,
    ) -> Result<bool, AllocError> {
        match session_log::inner::read(&server.bytes, words::count(&self.bytes)) {
            None => (),
            Some(s) => {
                if let Some(records) = server.bytes.get(s.at..s.size) {
                    self.take(to, records);
                }
            }
        }
        let (here, there) = (self.label(alloc)?, server.label(alloc)?);
        Ok(here == there)
    }

    // The label as the log has it.
    fn label(&self, alloc: Global) -> Result<Vec<u8>, AllocError> {
        let mut x = vec![in alloc; 0; 256]?;
        let mut y = vec![in alloc; 0; 256]?;
        let mut out = vec![in alloc; 0; 256]?;
        match playback::play(&self.bytes, LABEL.as_bytes(), &mut x, &mut y, &mut out) {
            Ok(n) => out.truncate(n),
            Err(_) => out.clear(),
        }
        Ok(out)
    }

    fn tell(
        &self,
        to: &mut Printer<impl Write>,
        alloc: Global,
        before: &str,
    ) -> Result<(), AllocError> {
        let label = self.label(alloc)?;
        write!(to, "{before}");
        to.write_all(&label);
        Ok(())
    }
}

// The counterparts, which stand in front of the output. A refusal is told; then there are none.
fn counterparts(
    to: &mut Printer<impl Write>,
    w: Result<(usize, usize), Refusal>,
    out: Vec<u8>,
) -> Vec<u8> {
    let mut parts = out;
    match w {
        Ok((_, n)) => parts.truncate(n),
        Err(x) => {
            write!(to, "{}", Reason(x));
            parts.clear();
        }
    }
    parts
}

// A copy with its translator's edit.
fn typed(to: &mut Printer<impl Write>, alloc: Global, edit: &[u8]) -> Result<Log, AllocError> {
    let mut copy = Log::open(alloc)?;
    harness_calls::inner::accepts(to, edit, &mut copy.bytes);
    Ok(copy)
}

// An edit that was written against the label as it was at the start reaches the server, and its author's copy takes in the counterparts.
fn arrives(
    to: &mut Printer<impl Write>,
    alloc: Global,
    edit: &[u8],
    server: &mut Log,
) -> Result<Log, AllocError> {
    let mut copy = typed(to, alloc, edit)?;
    let parts = server.accept(to, alloc, edit, 0)?;
    copy.take(to, &parts);
    Ok(copy)
}

// Edits in the order in which they reach the server, and the copies of their authors.
fn arrive(
    to: &mut Printer<impl Write>,
    alloc: Global,
    edits: [&[u8]; 3],
    server: &mut Log,
) -> Result<[Log; 3], AllocError> {
    let [x, y, z] = edits;
    Ok([
        arrives(to, alloc, x, server)?,
        arrives(to, alloc, y, server)?,
        arrives(to, alloc, z, server)?,
    ])
}

fn all_meet(
    to: &mut Printer<impl Write>,
    alloc: Global,
    server: &Log,
    copies: &mut [Log],
) -> Result<(), AllocError> {
    let mut all = true;
    for copy in copies {
        let meets = copy.meets(to, alloc, server)?;
        all = all && meets;
    }
    if all {
        writeln!(to, " - and so in all copies");
    } else {
        writeln!(to, " - BUT NOT IN ALL COPIES");
    }
    Ok(())
}

fn orders(
    to: &mut Printer<impl Write>,
    alloc: Global,
    a: &[u8],
    b: &[u8],
    c: &[u8],
) -> Result<(), AllocError> {
    writeln!(
        to,
        "\nTheir edits reach the server in every order. What ships:"
    );
    for (before, edits) in [
        ("  A B C  ", [a, b, c]),
        ("  A C B  ", [a, c, b]),
        ("  B A C  ", [b, a, c]),
        ("  B C A  ", [b, c, a]),
        ("  C A B  ", [c, a, b]),
        ("  C B A  ", [c, b, a]),
    ] {
        let mut server = Log::open(alloc)?;
        let mut copies = arrive(to, alloc, edits, &mut server)?;
        server.tell(to, alloc, before)?;
        all_meet(to, alloc, &server, &mut copies)?;
    }
    Ok(())
}

// The three edits come, then C's once more from a browser that sent half of its letter, then a good one.
fn damaged(
    to: &mut Printer<impl Write>,
    alloc: Global,
    edits: [&[u8]; 3],
    next: &[u8],
) -> Result<(), AllocError> {
    let half =
        b"\x04\x00\x01\x00\x30\x00\x2f\x00\x01\x02\x03\x01\x03\x00\x01\x00\x02\x00\x2b\x00\xc3";
    let mut server = Log::open(alloc)?;
    for edit in edits {
        server.accept(to, alloc, edit, 0)?;
    }
    write!(
        to,
        "\nC's edit once more, its \"ä\" cut in two on the way:\n  "
    );
    server.accept(to, alloc, half, 0)?;
    server.tell(to, alloc, "\nThe server has its log as it was:\n  ")?;
    server.accept(to, alloc, next, 3)?;
    server.tell(to, alloc, "\nand takes the next edit:\n  ")?;
    writeln!(to);
    Ok(())
}

// B's edit, which reaches the server first, is revision 1. It is taken back in B's copy, which has no later one, and on the server;
// then the copy takes in the counterparts. The undo is the server's revision 4, the newest, and is taken back there.
fn undone(
    to: &mut Printer<impl Write>,
    alloc: Global,
    a: &[u8],
    b: &[u8],
    c: &[u8],
) -> Result<(), AllocError> {
    let mut server = Log::open(alloc)?;
    let mut copies = arrive(to, alloc, [b, a, c], &mut server)?;
    server.tell(
        to,
        alloc,
        "\nB's edit came first, then A's and C's. What ships:\n  ",
    )?;
    copies[0].take_back(to, alloc, 1, 512)?;
    let parts = server.take_back(to, alloc, 1, 512)?;
    copies[0].take(to, &parts);
    server.tell(to, alloc, "\nB takes it back:\n  ")?;
    all_meet(to, alloc, &server, &mut copies)?;
    server.take_back(to, alloc, 4, 0)?;
    server.tell(to, alloc, "and takes that back:\n  ")?;
    all_meet(to, alloc, &server, &mut copies)
}

// A puts "nicht " before "in der Liste". B retypes "hier in der Liste ", which goes across that place. C turns "ae" into an umlaut.
fn story(to: &mut Printer<impl Write>, alloc: Global) -> Result<(), AllocError> {
    let a = &edit(alloc, 26, 0, "nicht ", 22)?;
    let b = &edit(alloc, 21, 18, "im Geräteverzeichnis ", 9)?;
    let c = &edit(alloc, 3, 2, "ä", 43)?;
    let next = &edit(alloc, 56, 0, " (empfohlen)", 0)?;
    writeln!(to, "The label:\n         {LABEL}\n");
    writeln!(
        to,
        "Three translators change it at the same time, each in a copy:"
    );
    for (before, edit) in [("  A      ", a), ("  B      ", b), ("  C      ", c)] {
        typed(to, alloc, edit)?.tell(to, alloc, before)?;
        writeln!(to);
    }
    orders(to, alloc, a, b, c)?;
    damaged(to, alloc, [a, b, c], next)?;
    undone(to, alloc, a, b, c)
}

fn main(rt: HostRuntime) -> std::io::Result<()> {
    let alloc = rt.alloc();
    let mut to = Printer {
        to: BufWriter::new(alloc, std::io::writer(&rt))?,
    };
    story(&mut to, alloc)?;
    to.flush();
    Ok(())
}
