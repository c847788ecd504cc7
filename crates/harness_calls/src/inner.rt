// Calls on a log by their names, each with its answer told: no contract states that.
use answers::Refusal;
use harness::inner::line::{Line, MOST, untouched};
use harness::inner::printer::Printer;
use harness::inner::show::Refused;
use harness::inner::words::Records;
use harness::inner::{tell, words};
use std::alloc::{AllocError, Global};
use std::io::Write;

// The call behind the session's letter. What an edit or an undo gives that is accepted is kept for a relay. Where memory runs out,
// the answer says so.
pub fn answer(
    to: &mut Printer<impl Write>,
    alloc: Global,
    line: &Line,
    log: &mut [u8],
    kept: &mut Vec<u8>,
) {
    if call(to, alloc, line, log, kept).is_err() {
        write!(to, "out of memory");
    }
}

fn call(
    to: &mut Printer<impl Write>,
    alloc: Global,
    line: &Line,
    log: &mut [u8],
    kept: &mut Vec<u8>,
) -> Result<(), AllocError> {
    match line.name().get(1..).unwrap_or(&[]) {
        b".accept" => accept(to, alloc, line, Some(line.number), log, kept)?,
        b".newest" => accept(to, alloc, line, None, log, kept)?,
        b".undo" => undo(to, alloc, line, log, kept)?,
        b".relay" => relay(to, line, kept.as_slice(), log),
        b".open" => open(to, line, log),
        b".put" => put(to, line, log),
        b".show" => tell::log(to, log),
        b".summary" => summary(to, alloc, line, log)?,
        b".play" => play(to, alloc, line, log)?,
        _ => write!(to, "no such call"),
    }
    Ok(())
}

// The number of two bytes that stands here.
fn stated(y: &[u8], at: usize) -> Option<usize> {
    match y.get(at..)? {
        [low, high, ..] => Some(usize::from(u16::from_le_bytes([*low, *high]))),
        _ => None,
    }
}

fn open(to: &mut Printer<impl Write>, line: &Line, log: &mut [u8]) {
    let Some(log) = log.get_mut(..line.rooms) else {
        return;
    };
    let w = session_log::open(line.number, log);
    tell::opened(to, w, log);
}

fn put(to: &mut Printer<impl Write>, line: &Line, log: &mut [u8]) {
    if let Some(new) = line.first().first() {
        if let Some(byte) = log.get_mut(line.number as usize) {
            write!(to, "was {byte:02x}");
            *byte = *new;
        }
    }
}

// An edit against revision r, or against the newest, as often as the line says; the last answer is told.
fn accept(
    to: &mut Printer<impl Write>,
    alloc: Global,
    line: &Line,
    r: Option<u64>,
    log: &mut [u8],
    kept: &mut Vec<u8>,
) -> Result<(), AllocError> {
    let Some(log) = log.get_mut(..line.room) else {
        return Ok(());
    };
    if MOST < line.rooms {
        return Ok(());
    }
    let mut out = untouched(alloc, line.rooms)?;
    for _ in 1..stated(line.second(), 0).unwrap_or(1) {
        let _ = accept_once(line.first(), r, log, &mut out, kept)?;
        out.fill(0xEE);
    }
    let w = accept_once(line.first(), r, log, &mut out, kept)?;
    tell::accepted(to, w, log, &out);
    Ok(())
}

fn accept_once(
    edit: &[u8],
    r: Option<u64>,
    log: &mut [u8],
    out: &mut [u8],
    kept: &mut Vec<u8>,
) -> Result<Result<(usize, usize), Refusal>, AllocError> {
    let newest = words::count(log);
    let w = accept::accept(edit, r.unwrap_or(newest), log, out);
    keep(w, out, kept)?;
    Ok(w)
}

// The counterparts, which stand in front of the output.
fn keep(
    w: Result<(usize, usize), Refusal>,
    out: &[u8],
    kept: &mut Vec<u8>,
) -> Result<(), AllocError> {
    if let Ok((_, m)) = w {
        if let Some(counterparts) = out.get(..m) {
            kept.clear();
            kept.extend_from_slice(counterparts)?;
        }
    }
    Ok(())
}

fn relay(to: &mut Printer<impl Write>, line: &Line, records: &[u8], log: &mut [u8]) {
    let Some(log) = log.get_mut(..line.rooms) else {
        return;
    };
    let before = words::count(log);
    pass_on(to, records, log);
    tell::relayed(to, before, log);
}

// Records, oldest first, each accepted against the newest revision, up to the first that is refused.
pub fn pass_on(to: &mut Printer<impl Write>, records: &[u8], log: &mut [u8]) {
    for record in Records(records) {
        if !accepts(to, record, log) {
            break;
        }
    }
}

// Whether a record is accepted against the newest revision; a refusal is told.
pub fn accepts(to: &mut Printer<impl Write>, rec: &[u8], log: &mut [u8]) -> bool {
    let newest = words::count(log);
    match accept::accept(rec, newest, log, &mut []) {
        Ok((_, _)) => true,
        Err(x) => {
            write!(to, "{} after ", Refused(x));
            false
        }
    }
}

fn summary(
    to: &mut Printer<impl Write>,
    alloc: Global,
    line: &Line,
    log: &[u8],
) -> Result<(), AllocError> {
    if MOST < line.rooms {
        return Ok(());
    }
    let mut out = untouched(alloc, line.rooms)?;
    let w = summary::summary(log, &mut out);
    tell::summed(to, w, &out);
    Ok(())
}

// The second scratch buffer has as many bytes as the first, unless the line has a number for it.
fn play(
    to: &mut Printer<impl Write>,
    alloc: Global,
    line: &Line,
    log: &[u8],
) -> Result<(), AllocError> {
    let other = match line.number {
        0 => line.room,
        n => n as usize,
    };
    if MOST < line.rooms || MOST < line.room || MOST < other {
        return Ok(());
    }
    let mut x = untouched(alloc, line.room)?;
    let mut y = untouched(alloc, other)?;
    let mut out = untouched(alloc, line.rooms)?;
    let w = playback::play(log, line.first(), &mut x, &mut y, &mut out);
    tell::played(to, w, &out);
    Ok(())
}

// The second operand has the size of the second scratch buffer, and then that of the log's.
fn undo(
    to: &mut Printer<impl Write>,
    alloc: Global,
    line: &Line,
    log: &mut [u8],
    kept: &mut Vec<u8>,
) -> Result<(), AllocError> {
    let sizes = line.second();
    let other = stated(sizes, 0).unwrap_or(line.room);
    let size = stated(sizes, 2).unwrap_or(log.len()).min(log.len());
    let log = &mut log[..size];
    let mut x = untouched(alloc, line.room.min(MOST))?;
    let mut y = untouched(alloc, other.min(MOST))?;
    let mut out = untouched(alloc, line.rooms.min(MOST))?;
    let w = undo::undo(log, line.number, line.first(), &mut x, &mut y, &mut out);
    keep(w, &out, kept)?;
    tell::accepted(to, w, log, &out);
    Ok(())
}
