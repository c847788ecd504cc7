// The calls by their names.
use answers::Refusal;
use harness::inner::line::{Line, MOST, untouched};
use harness::inner::printer::Printer;
use harness::inner::show;
use harness::inner::show::{Bytes, Step, YesOrNo};
use std::alloc::{AllocError, Global};
use std::io::Write;

// Where memory runs out, the answer says so.
pub(crate) fn answer(to: &mut Printer<impl Write>, alloc: Global, line: &Line) {
    if call(to, alloc, line).is_err() {
        write!(to, "out of memory");
    }
}

fn call(to: &mut Printer<impl Write>, alloc: Global, line: &Line) -> Result<(), AllocError> {
    let (a, b, n) = (line.first(), line.second(), line.number);
    match line.name() {
        b"well_formed" => write!(to, "{}", YesOrNo(utf8::well_formed(a))),
        b"num_chars" => write!(to, "{}", utf8::num_chars(a)),
        b"check" => write!(to, "{}", show::Answer(operation::check(a))),
        b"base_len" => write!(to, "{}", show::Answer(operation::base_len(a))),
        b"target_len" => write!(to, "{}", show::Answer(operation::target_len(a))),
        b"is_noop" => write!(to, "{}", show::noop(operation::is_noop(a))),
        b"insert_text" => write!(to, "{}", Bytes(operation::insert_text(a, n as usize))),
        b"step" => write!(to, "{}", Step(walker::step(a, n as usize))),
        b"nth" => write!(to, "{}", Step(walker::inner::nth(a, n as usize))),
        b"walk" => walk(to, a),
        b"retain" => written(to, alloc, line, |out| builders::retain(a, n, out))?,
        b"delete" => written(to, alloc, line, |out| builders::delete(a, n, out))?,
        b"insert" => written(to, alloc, line, |out| builders::insert(a, b, out))?,
        b"apply" => written(to, alloc, line, |out| apply::apply(a, b, out))?,
        b"invert" => written(to, alloc, line, |out| invert::invert(a, b, out))?,
        b"compose" => written(to, alloc, line, |out| compose::compose(a, b, out))?,
        b"transform" => transform(to, alloc, line)?,
        _ if line.rooms <= MOST => write!(to, "no such call"),
        _ => (),
    }
    Ok(())
}

// Every step through a record, to the end.
fn walk(to: &mut Printer<impl Write>, rec: &[u8]) {
    for at in 0..1025 {
        let step = walker::step(rec, at);
        write!(to, "{}", Step(step));
        if step.is_none() {
            break;
        }
        write!(to, ", ");
    }
}

// A call that writes: its answer, then the whole output.
fn written<F: FnOnce(&mut [u8]) -> Result<usize, Refusal>>(
    to: &mut Printer<impl Write>,
    alloc: Global,
    line: &Line,
    call: F,
) -> Result<(), AllocError>
    requires { F.IsAlwaysCallable call }
{
    if MOST < line.rooms {
        return Ok(());
    }
    let mut out = untouched(alloc, line.rooms)?;
    let answer = show::Answer(call(&mut out));
    write!(to, "{answer}, {}", Bytes(&out));
    Ok(())
}

fn transform(to: &mut Printer<impl Write>, alloc: Global, line: &Line) -> Result<(), AllocError> {
    if MOST < line.room || MOST < line.rooms {
        return Ok(());
    }
    let mut x = untouched(alloc, line.room)?;
    let mut y = untouched(alloc, line.rooms)?;
    let w = transform::transform(line.first(), line.second(), &mut x, &mut y);
    write!(to, "{}, {}, {}", show::pair(w), Bytes(&x), Bytes(&y));
    Ok(())
}
