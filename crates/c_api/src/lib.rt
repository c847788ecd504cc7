// The calls for C: include/ot.h declares them, `tools/archive` makes the library.
#![tactic(auto)]

ghost use Rattle.std.specs.Prelude.{◌≡◌, length, if◌then◌else◌};
ghost use Rattle.characters.specs.Form.{is_well_formed};
ghost use Rattle.characters.specs.Chars.{number_of_chars};
ghost use Rattle.record.specs.Calls.{check_call, base_call, target_call, noop_call, text_call, start_of_insert};
ghost use Rattle.walker.specs.Walk.{step_call};
ghost use Rattle.operational_transform.specs.Calls.{retain_call, delete_call, insert_call, apply_call, invert_call, compose_call, transform_call};
ghost use Rattle.json_lists.specs.Calls.{from_json_call, to_json_call};
ghost use Rattle.session_log.specs.Open.{open_call};
ghost use Rattle.session.specs.Session.{accept_call, undo_call, summary_call, play_call};
ghost use Rattle.packing.specs.Numbers.{packed, step_number, part};

// ---- texts

#[unsafe(no_mangle)]
pub extern "C" fn ot_well_formed(text: &[u8]) -> u64
    ensures { result ≡ (if is_well_formed text.now then 1 else 0) }
{
    packing::inner::flag(utf8::well_formed(text))
}

#[unsafe(no_mangle)]
pub extern "C" fn ot_num_chars(bytes: &[u8]) -> u64
    ensures { result ≡ number_of_chars bytes.now }
{
    utf8::num_chars(bytes) as u64
}

// ---- what can be asked of a record

#[unsafe(no_mangle)]
pub extern "C" fn ot_check(rec: &[u8]) -> u64
    ensures { result ≡ packed (check_call rec.now) }
{
    packing::inner::answer(operation::check(rec))
}

#[unsafe(no_mangle)]
pub extern "C" fn ot_base_len(rec: &[u8]) -> u64
    ensures { result ≡ packed (base_call rec.now) }
{
    packing::inner::answer(operation::base_len(rec))
}

#[unsafe(no_mangle)]
pub extern "C" fn ot_target_len(rec: &[u8]) -> u64
    ensures { result ≡ packed (target_call rec.now) }
{
    packing::inner::answer(operation::target_len(rec))
}

#[unsafe(no_mangle)]
pub extern "C" fn ot_is_noop(rec: &[u8]) -> u64
    ensures { result ≡ packed (noop_call rec.now) }
{
    packing::inner::noop(operation::is_noop(rec))
}

#[unsafe(no_mangle)]
pub extern "C" fn ot_step(rec: &[u8], at: u64) -> u64
    ensures { result ≡ step_number (step_call rec.now at) }
{
    packing::inner::step(walker::step(rec, at as usize))
}

#[unsafe(no_mangle)]
pub extern "C" fn ot_insert_text(rec: &[u8], k: u64) -> u64
    ensures { result ≡ part (start_of_insert rec.now k) (length (text_call rec.now k)) }
{
    let text = operation::insert_text(rec, k as usize);
    let size = text.len();
    if size == 0 {
        return 0;
    }
    let n = reader::inner::op_count(rec);
    let from = operation::inner::text_from(rec, n, k as usize);
    from as u64 + 0x1_0000_0000 * (size as u64)
}

// ---- building a record

#[unsafe(no_mangle)]
pub extern "C" fn ot_retain(rec: &[u8], n: u64, out: &mut [u8]) -> u64
    ensures { (result ≡ packed (retain_call rec.now n out.old).answer)
        × (out.new ≡ (retain_call rec.now n out.old).out) }
{
    packing::inner::answer(builders::retain(rec, n, out))
}

#[unsafe(no_mangle)]
pub extern "C" fn ot_delete(rec: &[u8], n: u64, out: &mut [u8]) -> u64
    ensures { (result ≡ packed (delete_call rec.now n out.old).answer)
        × (out.new ≡ (delete_call rec.now n out.old).out) }
{
    packing::inner::answer(builders::delete(rec, n, out))
}

#[unsafe(no_mangle)]
pub extern "C" fn ot_insert(rec: &[u8], text: &[u8], out: &mut [u8]) -> u64
    ensures { (result ≡ packed (insert_call rec.now text.now out.old).answer)
        × (out.new ≡ (insert_call rec.now text.now out.old).out) }
{
    packing::inner::answer(builders::insert(rec, text, out))
}

// ---- lists from the browser

#[unsafe(no_mangle)]
pub extern "C" fn ot_from_json(list: &[u8], out: &mut [u8]) -> u64
    ensures { (result ≡ packed (from_json_call list.now out.old).answer)
        × (out.new ≡ (from_json_call list.now out.old).out) }
{
    packing::inner::answer(json_edits::from_json(list, out))
}

#[unsafe(no_mangle)]
pub extern "C" fn ot_to_json(rec: &[u8], out: &mut [u8]) -> u64
    ensures { (result ≡ packed (to_json_call rec.now out.old).answer)
        × (out.new ≡ (to_json_call rec.now out.old).out) }
{
    packing::inner::answer(json_edits::to_json(rec, out))
}

// ---- records and texts

#[unsafe(no_mangle)]
pub extern "C" fn ot_apply(rec: &[u8], text: &[u8], out: &mut [u8]) -> u64
    ensures { (result ≡ packed (apply_call rec.now text.now out.old).answer)
        × (out.new ≡ (apply_call rec.now text.now out.old).out) }
{
    packing::inner::answer(apply::apply(rec, text, out))
}

#[unsafe(no_mangle)]
pub extern "C" fn ot_invert(rec: &[u8], text: &[u8], out: &mut [u8]) -> u64
    ensures { (result ≡ packed (invert_call rec.now text.now out.old).answer)
        × (out.new ≡ (invert_call rec.now text.now out.old).out) }
{
    packing::inner::answer(invert::invert(rec, text, out))
}

#[unsafe(no_mangle)]
pub extern "C" fn ot_compose(a: &[u8], b: &[u8], out: &mut [u8]) -> u64
    ensures { (result ≡ packed (compose_call a.now b.now out.old).answer)
        × (out.new ≡ (compose_call a.now b.now out.old).out) }
{
    packing::inner::answer(compose::compose(a, b, out))
}

#[unsafe(no_mangle)]
pub extern "C" fn ot_transform(a: &[u8], b: &[u8], out_a: &mut [u8], out_b: &mut [u8]) -> u64
    ensures { (result ≡ packed (transform_call a.now b.now out_a.old out_b.old).answer)
        × (out_a.new ≡ (transform_call a.now b.now out_a.old out_b.old).out_a)
        × (out_b.new ≡ (transform_call a.now b.now out_a.old out_b.old).out_b) }
{
    packing::inner::pair(transform::transform(a, b, out_a, out_b))
}

// ---- a session's log

#[unsafe(no_mangle)]
pub extern "C" fn ot_open(start: u64, log: &mut [u8]) -> u64
    ensures { (result ≡ packed (open_call start log.old).answer)
        × (log.new ≡ (open_call start log.old).out) }
{
    packing::inner::answer(session_log::open(start, log))
}

#[unsafe(no_mangle)]
pub extern "C" fn ot_accept(edit: &[u8], r: u64, log: &mut [u8], out: &mut [u8]) -> u64
    ensures { (result ≡ packed (accept_call edit.now r log.old out.old).answer)
        × (log.new ≡ (accept_call edit.now r log.old out.old).out_a)
        × (out.new ≡ (accept_call edit.now r log.old out.old).out_b) }
{
    packing::inner::pair(accept::accept(edit, r, log, out))
}

#[unsafe(no_mangle)]
pub extern "C" fn ot_undo(
    log: &mut [u8],
    k: u64,
    text: &[u8],
    scratch_a: &mut [u8],
    scratch_b: &mut [u8],
    out: &mut [u8],
) -> u64
    ensures { (result ≡ packed (undo_call log.old k text.now (length scratch_a.old)
        (length scratch_b.old) out.old).answer)
        × (log.new ≡ (undo_call log.old k text.now (length scratch_a.old)
        (length scratch_b.old) out.old).out_a)
        × (out.new ≡ (undo_call log.old k text.now (length scratch_a.old)
        (length scratch_b.old) out.old).out_b) }
{
    packing::inner::pair(undo::undo(log, k, text, scratch_a, scratch_b, out))
}

#[unsafe(no_mangle)]
pub extern "C" fn ot_summary(log: &[u8], out: &mut [u8]) -> u64
    ensures { (result ≡ packed (summary_call log.now out.old).answer)
        × (out.new ≡ (summary_call log.now out.old).out) }
{
    packing::inner::answer(summary::summary(log, out))
}

#[unsafe(no_mangle)]
pub extern "C" fn ot_play(
    log: &[u8],
    text: &[u8],
    scratch_a: &mut [u8],
    scratch_b: &mut [u8],
    out: &mut [u8],
) -> u64
    ensures { (result ≡ packed (play_call log.now text.now (length scratch_a.old)
        (length scratch_b.old) out.old).answer)
        × (out.new ≡ (play_call log.now text.now (length scratch_a.old)
        (length scratch_b.old) out.old).out) }
{
    packing::inner::answer(playback::play(log, text, scratch_a, scratch_b, out))
}
