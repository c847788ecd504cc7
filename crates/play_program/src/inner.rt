// What the programs share: reading and writing, which no contract can state.
use crate::MAX_INPUT;

// The input comes from this descriptor. One byte more than the limit is asked for, so that longer input is seen.
pub fn serve(fd: i32) {
    let mut input = [0; MAX_INPUT + 1];
    let n = io::read_full(fd, &mut input);
    let mut out = crate::buffer();
    let len = crate::play_input(&input[..n], &mut out);
    io::write_all(1, &out[..len]);
}
