// Reads standard input: a log, then a text. Writes the text after all revisions, or `refused ` and a number.
#![tactic(auto)]

fn main() {
    play_program::inner::serve(0);
}
