// The program: reads recipe numbers from standard input and prints what `session::text_of` says.
#![tactic(auto)]

// One byte more than the program takes, so that it sees when there are more.
const BYTES: usize = session::LIMIT + 1;

// More than any text has.
const TEXT: usize = 4096;

fn main() {
    let mut input = [0u8; BYTES];
    let n = io::read_full(0, &mut input);
    let mut text = [0u8; TEXT];
    let m = session::text_of(&input[..n], &mut text);
    io::write_all(1, &text[..m]);
}
