// Makes the calls over numbers that standard input names, one a line, through the functions of
// include/rothc.h as library_calls has them, which library_calls_c exports, and writes what each
// returns and leaves in lent memory. The calls, `stdin`, and what must be written, `stdout`, are
// made by the reference and not by this program.
#![tactic(auto)]

mod call;

use call::call;
use test_lines::fault;

const STDIN_FILENO: i32 = 0;

// The calls of a text in turn, until none is left: nothing is counted. One that departs from the
// form ends the run, as one would that took nothing of the text.
fn calls(text: &[u8]) {
    let mut left = text;
    while !left.is_empty() {
        match call(left) {
            Some(rest) if rest.len() < left.len() => left = rest,
            _ => {
                fault();
                return;
            }
        }
    }
}

// The calls of standard input. An input that fills the memory may be longer than it, and is a
// fault. The input is an array and a length, since a Vec would add the kit's memory to what this
// program assumes. Tried as a part of `main`: the checker runs out of stack at an array of this
// size.
fn read_calls(input: &mut [u8]) {
    let length = io::read_full(STDIN_FILENO, input);
    if length == input.len() {
        fault();
    } else {
        calls(&input[..length]);
    }
}

fn main() {
    let mut input = [0u8; 1_200_001];
    read_calls(&mut input);
}
