// Document 01's program: records from standard input to its end, and for each its number, word 0 and sum.
// Each answer is written before the next record is read.
#![tactic(auto)]

use book::call;
use layout::fields;
use lines::{print_line, read_full};
use opening::open;
use std::io::{Read, Write};

// One record, and none after the last: a short one is the last, and a write that fails ends the run.
fn step<R: Read, W: Write>(input: &mut R, output: &mut W, words: &mut [i32]) -> Option<()> {
    let mut bytes = [0u8; fields::BYTES];
    let n = read_full(input, &mut bytes);
    if n == 0 {
        return None;
    }
    print_line(output, call(words, &bytes[..n])).ok()?;
    (n == fields::BYTES).then_some(())
}

// "a book of 16,224 words, all zero before opening, F 1, S 1, energy −4,500.00 to 4,500.00, others to 4,500.00".
// As many records as no run uses up: a `loop` isn't proved to end, and None ends `try_for_each`.
fn main(rt: HostRuntime) {
    let mut words = [0i32; 16224];
    let limits = [-450000, 450000, 450000, 450000, 450000, 450000];
    let _ = open(&mut words, 1, 1, limits);
    let mut input = rt.stdin();
    let mut output = rt.stdout();
    let _ = (0..u64::MAX).try_for_each(|_| step(&mut input, &mut output, &mut words));
}
