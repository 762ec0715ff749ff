// Replays lists of records from standard input, each on a book that is opened for it, and prints every answer whole.
// A list is nine words, most significant byte first: F, S, six limits, the number of records; then each record as its length and its bytes.
#![tactic(auto)]

use book::call;
use lines::{print_whole, read_full};
use opening::open;
use record::{word_at, words_at};
use std::io::{Read, Write};
use units::nat;

// The longest record that a list may hold, and the words of a list's head.
const MOST_SENT: usize = 256;

const LIST_HEAD: usize = 9;

// None where the input ends before the bytes are full, or a read fails, an interrupted one too, which std's `read_exact` would try again.
fn fill<R: Read>(input: &mut R, bytes: &mut [u8]) -> Option<()> {
    (read_full(input, bytes) == bytes.len()).then_some(())
}

// One record, and none once the run ends: the input ends, a record is longer than that, or a write fails.
fn step<R: Read, W: Write>(input: &mut R, output: &mut W, words: &mut [i32]) -> Option<()> {
    let mut size = [0u8; 4];
    fill(input, &mut size)?;
    let length = usize::try_from(i32::from_be_bytes(size)).unwrap_or(0);
    let mut bytes = [0u8; MOST_SENT];
    let sent = bytes.get_mut(..length)?;
    fill(input, sent)?;
    print_whole(output, call(words, sent)).ok()
}

// Leaves no mark, so that words which can't be opened anew are no book.
fn forget(words: &mut [i32]) {
    if let Some(mark) = words.first_mut() {
        *mark = 0;
    }
}

// One list, and none once the run ends. A book that can't be opened answers 1 to every record.
fn list<R: Read, W: Write>(input: &mut R, output: &mut W, words: &mut [i32]) -> Option<()> {
    let mut list_head = [0u8; 4 * LIST_HEAD];
    fill(input, &mut list_head)?;
    // F and S, six limits, the number of records: one pattern over all nine, with the limits as its `..`, was tried and isn't proved.
    let [facilities, services] = words_at::<2>(&list_head, 0);
    let limits = words_at(&list_head, 8);
    let count = word_at(&list_head, 32);
    forget(words);
    let _ = open(words, facilities, services, limits);
    (0..nat(count)).try_for_each(|_| step(input, output, words))
}

// Room for 19 facilities of one service, or 4 of five. As many lists as no run uses up: a `loop` isn't proved to end, and None ends `try_for_each`.
fn main(rt: HostRuntime) {
    let mut words = [0i32; 322752];
    let mut input = rt.stdin();
    let mut output = rt.stdout();
    let _ = (0..u64::MAX).try_for_each(|_| list(&mut input, &mut output, &mut words));
}
