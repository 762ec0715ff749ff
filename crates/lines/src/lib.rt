// Answers as lines of text (specs/Text): numbers in decimal, a negative one with a minus sign, parted by one space.
// Promised is the text, and that it is put after what a writer holds, where the writer says what it holds; a file or a terminal doesn't.
#![tactic(auto)]

ghost use Rattle.std.specs.Prelude.{◌≡◌, ◌∷◌, ◌++◌, ◌+◌, ◌*◌, ◌≤◌, ◌<◌, length, take, drop, OnOk};
ghost use Rattle.std.specs.Io.KnownBytes.{Appends, Consumes};
ghost use Rattle.io.specs.Counts.{IsPrefixLen};
ghost use Rattle.arrayvec.specs.ArrayString.{array_string_len};
ghost use Rattle.cells.specs.Meaning.{answer_of};
ghost use Rattle.lines.specs.Text.{space, text, line, whole};

use arrayvec::ArrayString;
use cells::Answer;
use itoa::{Buffer, Integer};
use std::io;
use std::io::{Read, Write};

// Room for what is printed of an answer: 320 bytes at most (specs/Worked).
pub type Printed = ArrayString<320>;

// A number after what stands there.
fn put<I: Integer>(out: &mut Printed, n: I)
    requires { array_string_len out.old + I.MAX_STR_LEN ≤ 320 }
    ensures bytes { out.new.bytes ≡ out.old.bytes ++ I.text n }
    ensures len { array_string_len out.new ≤ array_string_len out.old + I.MAX_STR_LEN }
{
    out.push_str(Buffer::new().format(n));
}

fn put_next<I: Integer>(out: &mut Printed, n: I)
    requires { array_string_len out.old + 1 + I.MAX_STR_LEN ≤ 320 }
    ensures bytes { out.new.bytes ≡ out.old.bytes ++ (space ∷ I.text n) }
    ensures len { array_string_len out.new ≤ array_string_len out.old + 1 + I.MAX_STR_LEN }
{
    out.push_str(" ");
    put(out, n);
}

// An answer's number, some of its words and its sum, parted by spaces: 10 digits at most, 11 bytes a word and 20, and a line feed. The text is lent, as a returned one may be copied.
// `itoa` and no `Display`: tried, and `write!` into an ArrayString doesn't promise to succeed; straight to a writer, each number is a write of its own.
#[tactic(auto, using(crate::proofs::InTurn::number_first, crate::proofs::InTurn::one_word_more, crate::proofs::InTurn::sum_last))]
fn numbers_text(out: &mut Printed, answer: Answer, words: &[i32])
    requires { length words.now ≤ 24 }
    ensures bytes { out.new.bytes ≡ text answer.number words.now answer.sum }
    ensures len { array_string_len out.new ≤ 32 + 12 * length words.now }
{
    out.clear();
    put(out, answer.number);
    for word in words {
        put_next(out, *word);
    }
    put_next(out, answer.sum);
    out.push_str("\n");
}

// "prints number, word 0, sum, parted by one space"
#[tactic(auto, unfolding(crate::specs::Text::line))]
pub fn put_line(out: &mut Printed, answer: Answer)
    ensures bytes { out.new.bytes ≡ line (answer_of answer) }
    ensures len { array_string_len out.new ≤ 44 }
{
    numbers_text(out, answer, &answer.words[..1]);
}

// Number, all 24 words, sum.
#[tactic(auto, unfolding(crate::specs::Text::whole))]
pub fn put_whole(out: &mut Printed, answer: Answer)
    ensures bytes { out.new.bytes ≡ whole (answer_of answer) }
    ensures len { array_string_len out.new ≤ 320 }
{
    numbers_text(out, answer, &answer.words);
}

// A text at the start of what is lent, and its length; what stands past it stays.
fn lend(out: &mut [u8], text: &str) -> usize
    requires { length text.now ≤ length out.old }
    ensures value { result ≡ length text.now }
    ensures out_after { out.new ≡ text.now ++ drop result out.old }
{
    let end = text.len();
    out[..end].copy_from_slice(text.as_bytes());
    end
}

// An answer's line in bytes of the caller's, and its length.
pub fn line_text(out: &mut [u8; 64], answer: Answer) -> usize
    ensures prefix_len { IsPrefixLen result out.new }
    ensures value { (result ≡ length (line (answer_of answer))) × (result ≤ 44) }
    ensures out_after { out.new ≡ line (answer_of answer) ++ drop result out.old }
{
    let mut text = Printed::new();
    put_line(&mut text, answer);
    lend(out, text.as_str())
}

// An answer whole, so.
pub fn whole_text(out: &mut [u8; 512], answer: Answer) -> usize
    ensures prefix_len { IsPrefixLen result out.new }
    ensures value { (result ≡ length (whole (answer_of answer))) × (result ≤ 320) }
    ensures out_after { out.new ≡ whole (answer_of answer) ++ drop result out.old }
{
    let mut text = Printed::new();
    put_whole(&mut text, answer);
    lend(out, text.as_str())
}

// Reads until the bytes are full, the input ends or a read fails, and returns how many were put at their start, which std's `read_exact` doesn't say.
#[tactic(auto, using(crate::proofs::Taking::taken_on))]
pub fn read_full<R: Read>(input: &mut R, bytes: &mut [u8]) -> usize
    ensures prefix_len { IsPrefixLen result bytes.new }
    ensures taken { Consumes (R.remaining input.old) (R.remaining input.new) (take result bytes.new) }
{
    let mut done = 0;
    while done < bytes.len() {
        match input.read(&mut bytes[done..]) {
            Ok(0) | Err(_) => break,
            Ok(n) => done += n,
        }
    }
    done
}

// Writes a text, which is out when this returns; an error where a write fails.
fn print<W: Write>(out: &mut W, text: &str) -> io::Result<()>
    ensures { OnOk result (Appends (W.contents out.old) (W.contents out.new) text.now) }
{
    out.write_all(text.as_bytes())?;
    out.flush()
}

// An answer's line. With its twin below it shares `print`: a function over both texts would take one of two functions as an argument, and read no shorter.
pub fn print_line<W: Write>(out: &mut W, answer: Answer) -> io::Result<()>
    ensures { OnOk result (Appends (W.contents out.old) (W.contents out.new) (line (answer_of answer))) }
{
    let mut text = Printed::new();
    put_line(&mut text, answer);
    print(out, text.as_str())
}

// An answer whole.
pub fn print_whole<W: Write>(out: &mut W, answer: Answer) -> io::Result<()>
    ensures { OnOk result (Appends (W.contents out.old) (W.contents out.new) (whole (answer_of answer))) }
{
    let mut text = Printed::new();
    put_whole(&mut text, answer);
    print(out, text.as_str())
}
