// Prints what a call of the engine returned and wrote: number, offset and written in decimal with single spaces, then the answer bytes in
// lower-case hexadecimal, 32 bytes a line.
//
// `Hex` states what it prints: the two digits of each byte, in order. `print` has no `ensures`: it changes nothing that a contract can
// speak of, and what stands on standard output is in no contract of `std`. The contract of `put_line` says what stands in each of its lines
// of bytes. The gate holds the output of the programs that call it to their files `stdout`. It ends at the first write that fails, with its
// error.
#![tactic(auto)]

ghost use Rattle.std.specs.Prelude.{◌≡◌, ◌+◌, ◌*◌, ◌<◌, ◌≤◌, ◌∷◌, ◌++◌, length, drop, Some, IsAscii};
ghost use Rattle.std.specs.Char.{digit_char};
ghost use Rattle.report.specs.HexText.{hex_text};

use std::{fmt, io, str};

// A hexadecimal digit, in lower case.
fn digit(x: u8) -> u8
    requires { x < 16 }
    ensures value { result ≡ digit_char x }
    ensures ascii { result < 128 }
{
    if x < 10 { 48 + x } else { 87 + x }
}

// Puts the digits of the bytes into `text`, which they fill. (The kit's `hex` looks each digit up, and takes 2.6 times the instructions.)
fn put_digits(text: &mut [u8], bytes: &[u8])
    requires { length text.old ≡ 2 * length bytes.now }
    ensures digits { text.new ≡ hex_text bytes.now }
    ensures ascii { IsAscii text.new }
{
    for (i, b) in bytes.iter().enumerate() {
        text[2 * i] = digit(b / 16);
        text[2 * i + 1] = digit(b % 16);
    }
}

// Puts the digits of up to 32 bytes and the end of their line in front of `line`. What stands behind stays.
fn put_line(line: &mut [u8; 65], bytes: &[u8])
    requires { length bytes.now ≤ 32 }
    ensures { line.new ≡ hex_text bytes.now ++ (10 ∷ drop (2 * length bytes.now + 1) line.old) }
{
    let end = 2 * bytes.len();
    put_digits(&mut line[..end], bytes);
    line[end] = b'\n';
}

// Bytes that are printed by two digits each.
#[derive(Clone, Copy)]
pub struct Hex<'a>(pub &'a [u8]);

impl<'a> fmt::Display for Hex<'a> {
    ghost output = { λ h. Some (hex_text h.0.now) };

    fn fmt<W: fmt::Write>(&self, f: &mut fmt::Formatter<W>) -> fmt::Result {
        let mut room = [0u8; 64];
        for bytes in self.0.chunks(32) {
            let digits = &mut room[..2 * bytes.len()];
            put_digits(digits, bytes);
            let Ok(text) = str::from_utf8(digits) else {
                unreachable!();
            };
            f.write_str(text)?;
        }
        Ok(())
    }
}

// Prints a result of the engine and the bytes that it wrote into `answers`. A line of bytes is handed over whole: `println!` of a `Hex`
// copies it byte by byte, and takes eight times the instructions.
pub fn print(rt: &impl Print, res: u64, answers: &[u8]) -> io::Result<()> {
    let number = res / 4294967296;
    let offset = res / 65536 % 65536;
    let written = (res % 65536) as usize;
    println!(rt; "{number} {offset} {written}")?;
    if written <= answers.len() {
        let mut line = [0u8; 65];
        for bytes in answers[..written].chunks(32) {
            put_line(&mut line, bytes);
            rt.write_all(&line[..2 * bytes.len() + 1])?;
        }
    }
    Ok(())
}
