// The text that the program `list` prints. A writer writes what falls inside the output, drops the rest, and hands back the position after the text.
// A position is named after what is written there.
#![tactic(auto)]

ghost use Rattle.std.specs.Prelude.{◌≡◌, [], ◌∷◌, ◌++◌, ◌+◌, ◌^◌, ◌≤◌, length};
ghost use Rattle.geometry.specs.Number.{number_bytes};
ghost use Rattle.rules.specs.Answers.{refused};
ghost use Rattle.rules.specs.ListText.{digits, decimal, without_blanks, three_digits, letter, blank, line_end, line_text, totals_text, refusal_text};
ghost use Rattle.text.specs.Placed.{Written};

use geometry::{DIRECTORY, Geometry};
use refusals::Refusal;
use rules::{Line, Totals};

// Writes a byte.
fn put_byte(out: &mut [u8], at: usize, c: u8) -> usize
    requires { at + 1 ≤ 2 ^ 40 }
    ensures { Written at (c ∷ []) out.old result out.new }
{
    if at < out.len() {
        out[at] = c;
    }
    at + 1
}

// Writes bytes.
fn put_bytes(out: &mut [u8], at: usize, bytes: &[u8]) -> usize
    requires { at + length bytes.now ≤ 2 ^ 40 }
    ensures { Written at bytes.now out.old result out.new }
{
    let mut next = at;
    for c in bytes {
        next = put_byte(out, next, *c);
    }
    next
}

// Writes a number in decimal, of at most so many digits.
fn put_digits(out: &mut [u8], at: usize, most: usize, x: usize) -> usize
    requires { at + most ≤ 2 ^ 40 }
    ensures { Written at (digits most x) out.old result out.new × (result ≤ at + most) }
{
    if most == 0 {
        return at;
    }
    let digit = b'0' + (x % 10) as u8;
    if x < 10 {
        return put_byte(out, at, digit);
    }
    let last = put_digits(out, at, most - 1, x / 10);
    put_byte(out, last, digit)
}

// Writes a word and a number in decimal.
fn put_field(out: &mut [u8], at: usize, word: &[u8], x: usize) -> usize
    requires { at + length word.now + 20 ≤ 2 ^ 40 }
    ensures { Written at (word.now ++ decimal x) out.old result out.new × (result ≤ at + length word.now + 20) }
{
    let number = put_bytes(out, at, word);
    put_digits(out, number, 20, x)
}

// Writes a byte of a name unless it is a blank.
fn put_visible(out: &mut [u8], at: usize, c: u8) -> usize
    requires { at + 1 ≤ 2 ^ 40 }
    ensures { Written at (without_blanks (c ∷ [])) out.old result out.new × (result ≤ at + 1) }
{
    if c == b' ' { at } else { put_byte(out, at, c) }
}

// Writes a name without blanks.
fn put_name(out: &mut [u8], at: usize, name: u32) -> usize
    requires { at + 4 ≤ 2 ^ 40 }
    ensures { Written at (without_blanks (number_bytes 4 name)) out.old result out.new × (result ≤ at + 4) }
{
    let mut next = at;
    for c in name.to_le_bytes() {
        next = put_visible(out, next, c);
    }
    next
}

// The letter of an entry's attribute.
fn letter_of(line: Line) -> u8
    ensures { result ≡ letter line }
{
    match (line.attribute, line.extension) {
        (0, _) => b'-',
        (_, DIRECTORY) => b'h',
        _ => b'r',
    }
}

// Writes an entry's extension number in three digits and the letter of its attribute, each after a blank.
fn put_kind(out: &mut [u8], at: usize, line: Line) -> usize
    requires { at + 6 ≤ 2 ^ 40 }
    ensures { Written at (blank ++ (three_digits line.extension ++ (blank ++ (letter line ∷ [])))) out.old result out.new }
{
    let x = line.extension;
    let kind = [
        b' ',
        b'0' + x / 100 % 10,
        b'0' + x / 10 % 10,
        b'0' + x % 10,
        b' ',
        letter_of(line),
    ];
    put_bytes(out, at, &kind)
}

// Writes an entry's start page, pages and bytes, each after a blank, and the end of the line.
fn put_sizes(out: &mut [u8], at: usize, line: Line) -> usize
    requires { at + 64 ≤ 2 ^ 40 }
    ensures { Written at (blank ++ (decimal line.start ++ (blank ++ (decimal line.pages ++ (blank ++ (decimal line.length ++ line_end)))))) out.old result out.new }
{
    let pages = put_field(out, at, b" ", line.start);
    let length = put_field(out, pages, b" ", line.pages);
    let last = put_field(out, length, b" ", line.length);
    put_byte(out, last, b'\n')
}

// Writes the line of an entry.
pub fn put_line(out: &mut [u8], at: usize, line: Line) -> usize
    requires { at + 100 ≤ 2 ^ 40 }
    ensures { Written at (line_text line) out.old result out.new }
{
    let blank = put_digits(out, at, 20, line.level);
    let name = put_byte(out, blank, b' ');
    let kind = put_name(out, name, line.name);
    let sizes = put_kind(out, kind, line);
    put_sizes(out, sizes, line)
}

// Writes the line of totals.
pub fn put_totals(out: &mut [u8], at: usize, g: Geometry, totals: Totals) -> usize
    requires { at + 200 ≤ 2 ^ 40 }
    ensures { Written at (totals_text g totals) out.old result out.new }
{
    let pages = put_field(out, at, b"page ", g.size);
    let used = put_field(out, pages, b" pages ", g.pages);
    let files = put_field(out, used, b" used ", totals.used);
    let directories = put_field(out, files, b" files ", totals.files);
    let last = put_field(out, directories, b" directories ", totals.directories);
    put_byte(out, last, b'\n')
}

// Writes the line of a refusal.
pub fn put_refusal(out: &mut [u8], at: usize, refusal: Refusal) -> usize
    requires { at + 60 ≤ 2 ^ 40 }
    ensures { Written at (refusal_text (refused refusal)) out.old result out.new }
{
    let Refusal(fault, page) = refusal;
    let place = put_field(out, at, b"refused ", usize::from(fault.number()));
    let last = put_field(out, place, b" page ", page);
    put_byte(out, last, b'\n')
}
