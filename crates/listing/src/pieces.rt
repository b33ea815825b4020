// Parts of a line: the digits of a mode, the digits of a content number, and an escaped byte.

#![tactic(auto, using(crate::proofs::Texts::pieces))]

ghost use Rattle.std.specs.Prelude.{◌≡◌, ◌+◌, ◌<◌, ◌≤◌, ◌++◌, length};
ghost use Rattle.listing.specs.Lines.{escape, digits};

use arrayvec::ArrayString;
use words::printable::is_printable;

// The last `count` digits.
fn push_digits<const N: usize>(text: &mut ArrayString<N>, base: u64, count: usize, n: u64)
    requires base { 0 < base }
    requires small { base ≤ 16 }
    requires room { length text.old.bytes + count ≤ N }
    ensures { text.new.bytes ≡ text.old.bytes ++ digits base count n }
{
    if count > 0 {
        push_digits(text, base, count - 1, n / base);
        let digit = char::from_digit((n % base) as u32, base as u32);
        text.push(digit.unwrap());
    }
}

// A mode in four octal digits.
pub fn mode_digits(mode: u16) -> ArrayString<4>
    ensures { result.bytes ≡ digits 8 4 mode }
{
    let mut text = ArrayString::new();
    push_digits(&mut text, 8, 4, u64::from(mode));
    text
}

// A content number in sixteen hexadecimal digits.
pub fn content_digits(content: u64) -> ArrayString<16>
    ensures { result.bytes ≡ digits 16 16 content }
{
    let mut text = ArrayString::new();
    push_digits(&mut text, 16, 16, content);
    text
}

// A byte, or a backslash and three octal digits where it does not stand for itself.
pub fn escape(byte: u8) -> ArrayString<4>
    ensures { result.bytes ≡ escape byte }
{
    let mut text = ArrayString::new();
    if is_printable(byte) {
        text.push(byte as char);
    } else {
        text.push('\\');
        push_digits(&mut text, 8, 3, u64::from(byte));
    }
    text
}
