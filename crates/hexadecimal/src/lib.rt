// Bytes in hexadecimal in a lent buffer.
#![tactic(auto)]

ghost use Rattle.std.specs.Prelude.{◌≡◌, ◌+◌, ◌*◌, ◌<◌, ◌≤◌, min, length};
ghost use Rattle.composing.specs.Text.{Put};
ghost use Rattle.hexadecimal.specs.Hexadecimal.{hex_digit, hex_byte, hex_of, hex_line, hex_lines, digits_in};

use composing::put_byte;

// The digit of a number below 16.
#[tactic(auto, unfolding(crate::specs::Hexadecimal::hex_digit))]
fn digit_of(n: u8) -> u8
    requires { n < 16 }
    ensures { result ≡ hex_digit n }
{
    if n < 10 { b'0' + n } else { b'a' + (n - 10) }
}

// The two digits of a byte.
fn put_two(out: &mut [u8], at: usize, b: u8) -> usize
    ensures { Put out.old out.new at result (hex_byte b) }
{
    let end = put_byte(out, at, digit_of(b / 16));
    put_byte(out, end, digit_of(b % 16))
}

// Bytes, one after another.
pub fn put_hex(out: &mut [u8], at: usize, bytes: &[u8]) -> usize
    ensures { Put out.old out.new at result (hex_of bytes.now) }
{
    let mut end = at;
    for b in bytes {
        end = put_two(out, end, *b);
    }
    end
}

// Where a line of the text page ends that starts at place `from` of n bytes.
fn line_stop(n: usize, from: usize) -> usize
    requires { from ≤ n }
    ensures { result ≡ min (from + 32) n }
{
    from + (n - from).min(32)
}

// Line m of the text page.
fn put_hex_line(out: &mut [u8], at: usize, bytes: &[u8], m: usize) -> usize
    requires { 32 * m < length bytes.now }
    ensures { Put out.old out.new at result (hex_line bytes.now m) }
{
    let from = 32 * m;
    let stop = line_stop(bytes.len(), from);
    let end = put_hex(out, at, &bytes[from..stop]);
    put_byte(out, end, b'\n')
}

// The lines of the text page.
fn put_hex_lines(out: &mut [u8], at: usize, bytes: &[u8]) -> usize
    ensures { Put out.old out.new at result (hex_lines bytes.now) }
{
    let mut end = at;
    let lines = (bytes.len() + 31) / 32;
    for m in 0..lines {
        end = put_hex_line(out, end, bytes, m);
    }
    end
}

// The digits of a record.
pub fn put_record_digits(out: &mut [u8], at: usize, html: bool, packed: &[u8]) -> usize
    ensures { Put out.old out.new at result (digits_in html packed.now) }
{
    if html {
        put_hex(out, at, packed)
    } else {
        put_hex_lines(out, at, packed)
    }
}
