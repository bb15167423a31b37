// A frame as a line of lower-case hexadecimal digits.
ghost use Rattle.std.specs.Prelude.{◌≡◌, ◌*◌, ◌<◌, ◌≤◌, ◌++◌, length, drop, Err, MatchResult, OnOk};
ghost use Rattle.frames.specs.Frames.{hex, digit as digit_of};
ghost use Rattle.frames.specs.Packed.{Sized, digit_read, line_read, line_written, OneLine};

use super::bytes::{FrameBytes, LONGEST};
use base::fault::Fault;
use base::refusal::Refusal;

// The value of a character that stands at a place of its line. The library's `to_digit` would take
// upper-case digits too.
fn digit_value(x: u8, place: usize) -> Result<u8, Fault>
    ensures { result ≡ digit_read x place }
{
    match x {
        b'0'..=b'9' => Ok(x - b'0'),
        b'a'..=b'f' => Ok(x - b'a' + 10),
        _ => Err(Fault::new(Refusal::BadLine, place)),
    }
}

fn check_length(line: &[u8]) -> Result<(), Fault>
    ensures { MatchResult result (λ _. Sized line.now) (λ x. line_read line.now ≡ Err x) }
{
    let digits = line.len();
    if (2..=208).contains(&digits) && digits.is_multiple_of(2) {
        Ok(())
    } else {
        Err(Fault::new(Refusal::BadLine, digits))
    }
}

fn read_digits(line: &[u8]) -> Result<FrameBytes, Fault>
    requires { Sized line.now }
    ensures { result ≡ line_read line.now }
{
    let (pairs, _) = line.as_chunks::<2>();
    let mut bytes = [0; LONGEST];
    // By index: `try_from_fn` promises some fault, not the first, and a proof knows no element of an array lent to `zip`.
    for (k, [high, low]) in pairs.iter().enumerate() {
        bytes[k] = digit_value(*high, 2 * k)? * 16 + digit_value(*low, 2 * k + 1)?;
    }
    Ok(FrameBytes {
        len: pairs.len() as u32,
        bytes,
    })
}

// The bytes that a line stands for.
pub fn read_line(line: &[u8]) -> Result<FrameBytes, Fault>
    ensures { result ≡ line_read line.now }
{
    check_length(line)?;
    read_digits(line)
}

// The digit of a value below sixteen, as a byte: the library's `from_digit` answers a `char`, and that
// in an `Option`.
fn digit(value: u8) -> u8
    requires { value < 16 }
    ensures { result ≡ digit_of value }
{
    if value < 10 {
        b'0' + value
    } else {
        b'a' + (value - 10)
    }
}

fn write_digits(frame: &[u8], buffer: &mut [u8])
    requires { 2 * length frame.now ≤ length buffer.old }
    ensures is { buffer.new ≡ hex frame.now ++ drop (2 * length frame.now) buffer.old }
    ensures one { OneLine frame.now (hex frame.now) }
{
    // By index: of a slice that was lent in chunks to write to, a proof knows no element.
    for (k, byte) in frame.iter().enumerate() {
        buffer[2 * k] = digit(byte / 16);
        buffer[2 * k + 1] = digit(byte % 16);
    }
}

// Writes the line of some bytes in front of the buffer and answers its length; what lies behind stays.
pub fn write_line(frame: &[u8], buffer: &mut [u8]) -> Result<usize, Fault>
    ensures is { (buffer.new, result) ≡ line_written frame.now buffer.old }
    ensures back { OnOk result (OneLine frame.now (hex frame.now)) }
{
    if buffer.len() / 2 < frame.len() {
        return Err(Fault::new(Refusal::ShortBuffer, 0));
    }
    write_digits(frame, buffer);
    Ok(2 * frame.len())
}
