// The words of a command.
ghost use Rattle.std.specs.Prelude.{◌≡◌, ◌<◌, ◌==◌, suc, length, position, None, Some, IfSome};
ghost use Rattle.std.specs.Iterator.{at_most};
ghost use Rattle.console.specs.Numbers.{number_of};

use super::trouble::Mistake;
use base::book::Batch;
use frames::line::read_line;

// What is left of a line behind its first words, which single blanks part; none at the line's end.
#[derive(Drop)]
pub struct Words<'a> {
    rest: Option<&'a [u8]>,
}

// Where the first blank stands.
fn blank(text: &[u8]) -> Option<usize>
    ensures is { result ≡ position (λ b. b == 32) text.now }
    ensures inside { IfSome result (λ i. i < length text.now) }
{
    text.iter().position(|b| *b == b' ')
}

// A blank at the end is followed by an empty word.
impl<'a> Iterator for Words<'a> {
    type Item = &'a [u8];

    ghost remaining = { λ w. at_most (elim w.rest [ None ↦ 0 | Some t ↦ suc (length t.now) ]) };

    fn next(&mut self) -> Option<&'a [u8]> {
        let text = self.rest.take()?;
        let Some(end) = blank(text) else {
            return Some(text);
        };
        self.rest = Some(&text[end + 1..]);
        Some(&text[..end])
    }
}

impl<'a> Words<'a> {
    pub fn of(line: &'a [u8]) -> Words<'a> {
        Words { rest: Some(line) }
    }

    pub fn word(&mut self) -> Result<&'a [u8], Mistake> {
        self.next().ok_or(Mistake::WrongWords)
    }

    // All that is left, as it stands.
    pub fn text(&mut self) -> Result<&'a [u8], Mistake> {
        self.rest.take().ok_or(Mistake::WrongWords)
    }

    // No word may be left.
    pub(super) fn end(&self) -> Result<(), Mistake> {
        self.rest.map_or(Ok(()), |_| Err(Mistake::WrongWords))
    }

    pub fn number(&mut self) -> Result<u32, Mistake> {
        number(self.word()?).ok_or(Mistake::WrongWords)
    }

    // The next word, which is to be the last.
    pub fn last_word(&mut self) -> Result<&'a [u8], Mistake> {
        let word = self.word()?;
        self.end()?;
        Ok(word)
    }

    pub fn last_number(&mut self) -> Result<u32, Mistake> {
        number(self.last_word()?).ok_or(Mistake::WrongWords)
    }

    pub fn last_two(&mut self) -> Result<(u32, u32), Mistake> {
        Ok((self.number()?, self.last_number()?))
    }

    pub fn last_batch(&mut self) -> Result<Batch, Mistake> {
        Ok(Batch {
            grower: self.number()?,
            fruit: self.number()?,
            oil: self.last_number()?,
        })
    }
}

// The number that decimal digits stand for, if it is of 32 bits.
pub fn number(word: &[u8]) -> Option<u32>
    ensures { result ≡ number_of word.now }
{
    // the library would read a sign
    if word.starts_with(b"+") {
        return None;
    }
    str::from_utf8(word).ok()?.parse::<u32>().ok()
}

// The word of sixteen hexadecimal digits.
pub fn hex_word(text: &[u8]) -> Result<u64, Mistake> {
    Ok(u64::from_be_bytes(spelled(text)?))
}

// The statement of 48 hexadecimal digits.
pub fn statement(text: &[u8]) -> Result<[u8; 24], Mistake> {
    spelled(text)
}

// The bytes that hexadecimal digits spell, just so many.
fn spelled<const N: usize>(text: &[u8]) -> Result<[u8; N], Mistake> {
    let line = read_line(text).map_err(|_| Mistake::WrongWords)?;
    <[u8; N]>::try_from(line.as_slice()).map_err(|_| Mistake::WrongWords)
}
