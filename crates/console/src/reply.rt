// What a command is answered.
ghost use Rattle.std.specs.Prelude.{Some};
ghost use Rattle.console.specs.Shown.{book_text, seats_text, marks_text, digits_text, reply_text};

use base::book::Entry;
use frames::frame::Frame;
use frames::slot::Slot;
use std::fmt;

#[derive(Drop)]
pub enum Reply {
    Done,
    // the clerk's book, which is printed in front of the answer
    Book(Book),
    Seats(Seats),
    Tag(u64),
    // how many bytes a line stands for
    Bytes(u32),
    Decoded(Frame),
    Marks(Marks),
    Booked(Entry),
    // a frame as a line
    Written(Digits),
    Shown(Slot),
}

#[derive(Drop)]
pub struct Book(pub Vec<Entry>);

// Which stations sit in a committee.
#[derive(Clone, Copy)]
pub struct Seats(pub [bool; 16]);

// What a call did: reselected, proposed, decided.
#[derive(Clone, Copy)]
pub struct Marks(pub (bool, bool, bool));

// A line, which is printed behind its length.
#[derive(Drop)]
pub struct Digits(pub Vec<u8>);

impl fmt::Display for Reply {
    ghost output = { λ r. Some (reply_text r) };

    fn fmt<W: fmt::Write>(&self, f: &mut fmt::Formatter<W>) -> fmt::Result {
        match self {
            Reply::Done => f.write_str("ok"),
            Reply::Book(book) => {
                let count = book.0.len();
                write!(f, "ok {count}")
            }
            Reply::Seats(seats) => write!(f, "ok{seats}"),
            Reply::Tag(tag) => write!(f, "ok {tag:016x}"),
            Reply::Bytes(count) => write!(f, "ok {count}"),
            Reply::Decoded(frame) => write!(f, "ok {frame}"),
            Reply::Marks(marks) => write!(f, "ok{marks}"),
            Reply::Booked(entry) => write!(f, "ok {entry}"),
            Reply::Written(digits) => write!(f, "ok {digits}"),
            Reply::Shown(slot) => write!(f, "ok {slot}"),
        }
    }
}

// A line for each entry.
impl fmt::Display for Book {
    ghost output = { λ b. Some (book_text b) };

    fn fmt<W: fmt::Write>(&self, f: &mut fmt::Formatter<W>) -> fmt::Result {
        for (k, entry) in self.0.iter().enumerate() {
            let number = k + 1;
            writeln!(f, "entry {number} {entry}")?;
        }
        Ok(())
    }
}

impl fmt::Display for Seats {
    ghost output = { λ s. Some (seats_text s) };

    fn fmt<W: fmt::Write>(&self, f: &mut fmt::Formatter<W>) -> fmt::Result {
        for (i, sits) in self.0.iter().enumerate() {
            if *sits {
                write!(f, " {i}")?;
            }
        }
        Ok(())
    }
}

impl fmt::Display for Marks {
    ghost output = { λ m. Some (marks_text m) };

    fn fmt<W: fmt::Write>(&self, f: &mut fmt::Formatter<W>) -> fmt::Result {
        let (reselected, proposed, decided) = self.0;
        let reselected = if reselected { " reselected" } else { "" };
        let proposed = if proposed { " proposed" } else { "" };
        let decided = if decided { " decided" } else { "" };
        write!(f, "{reselected}{proposed}{decided}")
    }
}

impl fmt::Display for Digits {
    ghost output = { λ d. Some (digits_text d) };

    fn fmt<W: fmt::Write>(&self, f: &mut fmt::Formatter<W>) -> fmt::Result {
        let count = self.0.len();
        write!(f, "{count} ")?;
        for digit in &self.0 {
            f.write_char(char::from(*digit))?;
        }
        Ok(())
    }
}
