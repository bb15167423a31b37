// The state of a script, and what each command does to it.
use super::floor::Floor;
use super::reply::{Book, Reply, Seats};
use super::trouble::{Mistake, Trouble};
use super::words::{Words, hex_word, statement};
use base::book::Batch;
use base::fault::Fault;
use frames::decode::Limits;
use frames::line::read_line;
use hall::state::Hall;
use policies::any::AnyPolicy;
use policies::full::Full;
use policies::policy::Policy;
use policies::rotating::Rotating;
use policies::table::{Locked, OpenTable};
use rules::any::AnyRule;
use rules::clerk::clerk;
use seals::any::AnySeal;
use seals::keyed::Keyed;
use seals::seal::Sealing;
use seals::sheet::Sheet;
use std::alloc::Global;
use std::array;

// The most batches or slots of a hall, and the most elements of a buffer, that a script may ask for.
const MOST_MADE: u32 = 100_000;

const MOST_LENT: u32 = 2_000_000;

#[derive(Drop)]
enum Table {
    Open(OpenTable),
    Fixed(Locked),
}

#[derive(Drop)]
pub struct Desk {
    heap: Global,
    // the one table of a script, in whichever state it is
    table: Option<Table>,
    rule: Option<AnyRule>,
    policy: Option<AnyPolicy>,
    seal: Option<AnySeal>,
    intake: Vec<Batch>,
    // how many batches a frame may name
    batches: Option<u32>,
    floor: Option<Floor>,
}

impl Desk {
    pub fn new(heap: Global) -> Desk {
        Desk {
            heap,
            table: None,
            rule: None,
            policy: None,
            seal: None,
            intake: Vec::new(heap),
            batches: None,
            floor: None,
        }
    }

    // What a line is answered. A mistake and a refusal change nothing.
    pub fn answer(&mut self, line: &[u8]) -> Result<Reply, Trouble> {
        let mut words = Words::of(line);
        // a match: a table of functions would ask for one signature of all, and be no plainer
        match words.word()? {
            b"table" => self.new_table(&words),
            b"add" => self.add(&mut words),
            b"lock" => self.lock(&mut words),
            b"rule" => self.choose_rule(&mut words),
            b"policy" => self.build_policy(&mut words),
            b"seal" => self.choose_seal(&mut words),
            b"batch" => self.bring(&mut words),
            b"clerk" => self.book_alone(&words),
            b"seats" => self.seats(&mut words),
            b"tag" => self.tag(&mut words),
            b"line" => measure(&mut words),
            b"batches" => self.set_batches(&mut words),
            b"frame" => self.frame(&mut words),
            b"hall" => self.make_hall(&mut words),
            name => self.call(name, &mut words),
        }
    }

    // A call on the hall that stands: its words are judged first. A match again, as above.
    fn call(&mut self, name: &[u8], words: &mut Words) -> Result<Reply, Trouble> {
        match name {
            b"buffers" => {
                let (batches, slots, entries) = lengths(words)?;
                self.floor()?.resize(batches, slots, entries)
            }
            b"open" => {
                let i = words.last_number()?;
                self.floor()?.open(i)
            }
            b"deliver" => {
                let (i, f) = words.last_two()?;
                self.floor()?.deliver(i, f)
            }
            b"ring" => {
                let i = words.last_number()?;
                self.floor()?.ring(i)
            }
            b"inject" => {
                let line = words.text()?;
                self.floor()?.inject(line)
            }
            b"read" => {
                let (i, k) = words.last_two()?;
                self.floor()?.read(i, k)
            }
            b"write" => {
                let (f, len) = words.last_two()?;
                self.floor()?.write(f, len)
            }
            b"slot" => {
                let f = words.last_number()?;
                self.floor()?.show(f)
            }
            _ => Err(Mistake::UnknownCommand.into()),
        }
    }

    fn floor(&mut self) -> Result<&mut Floor, Mistake> {
        self.floor.as_mut().ok_or(Mistake::NoHall)
    }

    fn locked(&self) -> Result<&Locked, Mistake> {
        match &self.table {
            Some(Table::Fixed(table)) => Ok(table),
            _ => Err(Mistake::NoLockedTable),
        }
    }

    fn new_table(&mut self, words: &Words) -> Result<Reply, Trouble> {
        words.end()?;
        self.table = Some(Table::Open(OpenTable::new()));
        Ok(Reply::Done)
    }

    fn add(&mut self, words: &mut Words) -> Result<Reply, Trouble> {
        let mark = words.last_number()?;
        // a mark beyond a byte is as unknown as 255
        let mark = u8::try_from(mark).unwrap_or(255);
        self.turn(|table| table.add(mark).map(Table::Open))
    }

    fn lock(&mut self, words: &mut Words) -> Result<Reply, Trouble> {
        let t = words.last_number()?;
        self.turn(|table| table.lock(t).map(Table::Fixed))
    }

    // Puts in place of the open table what is made of it, or the table that a refusal hands back.
    fn turn<F: FnOnce(OpenTable) -> Result<Table, (OpenTable, Fault)>>(
        &mut self,
        make: F,
    ) -> Result<Reply, Trouble>
        requires { F.IsAlwaysCallable make }
    {
        let table = match self.table.take() {
            Some(Table::Open(table)) => table,
            other => {
                self.table = other;
                return Err(Mistake::NoOpenTable.into());
            }
        };
        match make(table) {
            Ok(made) => {
                self.table = Some(made);
                Ok(Reply::Done)
            }
            Err(refused) => {
                let (table, fault) = refused;
                self.table = Some(Table::Open(table));
                Err(fault.into())
            }
        }
    }

    fn choose_rule(&mut self, words: &mut Words) -> Result<Reply, Trouble> {
        self.rule = Some(match words.last_word()? {
            b"oil" => AnyRule::Oil,
            b"levy" => AnyRule::Levy,
            _ => return Err(Mistake::WrongWords.into()),
        });
        Ok(Reply::Done)
    }

    // The name is judged before the table is asked for.
    fn build_policy(&mut self, words: &mut Words) -> Result<Reply, Trouble> {
        self.policy = Some(match words.last_word()? {
            b"rotating" => AnyPolicy::Rotating(Rotating::build(self.locked()?)?),
            b"full" => AnyPolicy::Full(Full::build(self.locked()?)),
            _ => return Err(Mistake::WrongWords.into()),
        });
        Ok(Reply::Done)
    }

    fn choose_seal(&mut self, words: &mut Words) -> Result<Reply, Trouble> {
        self.seal = Some(match words.word()? {
            b"keyed" => keyed(words)?,
            b"sheet" => sheet(self.heap, words)?,
            _ => return Err(Mistake::WrongWords.into()),
        });
        Ok(Reply::Done)
    }

    fn bring(&mut self, words: &mut Words) -> Result<Reply, Trouble> {
        self.intake.push(words.last_batch()?)?;
        Ok(Reply::Done)
    }

    fn book_alone(&self, words: &Words) -> Result<Reply, Trouble> {
        words.end()?;
        let rule = self.rule.ok_or(Mistake::NoRule)?;
        let book = clerk(self.heap, &rule, &self.intake)?;
        Ok(Reply::Book(Book(book)))
    }

    fn seats(&self, words: &mut Words) -> Result<Reply, Trouble> {
        let c = words.last_number()?;
        let policy = self.policy.ok_or(Mistake::NoPolicy)?;
        let seated = array::from_fn(|i| policy.seated(c, i as u32));
        Ok(Reply::Seats(Seats(seated)))
    }

    fn set_batches(&mut self, words: &mut Words) -> Result<Reply, Trouble> {
        let batches = words.last_number()?;
        if !(1..=1_000).contains(&batches) {
            return Err(Mistake::WrongWords.into());
        }
        self.batches = Some(batches);
        Ok(Reply::Done)
    }

    fn frame(&self, words: &mut Words) -> Result<Reply, Trouble> {
        let line = words.text()?;
        let table = self.locked()?;
        let batches = self.batches.ok_or(Mistake::NoBatches)?;
        let limits = Limits {
            stations: table.stations(),
            faults: table.faults(),
            batches,
        };
        Ok(Reply::Decoded(limits.decode_line(line)?))
    }

    fn make_hall(&mut self, words: &mut Words) -> Result<Reply, Trouble> {
        let (batches, slots) = words.last_two()?;
        if batches > MOST_MADE || slots > MOST_MADE {
            return Err(Mistake::NumberTooLarge.into());
        }
        let table = self.locked()?;
        let rule = self.rule.ok_or(Mistake::NoRule)?;
        let policy = self.policy.ok_or(Mistake::NoPolicy)?;
        let seal = self.seal.as_ref().ok_or(Mistake::NoSeal)?;
        let entries = table.stations() as usize * batches as usize;
        let seal = seal.clone()?;
        let hall = Hall::make(table.twin(), rule, policy, seal, batches, slots);
        let intake = self.intake.to_vec(self.heap)?;
        let floor = Floor::new(self.heap, hall, intake, slots as usize, entries)?;
        self.floor = Some(floor);
        Ok(Reply::Done)
    }

    fn tag(&self, words: &mut Words) -> Result<Reply, Trouble> {
        let station = words.number()?;
        let text = statement(words.last_word()?)?;
        if station > 15 {
            return Err(Mistake::WrongWords.into());
        }
        let seal = self.seal.as_ref().ok_or(Mistake::NoSeal)?;
        Ok(Reply::Tag(seal.seal(station as u8, &text)))
    }
}

// The lengths of an intake, a pool and the books.
fn lengths(words: &mut Words) -> Result<(usize, usize, usize), Mistake> {
    let batches = words.number()?;
    let (slots, entries) = words.last_two()?;
    if batches > MOST_LENT || slots > MOST_LENT || entries > MOST_LENT {
        return Err(Mistake::WrongWords);
    }
    Ok((batches as usize, slots as usize, entries as usize))
}

// How many bytes a line stands for.
fn measure(words: &mut Words) -> Result<Reply, Trouble> {
    let bytes = read_line(words.text()?)?;
    Ok(Reply::Bytes(bytes.len))
}

// Up to sixteen keys, missing ones 0.
fn keyed(words: &mut Words) -> Result<AnySeal, Mistake> {
    let mut keys = [0; 16];
    for (key, word) in keys.iter_mut().zip(words.by_ref()) {
        *key = hex_word(word)?;
    }
    words.end()?;
    Ok(AnySeal::ByKeys(Keyed { keys }))
}

// Up to 4,096 words.
fn sheet(heap: Global, words: &mut Words) -> Result<AnySeal, Trouble> {
    let mut sheet = Vec::new(heap);
    for word in words.by_ref().take(4_096) {
        sheet.push(hex_word(word)?)?;
    }
    words.end()?;
    Ok(AnySeal::BySheet(Sheet { words: sheet }))
}
