// Votes, and how many stations back one entry.
ghost use Rattle.std.specs.Prelude.{◌≡◌, ◌≤◌, Bool, take};
ghost use Rattle.protocol.specs.Steps.{backers};
ghost use Rattle.evidence.specs.Votes.{equal_entries, is_for, support_of, backs_entry, pair_backed, lowest_of, quorum_of, entry_held};

use base::book::Entry;
use frames::frame::{Pair, Pairs};
use protocol::station::Vote;

// Whether two entries agree in all four numbers.
pub fn same_entry(a: Entry, b: Entry) -> bool
    ensures { result ≡ equal_entries a b }
{
    a == b
}

// A vote that some station gave, whatever it votes on.
// A trait and no closure: `support` is public and counts any kind of vote that has one, by what its ghost member says.
pub trait Ballot {
    type Subject;

    // whether the vote is for a subject, tags aside
    ghost backs: { Self → Self.Subject → Bool };

    fn is_for(&self, what: &Self::Subject) -> bool
        ensures { result ≡ backs self.now what.now };
}

impl Ballot for Vote {
    type Subject = Entry;

    ghost backs = { backs_entry };

    fn is_for(&self, what: &Entry) -> bool {
        same_entry(self.entry, *what)
    }
}

// Whether a station votes for a subject.
fn is_backer<V: Ballot>(held: &Option<V>, what: &V::Subject) -> bool
    ensures { result ≡ is_for V.Ballot.backs what.now held.now }
{
    held.as_ref().is_some_and(|vote| vote.is_for(what))
}

// How many of the first n stations vote for a subject; votes stand at their stations' numbers.
// The votes are a record's, lent as plain data, and n is a table's: a struct of both would serve one call only.
pub fn support<V: Ballot>(votes: &[Option<V>; 16], n: u32, what: &V::Subject) -> u32
    ensures is { result ≡ support_of V.Ballot.backs what.now (take n votes.now) }
    ensures few { result ≤ 16 }
{
    votes
        .iter()
        .take(n as usize)
        .filter(|held| is_backer(held, what))
        .count() as u32
}

// A station's pair, if its vote is for an entry.
fn pair_of(station: u8, held: Option<Vote>, what: &Entry) -> Option<Pair>
    ensures { result ≡ pair_backed what.now station held }
{
    let vote = held.filter(|vote| vote.is_for(what))?;
    Some(Pair {
        station,
        tag: vote.tag,
    })
}

// The lowest `size` of the first n stations that vote for an entry, with their tags.
fn lowest(votes: &[Option<Vote>; 16], n: u32, size: u8, what: Entry) -> Pairs
    ensures { result ≡ lowest_of size (backers what 0 (take n votes.now)) }
{
    // The numbers are bytes from the start, so that none has to be cut to one.
    let backers = (0u8..16)
        .zip(votes)
        .take(n as usize)
        .filter_map(|(station, held)| pair_of(station, *held, &what))
        .take(usize::from(size));
    let mut each = [Pair::default(); 8];
    // By index: a proof does not join `from_fn`'s calls of `backers.next()`, nor know an array lent to `zip`.
    for (k, pair) in (0..8).zip(backers) {
        each[k] = pair;
    }
    Pairs { count: size, each }
}

// Where at least `size` of the first n stations vote for an entry, the lowest `size` of them with their
// tags; of more than eight the first eight are kept.
pub fn quorum(votes: &[Option<Vote>; 16], n: u32, size: u32, entry: Entry) -> Option<Pairs>
    ensures { result ≡ quorum_of size entry (take n votes.now) }
{
    (size <= support(votes, n, &entry)).then(|| lowest(votes, n, size as u8, entry))
}

// The entry of station i's vote.
// Zeros where there is no vote: so the protocol defines a station's own vote, and the law ranges over that.
pub fn own_entry(votes: &[Option<Vote>; 16], i: u32) -> Entry
    ensures { result ≡ entry_held i votes.now }
{
    votes
        .get(i as usize)
        .copied()
        .flatten()
        .map(|vote| vote.entry)
        .unwrap_or_default()
}
