// What the hall keeps of one station.
use base::book::{Batch, Entry};

// An entry that some station proposed, with its tag on that proposal.
#[derive(Clone, Copy)]
pub struct Vote {
    pub entry: Entry,
    pub tag: u64,
}

// A batch at work whose numbers are not lawful means that the station is idle. The number is that of the
// committee that it works under, in this batch; votes stand at the number of the station that sent them.
// Plain numbers for idle, and a flag for having proposed: the law's definitions read the record so.
#[derive(Clone, Copy, Default)]
pub struct Station {
    pub booked: u32,
    pub work: Batch,
    pub number: u32,
    pub proposed: bool,
    pub votes: [Option<Vote>; 16],
}
