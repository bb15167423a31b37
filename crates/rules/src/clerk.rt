// The lone clerk: one book, worked out batch after batch with nobody to agree with.
ghost use Rattle.std.specs.Prelude.{◌≡◌, IfOk};
ghost use Rattle.rules.specs.Clerk.{worked, clerk_book};
ghost use Rattle.rules.specs.Lawful.{lawful};
ghost use Rattle.rules.specs.Plain.{plain};

use super::batch::Checked;
use super::rule::Rule;
use base::book::{Batch, Entry};
use std::alloc::{AllocError, Global};

// The entry of a batch: the rule's numbers, with the grower copied.
pub fn work_out<R: Rule>(rule: &R, carry: u32, b: Checked) -> Entry
    ensures { result ≡ worked (R.Rule.outcome rule.now) carry (plain b) }
{
    let o = rule.work(carry, b);
    Entry {
        grower: b.batch().grower,
        amount: o.amount,
        carry: o.carry,
        figure: o.figure,
    }
}

// Books the intake from carry 0, up to the first unlawful batch.
// A `for` with `?`, no chain: each entry hangs on the carry before it, and a push may run out of memory.
pub fn clerk<R: Rule>(heap: Global, rule: &R, intake: &[Batch]) -> Result<Vec<Entry>, AllocError>
    ensures { IfOk result (λ v. v.items ≡ clerk_book lawful (R.Rule.outcome rule.now) 0 intake.now) }
{
    let mut book = Vec::new(heap);
    let mut carry = 0;
    for b in intake {
        let Some(checked) = Checked::new(*b) else {
            return Ok(book);
        };
        let entry = work_out(rule, carry, checked);
        carry = entry.carry;
        book.push(entry)?;
    }
    Ok(book)
}
