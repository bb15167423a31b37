// The same rows, run through the code.
use base::book::Batch;
use base::fault::Fault;
use policies::full::Full;
use policies::policy::Policy;
use policies::rotating::Rotating;
use policies::table::{Locked, OpenTable};
use rules::batch::Checked;
use rules::levy::Levy;
use rules::oil::Oil;
use rules::rule::{Outcome, Rule};
use seals::any::AnySeal;
use seals::seal::Sealing;
use seals::sheet::Sheet;
use std::test::Fail;

fn given<R: Rule>(rule: &R, carry: u32, grower: u32, fruit: u32, oil: u32) -> Option<Outcome> {
    let b = Checked::new(Batch { grower, fruit, oil })?;
    Some(rule.work(carry, b))
}

fn outcome(amount: u32, figure: u32, carry: u32) -> Option<Outcome> {
    Some(Outcome {
        amount,
        figure,
        carry,
    })
}

// n correct stations.
fn correct(n: u32) -> Result<OpenTable, (OpenTable, Fault)> {
    (0..n).try_fold(OpenTable::new(), |table, _| table.add(0))
}

// The number of a refusal, if there is one.
fn refusal<T: Drop>(r: Result<T, (OpenTable, Fault)>) -> Option<u8> {
    r.err().map(|back| back.1.refusal.number())
}

fn locking(n: u32, t: u32) -> Result<Locked, (OpenTable, Fault)> {
    correct(n)?.lock(t)
}

fn locked(n: u32, t: u32) -> Result<Locked, Fail> {
    locking(n, t).map_err(|_| Fail::new("not locked"))
}

fn seats<P: Policy>(policy: &P, c: u32) -> u32 {
    (0..16u32)
        .filter(|i| policy.seated(c, *i))
        .fold(0, |mask, i| mask | 1 << i)
}

#[test]
fn rules(rt: HostRuntime) {
    assert_eq!(rt; given(&Oil, 0, 4711, 500, 93_400), outcome(93, 1860, 400));
    assert_eq!(rt; given(&Oil, 400, 12, 300, 600), outcome(1, 33, 0));
    assert_eq!(rt;
        given(&Levy, 199_900, 1, 250, 0),
        outcome(2550, 150, 200_150)
    );
}

#[test]
fn seatings(rt: HostRuntime) -> Result<(), Fail> {
    let three = Rotating::build(&locked(3, 1)?)?;
    assert_eq!(rt; seats(&three, 2), 0b101);
    let four = Full::build(&locked(4, 1)?);
    assert_eq!(rt; seats(&four, 3), 0b1001);
    assert_eq!(rt; seats(&four, 6), 0b0011);
    Ok(())
}

#[test]
fn refusals(rt: HostRuntime) -> Result<(), Fail> {
    let six = Rotating::build(&locked(6, 2)?);
    assert_eq!(rt; six.err().map(|fault| fault.refusal.number()), Some(5));
    assert!(rt; Rotating::build(&locked(7, 2)?).is_ok());
    assert_eq!(rt; refusal(correct(17)), Some(1));
    assert_eq!(rt; refusal(OpenTable::new().add(2)), Some(2));
    assert_eq!(rt; refusal(locking(4, 2)), Some(3));
    assert_eq!(rt; refusal(locking(3, 1)), None);
    Ok(())
}

// A copy of a sheet gives the tags of the sheet.
#[test]
fn copies(rt: HostRuntime) -> Result<(), Fail> {
    let words = vec![in rt.alloc(); 3; 300]?;
    let copy = AnySeal::BySheet(Sheet { words }).clone()?;
    assert_eq!(rt; copy.seal(1, &[7; 24]), 0x100_0001);
    Ok(())
}
