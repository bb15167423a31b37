// The tags and the seats behind a frame.
ghost use Rattle.std.specs.Prelude.{◌≡◌, ℕ, ◌+◌, ◌-◌, ◌*◌, ◌≤◌, Bool, map, ◌==◌};
ghost use Rattle.frames.specs.Frames.{first_pair};
ghost use Rattle.frames.specs.Typed.{plain, listed};
ghost use Rattle.protocol.specs.Ready.{pairs_in, shown_by};
ghost use Rattle.evidence.specs.Issue.{right_tag};
ghost use Rattle.evidence.specs.Tags.{Tests, sender_tagged, pair_tagged, pair_left, rightly_by, pairs_shown};

use frames::frame::{Frame, Pair, Pairs};
use policies::policy::Policy;
use seals::seal::Check;

// The place in a frame of its k-th pair.
pub(super) fn place_of(k: usize) -> usize
    requires { k ≤ 8 }
    ensures { result ≡ 32 + 9 * k }
{
    32 + 9 * k
}

// Whether a tag is the sender's on the frame's statement.
fn is_senders<S: Check>(seal: &S, f: &Frame, shown: u64) -> bool
    ensures { result ≡ (shown == right_tag (S.Check.tag seal.now) f.now) }
{
    seal.check(f.sender, &f.statement(), shown)
}

// Whether the frame's tag is right.
// Here and below seal, policy and frame stay parameters: a caller has them one by one, and would first build the struct.
pub fn sender_right<S: Check>(seal: &S, f: &Frame) -> bool
    ensures { result ≡ sender_tagged (S.Check.tag seal.now) f.now }
{
    is_senders(seal, f, f.tag)
}

// The place in a frame of the first of its pairs that fails a test.
fn first_failing<F: Fn(&Pair) -> bool>(passes: F, pairs: &Pairs) -> Option<usize>
    requires { F.IsAlwaysCallable passes }
    ensures { (good : ℕ × ℕ → Bool) → Tests F.Fn passes good → result ≡ first_pair good 32 (map plain (listed pairs.now)) }
{
    pairs
        .as_slice()
        .iter()
        .position(|pair| !passes(pair))
        .map(place_of)
}

// Whether a pair's tag is right.
fn is_pair_right<S: Check>(seal: &S, f: &Frame, pair: &Pair) -> bool
    ensures { result ≡ pair_tagged (S.Check.tag seal.now) f.now (plain pair.now) }
{
    seal.check(pair.station, &f.pair_statement(pair.station), pair.tag)
}

// The place of the first pair whose tag is wrong.
pub fn wrong_pair<S: Check>(seal: &S, f: &Frame) -> Option<usize>
    ensures { result ≡ first_pair (pair_tagged (S.Check.tag seal.now) f.now) 32 (pairs_in f.now) }
{
    first_failing(|pair| is_pair_right(seal, f, pair), &f.pairs)
}

// The number of the committee that a reselect leaves.
fn left_by(f: &Frame) -> u32
    ensures { result ≡ f.now.number - 1 }
{
    u32::from(f.number).saturating_sub(1)
}

// Whether a reselect's sender sits in the committee left and brings no pair, or only in the new one and brings one.
pub fn rightly_sent<P: Policy>(policy: &P, f: &Frame) -> bool
    ensures { result ≡ rightly_by (P.Policy.seats policy.now) f.now }
{
    let sender = u32::from(f.sender);
    if policy.seated(left_by(f), sender) {
        f.pairs.count == 0
    } else {
        policy.seated(u32::from(f.number), sender) && f.pairs.count == 1
    }
}

// The place of the first pair whose tag is wrong or whose station does not sit in the committee left.
pub fn wrong_leaver<S: Check, P: Policy>(seal: &S, policy: &P, f: &Frame) -> Option<usize>
    ensures { result ≡ first_pair (pair_left (S.Check.tag seal.now) (P.Policy.seats policy.now) f.now) 32 (pairs_in f.now) }
{
    let left = left_by(f);
    first_failing(
        |pair| is_pair_right(seal, f, pair) && policy.seated(left, u32::from(pair.station)),
        &f.pairs,
    )
}

// What a member of the new committee alone shows of the frame that it took: its sender with the tag, or its own pair.
pub fn shown(f: &Frame) -> Pairs
    ensures is { result ≡ pairs_shown f.now }
    ensures lists { map plain (listed result) ≡ shown_by f.now }
{
    if f.pairs.count != 0 {
        return f.pairs;
    }
    let mut own = Pairs {
        count: 1,
        ..Pairs::default()
    };
    own.each[0] = Pair {
        station: f.sender,
        tag: f.tag,
    };
    own
}
