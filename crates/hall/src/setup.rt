// What a hall is joined from, and never changes.
use policies::table::Locked;

// The table, the rule, the policy and the seal, how many batches the intake has and how many slots the pool.
#[derive(Drop)]
pub struct Setup<R, P, S> {
    pub table: Locked,
    pub rule: R,
    pub policy: P,
    pub seal: S,
    pub batches: u32,
    pub slots: u32,
}
