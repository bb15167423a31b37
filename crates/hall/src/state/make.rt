// How a hall is made, and what it owes from then on.
ghost use Rattle.std.specs.Prelude.{◌≡◌, replicate};
ghost use Rattle.protocol.specs.Run.{Owes};
ghost use Rattle.protocol.specs.Steps.{no_station};
ghost use Rattle.hall.specs.Join.{terms, joined};

use super::Hall;
use crate::setup::Setup;
use policies::policy::Policy;
use policies::table::Locked;
use protocol::station::Station;
use rules::rule::Rule;
use seals::seal::Sealing;

impl<R: Rule, P: Policy, S: Sealing> Hall<R, P, S> {
    // A hall in which every station is idle, with nothing booked. It is never refused, and it owes the law over
    // every list of calls. Six parameters: with `Setup` as the one, each caller would build that first.
    pub fn make(
        table: Locked,
        rule: R,
        policy: P,
        seal: S,
        batches: u32,
        slots: u32,
    ) -> Hall<R, P, S>
        ensures setup { result.setup ≡ joined table rule policy seal batches slots }
        ensures stations { result.stations ≡ replicate 16 no_station }
        ensures law { Owes (terms R.Rule P.Policy S.Check result.setup) }
    {
        let setup = Setup {
            table,
            rule,
            policy,
            seal,
            batches,
            slots,
        };
        Hall {
            setup,
            stations: [Station::default(); 16],
        }
    }
}
