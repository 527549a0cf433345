//! The call that holds the agreement of lines.
ghost use Rattle.key_record.specs.Agreement.{Agreement};
ghost use Rattle.keypad.specs.Sets.{Same};
ghost use Rattle.std.specs.Prelude.{◌≡◌, MatchResult};
ghost use Rattle.line.specs.Plays.{played_shown};

use crate::play::comparison::Comparison;
use crate::play::{Log, Played, Side};
use key_record::call::Call;
use keypad::plan::Plan;
use std::alloc::Global;

impl<P, Q> Comparison<P, Q> {
    // Reserves room for what lines over the two plans answer, report and write over their calls. Where there
    // is no memory for it, the plans are handed back.
    pub fn new(
        heap: Global,
        number: u32,
        first: P,
        second: Q,
        calls: Vec<Call>,
        others: Vec<Call>,
    ) -> Result<Comparison<P, Q>, (P, Q)>
        ensures { MatchResult result (λ c. (c.number ≡ number) × (c.first.plan ≡ first) ×
            (c.second.plan ≡ second) × (c.first.calls ≡ calls) × (c.second.calls ≡ others))
            (λ e. (e.0 ≡ first) × (e.1 ≡ second)) }
    {
        let Ok(log) = Log::with_room(heap, calls.len()) else {
            return Err((first, second));
        };
        let Ok(other_log) = Log::with_room(heap, others.len()) else {
            return Err((first, second));
        };
        Ok(Comparison {
            number,
            first: Side {
                plan: first,
                calls,
                log,
            },
            second: Side {
                plan: second,
                calls: others,
                log: other_log,
            },
        })
    }
}

impl<P: Plan, Q: Plan> Comparison<P, Q> {
    // Plays each list of calls on a line of its own, straight from its making: two lines with one number,
    // over any two plans.
    pub fn play(self) -> (Played<P>, Played<Q>)
        ensures agreement { Agreement (P.Plan.whole self.first.plan) (Q.Plan.whole self.second.plan) self.number
            self.first.calls.items self.second.calls.items (played_shown result.0) (played_shown result.1) }
        ensures first { Same (P.Plan.whole result.0.line.plan) (P.Plan.whole self.first.plan) }
        ensures second { Same (Q.Plan.whole result.1.line.plan) (Q.Plan.whole self.second.plan) }
    {
        let Comparison {
            number,
            first,
            second,
        } = self;
        let one = first.play(number);
        let other = second.play(number);
        (one, other)
    }
}
