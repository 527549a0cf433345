ghost use Rattle.std.specs.Prelude.{◌≡◌};
ghost use Rattle.keypad.specs.Answers.{Pressed};
ghost use Rattle.keypad.specs.Sets.{Same};
ghost use Rattle.plans.specs.Pairs.{Either, Live, Paired, longer};
ghost use Rattle.std.proofs.Common.{rules};

use keypad::key::{Mark, Symbol};
use keypad::plan::Plan;

// A plan, and whether it is live. One that is not takes nothing until the rewind. That needs the plan, so the
// flag stands beside it and no Option holds it.
#[derive(Drop)]
struct Part<P> {
    plan: P,
    live: bool,
}

impl<P: Plan> Plan for Part<P> {
    ghost whole = { λ p. P.Plan.whole p.plan };

    ghost rest = { λ p. Live p.live (P.Plan.rest p.plan) };

    ghost stepped = { λ p. P.Plan.stepped p.plan };

    fn rewind(&mut self) {
        self.plan.rewind();
        self.live = true;
    }

    fn open(&self, symbol: Symbol) -> bool {
        self.live && self.plan.open(symbol)
    }

    fn press(&mut self, symbol: Symbol) -> bool {
        self.live && self.plan.press(symbol)
    }

    fn satisfied(&self) -> bool {
        self.live && self.plan.satisfied()
    }

    fn settled(&self) -> bool {
        self.live && self.plan.settled()
    }

    fn goes_on(&self) -> bool {
        self.live && self.plan.goes_on()
    }

    fn timing(&self) -> Mark {
        if self.live {
            self.plan.timing()
        } else {
            Mark::Unmarked
        }
    }
}

// Two plans side by side: it admits what either admits. A part that does not take a key that the other takes
// is out until the rewind.
#[derive(Drop)]
pub struct PairPlan<P, Q> {
    first: Part<P>,
    second: Part<Q>,
}

impl<P: Plan, Q: Plan> PairPlan<P, Q> {
    // Rewinds both parts and has both in.
    pub fn new(first: P, second: Q) -> PairPlan<P, Q>
        ensures { Paired (P.Plan.whole first) (Q.Plan.whole second)
            (⟦<PairPlan<P, Q> as Plan>⟧.whole result) (⟦<PairPlan<P, Q> as Plan>⟧.rest result) }
    {
        let mut pair = PairPlan {
            first: Part {
                plan: first,
                live: true,
            },
            second: Part {
                plan: second,
                live: true,
            },
        };
        pair.rewind();
        pair
    }

    // Takes the pair apart and hands both parts back as they stand.
    pub fn into_parts(self) -> (P, Q)
        ensures { result ≡ (self.first.plan, self.second.plan) }
    {
        (self.first.plan, self.second.plan)
    }
}

impl<P: Plan, Q: Plan> Plan for PairPlan<P, Q> {
    ghost whole = { λ p. Either (P.Plan.whole p.first.plan) (Q.Plan.whole p.second.plan) };

    ghost rest = { λ p. Either (Live p.first.live (P.Plan.rest p.first.plan))
        (Live p.second.live (Q.Plan.rest p.second.plan)) };

    ghost stepped = { Prim.search rules };

    fn rewind(&mut self) {
        self.first.rewind();
        self.second.rewind();
    }

    fn open(&self, symbol: Symbol) -> bool {
        self.first.open(symbol) || self.second.open(symbol)
    }

    // Both parts are pressed, also where the first takes the symbol.
    fn press(&mut self, symbol: Symbol) -> bool {
        let first_takes = self.first.press(symbol);
        let second_takes = self.second.press(symbol);
        let taken = first_takes || second_takes;
        if taken {
            self.first.live = first_takes;
            self.second.live = second_takes;
        }
        taken
    }

    fn satisfied(&self) -> bool {
        self.first.satisfied() || self.second.satisfied()
    }

    fn settled(&self) -> bool {
        self.first.settled() || self.second.settled()
    }

    fn goes_on(&self) -> bool {
        self.first.goes_on() || self.second.goes_on()
    }

    fn timing(&self) -> Mark {
        longer_mark(self.first.timing(), self.second.timing())
    }
}

// The larger of two marks: long over short over unmarked.
fn longer_mark(one: Mark, other: Mark) -> Mark
    ensures { result ≡ longer one other }
{
    one.max(other)
}
