ghost use Rattle.std.specs.Prelude.{◌≡◌, ◌+◌, ◌≤◌, true, false, [], ◌∷◌, length, drop, MatchOption, MatchResult};
ghost use Rattle.keypad.specs.Answers.{Tells};
ghost use Rattle.keypad.specs.Rows.{listed};
ghost use Rattle.plans.specs.Coded.{Behind, Any, Keys, Refused, Coded, Takes};
ghost use Rattle.plans.specs.Behind.{behind_stepped};

use crate::refusal::Refusal;
use keypad::key::{Mark, Symbol};
use keypad::plan::Plan;
use keypad::row::Row;

// A plan behind a code: the keys of the code come first, each plain and unmarked, and then what the part
// admits. Of the keys, `at` have been pressed. Over a part that admits nothing it opens nothing.
#[derive(Drop)]
pub struct CodedPlan<P> {
    keys: Row<u8, 8>,
    at: usize,
    part: P,
    ghost reached: { at ≤ length (listed keys) },
}

impl<P: Plan> CodedPlan<P> {
    // Rewinds the part and puts the code before it. A refusal hands the part back as it was.
    pub fn new(code: &[u8], part: P) -> Result<CodedPlan<P>, (Refusal, P)>
        ensures { MatchResult result (λ p. Coded code.now (P.Plan.whole part)
            (⟦<CodedPlan<P> as Plan>⟧.whole p) (⟦<CodedPlan<P> as Plan>⟧.rest p))
            (λ e. Refused code.now e.0 × (e.1 ≡ part)) }
    {
        if code.is_empty() || code.len() > 8 {
            return Err((Refusal::CodeLength, part));
        }
        if !are_keys(code) {
            return Err((Refusal::CodeKey, part));
        }
        let mut keys = Row::of(0);
        keys.extend_from_slice(code);
        let mut part = part;
        part.rewind();
        Ok(CodedPlan { keys, at: 0, part })
    }

    // Takes the code away and hands the part back as it stands.
    pub fn into_part(self) -> P
        ensures { result ≡ self.part }
    {
        self.part
    }

    // The key of the code that comes next, none once the code is keyed.
    fn next_key(&self) -> Option<u8>
        ensures { let keys = listed self.now.keys in MatchOption result (drop self.now.at keys ≡ [])
            (λ key. drop self.now.at keys ≡ key ∷ drop (self.now.at + 1) keys) }
    {
        self.keys.get(self.at)
    }

    // Whether the symbol is the key, with something behind the code.
    fn takes(&self, key: u8, symbol: Symbol) -> bool
        ensures { Takes symbol key (P.Plan.rest self.now.part) result }
    {
        symbol == Symbol::Plain(key) && admits(&self.part)
    }
}

impl<P: Plan> Plan for CodedPlan<P> {
    ghost whole = { λ p. Behind (listed p.keys) (P.Plan.whole p.part) };

    ghost rest = { λ p. Behind (drop p.at (listed p.keys)) (P.Plan.rest p.part) };

    ghost stepped = { λ p.
        behind_stepped (listed p.keys) (P.Plan.whole p.part) (P.Plan.stepped p.part) };

    fn rewind(&mut self) {
        self.part.rewind();
        self.at = 0;
    }

    fn open(&self, symbol: Symbol) -> bool {
        match self.next_key() {
            Some(key) => self.takes(key, symbol),
            None => self.part.open(symbol),
        }
    }

    fn press(&mut self, symbol: Symbol) -> bool {
        let Some(key) = self.next_key() else {
            return self.part.press(symbol);
        };
        let taken = self.takes(key, symbol);
        if taken {
            self.at += 1;
        }
        taken
    }

    fn satisfied(&self) -> bool {
        self.next_key().is_none() && self.part.satisfied()
    }

    fn settled(&self) -> bool {
        self.next_key().is_none() && self.part.settled()
    }

    fn goes_on(&self) -> bool {
        match self.next_key() {
            Some(_) => admits(&self.part),
            None => self.part.goes_on(),
        }
    }

    fn timing(&self) -> Mark {
        match self.next_key() {
            Some(_) => Mark::Unmarked,
            None => self.part.timing(),
        }
    }
}

// Whether the plan's rest has an entry at all.
fn admits<P: Plan>(part: &P) -> bool
    ensures { Tells (Any (P.Plan.rest part.now)) result }
{
    part.satisfied() || part.goes_on()
}

// Whether each number is that of a key.
fn are_keys(code: &[u8]) -> bool
    ensures { elim result [ true ↦ Keys code.now | false ↦ (Keys code.now → ⊥) ] }
{
    code.iter().all(|key| *key <= 15)
}
