ghost use Rattle.std.specs.Prelude.{◌≡◌, []};
ghost use Rattle.keypad.specs.Entries.{Entry, Entries};
ghost use Rattle.keypad.specs.Sets.{Same, Starts, Ended, Settled, GoesOn};
ghost use Rattle.keypad.specs.Answers.{Tells, Pressed, Timing};

use crate::key::{Mark, Symbol};

// A plan admits entries. Its whole is the set of these entries and never changes; its rest is what remains of
// those that begin with the symbols pressed since the last rewind. Each call that changes a plan says that its
// whole stays.
pub trait Plan {
    ghost whole: { Self → Entries };

    ghost rest: { Self → Entries };

    // Makes the rest equal to the whole.
    fn rewind(&mut self)
        ensures whole { Same (whole self.new) (whole self.old) }
        ensures rest { Same (rest self.new) (whole self.old) };

    // Whether some entry of the rest starts with the symbol.
    fn open(&self, symbol: Symbol) -> bool
        ensures { Tells (Starts (rest self.now) symbol) result };

    // Takes an open symbol and keeps the entries that start with it, that step removed; answers no to any
    // other and stays as it is.
    fn press(&mut self, symbol: Symbol) -> bool
        ensures whole { Same (whole self.new) (whole self.old) }
        ensures rest { Pressed (rest self.old) symbol result (rest self.new) };

    // Whether some entry has no steps left.
    fn satisfied(&self) -> bool
        ensures { Tells (Ended (rest self.now)) result };

    // Whether some entry has no steps left and is not held.
    fn settled(&self) -> bool
        ensures { Tells (Settled (rest self.now)) result };

    // Whether some entry has steps left.
    fn goes_on(&self) -> bool
        ensures { Tells (GoesOn (rest self.now)) result };

    // The mark under which the next step or the end is awaited: long if any entry's is, else short if any is.
    fn timing(&self) -> Mark
        ensures { Timing (rest self.now) result };

    ghost stepped: { (p : Self) (e : Entry) → whole p e → e.steps ≡ [] → ⊥ };
}
