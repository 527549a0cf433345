ghost use Rattle.std.specs.Prelude.{◌≡◌, ◌+◌, ◌≤◌, cond, [], ◌∷◌, ◌++◌, length, drop, MatchOption, nat_lt};
ghost use Rattle.line_parts.specs.Queued.{queued};

use crate::ahead::Ahead;
use keypad::key::KeyEvent;
use keypad::row::Row;

impl Ahead {
    // No key ahead.
    pub fn new() -> Ahead
        ensures { queued result ≡ [] }
    {
        Ahead {
            events: Row::of(KeyEvent { key: 0, tenths: 0 }),
        }
    }

    pub fn len(&self) -> usize
        ensures value { result ≡ length (queued self.now) }
        ensures bound { result ≤ 32 }
    {
        self.events.len()
    }

    // One key more at the end; one that finds no place is left out.
    pub fn push(&mut self, event: KeyEvent)
        ensures { queued self.new ≡ cond (nat_lt (length (queued self.old)) 32)
            (queued self.old ++ event ∷ []) (queued self.old) }
    {
        self.events.push(event);
    }

    // The key with so many before it.
    pub fn at(&self, index: usize) -> Option<KeyEvent>
        ensures { MatchOption result (drop index (queued self.now) ≡ [])
            (λ k. drop index (queued self.now) ≡
            k ∷ drop (index + 1) (queued self.now)) }
    {
        self.events.get(index)
    }

    pub fn events(&self) -> &[KeyEvent]
        ensures { result.now ≡ queued self.now }
    {
        self.events.as_slice()
    }

    // Takes so many keys off the front.
    pub fn discard(&mut self, most: usize)
        ensures { queued self.new ≡ drop most (queued self.old) }
    {
        self.events.discard_front(most);
    }
}
