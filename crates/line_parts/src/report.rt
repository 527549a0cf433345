//! The report line, written by methods of `Text` and not by Display, for the reason that stands there.
ghost use Rattle.std.specs.Prelude.{◌≡◌, [], ◌∷◌, ◌++◌};
ghost use Rattle.key_record.specs.Letters.{symbol_text, dial_text, timer_letter_lem};
ghost use Rattle.key_record.specs.Letters.{expiry_text, method_text, extra_text, report_line};
ghost use Rattle.line_parts.specs.Dialled.{dialled};
ghost use Rattle.line_parts.specs.Texts.{text_of, cut};

use crate::dial::Dial;
use crate::text::Text;
use key_record::ending::{Ending, Method, Trigger};
use key_record::timer::Timer;
use keypad::key::Symbol;
pub use keypad::letter::key_letter;

// What a line reported: its dial string and how it ended.
#[derive(Clone, Copy)]
pub struct Report {
    pub dial: Dial,
    pub ending: Ending,
}

// The letter of a timer.
pub fn timer_letter(timer: Timer) -> u8
    ensures { result ≡ timer_letter_lem timer }
{
    match timer {
        Timer::Start => b'T',
        Timer::Short => b'S',
        Timer::Long => b'L',
    }
}

// The two letters of a method.
fn method_letters(method: Method) -> &'static [u8; 2]
    ensures { result.now ≡ method_text method }
{
    match method {
        Method::Unambiguous => b"UM",
        Method::Full => b"FM",
        Method::Partial => b"PM",
    }
}

// Adds a symbol: its key, with a Z in front if it is long.
fn add_symbol(text: &mut Text, symbol: Symbol)
    ensures { text_of text.new ≡ cut (text_of text.old ++ symbol_text symbol) }
{
    match symbol {
        Symbol::Plain(key) => text.push(key_letter(key)),
        Symbol::Long(key) => {
            text.push(b'Z');
            text.push(key_letter(key));
        }
    }
}

// Adds the symbols of a dial string.
pub fn add_dial(text: &mut Text, dial: &Dial)
    ensures { text_of text.new ≡
        cut (text_of text.old ++ dial_text (dialled dial.now)) }
{
    for symbol in dial.symbols() {
        add_symbol(text, *symbol);
    }
}

// Adds the letter of the timer, if one brought the report.
fn add_expiry(text: &mut Text, trigger: Trigger)
    ensures { text_of text.new ≡ cut (text_of text.old ++ expiry_text trigger) }
{
    if let Trigger::Expiry(timer) = trigger {
        text.push(timer_letter(timer));
    }
}

// Adds the extra, if a key that fitted nowhere brought the report.
fn add_extra(text: &mut Text, trigger: Trigger)
    ensures { text_of text.new ≡ cut (text_of text.old ++ extra_text trigger) }
{
    if let Trigger::Extra(symbol) = trigger {
        text.push_all(b",extra=");
        add_symbol(text, symbol);
    }
}

impl Report {
    // The report line, with its line feed.
    pub fn text(&self) -> Text
        ensures { text_of result ≡
            report_line (dialled self.now.dial) self.now.ending }
    {
        let mut text = Text::new();
        text.push_all(b"ds=");
        add_dial(&mut text, &self.dial);
        add_expiry(&mut text, self.ending.trigger);
        text.push_all(b",meth=");
        text.push_all(method_letters(self.ending.method));
        add_extra(&mut text, self.ending.trigger);
        text.push(b'\n');
        text
    }
}
