//! Replies, the open entry and keys in words, written by methods of `Text` as a report line is.
ghost use Rattle.std.specs.Prelude.{◌≡◌, ◌≤◌, [], ◌∷◌, ◌++◌, length, if◌then◌else◌, decimal};
ghost use Rattle.line_parts.specs.Dialled.{dialled, dialled_in};
ghost use Rattle.line_parts.specs.Texts.{text_of, cut};
ghost use Rattle.play_report.specs.Words.{timer_words, answer_words, reply_line, open_line, entry_line};
ghost use Rattle.play_report.specs.Words.{key_words};

use commands::told::{add_number, add_progress};
use key_record::answer::{Answer, Reply};
use key_record::refusal::Refusal;
use key_record::timer::Timer;
use keypad::key::KeyEvent;
use line_parts::dial::Dial;
use line_parts::report::{add_dial, key_letter, timer_letter};
use line_parts::text::Text;

// Adds the timer that runs.
fn add_timer(text: &mut Text, timer: Option<(Timer, u8)>)
    ensures after { text_of text.new ≡ cut (text_of text.old ++ timer_words timer) }
    ensures bound { length (timer_words timer) ≤ 22 }
{
    match timer {
        Some((timer, seconds)) => {
            text.push_all(&[timer_letter(timer), b' ']);
            add_number(text, usize::from(seconds));
        }
        None => text.push(b'-'),
    }
}

// Adds a word and the number behind it.
fn add_counted(text: &mut Text, word: &[u8], number: usize)
    ensures after { text_of text.new ≡
        cut (text_of text.old ++ (word.now ++ decimal number)) }
    ensures bound { length (decimal number) ≤ 20 }
{
    text.push_all(word);
    add_number(text, number);
}

// Adds the answer to a call, or its refusal.
fn add_answer(text: &mut Text, answer: Result<Answer, Refusal>)
    ensures after { text_of text.new ≡ cut (text_of text.old ++ answer_words answer) }
    ensures bound { length (answer_words answer) ≤ 49 }
{
    match answer {
        Ok(Answer::Moved(progress)) => add_progress(text, progress),
        Ok(Answer::Claimed(numbers)) => {
            add_counted(text, b"receipt ", numbers.number as usize);
            add_counted(text, b" ", numbers.count as usize);
        }
        Ok(Answer::Booked(length)) => add_counted(text, b"booked ", length),
        Ok(Answer::Waived) => text.push_all(b"waived"),
        Err(refusal) => add_counted(text, b"no ", usize::from(refusal.number())),
    }
}

// The line of a reply: the answer, and the timer that runs after it.
pub fn reply_text(reply: Reply) -> Text
    ensures { text_of result ≡ reply_line reply }
{
    let mut text = Text::new();
    add_answer(&mut text, reply.answer);
    text.push_all(b" | ");
    add_timer(&mut text, reply.timer);
    text.push(b'\n');
    text
}

// What stands before the symbols of an open entry, if it has any.
fn lead(fresh: bool) -> &'static [u8]
    ensures { result.now ≡ (if fresh then [] else 32 ∷ []) }
{
    if fresh { b"" } else { b" " }
}

// The line of an open entry.
fn open_text(dial: Dial) -> Text
    ensures { text_of result ≡ open_line (dialled dial) }
{
    let mut text = Text::new();
    text.push_all(b"entry");
    text.push_all(lead(dial.is_fresh()));
    add_dial(&mut text, &dial);
    text.push(b'\n');
    text
}

// The line of the open entry, if there is one.
pub fn entry_text(entry: Option<Dial>) -> Text
    ensures { text_of result ≡ entry_line (dialled_in entry) }
{
    match entry {
        Some(dial) => open_text(dial),
        None => {
            let mut text = Text::new();
            text.push_all(b"no entry\n");
            text
        }
    }
}

// A key ahead behind a blank, with its tenths of a second unless it was held for one.
pub fn key_text(event: KeyEvent) -> Text
    ensures { text_of result ≡ key_words event }
{
    let mut text = Text::new();
    text.push_all(&[b' ', key_letter(event.key)]);
    if event.tenths != 1 {
        add_number(&mut text, usize::from(event.tenths));
    }
    text
}
