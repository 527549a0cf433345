//! What is told of the answer to a command: one line, with its line feed, written by methods of `Text` as a report line is.
ghost use Rattle.std.specs.Prelude.{◌≡◌, ◌≤◌, ◌++◌, length, decimal};
ghost use Rattle.line_parts.specs.Texts.{text_of, cut};
ghost use Rattle.commands.specs.Told.{wait_words, progress_words, no_line, told_line, unreadable_number};

use itoa::Buffer;
use key_record::answer::Progress;
use key_record::refusal::Refusal;
use key_record::timer::Timer;
use line_parts::report::timer_letter;
use line_parts::text::Text;

// The number with which a line that writes no command is refused. It is the only refusal but those of a keypad line,
// and an enum around them would have no other use.
const UNREADABLE: u8 = 70;

// Adds a number in decimal.
pub fn add_number(text: &mut Text, number: usize)
    ensures after { text_of text.new ≡
        cut (text_of text.old ++ decimal number) }
    ensures bound { length (decimal number) ≤ 20 }
{
    text.push_all(Buffer::new().format(number).as_bytes());
}

// Adds what a line waits for.
fn add_wait(text: &mut Text, wait: Option<(Timer, u8)>)
    ensures after { text_of text.new ≡
        cut (text_of text.old ++ wait_words wait) }
    ensures bound { length (wait_words wait) ≤ 27 }
{
    text.push_all(b"wait");
    if let Some((timer, seconds)) = wait {
        text.push_all(&[b' ', timer_letter(timer), b' ']);
        add_number(text, usize::from(seconds));
    }
}

// Adds how far a line has come.
pub fn add_progress(text: &mut Text, progress: Progress)
    ensures after { text_of text.new ≡
        cut (text_of text.old ++ progress_words progress) }
    ensures bound { length (progress_words progress) ≤ 27 }
{
    match progress {
        Progress::Done => text.push_all(b"done"),
        Progress::Wait(wait) => add_wait(text, wait),
        Progress::Ahead(count) => {
            text.push_all(b"ahead ");
            add_number(text, count);
        }
    }
}

// What is told of a refusal with a number.
pub fn refused(number: u8) -> Text
    ensures { text_of result ≡ no_line number }
{
    let mut text = Text::new();
    text.push_all(b"no ");
    add_number(&mut text, usize::from(number));
    text.push(b'\n');
    text
}

// What is told of a line that writes no command.
pub fn unreadable() -> Text
    ensures { text_of result ≡ no_line unreadable_number }
{
    refused(UNREADABLE)
}

// What is told of the answer to a command.
pub fn told(res: Result<Progress, Refusal>) -> Text
    ensures { text_of result ≡ told_line res }
{
    match res {
        Ok(progress) => {
            let mut text = Text::new();
            add_progress(&mut text, progress);
            text.push(b'\n');
            text
        }
        Err(refusal) => refused(refusal.number()),
    }
}
