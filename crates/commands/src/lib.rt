//! The commands of a sale, one to a line of text, and what is told of the answer to each.
#![tactic(auto)]

pub mod command;
pub mod read;
pub mod told;

#[cfg(test)]
mod tests {
    use crate::command::Command;
    use crate::read::read_command;
    use crate::told::{told, unreadable};
    use key_record::answer::Progress;
    use key_record::refusal::Refusal;
    use key_record::settings::{Disposition, Procedure};
    use key_record::timer::Timer;
    use keypad::key::KeyEvent;
    use line_parts::text::Text;

    // A key held for so many tenths.
    fn held(key: u8, tenths: u16) -> Option<Command> {
        Some(Command::Key(KeyEvent { key, tenths }))
    }

    #[test]
    fn commands_read(rt: HostRuntime) {
        let arming = Command::Arm(Procedure::Base, Disposition::Keep);
        let other = Command::Arm(Procedure::Shortest, Disposition::Drop);
        let rows = [
            ("base and keep", "abk", Some(arming)),
            ("shortest and drop", "asd", Some(other)),
            ("a key", "k7", held(7, 1)),
            ("a letter's key", "kF", held(15, 1)),
            ("a key and its duration", "kA11", held(10, 11)),
            ("no tenth at all", "k100", held(1, 0)),
            ("one tenth, written out", "k001", held(0, 1)),
            ("the longest", "k999", held(9, 99)),
            ("T", "eT", Some(Command::Expire(Timer::Start))),
            ("S", "eS", Some(Command::Expire(Timer::Short))),
            ("L", "eL", Some(Command::Expire(Timer::Long))),
            ("a closing", "c", Some(Command::Close)),
        ];
        for (name, text, want) in rows {
            assert_eq!(rt; read_command(text.as_bytes()), want, "{}", name);
        }
    }

    #[test]
    fn no_commands(rt: HostRuntime) {
        let rows = [
            ("nothing", ""),
            ("an arming cut short", "ab"),
            ("no such disposition", "abx"),
            ("no such procedure", "aak"),
            ("an arming and more", "abkk"),
            ("no key", "k"),
            ("a small letter", "ka"),
            ("a letter past F", "kG"),
            ("one digit", "k12"),
            ("three digits", "k1234"),
            ("a letter for a digit", "k1A0"),
            ("a letter for the last digit", "k10A"),
            ("no timer", "e"),
            ("no such timer", "eZ"),
            ("a timer and more", "eSS"),
            ("a closing and more", "cc"),
            ("a blank behind", "c "),
            ("another letter", "x"),
        ];
        for (name, text) in rows {
            assert!(rt; read_command(text.as_bytes()).is_none(), "{}", name);
        }
    }

    // Whether a text is so written.
    fn shows(text: Text, want: &str) -> bool {
        text.as_bytes() == want.as_bytes()
    }

    #[test]
    fn answers_told(rt: HostRuntime) {
        let rows = [
            ("a report", Ok(Progress::Done), "done\n"),
            ("without limit", Ok(Progress::Wait(None)), "wait\n"),
            (
                "two digits",
                Ok(Progress::Wait(Some((Timer::Long, 16)))),
                "wait L 16\n",
            ),
            (
                "one digit",
                Ok(Progress::Wait(Some((Timer::Short, 4)))),
                "wait S 4\n",
            ),
            (
                "before the first key",
                Ok(Progress::Wait(Some((Timer::Start, 99)))),
                "wait T 99\n",
            ),
            ("no key", Ok(Progress::Ahead(0)), "ahead 0\n"),
            ("zeros within", Ok(Progress::Ahead(1020)), "ahead 1020\n"),
            ("no room ahead", Err(Refusal::Ahead), "no 31\n"),
        ];
        for (name, result, want) in rows {
            assert!(rt; shows(told(result), want), "{}", name);
        }
        assert!(rt; shows(unreadable(), "no 70\n"));
    }
}
