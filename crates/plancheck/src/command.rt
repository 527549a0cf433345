ghost use Rattle.std.specs.Prelude.{◌≡◌, MatchOption, ◌≢◌};
ghost use Rattle.plancheck.specs.Names.{command_word};

// What a line asks for: to keep a map, lots or a code, or to show a plan.
#[derive(Clone, Copy)]
pub enum Command {
    Map,
    Lots,
    Code,
    Show,
}

// The command that begins with a word. It is no TryFrom, whose error type would say no more than a None does.
pub fn command_of(word: &[u8]) -> Option<Command>
    ensures { MatchOption result ((c : Command) → word.now ≢ command_word c)
        (λ c. word.now ≡ command_word c) }
{
    match word {
        b"map" => Some(Command::Map),
        b"lots" => Some(Command::Lots),
        b"code" => Some(Command::Code),
        b"show" => Some(Command::Show),
        _ => None,
    }
}
