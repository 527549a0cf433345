//! One command of a sale.
ghost use Rattle.std.specs.Prelude.{◌≤◌, length};
ghost use Rattle.line_parts.specs.Texts.{text_of};
ghost use Rattle.sale.specs.Printing.{Commanded, Given, Printed};

use commands::command::Command;
use commands::read::read_command;
use commands::told::{told, unreadable};
use key_record::refusal::Refusal;
use key_record::settings::Settings;
use keypad::plan::Plan;
use keypad::timers::Timers;
use line::line::Line;
use line_parts::text::Text;

// Prints a text at the start of the memory and answers its length.
fn print(text: Text, memory: &mut [u8]) -> usize
    requires { 85 ≤ length memory.old }
    ensures { Printed (text_of text) memory.old result memory.new }
{
    text.write_to(memory).unwrap()
}

// Gives a command that was read to the line, prints what is told of it and answers the length of that.
fn give<P: Plan>(line: &mut Line<P>, timers: Timers, command: Command, memory: &mut [u8]) -> usize
    requires { 85 ≤ length memory.old }
    ensures { Given P.Plan.whole P.Plan.rest timers line.old command
        memory.old result
        line.new memory.new }
{
    match command {
        Command::Arm(procedure, disposition) => {
            let settings = Settings {
                procedure,
                disposition,
                timers,
            };
            print(told(line.arm(settings)), memory)
        }
        Command::Key(event) => print(told(line.key(event.key, event.tenths)), memory),
        Command::Expire(timer) => print(told(line.expire(timer)), memory),
        // Tried as unwrap_or_else: it does not say that the memory stays where its closure is not called.
        Command::Close => match line.close(memory) {
            Ok(length) => length,
            Err(refusal) => print(told(Err(refusal)), memory),
        },
    }
}

// Gives one command to a line that is armed with these timers, writes the line that it prints, with its line
// feed, at the start of the memory and answers its length. It is refused only where the memory has less than
// 85 bytes.
pub fn obey<P: Plan>(
    line: &mut Line<P>,
    timers: Timers,
    bytes: &[u8],
    memory: &mut [u8],
) -> Result<usize, Refusal>
    ensures { Commanded P.Plan.whole P.Plan.rest timers line.old bytes.now
        memory.old result line.new memory.new }
{
    if memory.len() < 85 {
        return Err(Refusal::Memory);
    }
    let Some(command) = read_command(bytes) else {
        return Ok(print(unreadable(), memory));
    };
    Ok(give(line, timers, command, memory))
}
