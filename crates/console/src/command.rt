// Commands, as they are typed: a letter, and for some one blank and a name.
ghost use Rattle.std.specs.Prelude.{◌≡◌, IfSome, MatchOption};
ghost use Rattle.card.specs.Shown.{Unprintable, Prints};
ghost use Rattle.console.specs.Typed.{punch_of, name_of, name_after, alone, letter_command, command_of, Says};

use card::Name;

#[derive(Clone, Copy, PartialEq, Eq, Debug)]
pub enum Command {
    Include(Name),
    Entry(Name),
    Calls,
    Fix,
    FixOpen,
    Map,
}

// The byte that a character is punched as.
fn punch_of(character: u8) -> Option<u8>
    ensures value { result ≡ punch_of character }
    ensures inverse { MatchOption result (Unprintable character) (λ b. Prints b character) }
{
    card::punched(character)
}

// The name that up to eight characters spell, filled with blanks.
fn name_of(characters: &[u8]) -> Option<Name>
    ensures { result ≡ name_of characters.now }
{
    if characters.len() > 8 {
        return None;
    }
    let mut bytes = Name::blank().bytes;
    for (i, character) in characters.iter().enumerate() {
        bytes[i] = punch_of(*character)?;
    }
    Some(Name { bytes })
}

// The name behind a command's letter and one blank.
fn name_after(rest: &[u8]) -> Option<Name>
    ensures { result ≡ name_after rest.now }
{
    match rest {
        [b' ', characters @ ..] => name_of(characters),
        _ => None,
    }
}

// A command whose letter stands alone on its line.
fn alone(command: Command, rest: &[u8]) -> Option<Command>
    ensures { result ≡ alone command rest.now }
{
    rest.is_empty().then_some(command)
}

// The letters are matched as they are typed; a table of closures would say no more than these six arms.
fn letter_command(letter: char, rest: &[u8]) -> Option<Command>
    ensures { result ≡ letter_command letter rest.now }
{
    match letter {
        'I' => Some(Command::Include(name_after(rest)?)),
        'E' => Some(Command::Entry(name_after(rest)?)),
        'C' => alone(Command::Calls, rest),
        'F' => alone(Command::Fix, rest),
        'L' => alone(Command::FixOpen, rest),
        'M' => alone(Command::Map, rest),
        _ => None,
    }
}

// The command that a line asks for, if any.
pub fn command_of(line: &[u8]) -> Option<Command>
    ensures value { result ≡ command_of line.now }
    ensures says { IfSome result (Says line.now) }
{
    let [letter, rest @ ..] = line else {
        return None;
    };
    letter_command(char::from(*letter), rest)
}
