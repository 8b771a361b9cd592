// Command words (MVT 4.3.1): the command's id in the low three bits, its count above them.
ghost use Rattle.std.specs.Prelude.{◌≡◌};
ghost use Rattle.words.specs.Commands.{id_of, max_count, said_word, encoded, said_command, decoded};

use refusal::Refusal;

#[derive(Clone, Copy)]
pub enum Command {
    MoveTo,
    LineTo,
    ClosePath,
}

#[derive(Clone, Copy)]
pub struct CommandInt {
    pub id: Command,
    pub count: u32,
}

impl Command {
    // MVT's number of a command.
    pub fn number(self) -> u32
        ensures { result ≡ id_of self }
    {
        match self {
            Command::MoveTo => 1,
            Command::LineTo => 2,
            Command::ClosePath => 7,
        }
    }
}

impl CommandInt {
    // A word of 32 bits has 29 beside the id.
    pub const MAX_COUNT: u32 = 536_870_911;

    pub fn max_count() -> u32
        ensures { result ≡ max_count }
    {
        CommandInt::MAX_COUNT
    }

    pub fn encode(self) -> Result<u32, Refusal>
        ensures { said_word result ≡ encoded (id_of self.id) self.count }
    {
        if CommandInt::MAX_COUNT < self.count {
            return Err(Refusal::Room);
        }
        let id = self.id.number();
        Ok(id + 8 * self.count)
    }

    pub fn decode(word: u32) -> Result<CommandInt, Refusal>
        ensures { said_command result ≡ decoded word }
    {
        let count = word / 8;
        let id = match word % 8 {
            1 => Command::MoveTo,
            2 => Command::LineTo,
            7 => Command::ClosePath,
            _ => return Err(Refusal::Command),
        };
        Ok(CommandInt { id, count })
    }
}
