ghost use Rattle.std.specs.Prelude.{◌≡◌};
ghost use Rattle.kn_commands.specs.Numbers.{status_number};

use kn_script::Why;

/// How a call of the program ended.
#[derive(Clone, Copy)]
pub enum Status {
    /// The whole report was written.
    Ok,
    /// The words are none of the forms.
    Usage,
    /// The bytes are the text of no script: the first bad line, and the first reason that it meets.
    Script { line: u32, why: Why },
    /// The turns were used up with some actor not ended.
    Spent,
    /// The source failed.
    ReadFault,
    /// The sink failed.
    WriteFault,
    /// Memory ran out.
    Memory,
}

impl Status {
    /// The exit number of the program.
    pub fn number(&self) -> u8
        ensures { result ≡ status_number self.now }
    {
        match self {
            Status::Ok => 0,
            Status::Usage => 1,
            Status::Script { .. } => 2,
            Status::Spent => 3,
            Status::ReadFault => 4,
            Status::WriteFault => 5,
            Status::Memory => 6,
        }
    }
}
