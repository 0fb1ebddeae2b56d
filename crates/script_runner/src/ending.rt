ghost use Rattle.std.specs.Prelude.{◌≡◌};

/// How a call of the program ended.
#[derive(Clone, Copy, Debug, PartialEq, Eq)]
pub(crate) enum Ending {
    /// All was done.
    Done,
    /// The words aren't accepted.
    Usage,
    /// The script isn't accepted.
    Script,
    /// The netlist isn't accepted.
    Netlist,
    /// The folder stores another job.
    OtherJob,
    /// A text can't be fetched.
    TextFault,
    /// A call of the folder failed.
    FolderFault,
    /// A line couldn't be said.
    SayFault,
    /// There was no memory for the texts, the plan, the job or the room.
    NoMemory,
    /// A file of the folder doesn't hold what it should.
    Damaged,
    /// A step needs a new file, and has no part number left.
    RunsSpent,
}

impl Ending {
    ghost use Rattle.script_runner.specs.Status.{status_of};

    /// The exit status of the program.
    pub fn status(self) -> u8
        ensures { result ≡ status_of self }
    {
        match self {
            Ending::Done => 0,
            Ending::Usage => 2,
            Ending::Script => 3,
            Ending::Netlist => 4,
            Ending::OtherJob => 5,
            Ending::TextFault => 6,
            Ending::FolderFault => 7,
            Ending::SayFault => 8,
            Ending::NoMemory => 9,
            Ending::Damaged => 10,
            Ending::RunsSpent => 11,
        }
    }
}
