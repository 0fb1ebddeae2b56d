// The counts of a station in memory, and whether its folder was entered.
ghost use Rattle.std.specs.Prelude.{◌≡◌, ◌||◌, not, is_err, true};
ghost use Rattle.shelf_memory.specs.Texts.{raised};

use crate::texts::raise;
use shelf_model::Failed;

/// How often something failed, how often memory was refused, and how often a call went astray.
#[derive(Clone, Copy)]
pub struct Counts {
    pub inside: bool,
    pub strays: u64,
    pub starved: u64,
    pub folder: u64,
    pub say: u64,
    /// The faults of fetching at paths without a text.
    pub pathless: u64,
}

impl Counts {
    ghost use Rattle.shelf_memory.specs.Counts.{EndsFolderCall, EndsEntry, EndsSaying};

    pub const NONE: Counts = Counts {
        inside: false,
        strays: 0,
        starved: 0,
        folder: 0,
        say: 0,
        pathless: 0,
    };

    /// Ends a call that reaches for the folder.
    pub fn end_folder_call(&mut self, fails: bool, refused: bool) -> Result<(), Failed>
        ensures { EndsFolderCall fails refused result self.old self.new }
    {
        self.strays = raise(!self.inside, self.strays);
        self.starved = raise(refused, self.starved);
        self.folder = raise(fails || refused, self.folder);
        answer(fails || refused)
    }

    /// Ends a call that enters a folder: the station's own, or another.
    pub fn end_entry(&mut self, home: bool, fails: bool, refused: bool) -> Result<(), Failed>
        ensures { EndsEntry home fails refused result self.old self.new }
    {
        self.strays = raise(!home, self.strays);
        self.inside = home && (self.inside || !(fails || refused));
        self.starved = raise(refused, self.starved);
        self.folder = raise(fails || refused, self.folder);
        answer(fails || refused)
    }

    /// Ends a call that says a piece.
    pub fn end_saying(&mut self, fails: bool, refused: bool) -> Result<(), Failed>
        ensures { EndsSaying fails refused result self.old self.new }
    {
        self.starved = raise(refused, self.starved);
        self.say = raise(fails || refused, self.say);
        answer(fails || refused)
    }
}

fn answer(failed: bool) -> Result<(), Failed>
    ensures { is_err result ≡ failed }
{
    if failed { Err(Failed) } else { Ok(()) }
}
