// An automaton's row in a file: its parts, from where the row begins.
ghost use Rattle.std.specs.Prelude.{◌≡◌, length};
ghost use Rattle.scan.specs.Stands.{Stands};
ghost use Rattle.system.specs.System.{Automaton};
ghost use Rattle.system.specs.Encode.{head_bytes};
ghost use Rattle.system.specs.Heads.{HeadFits};

// An automaton's row, which ends within its file. What it answers is said of each automaton whose bytes stand there.
#[derive(Clone, Copy)]
pub struct Head<'a> {
    pub file: &'a [u8],
    pub at: usize,
    ghost fits: { HeadFits file.now at },
}

impl<'a> Head<'a> {
    // How many locations there are.
    pub fn locations(self) -> u8
        ensures { (A : Automaton) → Stands self.entry.file.now self.entry.at (head_bytes A) → result ≡ length A.marks }
    {
        self.file[self.at + 1]
    }

    // The events of the alphabet.
    pub fn alphabet(self) -> &'a [u8]
        ensures { (A : Automaton) → Stands self.entry.file.now self.entry.at (head_bytes A) → result.now ≡ A.alphabet }
    {
        let at = self.at + 3 + self.file[self.at + 1] as usize;
        let size = self.file[at] as usize;
        &self.file[at + 1..at + 1 + size]
    }
}
