ghost use Rattle.std.specs.Prelude.{◌≡◌, ◌≤◌, length};
ghost use Rattle.rules.specs.Wording.{layer_name};
ghost use Rattle.refusal.specs.Meaning.{layer_of};

/// The part of the system that refuses.
#[derive(Clone, Copy, Debug, PartialEq, Eq)]
pub enum Layer {
    File,
    Sheet,
    Roster,
    Intake,
    /// The session, also when it is closed.
    Session,
    Nostro,
}

impl Layer {
    /// The layer's name, as a refusal's line has it.
    pub fn name(self) -> &'static [u8]
        ensures value { result.now ≡ layer_name (layer_of self) }
        ensures len { length result.now ≤ 7 }
    {
        match self {
            Layer::File => b"file",
            Layer::Sheet => b"sheet",
            Layer::Roster => b"roster",
            Layer::Intake => b"intake",
            Layer::Session => b"session",
            Layer::Nostro => b"nostro",
        }
    }
}
