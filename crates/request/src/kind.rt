// The kinds of records (document 01, "The request program").
ghost use Rattle.std.specs.Prelude.{◌≡◌};
ghost use Rattle.request.specs.Kind.{kind_of};

#[derive(Clone, Copy)]
pub enum Kind {
    Atom,
    Pair,
    Substr,
    Concat,
    SmallNumber,
    Checkpoint,
    Restore,
    RestoreTransparent,
    MaybeRestore,
    AddGhostPair,
    RemoveGhostPair,
    AddGhostAtom,
}

impl Kind {
    // The kind that a number stands for, if there is one.
    pub fn of(number: u16) -> Option<Kind>
        ensures { result ≡ kind_of number }
    {
        Some(match number {
            1 => Kind::Atom,
            2 => Kind::Pair,
            3 => Kind::Substr,
            4 => Kind::Concat,
            5 => Kind::SmallNumber,
            6 => Kind::Checkpoint,
            7 => Kind::Restore,
            8 => Kind::RestoreTransparent,
            9 => Kind::MaybeRestore,
            10 => Kind::AddGhostPair,
            11 => Kind::RemoveGhostPair,
            12 => Kind::AddGhostAtom,
            _ => return None,
        })
    }
}
