// The kinds of statements, and their numbers in a file.
ghost use Rattle.std.specs.Prelude.{◌+◌, ◌≤◌, length};
ghost use Rattle.flow.specs.Format.{kind_at};
ghost use Rattle.flow.specs.Clauses.Kinds.{Decodes, Tells};

#[derive(Clone, Copy, Debug, PartialEq, Eq)]
pub enum Kind {
    Other,
    Return,
    Clr,
    Run,
    Dim,
    Gosub,
    OnGosub,
}

// A number that stands for no kind.
#[derive(Clone, Copy, Debug, PartialEq, Eq)]
pub struct UnknownKind(pub u8);

impl TryFrom<u8> for Kind {
    type Error = UnknownKind;

    ghost try_from_gives = { Decodes };

    fn try_from(number: u8) -> Result<Kind, UnknownKind> {
        match number {
            0 => Ok(Kind::Other),
            1 => Ok(Kind::Return),
            2 => Ok(Kind::Clr),
            3 => Ok(Kind::Run),
            4 => Ok(Kind::Dim),
            5 => Ok(Kind::Gosub),
            6 => Ok(Kind::OnGosub),
            _ => Err(UnknownKind(number)),
        }
    }
}

impl Kind {
    // The kind of the record at p. A number that stands for no kind was refused before, and counts as another statement here.
    pub fn at(file: &[u8], p: usize) -> Kind
        requires { p + 5 ≤ length file.now }
        ensures { Tells (kind_at file.now p) result }
    {
        Kind::try_from(file[p + 4]).unwrap_or(Kind::Other)
    }
}
