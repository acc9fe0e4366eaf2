// What events and automata are.
ghost use Rattle.std.specs.Prelude.{◌≡◌};
ghost use Rattle.system.specs.Scan.{kind_of, role_of};

#[derive(Clone, Copy, Debug, PartialEq, Eq)]
pub enum EventKind {
    Controllable,
    Uncontrollable,
}

// By its byte: 0 or 1 in an accepted file. One `From` for this and `Role` would take the two variants and be longer.
impl From<u8> for EventKind {
    ghost from_gives = { λ b kind. kind ≡ kind_of b };

    fn from(b: u8) -> EventKind {
        match b {
            0 => EventKind::Controllable,
            _ => EventKind::Uncontrollable,
        }
    }
}

#[derive(Clone, Copy, Debug, PartialEq, Eq)]
pub enum Role {
    Plant,
    Specification,
}

// By its byte: 0 or 1 in an accepted file.
impl From<u8> for Role {
    ghost from_gives = { λ b role. role ≡ role_of b };

    fn from(b: u8) -> Role {
        match b {
            0 => Role::Plant,
            _ => Role::Specification,
        }
    }
}
