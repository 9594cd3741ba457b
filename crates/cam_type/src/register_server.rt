//! The data server of registers.
use crate::table::apply_to_register;
use crate::{Answer, DataType, Kind, Op, State};
use cam_base::NoMemory;

/// The data server of registers.
#[derive(Drop)]
pub struct RegisterServer {
    value: i64,
}

impl RegisterServer {
    ghost use Rattle.std.specs.Prelude.{◌≡◌, pos};
    ghost use Rattle.cam_type.specs.declared.State.TheVariants.{Register};

    /// A server that holds 0.
    pub fn new() -> RegisterServer
        ensures { ⟦<RegisterServer as DataType>⟧.held result ≡ Register (pos 0) }
    {
        RegisterServer { value: 0 }
    }
}

impl DataType for RegisterServer {
    ghost use Rattle.std.specs.Prelude.{refl};
    ghost use Rattle.cam_type.specs.declared.Kind.TheVariants as kinds;
    ghost use Rattle.cam_type.specs.declared.State.TheVariants.{Register};

    ghost kind = { λ _. kinds.Register };

    ghost held = { λ server. Register server.value };

    ghost held_is_of_its_kind = { λ server. refl };

    fn kind(&self) -> Kind {
        Kind::Register
    }

    fn load(&mut self, state: &State) -> Result<(), NoMemory> {
        if let State::Register(value) = state {
            self.value = *value;
        }
        Ok(())
    }

    fn apply(&mut self, op: &Op) -> Result<Answer, NoMemory> {
        Ok(apply_to_register(&mut self.value, op))
    }

    fn save(&self) -> Result<State, NoMemory> {
        Ok(State::Register(self.value))
    }
}
