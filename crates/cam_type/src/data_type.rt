//! What a data server does.
ghost use Rattle.std.specs.Prelude.{◌≡◌, OnOk, OnErr, IfOk, IsTrue};
ghost use Rattle.cam_type.specs.declared.Kind.{Kind};
ghost use Rattle.cam_type.specs.declared.State.{State};
ghost use Rattle.cam_type.specs.Table.{kind_of, fits, state_after, answer_of};

use crate::{Answer, Kind, Op, State};
use cam_base::NoMemory;

/// A data server: it holds the state of one object, and works by the table of operations.
///
/// A call that answers `NoMemory` leaves the state that the server holds.
pub trait DataType: Drop {
    /// The kind of its objects, which no call changes.
    ghost kind: { Self → Kind };

    /// The state that it holds.
    ghost held: { Self → State };

    /// The kind of the objects that it can hold.
    fn kind(&self) -> Kind
        ensures { result ≡ kind self.now };

    /// Holds a copy of a state of its kind from now on.
    fn load(&mut self, state: &State) -> Result<(), NoMemory>
        requires { kind_of state.now ≡ kind self.old }
        ensures kind_stays { kind self.new ≡ kind self.old }
        ensures loaded { OnOk result (held self.new ≡ state.now) }
        ensures unchanged { OnErr result (held self.new ≡ held self.old) };

    /// Does an operation of its kind on the state that it holds.
    fn apply(&mut self, op: &Op) -> Result<Answer, NoMemory>
        requires { IsTrue (fits (kind self.old) op.now) }
        ensures kind_stays { kind self.new ≡ kind self.old }
        ensures after { OnOk result (held self.new ≡ state_after (held self.old) op.now) }
        ensures answer { IfOk result (λ answer. answer ≡ answer_of (held self.old) op.now) }
        ensures unchanged { OnErr result (held self.new ≡ held self.old) };

    /// A copy of the state that it holds.
    fn save(&self) -> Result<State, NoMemory>
        ensures { IfOk result (λ state. state ≡ held self.now) };

    /// It holds a state of its kind.
    ghost held_is_of_its_kind: { (server : Self) → kind_of (held server) ≡ kind server };
}
