//! The data servers that do the operations of a run.
ghost use Rattle.std.specs.Prelude.{◌≡◌};
ghost use Rattle.cam_type.specs.declared.Kind.TheVariants as kinds;

use cam_type::DataType;

/// The data servers that do the operations of a run: one of registers, one of queues and one of
/// counters, handed in. Each object is loaded into the server of its kind for a call.
#[derive(Drop)]
pub struct Servers<R: DataType, Q: DataType, C: DataType> {
    pub register: R,
    pub queue: Q,
    pub counter: C,
    pub ghost of_registers: { R.kind register ≡ kinds.Register },
    pub ghost of_queues: { Q.kind queue ≡ kinds.Queue },
    pub ghost of_counters: { C.kind counter ≡ kinds.Counter },
}
