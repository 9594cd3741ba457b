// What is known of an action's ancestors. Each action is its own ancestor.
ghost use Rattle.std.specs.Prelude.{◌≡◌, if◌then◌else◌};
ghost use Rattle.cam_know.specs.Known.{aborted_by, knows_abort, known_lift};

use crate::know::Know;
use cam_names::Name;

impl Know {
    /// The shortest ancestor of the action that is known aborted; each action is its own
    /// ancestor. None if none is known aborted.
    pub fn aborted_by(&self, name: &Name) -> Option<Name>
        ensures { result ≡ aborted_by self.now name.now }
    {
        match name.parent() {
            None => self.if_aborted(name),
            Some(parent) => match self.aborted_by(&parent) {
                None => self.if_aborted(name),
                Some(ancestor) => Some(ancestor),
            },
        }
    }

    /// The action itself, if it is known aborted.
    fn if_aborted(&self, name: &Name) -> Option<Name>
        ensures { result ≡ (if knows_abort self.now name.now then Some name.now else None) }
    {
        if self.is_aborted(name) {
            Some(*name)
        } else {
            None
        }
    }

    /// Climbs to the parent while the present action is known committed. None if that goes past
    /// the top.
    pub fn lift(&self, name: &Name) -> Option<Name>
        ensures { result ≡ known_lift self.now name.now }
    {
        // A name has a part.
        prove!(name.depth() > 0);
        if !self.is_committed(name) {
            return Some(*name);
        }
        match name.parent() {
            Some(parent) => self.lift(&parent),
            None => None,
        }
    }
}
