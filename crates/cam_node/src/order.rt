//! The order of what a node's log holds and of what is live at the node, as laws.
ghost use Rattle.cam_node.specs.OrderLaws.{NothingIsInOrder, DroppingKeepsOrder, SecuringKeepsOrder};
ghost use Rattle.cam_node.specs.OrderLaws.{CallsKeepOrder, RestartKeepsOrder};
ghost use Rattle.cam_node.specs.PlanOrder.{PlansKeepOrder};

/// What a node's log holds is in the order in which it was performed, and so is what is live after
/// it: at first; after an event that performs and secures nothing; after one that secures a family,
/// of which the log holds what is live; after that of a call that came; and after a restart. The
/// next index of the table is at most the number of the operations that the node has performed.
pub fn orders_are_kept()
    ensures nothing { NothingIsInOrder }
    ensures dropping { DroppingKeepsOrder }
    ensures securing { SecuringKeepsOrder }
    ensures call { CallsKeepOrder }
    ensures restart { RestartKeepsOrder }
{}

/// Where an event stands that was planned, and performs and secures nothing, that order goes on.
pub(crate) fn plans_keep_order()
    ensures { PlansKeepOrder }
{}
