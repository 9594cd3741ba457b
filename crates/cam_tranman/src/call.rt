//! The call of an action that is not answered.
use cam_type::Op;
use std::marker::Model;

/// The call of an action that is not answered.
#[derive(Clone, Copy, Debug)]
pub struct OpenCall {
    /// Which call of the action it is: 1 to 1,000,000,000.
    pub number: u32,
    /// The object, and what was asked of it.
    pub object: u8,
    pub op: Op,
    /// The node of the object, 1 to 8, and the count at which it was addressed, 1 to 1,000,000,000.
    pub site: u8,
    pub count: u32,
}

impl Model for OpenCall {
    ghost use Rattle.cam_tranman.specs.OpenCall.{OpenCallFields, IsAddressed};

    ghost Value = { OpenCallFields };

    ghost view = { λ c. record {
      number = c.number;
      object = c.object;
      op = c.op;
      site = c.site;
      count = c.count;
    } };

    ghost invariant = { λ c. IsAddressed c.site c.count };

    ghost inverse = { λ v. record {
      number = v.number;
      object = v.object;
      op = v.op;
      site = v.site;
      count = v.count;
    } };
}
