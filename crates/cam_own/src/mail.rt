//! A letter that was sent.
use cam_event::Body;
use std::marker::Model;

/// A letter that was sent: from which node, to which, and what it says.
#[derive(Clone, Copy, Debug)]
pub struct Mail {
    pub from: u8,
    pub to: u8,
    pub body: Body,
}

impl Model for Mail {
    ghost use Rattle.cam_event.specs.Inputs as inputs;

    ghost Value = { inputs.Mail };

    ghost view = { λ m. record { from = m.from; to = m.to; body = m.body } };

    ghost inverse = { λ m. record { from = m.from; to = m.to; body = m.body } };
}
