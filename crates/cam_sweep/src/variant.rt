//! Scripts that are made from one.
use cam_base::Sequence;

/// A script that was made from another one, as a text, and how it was made, in words.
#[derive(Drop)]
pub struct Variant {
    pub made: String,
    pub text: Vec<u8>,
}

/// Scripts that are made from one, in order.
pub type Variants = Sequence<Variant>;
