//! The bodies whose `end` was read, with their sizes.
ghost use Rattle.std.specs.Prelude.{◌≡◌, [], List, length, map, min, OnOk};
ghost use Rattle.cam_script.specs.SoFar.{Size as AnySize};
ghost use Rattle.cam_script.specs.Order.{closes, is_closed};
ghost use Rattle.cam_script.specs.BodyTable.{capped, size_of, size_with, size_at, size_named, with_body_written};

use crate::name_table::NameTable;
use crate::{Bodies, BodyText, Statement};
use cam_base::NoMemory;
use cam_words::Label;
use std::alloc::Global;
use std::marker::Model;

/// The first cost of a body, in steps, that is too much for every script.
const TOO_DEAR: u64 = 513;

/// The first nesting of a body that is too deep for every script.
const TOO_DEEP: u8 = 9;

/// A body's cost and nesting, up to the first ones that are too many.
#[derive(Clone, Copy)]
pub(crate) struct Size {
    pub cost: u32,
    pub nesting: u8,
}

impl Model for Size {
    ghost use Rattle.cam_script.specs.SoFar.{Size as Seen};

    ghost Value = { Seen };

    ghost view = { λ s. record { cost = s.cost; nesting = s.nesting } };

    ghost inverse = { λ v. record { cost = v.cost; nesting = v.nesting } };
}

/// The body that is being written.
#[derive(Drop)]
pub(crate) struct Writing {
    pub name: Label,
    pub statements: BodyText,
}

impl Model for Writing {
    ghost use Rattle.cam_script.specs.SoFar.{Writing as Seen};

    ghost Value = { Seen };

    ghost view = { λ w. record { name = w.name; statements = w.statements } };
}

/// The bodies whose `end` was read, with their names and sizes.
#[derive(Drop)]
pub(crate) struct BodyTable {
    names: NameTable,
    bodies: Bodies,
    sizes: Vec<Size>,
}

impl Model for BodyTable {
    ghost use Rattle.std.specs.Prelude.{[], ◌≡◌, map};
    ghost use Rattle.cam_script.specs.Law.{sizes_behind};
    ghost use Rattle.cam_script.specs.BodyTable.{Bodies as Seen, capped};

    ghost Value = { Seen };

    ghost view = { λ t. record {
      names = t.names;
      bodies = t.bodies;
      sizes = sizes_behind [] t.bodies;
    } };

    ghost invariant = { λ t. t.sizes.items ≡ map capped (sizes_behind [] t.bodies) };
}

impl BodyTable {
    /// No body.
    pub fn new(alloc: Global) -> BodyTable
        ensures { (result.names ≡ []) × ((result.bodies ≡ []) × (result.sizes ≡ [])) }
    {
        BodyTable {
            names: NameTable::new(alloc),
            bodies: Bodies::new(alloc),
            sizes: Vec::new(alloc),
        }
    }

    /// How many there are.
    pub fn len(&self) -> usize
        ensures { result ≡ length self.now.bodies }
    {
        self.bodies.len()
    }

    /// Their names.
    pub fn names(&self) -> &NameTable
        ensures { result.now ≡ self.now.names }
    {
        &self.names
    }

    /// The bodies themselves.
    pub fn into_bodies(self) -> Bodies
        ensures { result ≡ self.bodies }
    {
        let BodyTable {
            names: _,
            bodies,
            sizes: _,
        } = self;
        bodies
    }

    /// The size of the body at this place; 0 if there is none.
    pub fn size_at(&self, body: usize) -> Size
        ensures { result ≡ capped (size_at self.now.sizes body) }
    {
        size_at(self.sizes.as_slice(), body)
    }

    /// The size of the body of this name; 0 if there is none.
    pub fn size_named(&self, name: &[u8]) -> Size
        ensures { result ≡ capped (size_named self.now name.now) }
    {
        match self.names.place_of(name) {
            Some(body) => self.size_at(body),
            None => Size {
                cost: 0,
                nesting: 0,
            },
        }
    }

    /// After the `end` of a body.
    pub fn push(&mut self, writing: Writing) -> Result<(), NoMemory>
        ensures { OnOk result (self.new ≡ with_body_written self.old writing) }
    {
        let Writing { name, statements } = writing;
        let size = size_of(statements.as_slice(), self.sizes.as_slice());
        self.names.push(name)?;
        self.sizes.push(size)?;
        match self.bodies.push(statements) {
            Ok(()) => Ok(()),
            Err(full) => {
                let _ = self.sizes.pop();
                Err(full)
            }
        }
    }
}

/// The size at this place; 0 if there is none.
fn size_at(sizes: &[Size], body: usize) -> Size
    ensures { (all : List AnySize) → sizes.now ≡ map capped all
        → result ≡ capped (size_at all body) }
{
    match sizes.get(body) {
        Some(size) => *size,
        None => Size {
            cost: 0,
            nesting: 0,
        },
    }
}

/// The size of a body of these statements, by the sizes of the bodies above it.
fn size_of(statements: &[Statement], sizes: &[Size]) -> Size
    ensures { (all : List AnySize) → sizes.now ≡ map capped all
        → result ≡ capped (size_of all statements.now) }
{
    let mut size = Size {
        cost: 1,
        nesting: 1,
    };
    for statement in statements {
        size = size_with(size, *statement, sizes);
    }
    size
}

/// The size with one statement more.
fn size_with(size: Size, statement: Statement, sizes: &[Size]) -> Size
    ensures { (all : List AnySize) → (exact : AnySize) → sizes.now ≡ map capped all
        → size ≡ capped exact → result ≡ capped (size_with all exact statement) }
{
    match statement {
        Statement::Call {
            tries,
            object: _,
            op: _,
        } => Size {
            cost: dear(size.cost as u64 + tries as u64),
            nesting: size.nesting,
        },
        Statement::Child {
            tries,
            node: _,
            body,
        } => {
            let child = size_at(sizes, body as usize);
            let more = tries as u64 * (1 + child.cost as u64);
            Size {
                cost: dear(size.cost as u64 + more),
                nesting: size
                    .nesting
                    .max(child.nesting.saturating_add(1))
                    .min(TOO_DEEP),
            }
        }
        Statement::Commit(_) | Statement::Abort => size,
    }
}

/// A cost up to the first that is too much.
fn dear(cost: u64) -> u32
    ensures { result ≡ min cost 513 }
{
    cost.min(TOO_DEAR) as u32
}

/// Whether a body has its `commit` or `abort`.
#[tactic(auto, using(crate::proofs::Sizes::closed_last, crate::proofs::Sizes::none_closed))]
pub(crate) fn is_closed(statements: &BodyText) -> bool
    ensures { result ≡ is_closed statements.now }
{
    match statements.as_slice().split_last() {
        None => false,
        Some((last, _)) => closes(*last),
    }
}

/// Whether a body ends with this statement.
fn closes(statement: Statement) -> bool
    ensures { result ≡ closes statement }
{
    match statement {
        Statement::Commit(_) | Statement::Abort => true,
        _ => false,
    }
}
