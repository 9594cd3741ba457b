//! The words of a storm, and what follows from them: its objects, its bodies, the script by which it
//! is reported, and where a node restarts.
ghost use Rattle.std.specs.Prelude.{◌≡◌, ◌≤◌, ◌<◌, ◌+◌, ◌*◌, ◌%◌, ◌++◌, ◌∷◌, [], ℕ, pos, length, IfOk, OnOk};
ghost use Rattle.cam_gen.specs.Storms.{Words, action_number, bodies_at, bodies_before, body_of, first_place, inner_body, labels_of, objects_of, register_at, restarts_at, second_place, start_step, storm_script, tops_of, top_body, writes};

use crate::draws::Draws;
use cam_base::NoMemory;
use cam_names::Name;
use cam_script::{
    Act, Bodies, BodyText, Expr, Label, Labels, OpWith, Script, Statement, Step, Steps,
};
use cam_type::{ObjectDecl, Objects, State};
use std::alloc::Global;
use std::marker::Model;

/// The words of a storm: its seed, how many top actions it has, 1 to 64, and whether it is calm.
#[derive(Clone, Copy, Debug, PartialEq, Eq)]
pub struct Storm {
    pub seed: u64,
    pub actions: u32,
    pub calm: bool,
}

/// The nodes at which the children of a top action run in a rough storm.
#[derive(Clone, Copy, Debug)]
struct Places {
    first: u8,
    second: u8,
}

/// A register that holds 0, at a node.
fn register_at(node: u8) -> ObjectDecl
    ensures { result ≡ register_at node }
{
    ObjectDecl {
        node,
        start: State::Register(0),
    }
}

/// A body that writes the number of its top action to an object, in up to so many calls.
fn writes(alloc: Global, tries: u8, object: u8, number: u32) -> Result<BodyText, NoMemory>
    ensures { IfOk result (λ body. body ≡ writes tries object number) }
{
    let mut body = BodyText::new(alloc);
    body.push_copy(&Statement::Call {
        tries,
        object,
        op: OpWith::Write(Expr::Fixed(i64::from(number))),
    })?;
    body.push_copy(&Statement::Commit(Expr::Fixed(0)))?;
    Ok(body)
}

impl Model for Storm {
    ghost use Rattle.cam_gen.specs.Storms.{Words};

    ghost Value = { Words };

    ghost view = { λ s. record { seed = s.seed; actions = s.actions; calm = s.calm } };

    ghost inverse = { λ w. record { seed = w.seed; actions = w.actions; calm = w.calm } };
}

impl Storm {
    /// The registers, each 0 at first: in calm one for each top action, in rough one at each node.
    pub fn objects(&self, alloc: Global) -> Result<Objects, NoMemory>
        ensures { IfOk result (λ objects. objects ≡ objects_of self.now) }
    {
        let mut objects = Objects::new(alloc);
        if self.calm {
            for number in 0..self.actions {
                objects.push(register_at(child_node(number + 1)))?;
            }
        } else {
            for before in 0..4u8 {
                objects.push(register_at(before + 1))?;
            }
        }
        Ok(objects)
    }

    /// The names of the registers in the report: `r1`, `r2` and so on.
    pub fn labels(&self, alloc: Global) -> Result<Labels, NoMemory>
        ensures { IfOk result (λ labels. labels ≡ labels_of self.now) }
    {
        let mut labels = Labels::new(alloc);
        let count = if self.calm { self.actions } else { 4 };
        for before in 0..count {
            labels.push(Label::new(format!(in alloc; "r{}", before + 1)?))?;
        }
        Ok(labels)
    }

    /// How many top actions a node starts, 1 to 4.
    pub fn tops_of(&self, node: u8) -> u64
        requires { node ≤ 4 }
        ensures { result ≡ tops_of self.now node }
    {
        (u64::from(self.actions) + 4 - u64::from(node)) / 4
    }

    /// How many registers it has.
    pub fn registers(&self) -> u32
        ensures { result ≡ length (objects_of self.now) }
    {
        if self.calm { self.actions } else { 4 }
    }

    /// Whether a node restarts in place of the event of this number, from 0.
    pub fn restarts_at(&self, event: u64) -> bool
        ensures { result ≡ restarts_at self.now event }
    {
        !self.calm && (event == 64 || event == 128)
    }

    /// The places of a top action, 1 to 64, in a rough storm.
    fn places(&self, number: u32) -> Places
        requires { 1 ≤ number }
        ensures first { result.first ≡ first_place self.now number }
        ensures second { result.second ≡ second_place self.now number }
    {
        let mut draws = Draws::new(self.seed);
        for _ in 0..number - 1 {
            draws.draw();
            draws.draw();
        }
        Places {
            first: draws.below(4) as u8 + 1,
            second: draws.below(4) as u8 + 1,
        }
    }

    /// The place of the first of the bodies of a top action, 1 to 64: those of its children, and
    /// behind them its own.
    fn bodies_before(&self, number: u32) -> u8
        requires { (1 ≤ number) × (number ≤ 64) }
        ensures { result ≡ bodies_before self.now number }
    {
        if self.calm {
            2 * (number as u8 - 1)
        } else {
            3 * (number as u8 - 1)
        }
    }

    /// The body of a top action, 1 to 64.
    fn top_body(&self, alloc: Global, number: u32) -> Result<BodyText, NoMemory>
        requires { (1 ≤ number) × (number ≤ 64) }
        ensures { IfOk result (λ body. body ≡ top_body self.now number) }
    {
        let before = self.bodies_before(number);
        let mut body = BodyText::new(alloc);
        if self.calm {
            body.push_copy(&Statement::Child {
                tries: 1,
                node: child_node(number),
                body: before,
            })?;
        } else {
            let places = self.places(number);
            body.push_copy(&Statement::Child {
                tries: 3,
                node: places.first,
                body: before,
            })?;
            body.push_copy(&Statement::Child {
                tries: 3,
                node: places.second,
                body: before + 1,
            })?;
        }
        body.push_copy(&Statement::Commit(Expr::Fixed(0)))?;
        Ok(body)
    }

    /// The body of a child of a top action, 1 to 64, at a node.
    fn inner_body(&self, alloc: Global, number: u32, node: u8) -> Result<BodyText, NoMemory>
        requires { (1 ≤ number) × (number ≤ 64) }
        ensures { IfOk result (λ body. body ≡ inner_body self.now number node) }
    {
        if self.calm {
            writes(alloc, 1, number as u8 - 1, number)
        } else {
            writes(alloc, 3, node.saturating_sub(1), number)
        }
    }

    /// The body of an action, which follows from its name: a child's from its top action and its own
    /// node. No storm has more than 64 top actions: an action of a later one has an empty body.
    pub fn body_of(&self, alloc: Global, name: &Name) -> Result<BodyText, NoMemory>
        ensures first { IfOk result (λ body. action_number name.now ≤ 64
            → body ≡ body_of self.now name.now) }
        ensures later { IfOk result (λ body. 64 < action_number name.now → body ≡ []) }
    {
        let number = top_number(name);
        if number > 64 {
            return Ok(BodyText::new(alloc));
        }
        if name.depth() == 1 {
            self.top_body(alloc, number)
        } else {
            self.inner_body(alloc, number, name.home().0)
        }
    }

    /// Adds the bodies of a top action: those of its children, and behind them its own.
    fn add_bodies(&self, alloc: Global, number: u32, bodies: &mut Bodies) -> Result<(), NoMemory>
        requires { (1 ≤ number) × (number ≤ 64) }
        ensures { OnOk result (bodies.new ≡ bodies.old ++ bodies_at self.now number) }
    {
        if self.calm {
            bodies.push(self.inner_body(alloc, number, child_node(number))?)?;
        } else {
            let places = self.places(number);
            bodies.push(self.inner_body(alloc, number, places.first)?)?;
            bodies.push(self.inner_body(alloc, number, places.second)?)?;
        }
        bodies.push(self.top_body(alloc, number)?)
    }

    /// The step that starts a top action, 1 to 64.
    fn start_step(&self, number: u32) -> Step
        requires { (1 ≤ number) × (number ≤ 64) }
        ensures { result ≡ start_step self.now number }
    {
        let own = if self.calm { 1 } else { 2 };
        Step {
            line: number,
            act: Act::Start {
                node: ((number - 1) % 4) as u8 + 1,
                body: self.bodies_before(number) + own,
            },
        }
    }

    /// The storm as a script: its objects, its bodies and the starts of its top actions.
    pub fn script(&self, alloc: Global) -> Result<Script, NoMemory>
        requires { self.now.actions ≤ 64 }
        ensures { IfOk result (λ script. script ≡ storm_script self.now) }
    {
        let mut bodies = Bodies::new(alloc);
        let mut steps = Steps::new(alloc);
        for before in 0..self.actions {
            self.add_bodies(alloc, before + 1, &mut bodies)?;
            steps.push_copy(&self.start_step(before + 1))?;
        }
        Ok(Script {
            nodes: 4,
            objects: self.objects(alloc)?,
            labels: self.labels(alloc)?,
            bodies,
            steps,
        })
    }
}

/// The node of the child of a top action in a calm storm, where its register stands.
fn child_node(number: u32) -> u8
    ensures { result ≡ 1 + number % 4 }
{
    (number % 4) as u8 + 1
}

/// The number of the top action of an action.
fn top_number(name: &Name) -> u32
    ensures value { result ≡ action_number name.now }
    ensures low { 1 ≤ result }
{
    let first = name.parts()[0];
    u32::from(first.node) + 4 * (first.number - 1)
}
