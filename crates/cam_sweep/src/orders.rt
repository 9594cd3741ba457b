//! The orders of the lines of a script.
use crate::variant::{Variant, Variants};
use cam_base::NoMemory;
use cam_gen::Draws;
use cam_orders::{Order, Orders, all_orders};
use cam_scope::{Lines, word};
use cam_script::{Act, Script};
use std::alloc::{AllocError, AllocFailed, Global};

/// The most orders of which all are taken.
const MOST_ORDERS: usize = 10_000;

/// How many orders are drawn where there are more.
const SAMPLE: usize = 1_000;

/// The seed by which they are drawn.
const SEED: u64 = 1;

/// Why lines have no orders.
#[derive(Clone, Copy, Debug, PartialEq, Eq)]
pub enum NoOrders {
    /// The line of this number names a letter: in another order it would be another one.
    NamesLetter(u32),
    NoMemory,
}

impl From<NoMemory> for NoOrders {
    fn from(_: NoMemory) -> NoOrders {
        NoOrders::NoMemory
    }
}

impl From<AllocError> for NoOrders {
    fn from(_: AllocError) -> NoOrders {
        NoOrders::NoMemory
    }
}

impl<T: Drop> From<AllocFailed<T>> for NoOrders {
    fn from(_: AllocFailed<T>) -> NoOrders {
        NoOrders::NoMemory
    }
}

/// Scripts with the lines in other orders; `is_sample` says whether there are more.
#[derive(Drop)]
pub struct Ordered {
    pub variants: Variants,
    pub is_sample: bool,
}

/// The lines of a top action and of all below it, or those of the nodes.
#[derive(Drop)]
struct Family {
    name: String,
    lines: Vec<u32>,
}

/// The families of a script, and to which of them each step belongs.
#[derive(Drop)]
struct Families {
    families: Vec<Family>,
    of_steps: Vec<Option<usize>>,
    plays: bool,
}

/// What a step is to the orders.
enum Part {
    /// It begins a family.
    First,
    /// It belongs to the family of the variable at a step.
    Of(u32),
    /// It is one of the nodes.
    OfNodes,
    /// Letters arrive: they do so behind each line anyway.
    Arrival,
    Play,
    NamesLetter,
}

/// What a step is to the orders.
fn part_of(act: &Act) -> Part {
    match act {
        Act::Begin { .. } | Act::Start { .. } => Part::First,
        Act::Ask { parent, .. } => Part::Of(*parent),
        Act::Call { action, .. } => Part::Of(*action),
        Act::Commit { action, .. } => Part::Of(*action),
        Act::Abort { action } => Part::Of(*action),
        Act::GiveUp { action, .. } => Part::Of(*action),
        Act::Go { action } => Part::Of(*action),
        Act::Query { action, .. } => Part::Of(*action),
        Act::Restart { .. } | Act::Tell { .. } | Act::Stop { .. } => Part::OfNodes,
        Act::Deliver { .. } | Act::Drain => Part::Arrival,
        Act::Play => Part::Play,
        Act::Cut { .. } | Act::Lose { .. } => Part::NamesLetter,
    }
}

impl Families {
    /// No family yet.
    fn new(alloc: Global) -> Families {
        Families {
            families: Vec::new(alloc),
            of_steps: Vec::new(alloc),
            plays: false,
        }
    }

    /// A new family, by its number.
    fn begin(&mut self, name: String, alloc: Global) -> Result<usize, NoMemory> {
        let number = self.families.len();
        let family = Family {
            name,
            lines: Vec::new(alloc),
        };
        self.families.push(family)?;
        Ok(number)
    }

    /// The family of the nodes, by its number: it is made where it is missing.
    fn of_nodes(&mut self, alloc: Global) -> Result<usize, NoMemory> {
        for (number, family) in self.families.iter().enumerate() {
            if family.name.as_str() == "nodes" {
                return Ok(number);
            }
        }
        self.begin(String::from_str(alloc, "nodes")?, alloc)
    }

    /// The family of a step, where it has one.
    fn family_of(
        &mut self,
        alloc: Global,
        source: &Lines<'_>,
        line: u32,
        act: &Act,
    ) -> Result<Option<usize>, NoOrders> {
        match part_of(act) {
            Part::First => {
                let name = String::from_utf8_lossy(alloc, word(source.line(line), 1))?;
                Ok(Some(self.begin(name, alloc)?))
            }
            Part::Of(step) => Ok(match self.of_steps.get(step as usize) {
                Some(family) => *family,
                None => None,
            }),
            Part::OfNodes => Ok(Some(self.of_nodes(alloc)?)),
            Part::Arrival => Ok(None),
            Part::Play => {
                self.plays = true;
                Ok(None)
            }
            Part::NamesLetter => Err(NoOrders::NamesLetter(line)),
        }
    }

    /// The families of a script.
    fn of(alloc: Global, source: &Lines<'_>, script: &Script) -> Result<Families, NoOrders> {
        let mut families = Families::new(alloc);
        for step in script.steps.as_slice() {
            let family = families.family_of(alloc, source, step.line, &step.act)?;
            families.of_steps.push(family)?;
            if let Some(number) = family {
                if let Some(family) = families.families.get_mut(number) {
                    family.lines.push(step.line)?;
                }
            }
        }
        Ok(families)
    }

    /// How many lines each family has.
    fn counts(&self, alloc: Global) -> Result<Vec<usize>, NoMemory> {
        let mut counts = Vec::new(alloc);
        for family in &self.families {
            counts.push(family.lines.len())?;
        }
        Ok(counts)
    }
}

/// The family of the line at a place among those that are left, of which it takes one.
fn take_line(left: &mut [usize], place: usize) -> Option<usize> {
    let mut place = place;
    for (family, count) in left.iter_mut().enumerate() {
        if place < *count {
            *count -= 1;
            return Some(family);
        }
        place -= *count;
    }
    None
}

/// An order that is drawn: each line is one of those that are left.
fn drawn(alloc: Global, draws: &mut Draws, counts: &[usize]) -> Result<Order, NoMemory> {
    let mut left = counts.to_vec(alloc)?;
    let mut total = 0usize;
    for count in counts {
        total = total.saturating_add(*count);
    }
    let mut order = Order::new(alloc);
    for done in 0..total {
        let many = u32::try_from(total - done).unwrap_or(u32::MAX).max(1);
        if let Some(family) = take_line(left.as_mut_slice(), draws.below(many) as usize) {
            order.push(family)?;
        }
    }
    Ok(order)
}

/// A sample of orders.
fn sample(alloc: Global, counts: &[usize]) -> Result<Orders, NoMemory> {
    let mut draws = Draws::new(SEED);
    let mut orders = Orders::new(alloc);
    for _ in 0..SAMPLE {
        orders.push(drawn(alloc, &mut draws, counts)?)?;
    }
    Ok(orders)
}

/// The lines of a script that are no steps, as a text.
fn declarations(alloc: Global, source: &Lines<'_>, script: &Script) -> Result<Vec<u8>, NoMemory> {
    let mut text = Vec::new(alloc);
    let mut steps = script.steps.as_slice();
    for before in 0..source.count() {
        let number = u32::try_from(before.saturating_add(1)).unwrap_or(u32::MAX);
        match steps.split_first() {
            Some((step, rest)) if step.line == number => steps = rest,
            _ => {
                text.extend_from_slice(source.line(number))?;
                text.push(b'\n')?;
            }
        }
    }
    Ok(text)
}

/// Appends a line, behind which all letters arrive.
fn push_line(line: &[u8], text: &mut Vec<u8>) -> Result<(), NoMemory> {
    text.extend_from_slice(line)?;
    text.extend_from_slice(b"\ndrain\n")?;
    Ok(())
}

/// The script with the lines in an order.
fn variant_of(
    alloc: Global,
    source: &Lines<'_>,
    families: &Families,
    declared: &[u8],
    order: &Order,
) -> Result<Variant, NoMemory> {
    let mut made = String::new(alloc);
    let mut text = declared.to_vec(alloc)?;
    let mut next = Vec::new(alloc);
    for _ in &families.families {
        next.push(0usize)?;
    }
    for number in order.as_slice() {
        let Some(family) = families.families.get(*number) else {
            continue;
        };
        let Some(place) = next.get_mut(*number) else {
            continue;
        };
        if let Some(line) = family.lines.get(*place) {
            push_line(source.line(*line), &mut text)?;
        }
        *place = place.saturating_add(1);
        if !made.is_empty() {
            made.push_str(" ")?;
        }
        made.push_str(family.name.as_str())?;
    }
    if families.plays {
        text.extend_from_slice(b"play\n")?;
    }
    Ok(Variant { made, text })
}

/// The script with its lines in all orders that keep those of each family, or in a sample of them.
/// Behind each line all letters arrive.
pub fn orders_of(alloc: Global, source: &Lines<'_>, script: &Script) -> Result<Ordered, NoOrders> {
    let families = Families::of(alloc, source, script)?;
    let counts = families.counts(alloc)?;
    let (orders, is_sample) = match all_orders(alloc, &counts, MOST_ORDERS)? {
        Some(orders) => (orders, false),
        None => (sample(alloc, &counts)?, true),
    };
    let declared = declarations(alloc, source, script)?;
    let mut variants = Variants::new(alloc);
    for order in orders.as_slice() {
        variants.push(variant_of(alloc, source, &families, &declared, order)?)?;
    }
    Ok(Ordered {
        variants,
        is_sample,
    })
}
