//! All orders, by one place more at a time.
ghost use Rattle.std.specs.Prelude.{◌≡◌, ◌≤◌, ◌<◌, ◌++◌, [], ◌∷◌, ℕ, List, length, IfNone, IfOk, IfSome, OnOk};
ghost use Rattle.std.specs.List.{flat_map};
ghost use Rattle.cam_orders.specs.Orders.{beginnings, longer, times, AreAll, AreOrders};

use cam_base::{NoMemory, Sequence};
use std::alloc::Global;

/// Whose line comes next, place by place: families by their numbers, from 0.
pub type Order = Sequence<usize>;

/// A list of orders.
pub type Orders = Sequence<Order>;

/// How often a family comes up.
fn times(family: usize, order: &[usize]) -> usize
    ensures { result ≡ times family order.now }
{
    let mut count = 0;
    for other in order {
        if *other == family {
            count += 1;
        }
    }
    count
}

/// An order with a family behind it.
fn longer_by(order: &Order, family: usize) -> Result<Order, NoMemory>
    ensures { IfOk result (λ longer. longer ≡ order.now ++ family ∷ []) }
{
    let mut longer = order.copy()?;
    longer.push(family)?;
    Ok(longer)
}

/// Adds the beginnings of orders that are one place longer than this one.
fn add_longer(counts: &[usize], begun: &Order, orders: &mut Orders) -> Result<(), NoMemory>
    ensures { OnOk result (orders.new ≡ orders.old ++ longer counts.now begun.now) }
{
    for (family, count) in counts.iter().enumerate() {
        if times(family, begun.as_slice()) < *count {
            orders.push(longer_by(begun, family)?)?;
        }
    }
    Ok(())
}

/// The beginnings that are one place longer than these.
fn all_longer(alloc: Global, counts: &[usize], begun: &Orders) -> Result<Orders, NoMemory>
    ensures { IfOk result (λ orders. orders ≡ flat_map (longer counts.now) begun.now) }
{
    let mut orders = Orders::new(alloc);
    for order in begun.as_slice() {
        add_longer(counts, order, &mut orders)?;
    }
    Ok(orders)
}

/// The beginning of no place, alone.
fn no_place(alloc: Global) -> Result<Orders, NoMemory>
    ensures { IfOk result (λ orders. orders ≡ [] ∷ []) }
{
    let mut orders = Orders::new(alloc);
    orders.push(Order::new(alloc))?;
    Ok(orders)
}

/// All orders of families that have so many lines, if there are so many at most: each once. None if
/// there are more.
pub fn all_orders(alloc: Global, counts: &[usize], most: usize) -> Result<Option<Orders>, NoMemory>
    requires { 0 < most }
    ensures all { IfOk result (λ found. IfSome found (AreAll counts.now)) }
    ensures few { IfOk result (λ found. IfSome found (λ orders. length orders ≤ most)) }
    ensures more { IfOk result (λ found. IfNone found
        ((orders : List (List ℕ)) × (most < length orders) × AreOrders counts.now orders)) }
{
    let mut orders = no_place(alloc)?;
    for count in counts {
        for step in 0..*count {
            orders = all_longer(alloc, counts, &orders)?;
            if orders.len() > most {
                return Ok(None);
            }
        }
    }
    Ok(Some(orders))
}
