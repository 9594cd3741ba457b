//! The ends to which the orders of a script's lines lead.
use crate::told::{Status, Told};
use cam_base::NoMemory;
use cam_scope::{Lines, push_number};
use cam_script::Script;
use cam_sweep::{NoOrders, ends_of, orders_of, summary_text, tally};
use std::alloc::Global;

/// What is told where a line names a letter.
fn names_letter(alloc: Global, file: &str, line: u32) -> Result<Told, NoMemory> {
    let mut text = String::new(alloc);
    text.push_str(file)?;
    text.push_str(":")?;
    push_number(&mut text, u64::from(line))?;
    text.push_str(": this line names a letter, which would be another one in another order.\n")?;
    Ok(Told {
        text,
        status: Status::Finding,
    })
}

/// How many orders lead to each end, and the first.
pub(crate) fn ordered(
    alloc: Global,
    file: &str,
    source: &Lines<'_>,
    script: &Script,
) -> Result<Told, NoMemory> {
    let orders = match orders_of(alloc, source, script) {
        Ok(orders) => orders,
        Err(NoOrders::NamesLetter(line)) => return names_letter(alloc, file, line),
        Err(NoOrders::NoMemory) => return Err(NoMemory),
    };
    let ends = ends_of(alloc, &orders.variants)?;
    let tallied = tally(alloc, &ends)?;
    let mut text = String::new(alloc);
    if orders.is_sample {
        text.push_str(
            "There are more than 10000 orders: these are drawn from them, by the seed 1.\n",
        )?;
    }
    let summary = summary_text(alloc, "order", &orders.variants, &ends, &tallied)?;
    text.push_str(summary.as_str())?;
    Ok(Told {
        text,
        status: Status::Fine,
    })
}
