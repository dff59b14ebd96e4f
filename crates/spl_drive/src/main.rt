//! Drives a store of one caller while its tree grows: `spl_drive ORDER NUMBER` puts so many distinct keys, and looks them up.
//!
//! | order     | each key is                                     |
//! | `rising`  | above all keys before it                        |
//! | `falling` | below all keys before it                        |
//! | `random`  | anywhere                                        |
//!
//! Each line is a figure. The tests drive a store until its tree has three levels.
#![tactic(auto)]

mod calls;
mod measure;
mod order;
mod store;
#[cfg(test)]
mod tests;
#[cfg(test)]
mod watch;

use crate::order::Order;
use anyhow::Result;
use std::env;
use std::rt::Env;

const USAGE: &str = "usage: spl_drive rising|falling|random NUMBER";

fn order_of(word: &str) -> Option<Order> {
    match word {
        "rising" => Some(Order::Rising),
        "falling" => Some(Order::Falling),
        "random" => Some(Order::Random),
        _ => None,
    }
}

/// What the words ask for.
fn asked<R: Env + AllocGlobal>(rt: &R) -> Result<Option<(Order, u32)>> {
    let mut words = env::args(rt)?.skip(1);
    let Some(order) = words.next() else {
        return Ok(None);
    };
    let Some(number) = words.next() else {
        return Ok(None);
    };
    let Ok(number) = number.as_str().parse::<u32>() else {
        return Ok(None);
    };
    Ok(order_of(order.as_str()).map(|order| (order, number)))
}

fn main(rt: HostRuntime) -> Result<()> {
    match asked(&rt)? {
        Some((order, number)) => measure::measure(&rt, order, number),
        None => {
            println!(rt; "{USAGE}")?;
            Ok(())
        }
    }
}
