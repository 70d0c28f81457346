#![tactic(auto)]

//! One over-subscribed price level from pay-in to final balances: 33 lots are offered at 100, and 50, 30 and 20 lots are
//! bid for at 103. It is shared out by both rules, over both depositories.

mod award;
mod bid;
mod fault;
mod queue;
mod scene;

use fault::AllotmentFault;
use scene::carry_out;
use sharing::{ByTime, ProRata, SharingRule};
use sparse_depository::SparseDepository;
use std::io;
use std::process::ExitCode;
use table_depository::TableDepository;

/// The allotment by one rule over each depository, and whether both end with the same balances.
fn over_both<R: SharingRule>(rt: &impl Print, name: &str, rule: &R) -> Result<(), AllotmentFault> {
    let table = carry_out(rt, name, "table", rule, &mut TableDepository::new())?;
    let sparse = carry_out(rt, name, "sparse", rule, &mut SparseDepository::new())?;
    if table == sparse {
        println!(rt; "Both depositories end with the same balances.")?;
    } else {
        println!(rt; "THE TWO DEPOSITORIES DIFFER.")?;
    }
    Ok(())
}

fn by_both_rules(rt: &impl Print) -> Result<(), AllotmentFault> {
    println!(rt; "33 lots are offered at 100; bids at 103 are for 50, 30 and 20 lots.")?;
    over_both(rt, "By time", &ByTime)?;
    over_both(rt, "Pro rata", &ProRata)
}

/// A run that is refused says in one line what was wrong, and ends with status 1.
fn main(rt: HostRuntime) -> io::Result<ExitCode> {
    match by_both_rules(&rt) {
        Ok(()) => Ok(ExitCode::SUCCESS),
        Err(AllotmentFault::Printing(fault)) => Err(fault),
        Err(refusal) => {
            eprintln!(rt; "allotment: {refusal}")?;
            Ok(ExitCode::FAILURE)
        }
    }
}
