// Makes a list of calls of sessions on a disk that loses its power, and prints each call, its reply and the ledger that it leads to.
#![tactic(auto)]

use bench::{Bench, Loss};
use disk::Content;
use runs::{Call, Reply, Step};
use std::io;
use tally::Tally;
use text::Shown;

mod bench;
mod list;
mod text;

// What a loss left in the last block of the batch in doubt, if there is one.
fn last_block(loss: &Loss, tally: Tally) -> Content {
    let cell = tally
        .doubtful()
        .and_then(|block| loss.left?.get(block as usize).copied());
    cell.map_or(Content::Unreadable, |cell| cell.settled)
}

// Prints the steps, each with what the replies and the losses up to it come to.
fn tell_all(rt: &HostRuntime, bench: &Bench, steps: &[Step]) -> io::Result<()> {
    let mut tally = Tally::new();
    let mut losses = bench.losses.iter();
    for step in steps {
        let reply = Shown(&step.reply);
        if let Call::Lose = step.call {
            let loss = losses.next().unwrap_or(&bench::UNLISTED);
            let last = last_block(loss, tally);
            tally.note_loss(last);
            println!(rt; "{loss}: {reply} | {}", Shown(tally))?;
        } else {
            tally.note(step.call, step.reply);
            println!(rt; "{}: {reply} | {}", Shown(step.call), Shown(tally))?;
        }
    }
    Ok(())
}

fn main(rt: HostRuntime) -> io::Result<()> {
    let stop = bench::FIRST_STOP;
    let mut steps = [Step {
        call: Call::Open,
        reply: Reply::NotNow,
    }; list::LENGTH];
    for (step, call) in steps.iter_mut().zip(list::CALLS.iter()) {
        step.call = *call;
    }
    let mut bench = Bench {
        losses: bench::LOSSES,
    };
    bench::play(&mut bench, &mut steps);
    println!(rt; "disk of {} blocks, stop {stop}", bench::BLOCKS)?;
    tell_all(&rt, &bench, &steps)
}
