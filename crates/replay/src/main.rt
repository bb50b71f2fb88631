// Replays the tape on standard input: a line for each answer.
#![tactic(auto)]

use std::io;

fn main(rt: HostRuntime) -> io::Result<()> {
    console::play_tape(&rt, false)
}
