// Replays the tape on standard input with every byte visible.
#![tactic(auto)]

use std::io;

fn main(rt: HostRuntime) -> io::Result<()> {
    console::play_tape(&rt, true)
}
