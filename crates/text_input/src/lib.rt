// What a program reads that takes a text: what arrives on standard input, up to 65,535 bytes. What arrives there is outside the contracts, as for `printing`.
#![tactic(auto)]

ghost use Rattle.printing.specs.Counts.{IsPrefixLen};

use printing::{read_input, say};

// Reads the input and answers how many bytes it has; 0 where it could not be read, is empty or fills the buffer, after saying so.
pub fn read_text(rt: &HostRuntime, buf: &mut [u8]) -> usize
    ensures { IsPrefixLen result buf.new }
{
    let arrived = read_input(rt, buf);
    let size = arrived.size;
    if arrived.failed {
        say(rt, b"the input could not be read\n");
        return 0;
    }
    if size == 0 {
        say(rt, b"nothing arrived: no text on standard input\n");
        return 0;
    }
    if size == 65536 {
        say(rt, b"the input is longer than 65,535 bytes\n");
        return 0;
    }
    size
}
