// Prints the listing of left.tab, right.tab and code.lab of the current folder.
#![tactic(auto)]

ghost use Rattle.std.specs.Prelude.{◌≤◌, length};
ghost use Rattle.listing.specs.Answer.{listed};

use std::io;

fn main(rt: HostRuntime) -> io::Result<()> {
    let list = |left: &[u8], right: &[u8], code: &[u8], out: &mut [u8]|
        ensures { (listed result).len ≤ length out.new }
    { listing::list(left, right, code, out) };
    files::print_listing(&rt, list)
}
