// Lists the context on standard input: document 01, "The listing". What is printed is made by `ultra_listing::list`, and nothing else is.
#![tactic(auto)]

ghost use Rattle.std.specs.Prelude.{◌≤◌, length};
ghost use Rattle.listing_format.specs.Listing.{listing_most};

use refusals::Refusal;
use std::io;

// Prints the listing of `input`, which is made in `text`: no listing is longer (`ListingFits`), so none is refused.
fn print(rt: &impl Print, input: &[u8], text: &mut [u8]) -> io::Result<()>
    requires { listing_most ≤ length text.old }
{
    let answer = ultra_listing::list(input, text);
    let Ok(length) = answer else {
        return Ok(());
    };
    rt.write_all(&text[..length as usize])
}

// The same with the program's memory. A callee that names an array's length owes no proof of it.
fn print_in(rt: &impl Print, input: &[u8], text: &mut [u8; 524352]) -> io::Result<()> {
    print(rt, input, text)
}

// "reads up to 65,536 bytes of standard input", short reads too.
fn main(rt: HostRuntime) -> io::Result<()> {
    let mut input = [0u8; 65536];
    let read = full_reads::read_full(&mut rt.stdin(), &mut input);
    let mut text = [0u8; 524352];
    print_in(&rt, &input[..read], &mut text)
}
