// Several modules in one call, after request R-1 of document 02: none, all, and up to the first that is refused.
#![tactic(auto)]

mod buffers;
mod lists;
mod tries;

use std::io;

fn main(rt: HostRuntime) -> io::Result<()> {
    tries::without_modules(&rt)?;
    tries::all_added(&rt)?;
    tries::one_refused(&rt)?;
    tries::in_room(&rt)?;
    tries::after_others(&rt)?;
    tries::on_refused_buffers(&rt)?;
    tries::to_1023_attributes(&rt)?;
    tries::beside_single_adds(&rt)
}
