// Adds of what becomes one attribute: each judges what it is given, raises the head's count, and lends the part of the buffer from the used
// length on to the body writer of its type. Those of members given one by one are in `members`.
#![tactic(auto)]

pub mod members;

ghost use Rattle.std.specs.Prelude.{◌≡◌};
ghost use Rattle.ultra_format.specs.Additions.{Addition};
ghost use Rattle.ultra_adding.specs.Adding.{added};

use refusals::Refusal;
use ultra_appending::raise_count;
use ultra_format::FramebufferRecord;
use ultra_layout::{framebuffer, types};

// Adds a memory map: an address, a size and a type for each entry.
pub fn add_map(buf: &mut [u8], numbers: &[u64]) -> Result<u32, Refusal>
    ensures { (result, buf.new) ≡ added buf.old (Addition.add_map numbers.now) }
{
    let judged = ultra_arguments::map::check(numbers);
    let size = ultra_writing::map::size(numbers);
    let answer = raise_count(buf, types::MEMORY_MAP, judged, size);
    let Ok(used) = answer else {
        return answer;
    };
    ultra_writing::map::write(&mut buf[used as usize..], numbers);
    Ok(used + size as u32)
}

// Adds a command line: the text as it is, without a closing zero.
pub fn add_command_line(buf: &mut [u8], text: &[u8]) -> Result<u32, Refusal>
    ensures { (result, buf.new) ≡ added buf.old (Addition.add_command_line text.now) }
{
    let judged = ultra_arguments::command_line::check(text);
    let size = ultra_writing::command_line::size(text);
    let answer = raise_count(buf, types::COMMAND_LINE, judged, size);
    let Ok(used) = answer else {
        return answer;
    };
    ultra_writing::command_line::write(&mut buf[used as usize..], text);
    Ok(used + size as u32)
}

// Adds a framebuffer.
pub fn add_framebuffer(buf: &mut [u8], given: FramebufferRecord) -> Result<u32, Refusal>
    ensures { (result, buf.new) ≡ added buf.old (Addition.add_framebuffer given) }
{
    let judged = ultra_arguments::framebuffer::check(given);
    let answer = raise_count(
        buf,
        types::FRAMEBUFFER,
        judged,
        framebuffer::LEAST_SIZE as usize,
    );
    let Ok(used) = answer else {
        return answer;
    };
    ultra_writing::framebuffer::write(&mut buf[used as usize..], given);
    Ok(used + framebuffer::LEAST_SIZE)
}
