// The string table of the payload of an accepted context. Each function stores its strings from `to` on, and answers where they end.
#![tactic(auto)]

mod attributes;

ghost use Rattle.std.specs.Prelude.{◌≡◌, [], ◌++◌, ◌+◌, ◌≤◌, length};
ghost use Rattle.byte_layout.specs.Stored.{text_at, closed};
ghost use Rattle.ultra_format.specs.Decoding.{context_of};
ghost use Rattle.ultra_locating.specs.Passing.{Accepts};
ghost use Rattle.handover_format.specs.WrittenForm.{strings};
ghost use Rattle.export_list.specs.ExportList.{agent_of, between};
ghost use Rattle.export_strings.specs.StringPuts.{bytes_put};

use ultra_layout::{platform, types};

// The text in the `width` bytes from `at` on, with a closing zero.
fn text(buf: &[u8], at: usize, width: usize, out: &mut [u8], to: usize) -> usize
    requires { (at + width ≤ length buf.now) × (to + length (closed (text_at buf.now at width)) ≤ length out.old) }
    ensures { (out.new, result) ≡ bytes_put (out.old, to) (closed (text_at buf.now at width)) }
{
    let n = byte_layout::text_length(buf, at, width);
    handover_writing::string(buf, at, n, out, to);
    to + n + 1
}

// An empty string.
fn empty(out: &mut [u8], to: usize) -> usize
    requires { to + length (closed []) ≤ length out.old }
    ensures { (out.new, result) ≡ bytes_put (out.old, to) (closed []) }
{
    out[to] = 0;
    to + 1
}

// The whole table: the agent's string, then the records' in order. Ranges and the pointer have none.
pub fn table(buf: &[u8], out: &mut [u8], to: usize) -> usize
    requires accepts { Accepts buf.now }
    requires buf_in_bounds { to + length (closed (agent_of (context_of buf.now)) ++ strings (between (context_of buf.now).attributes)) ≤ length out.old }
    ensures { (out.new, result) ≡ bytes_put (out.old, to) (closed (agent_of (context_of buf.now)) ++ strings (between (context_of buf.now).attributes)) }
{
    let name = ultra_layout::head::WIDTH + platform::NAME;
    let files = text(buf, name, platform::NAME_WIDTH, out, to);
    let line = attributes::of_type(buf, types::MODULE, out, files);
    attributes::of_type(buf, types::COMMAND_LINE, out, line)
}
