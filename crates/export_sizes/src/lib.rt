// How many records the payload of an accepted context has, and how many bytes its strings take: counted before anything is written, so that
// no list of records is kept. Counts are of 64 bits, so a payload past the room is counted too.
#![tactic(auto)]

mod attributes;

ghost use Rattle.std.specs.Prelude.{◌≡◌, ◌≤◌};
ghost use Rattle.ultra_format.specs.Decoding.{context_of};
ghost use Rattle.ultra_locating.specs.Passing.{Accepts};
ghost use Rattle.export_list.specs.ExportList.{agent_of, entries_of};
ghost use Rattle.export_sizes.specs.Extents.{grown, agent_alone};

use ultra_layout::{platform, types};

// How many records there are, and how many bytes the agent's string and theirs take, closing zeros included.
#[derive(Clone, Copy)]
pub struct Extent {
    pub count: u64,
    pub width: u64,
}

// The agent's string alone. The platform is the first attribute, after the head.
pub fn agent(buf: &[u8]) -> Extent
    requires { Accepts buf.now }
    ensures { (result ≡ agent_alone (agent_of (context_of buf.now))) × (result.width ≤ 33) }
{
    let length = byte_layout::text_length(
        buf,
        ultra_layout::head::WIDTH + platform::NAME,
        platform::NAME_WIDTH,
    );
    Extent {
        count: 0,
        width: length as u64 + 1,
    }
}

// The agent's string and all records, the first and the last among them.
pub fn payload(buf: &[u8]) -> Extent
    requires { Accepts buf.now }
    ensures { (result ≡ grown (agent_alone (agent_of (context_of buf.now))) (entries_of 0 0 (context_of buf.now).attributes)) × (result.count ≤ 4294967296) × (result.width ≤ 4294967296) }
{
    let mut m = agent(buf);
    m = attributes::of_type(buf, types::MEMORY_MAP, m);
    m = attributes::of_type(buf, types::MODULE, m);
    m = attributes::of_type(buf, types::COMMAND_LINE, m);
    m = attributes::of_type(buf, types::PLATFORM, m);
    Extent {
        count: m.count + 2,
        ..m
    }
}
