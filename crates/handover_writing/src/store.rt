// Stores of a head, a record and a string.
ghost use Rattle.std.specs.Prelude.{◌≡◌, ◌+◌, ◌≤◌, ◌<◌, length};
ghost use Rattle.words.specs.Words.{replaced};
ghost use Rattle.byte_layout.specs.Fields.{cells, filled};
ghost use Rattle.byte_layout.specs.Stored.{bytes_at, closed};
ghost use Rattle.handover_format.specs.PayloadLayouts.{record_fields};
ghost use Rattle.handover_format.specs.PayloadDecoding.{pick};
ghost use Rattle.handover_format.specs.WrittenForm.{words_at};
ghost use Rattle.handover_writing.specs.Stores.{head_fields};

use handover_format::Record;

// The head, with the agent's string first in the table.
pub fn head(out: &mut [u8], size: u32, count: u32)
    requires { 16 ≤ length out.old }
    ensures { out.new ≡ replaced out.old 0 16 (filled (cells (head_fields size count))) }
{
    words::store_u32(out, 0, handover_format::MAGIC);
    words::store_u32(out, 4, 0);
    words::store_u32(out, 8, size);
    words::store_u32(out, 12, count);
}

// A record, from `at` on.
pub fn row(out: &mut [u8], at: usize, given: Record)
    requires { at + 32 ≤ length out.old }
    ensures { out.new ≡ replaced out.old at 32 (filled (cells (record_fields given))) }
{
    words::store_u32(out, at, given.tag);
    words::store_u32(out, at + 4, given.flags);
    words::store_u64(out, at + 8, given.start);
    words::store_u64(out, at + 16, given.size);
    words::store_u32(out, at + 24, given.name);
    words::store_u32(out, at + 28, given.meta);
}

// A string, the `size` bytes of the run from `start` on, and its closing zero.
pub fn string(run: &[u8], start: usize, size: usize, out: &mut [u8], at: usize)
    requires { (start + size ≤ length run.now) × (at + size < length out.old) }
    ensures { out.new ≡ replaced out.old at (size + 1) (closed (bytes_at run.now start size)) }
{
    byte_layout::store(&run[start..start + size], out, at);
    out[at + size] = 0;
}

fn choose(named: bool, a: u32, b: u32) -> u32
    ensures { result ≡ pick named a b }
{
    if named { a } else { b }
}

// The record with its strings' offsets set, where it names them.
#[tactic(auto, unfolding(handover_format::specs::WrittenForm::words_at))]
pub fn placed(given: Record, name: u32, meta: u32) -> Record
    ensures { result ≡ words_at given name meta }
{
    Record {
        name: choose(handover_format::names_name(given.tag), name, given.name),
        meta: choose(handover_format::names_meta(given.tag), meta, given.meta),
        ..given
    }
}
