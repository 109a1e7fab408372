// The kernel: type 2.
ghost use Rattle.std.specs.Prelude.{◌≡◌, ◌+◌, ◌≤◌, length};
ghost use Rattle.text_output.specs.Output.{puts};
ghost use Rattle.key_value_text.specs.Lines.{line_bytes};
ghost use Rattle.key_value_text.specs.LineOutput.{put_lines};
ghost use Rattle.ultra_format.specs.Decoding.{kernel_at};
ghost use Rattle.ultra_layout.specs.Sizes.{kernel_size};
ghost use Rattle.listing_format.specs.Listing.{kernel_line, partition_line, guid_lines, kernel_lines};

use crate::numbers::three;
use ultra_layout::kernel;

// "for type 3 a line `guids`": the two arrays stand side by side.
#[tactic(auto, using(listing_format::proofs::LineLaws::guid_bytes))]
fn guids(out: &mut [u8], to: u32, buf: &[u8], at: usize) -> u32
    requires { at + kernel_size ≤ length buf.now }
    ensures { (out.new, result) ≡ put_lines (out.old, to) (guid_lines (kernel_at buf.now at)) }
{
    if kernel::partition_type(buf, at) == 3 {
        return key_value_text::hex_line(
            out,
            to,
            b"guids",
            buf,
            at + kernel::DISK_GUID,
            2 * kernel::GUID_WIDTH,
        );
    }
    to
}

// "physical, virtual, size"
fn bases(out: &mut [u8], to: u32, buf: &[u8], at: usize) -> u32
    requires { at + kernel_size ≤ length buf.now }
    ensures { (out.new, result) ≡ puts (out.old, to) (line_bytes (kernel_line (kernel_at buf.now at))) }
{
    let physical = kernel::physical_base(buf, at);
    let virtual_base = kernel::virtual_base(buf, at);
    let size = kernel::size(buf, at);
    three(out, to, b"kernel", physical, virtual_base, size)
}

// "type, disk, index"
fn partition(out: &mut [u8], to: u32, buf: &[u8], at: usize) -> u32
    requires { at + kernel_size ≤ length buf.now }
    ensures { (out.new, result) ≡ puts (out.old, to) (line_bytes (partition_line (kernel_at buf.now at))) }
{
    let kind = kernel::partition_type(buf, at);
    let disk = kernel::disk_index(buf, at) as u64;
    let index = kernel::partition_index(buf, at) as u64;
    three(out, to, b"partition", kind, disk, index)
}

#[tactic(auto, using(key_value_text::proofs::LinePuts::lines_append))]
pub fn write(out: &mut [u8], to: u32, buf: &[u8], at: usize) -> u32
    requires { at + kernel_size ≤ length buf.now }
    ensures { (out.new, result) ≡ put_lines (out.old, to) (kernel_lines (kernel_at buf.now at)) }
{
    let after_bases = bases(out, to, buf, at);
    let after_partition = partition(out, after_bases, buf, at);
    let after_guids = guids(out, after_partition, buf, at);
    key_value_text::text_line(
        out,
        after_guids,
        b"path",
        buf,
        at + kernel::PATH,
        kernel::PATH_WIDTH,
    )
}
