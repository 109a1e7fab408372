// The strings of what the attributes of a type become.
ghost use Rattle.std.specs.Prelude.{◌≡◌, [], ◌∷◌, ◌+◌, ◌≤◌, length};
ghost use Rattle.ultra_format.specs.Decoding.{module_at, context_of};
ghost use Rattle.ultra_locating.specs.Passing.{Accepts};
ghost use Rattle.handover_format.specs.WrittenForm.{strings};
ghost use Rattle.export_list.specs.ExportList.{file_entry, gathered};
ghost use Rattle.export_list.specs.AttributeEntries.{AttributeAt, becomes};
ghost use Rattle.export_strings.specs.StringPuts.{bytes_put};

use ultra_layout::{attribute, command_line, head, module, types};

// The name of the module at `at`, and after it the empty meta, which is shared with none.
fn file(buf: &[u8], at: usize, out: &mut [u8], to: usize) -> usize
    requires at_in_bounds { at + 96 ≤ length buf.now }
    requires at_in_bounds_2 { to + length (strings (file_entry (module_at buf.now at) ∷ [])) ≤ length out.old }
    ensures { (out.new, result) ≡ bytes_put (out.old, to) (strings (file_entry (module_at buf.now at) ∷ [])) }
{
    let meta = crate::text(buf, at + module::NAME, module::NAME_WIDTH, out, to);
    crate::empty(out, meta)
}

// Those of the attribute at `at`, where it is of type `kind`.
fn of_attribute(buf: &[u8], at: usize, kind: u32, out: &mut [u8], to: usize) -> usize
    requires attribute_at { AttributeAt buf.now at }
    requires kind_in_bounds { to + length (strings (becomes buf.now at kind)) ≤ length out.old }
    ensures { (out.new, result) ≡ bytes_put (out.old, to) (strings (becomes buf.now at kind)) }
{
    if attribute::kind(buf, at) != kind {
        return to;
    }
    let size = attribute::size(buf, at) as usize;
    match kind {
        types::MODULE => file(buf, at, out, to),
        types::COMMAND_LINE => crate::text(
            buf,
            at + command_line::TEXT,
            size - command_line::TEXT,
            out,
            to,
        ),
        _ => to,
    }
}

// Those of all attributes of type `kind`. The walk is that of export_sizes, which says why no closure is passed to one walk.
pub fn of_type(buf: &[u8], kind: u32, out: &mut [u8], first: usize) -> usize
    requires accepts { Accepts buf.now }
    requires buf_in_bounds { first + length (strings (gathered kind (context_of buf.now).attributes)) ≤ length out.old }
    ensures { (out.new, result) ≡ bytes_put (out.old, first) (strings (gathered kind (context_of buf.now).attributes)) }
{
    let count = head::count(buf);
    let mut to = first;
    let mut at = head::WIDTH;
    for _ in 0..count {
        to = of_attribute(buf, at, kind, out, to);
        at += attribute::size(buf, at) as usize;
    }
    to
}
