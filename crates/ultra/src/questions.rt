// The four questions.
ghost use Rattle.std.specs.Prelude.{◌≡◌};
ghost use Rattle.ultra_questions.specs.AttributeQuestion.{attribute_start};
ghost use Rattle.ultra_questions.specs.CommandLineQuestion.{command_line_part};
ghost use Rattle.ultra_map_question.specs.MapQuestion.{map_copied_bytes};
ghost use Rattle.ultra_questions.specs.ModuleQuestion.{module_holding};
ghost use Rattle.ultra_crossing.specs.Crossing.{answer_crossed, part_crossed, crossed};

use ultra_crossing::of_answer;

// "An attribute answers its start alone."
#[unsafe(no_mangle)]
pub extern "C" fn ultra_attribute(buf: &[u8], index: u64) -> u64
    ensures { result ≡ answer_crossed (attribute_start buf.now index) }
{
    of_answer(ultra_questions::attribute_start(buf, index))
}

// The map's entries into bytes, "eight to a number".
#[unsafe(no_mangle)]
pub extern "C" fn ultra_copy_map(buf: &[u8], out: &mut [u8]) -> u64
    ensures { (result, out.new) ≡ crossed (map_copied_bytes buf.now out.old) }
{
    of_answer(ultra_questions::copy_map_bytes(buf, out))
}

// The command line's start and length.
#[unsafe(no_mangle)]
pub extern "C" fn ultra_command_line(buf: &[u8]) -> u64
    ensures { result ≡ part_crossed (command_line_part buf.now) }
{
    ultra_crossing::of_part(ultra_questions::command_line_part(buf))
}

// The start of the first module that holds `address`, or 0.
#[unsafe(no_mangle)]
pub extern "C" fn ultra_module_holding(buf: &[u8], address: u64) -> u64
    ensures { result ≡ answer_crossed (module_holding buf.now address) }
{
    of_answer(ultra_questions::module_holding(buf, address))
}
