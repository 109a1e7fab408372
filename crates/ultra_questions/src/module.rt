// Which module holds an address.
ghost use Rattle.std.specs.Prelude.{◌≡◌, true, ◌+◌, ◌≤◌, length};
ghost use Rattle.words.specs.Words.{u32_at};
ghost use Rattle.ultra_format.specs.Members.{size_suits};
ghost use Rattle.ultra_format.specs.Decoding.{context_of, decoded};
ghost use Rattle.ultra_locating.specs.Passing.{Accepts};
ghost use Rattle.ultra_locating.specs.Searching.{first_in, found_start};
ghost use Rattle.ultra_questions.specs.ModuleQuestion.{holding, module_holding};

use refusals::Refusal;
use ultra_layout::{attribute, head, module, types};

// Whether the attribute in the `size` bytes from `at` on is a module that holds `address`.
fn holds(buf: &[u8], at: usize, size: u32, address: u64) -> bool
    requires size_in_bounds { (at + size ≤ length buf.now) × (8 ≤ size) }
    requires at_value { size_suits size (decoded buf.now at size (u32_at buf.now at)) ≡ true }
    ensures { result ≡ holding address (decoded buf.now at size (u32_at buf.now at)) }
{
    if words::load_u32(buf, at) != types::MODULE {
        return false;
    }
    address_ranges::pages_cover(
        words::load_u64(buf, at + module::ADDRESS),
        words::load_u64(buf, at + module::SIZE),
        address,
    )
}

// Where the first module that holds `address` starts, or 0, which is what `module_holding` answers.
#[tactic(auto, using(crate::proofs::ModuleLaws::searching))]
fn first_holding(buf: &[u8], address: u64) -> u32
    requires { Accepts buf.now }
    ensures { result ≡ found_start (first_in (holding address) (context_of buf.now)) }
{
    let count = words::load_u32(buf, head::COUNT);
    let mut at: u32 = 8;
    for _ in 0..count {
        let size = words::load_u32(buf, at as usize + attribute::SIZE);
        if holds(buf, at as usize, size, address) {
            return at;
        }
        at += size;
    }
    0
}

// The start of the first module that holds `address`, or 0 where none does.
pub fn module_holding(buf: &[u8], address: u64) -> Result<u32, Refusal>
    ensures { result ≡ module_holding buf.now address }
{
    let answer = ultra_reading::used_length(buf, 2);
    let Ok(_) = answer else {
        return answer;
    };
    Ok(first_holding(buf, address))
}
