// Several modules added in one call: a list of records, each handed to the single add.
#![tactic(auto)]

ghost use Rattle.std.specs.Prelude.{◌≡◌, ◌+◌, ◌<◌, ◌^◌, length};
ghost use Rattle.ultra_modules.specs.Modules.{module_at, modules_added};
ghost use Rattle.ultra_modules.specs.Turns.{none_yet, goes_on, next_added};

use refusals::Refusal;
use ultra_format::ModuleRecord;

// What was answered, and how many modules were added, which is told beside a refusal too.
#[derive(Clone, Copy)]
pub struct ModulesAdded {
    pub answer: Result<u32, Refusal>,
    pub added: usize,
}

// Before the first module: the answer where there is none.
fn none_yet() -> ModulesAdded
    ensures { result ≡ none_yet }
{
    ModulesAdded {
        answer: Ok(0),
        added: 0,
    }
}

// Whether a module is left to add: none was refused, and fewer than `count` are added.
fn goes_on(so_far: ModulesAdded, count: usize) -> bool
    ensures { result ≡ goes_on so_far count }
{
    let answer = so_far.answer;
    match answer {
        Ok(_) => so_far.added < count,
        Err(_) => false,
    }
}

// Adds one more module; it is counted where it is not refused.
fn add_next(buf: &mut [u8], given: ModuleRecord, so_far: ModulesAdded) -> ModulesAdded
    requires { so_far.added + 1 < 2 ^ 64 }
    ensures { (result, buf.new) ≡ next_added buf.old given so_far }
{
    let answer = ultra_building::add_module(&mut *buf, given);
    let one_more = so_far.added + 1;
    match answer {
        Ok(used) => ModulesAdded {
            answer: Ok(used),
            added: one_more,
        },
        Err(refusal) => ModulesAdded {
            answer: Err(refusal),
            added: so_far.added,
        },
    }
}

fn module_at(modules: &[ModuleRecord], index: usize) -> ModuleRecord
    requires { index < length modules.now }
    ensures { result ≡ module_at modules.now index }
{
    modules[index]
}

// Adds the modules in order, up to the first that is refused; those before it stay.
pub fn add_modules(buf: &mut [u8], modules: &[ModuleRecord]) -> ModulesAdded
    ensures { (result, buf.new) ≡ modules_added buf.old modules.now }
{
    let mut so_far = none_yet();
    while goes_on(so_far, modules.len()) {
        so_far = add_next(&mut *buf, module_at(modules, so_far.added), so_far);
    }
    so_far
}
