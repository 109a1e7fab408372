// Modules in an array by value, lent as a list: the programs share this one.
#![tactic(auto)]

ghost use Rattle.std.specs.Prelude.{◌≡◌, ◌≤◌, take};
ghost use Rattle.ultra_modules.specs.Modules.{modules_added};

use ultra_format::ModuleRecord;
use ultra_modules::ModulesAdded;

// Adds the first `count` of the modules.
pub fn add_first(buf: &mut [u8], modules: [ModuleRecord; 16], count: usize) -> ModulesAdded
    requires { count ≤ 16 }
    ensures { (result, buf.new) ≡ modules_added buf.old (take count modules) }
{
    ultra_modules::add_modules(buf, &modules[0..count])
}
