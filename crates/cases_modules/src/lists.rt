// Lists of modules, in an array of 16.
use cases_shared::given;
use ultra_format::ModuleRecord;

pub fn good() -> [ModuleRecord; 16] {
    let module = given::module();
    [module; 16]
}

// With another module at an index.
fn with(index: usize, module: ModuleRecord) -> [ModuleRecord; 16] {
    let mut modules = good();
    if index < 16 {
        modules[index] = module;
    }
    modules
}

// 13
pub fn untyped(index: usize) -> [ModuleRecord; 16] {
    let mut module = given::module();
    module.kind = 0;
    with(index, module)
}

// 14
pub fn unreadable(index: usize) -> [ModuleRecord; 16] {
    let mut module = given::module();
    module.name = given::field(b"init\x80");
    with(index, module)
}

// 15: its last byte is at 2^64.
pub fn past_the_top(index: usize) -> [ModuleRecord; 16] {
    let mut module = given::module();
    module.address = 18446744073709547520;
    module.size = 4097;
    with(index, module)
}

// The second to the top, and the third of type 0.
pub fn unlike() -> [ModuleRecord; 16] {
    let mut modules = untyped(2);
    modules[1] = at_the_top();
    modules
}

// Its last byte is at 2^64 - 1.
pub fn at_the_top() -> ModuleRecord {
    let mut module = given::module();
    module.address = 18446744073709547520;
    module.size = 4096;
    module
}

pub fn to_the_top(index: usize) -> [ModuleRecord; 16] {
    with(index, at_the_top())
}
