// Buffers of 165s that modules are added to.
use cases_adds::context;
use cases_shared::given;

// A platform, a kernel and a module; used length 528.
pub fn module() -> [u8; 1024] {
    let mut buf = context::kernel();
    let _ = ultra_building::add_module(&mut buf, given::module());
    buf
}

// And a command line; used length 544.
pub fn line() -> [u8; 1024] {
    let mut buf = module();
    let _ = ultra_building::add_command_line(&mut buf, b"quiet");
    buf
}

// A platform of type 0 and a kernel.
pub fn untyped_platform() -> [u8; 1024] {
    let mut buf = context::kernel();
    buf[16] = 0;
    buf
}

pub fn major_0() -> [u8; 1024] {
    let mut buf = context::kernel();
    buf[0] = 0;
    buf
}
