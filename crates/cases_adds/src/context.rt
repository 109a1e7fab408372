// Contexts in buffers of 165s, by the library's own calls.
ghost use Rattle.std.specs.Prelude.{◌≡◌, replicate};
ghost use Rattle.ultra_building.specs.Building.{begun};

use cases_shared::given;

// Used length 8. The buffer is full of 165s, so that a silent byte that an add leaves as it was shows.
pub fn begun() -> [u8; 1024]
    ensures { result ≡ (begun (replicate 1024 165)).1 }
{
    let mut buf = [165u8; 1024];
    let _ = ultra_building::begin(&mut buf);
    buf
}

// Used length 96.
pub fn platform() -> [u8; 1024] {
    let mut buf = begun();
    let _ = ultra_building::add_platform(&mut buf, given::platform());
    buf
}

// A platform and a kernel; used length 432.
pub fn kernel() -> [u8; 1024] {
    let mut buf = platform();
    let _ = ultra_building::add_kernel(&mut buf, given::kernel());
    buf
}
