// The numbers of the parts: two to a string, its start in the run and its length.
ghost use Rattle.std.specs.Prelude.{◌≡◌, ◌≤◌, get_or};
ghost use Rattle.handover_arguments.specs.PayloadGiven.{start_given, length_given};

// The number at `k`; one that is not lent is 0.
fn number(parts: &[u64], k: usize) -> u64
    ensures { result ≡ get_or parts.now k 0 }
{
    parts.get(k).copied().unwrap_or(0)
}

// Where the string whose numbers are at `k` starts.
pub fn start_at(parts: &[u64], k: usize) -> u64
    ensures { result ≡ start_given parts.now k }
{
    number(parts, k)
}

// How long it is.
pub fn length_at(parts: &[u64], k: usize) -> u64
    requires { k ≤ 65536 }
    ensures { result ≡ length_given parts.now k }
{
    number(parts, k + 1)
}
