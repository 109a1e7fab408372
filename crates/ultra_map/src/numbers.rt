// A map given as numbers.
ghost use Rattle.std.specs.Prelude.{◌≡◌, ◌+◌, ◌*◌, ◌%◌, length};
ghost use Rattle.refusals.specs.Answers.{checked};
ghost use Rattle.ultra_format.specs.Contexts.{Body};
ghost use Rattle.ultra_format.specs.Members.{body_check};
ghost use Rattle.ultra_format.specs.Additions.{entries_given};

// The first of 13, 15 and 16 that the entries break.
pub fn check(numbers: &[u64]) -> Result<(), u16>
    requires { length numbers.now % 3 ≡ 0 }
    ensures { result ≡ checked (body_check (8 + 24 * length (entries_given numbers.now)) (Body.memory_map (entries_given numbers.now))) }
{
    crate::one_pass::check(numbers)
}
