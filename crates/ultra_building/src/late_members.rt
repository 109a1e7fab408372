// A platform record's members "from higher half base on", which can be absent.
ghost use Rattle.std.specs.Prelude.{◌≡◌};
ghost use Rattle.ultra_format.specs.Contexts.{Body};
ghost use Rattle.ultra_format.specs.Members.{size_suits};
ghost use Rattle.ultra_format.specs.Records.{platform_given};

use ultra_format::PlatformRecord;

// Whether no member is absent: 88 bytes are written, which hold every member.
#[tactic(auto, using(crate::proofs::GivenRecords::is_some_present), unfolding(ultra_format::specs::Members::size_suits))]
pub fn complete(given: PlatformRecord) -> bool
    ensures { result ≡ size_suits 88 (Body.platform (platform_given given)) }
{
    given.higher_half_base.is_some()
        && given.depth.is_some()
        && given.dtb.is_some()
        && given.smbios.is_some()
}
