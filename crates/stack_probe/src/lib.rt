// A call that has no form toward C, as a symbol of an archive of its own: `make test-stack` computes its deepest stack from there. The contract
// says that it is that call, answered as the calls toward C are.
#![tactic(auto)]

ghost use Rattle.std.specs.Prelude.{◌≡◌};
ghost use Rattle.handover_export.specs.Exporting.{exported};
ghost use Rattle.ultra_crossing.specs.Crossing.{crossed};

use ultra_crossing::of_answer;

#[unsafe(no_mangle)]
pub extern "C" fn probe_export(buf: &[u8], load: u64, out: &mut [u8]) -> u64
    ensures { (result, out.new) ≡ crossed (exported buf.now load out.old) }
{
    of_answer(handover_export::export(buf, load, out))
}
