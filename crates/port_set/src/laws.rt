//! What a call does where every port tells its contents, and what counts of faults tell.

ghost use Rattle.std.specs.Prelude.{◌≡◌, ℕ, ℤ, Bool, IsTrue, List, Option, Result, IfOk, is_err};
ghost use Rattle.mpy_io.specs.mpy_base.World.{PortState};
ghost use Rattle.mpy_io.specs.Ports.{PortView, IsFailing, first_pending, after_put, after_get, Puts, Gets};
ghost use Rattle.port_set.specs.Calls.{CallsOne, CallsTold, Tell};
ghost use Rattle.port_set.specs.Counts.{AreAccounted, CountsKeep, RoseBeyond, Unfailed};
ghost use Rattle.port_set.specs.declared.fault.PortFault.{PortFault};

/// A put on one of many ports that tell their contents: that port becomes what a put makes of it.
pub fn put_law()
    ensures { (old new : List PortView) (ports : List PortState) (i : ℕ) (n : ℤ) (failed : Bool)
        → Tell old ports
        → CallsOne old new i (λ before after. Puts before after n failed)
        → CallsTold ports new i (λ before after. (after ≡ after_put before n failed) × (IsFailing before → IsTrue failed)) }
{}

/// A get on one of many ports that tell their contents: it answers the first pending answer of that port, which becomes what a get makes
/// of it.
pub fn get_law()
    ensures { (old new : List PortView) (ports : List PortState) (i : ℕ) (result : Result (Option ℤ) PortFault)
        → Tell old ports
        → CallsOne old new i (λ before after. Gets before after result)
        → CallsTold ports new i (λ before after. (after ≡ after_get before (is_err result))
        × (IsFailing before → IsTrue (is_err result)) × IfOk result (λ answer. answer ≡ first_pending before)) }
{}

/// Counts that never fall keep what rose beyond what the ports tell, and where each port's count is accounted for, none did.
pub fn counts_law()
    ensures same { (views : List PortView) → CountsKeep views views }
    ensures on { (first between last : List PortView) → CountsKeep first between → CountsKeep between last → CountsKeep first last }
    ensures within { (number : ℕ) (first before behind last : List PortView)
        → CountsKeep first before → RoseBeyond number before behind → CountsKeep behind last → RoseBeyond number first last }
    ensures unfailed { (old new : List PortView) → Unfailed old new → AreAccounted old new }
    ensures none { (old new : List PortView) → AreAccounted old new → (number : ℕ) → RoseBeyond number old new → ⊥ }
{}
