//! Laws of calls. Each is the contract of a function that does nothing.
ghost use Rattle.std.specs.Prelude.{◌≡◌, ℕ, List};
ghost use Rattle.gcs_meaning.specs.declared.reason.Reason.{Reason};
ghost use Rattle.gcs_route.specs.Calls.{IsCall, IsFault, IsSameCall};
ghost use Rattle.gcs_route.specs.declared.call.Call.{Call};
ghost use Rattle.gcs_route.specs.declared.fault.RouteFault.TheVariants.{Refused};

/// What `route` answers is one, but for want of memory: a request has at most one call, up to how its mask is held, or
/// is refused for one reason, and never both.
pub fn law_one_answer()
    ensures call { (method target : List ℕ) (call other : Call)
        → IsCall method target call → IsCall method target other → IsSameCall call other }
    ensures reason { (method target : List ℕ) (reason other : Reason)
        → IsFault method target (Refused reason) → IsFault method target (Refused other) → reason ≡ other }
    ensures either { (method target : List ℕ) (call : Call) (reason : Reason)
        → IsCall method target call → IsFault method target (Refused reason) → ⊥ }
{}
