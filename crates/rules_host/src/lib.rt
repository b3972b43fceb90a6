// What hosts hold and are told. The rules themselves stand in specs/.
#![tactic(auto)]

ghost use Rattle.std.specs.Prelude.{◌≡◌};
ghost use Rattle.rules_host.specs.Laid.{laid};

// Puts values at the front of others, as many as fit.
pub fn lay<T: Copy>(from: &[T], to: &mut [T])
    ensures { to.new ≡ laid from.now to.old }
{
    let n = from.len().min(to.len());
    to[..n].copy_from_slice(&from[..n])
}
